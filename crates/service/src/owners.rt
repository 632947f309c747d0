//! Who made which dialog, so that no other user goes on with it.
#![tactic(auto, using(std::proofs::lemmas::Map::Text::text_keys))]

ghost use Rattle.std.specs.Prelude.{◌≡◌, ◌++◌, ◌∷◌, ◌<◌, ℕ, List, [], None, Some, true, false, length, option_map, bytes_eq, if◌then◌else◌, slice_get, IfSome, IfOk, OnOk, OnErr};
ghost use Rattle.std.specs.List.{list_any};
ghost use Rattle.std.specs.Option.{option_map_or};
ghost use Rattle.indexmap.specs.IndexMap.{get_by_text};
ghost use Rattle.service.specs.Owners as spec;
ghost use Rattle.service.specs.Owners.{AreNoted, IsFollowed, IsFollowedBy, IsNoted, IsOverAt, IsOwned, IsSwept, ends};

use indexmap::IndexMap;
use notifier_model::{Event, Out};
use sip_read::Request;
use sip_text::{NoMemory, Text};
use std::alloc::Global;
use std::collections::VecDeque;

/// The number of a dialog's first NOTIFY.
pub(crate) const FIRST: u32 = 1;

/// How many dialogs are looked at behind each that begins.
const LOOKS: u32 = 2;

/// For how many seconds longer than it was granted a dialog is known.
const GRACE: u64 = 60;

/// A request outside a dialog that was let through. Its worker hasn't handled it yet.
#[derive(Drop)]
struct Passed {
    method: Text,
    uri: Text,
    call_id: Text,
    /// The user who sent it.
    user: u32,
}

impl Passed {
    fn new(alloc: Global, request: &Request, user: u32) -> Result<Passed, NoMemory>
        ensures { IfOk result (λ passed. passed ≡ spec.passed_by request.now user) }
    {
        Ok(Passed {
            method: request.method.copy(alloc)?,
            uri: request.uri.copy(alloc)?,
            call_id: request.head.call_id.copy(alloc)?,
            user,
        })
    }

    /// Whether it may be this one. Such ones come to one worker, which handles them in the order in which they were let through.
    fn is_like(&self, request: &Request) -> bool
        ensures { result ≡ spec.is_like request.now self.now }
    {
        self.call_id.is(request.head.call_id.as_str())
            && self.uri.is(request.uri.as_str())
            && self.method.is(request.method.as_str())
    }
}

/// Who made a dialog.
#[derive(Clone, Copy)]
pub(crate) struct Owner {
    /// As a number.
    pub(crate) user: u32,
    /// The second until which its subscription lives at most, unless it is refreshed.
    until: u64,
}

/// Who made which dialog, of those that users made who showed a password: dialogs by their local tags. A dialog is known until its last NOTIFY
/// is made. One without a last NOTIFY, whose subscriber didn't answer, is known for as long as it was granted, and dropped behind that.
#[derive(Drop)]
pub(crate) struct Owners {
    alloc: Global,
    dialogs: IndexMap<String, Owner>,
    /// What was let through, in order.
    passed: VecDeque<Passed>,
    /// The second that workers were told last.
    second: Option<u64>,
    /// The place of the dialog that is looked at next.
    place: usize,
}

/// Whether an out is a subscription's last NOTIFY.
fn is_last(out: &Out) -> bool
    ensures { result ≡ spec.is_last out.now }
{
    matches!(
        out,
        Out::Notify {
            terminated: true,
            ..
        }
    )
}

/// Whether a subscription's last NOTIFY is among these outs.
fn has_last(outs: &[Out]) -> bool
    ensures { result ≡ list_any spec.is_last outs.now }
{
    outs.iter().any(|out| is_last(out))
}

/// Whether a worker that handled this event, which made these outs, may have made a dialog, refreshed or ended one.
pub(crate) fn concerns_dialogs(event: &Event, outs: &[Out]) -> bool
    ensures { result ≡ spec.concerns_dialogs event.now outs.now }
{
    match event {
        Event::Request(..) | Event::Tick(_) => true,
        Event::Reply(_) | Event::Mail(_) | Event::Progress(_) | Event::Shut => has_last(outs),
    }
}

/// Notes who made the dialog with this tag.
fn put_owner(
    alloc: Global,
    dialogs: &mut IndexMap<String, Owner>,
    tag: &str,
    owner: Owner,
) -> Result<(), NoMemory>
    ensures made { OnOk result ((t : List ℕ) → get_by_text dialogs.new t ≡ (if bytes_eq tag.now t then Some owner else get_by_text dialogs.old t)) }
    ensures err { OnErr result ((t : List ℕ) → get_by_text dialogs.new t ≡ get_by_text dialogs.old t) }
{
    let tag = String::from_str(alloc, tag)?;
    match dialogs.insert(tag, owner) {
        Ok(_) => Ok(()),
        Err(_) => Err(NoMemory),
    }
}

impl Owners {
    /// No dialog is known.
    pub(crate) fn new(alloc: Global) -> Owners
        ensures none { result.dialogs.entries ≡ [] }
        ensures passed { result.passed.items ≡ [] }
    {
        Owners {
            alloc,
            dialogs: IndexMap::new(alloc),
            passed: VecDeque::new(alloc),
            second: None,
            place: 0,
        }
    }

    /// The user who made the dialog with this tag, as a number, where that is known.
    pub(crate) fn user(&self, tag: &str) -> Option<u32>
        ensures { result ≡ option_map (λ owner. owner.user) (get_by_text self.now.dialogs tag.now) }
    {
        match self.dialogs.get(tag) {
            Some(owner) => Some(owner.user),
            None => None,
        }
    }

    /// A request outside a dialog is let through, which this user sent. Where there is no memory for that, the dialog that it makes is nobody's.
    pub(crate) fn pass(&mut self, request: &Request, user: u32) -> Result<(), NoMemory>
        ensures noted { OnOk result (self.new.passed.items ≡ self.old.passed.items ++ spec.passed_by request.now user ∷ []) }
        ensures unchanged { OnErr result (self.new.passed.items ≡ self.old.passed.items) }
        ensures dialogs { self.new.dialogs ≡ self.old.dialogs }
    {
        let passed = Passed::new(self.alloc, request, user)?;
        match self.passed.push_back(passed) {
            Ok(()) => Ok(()),
            Err(_) => Err(NoMemory),
        }
    }

    /// The place of the first one that may be this request.
    fn first_like(&self, request: &Request) -> Option<usize>
        ensures place { result ≡ spec.first_like request.now self.now.passed.items }
        ensures within { IfSome result (λ k. k < length self.now.passed.items) }
    {
        self.passed
            .iter()
            .position(|passed| passed.is_like(request))
    }

    /// Who sent a request outside a dialog that a worker handled, if that was let through with a password. What was noted of it goes.
    fn take(&mut self, request: &Request) -> Option<u32>
        ensures user { result ≡ spec.request_user request.now self.old.passed.items }
        ensures taken { self.new.passed.items ≡ spec.passed_after request.now self.old.passed.items }
        ensures dialogs { self.new.dialogs ≡ self.old.dialogs }
        ensures second { self.new.second ≡ self.old.second }
    {
        if request.head.to.tag.is_some() {
            return None;
        }
        let place = self.first_like(request)?;
        let passed = self.passed.remove(place)?;
        Some(passed.user)
    }

    /// The second until which a subscription lives that was granted so many.
    fn until(&self, seconds: u32) -> u64
        ensures { result ≡ spec.until self.now.second seconds }
    {
        match self.second {
            Some(second) => second
                .saturating_add(u64::from(seconds))
                .saturating_add(GRACE),
            None => u64::MAX,
        }
    }

    /// Whether the dialog at this place lives no more.
    fn is_over(&self, place: usize) -> bool
        ensures value { result ≡ option_map_or (λ entry. spec.is_over self.now.second entry.1) (slice_get self.now.dialogs.entries place) false }
        ensures over { result ≡ true → IsOverAt self.now.second self.now.dialogs place }
    {
        let Some((_, owner)) = self.dialogs.get_index(place) else {
            return false;
        };
        match self.second {
            Some(second) => owner.until < second,
            None => false,
        }
    }

    /// Looks at the next dialog, and drops it if it lives no more.
    fn look(&mut self)
        ensures swept { (t : List ℕ) → IsSwept self.old.second (get_by_text self.old.dialogs t) (get_by_text self.new.dialogs t) }
        ensures passed { self.new.passed ≡ self.old.passed }
        ensures second { self.new.second ≡ self.old.second }
    {
        let place = if self.place < self.dialogs.len() {
            self.place
        } else {
            0
        };
        if self.is_over(place) {
            let gone = self.dialogs.swap_remove_index(place);
            drop(gone);
            self.place = place;
        } else {
            self.place = place.saturating_add(1);
        }
    }

    /// Looks at some dialogs, and drops those of them that live no more.
    fn sweep(&mut self)
        ensures swept { (t : List ℕ) → IsSwept self.old.second (get_by_text self.old.dialogs t) (get_by_text self.new.dialogs t) }
        ensures passed { self.new.passed ≡ self.old.passed }
        ensures second { self.new.second ≡ self.old.second }
    {
        for _ in 0..LOOKS {
            self.look();
        }
    }

    /// This user made the dialog with this tag, which was granted so many seconds. Where there is no memory for that, it is nobody's.
    fn begin(&mut self, tag: &str, user: u32, seconds: u32) -> Result<(), NoMemory>
        ensures made { OnOk result (get_by_text self.new.dialogs tag.now ≡ Some (record { user = user; until = spec.until self.old.second seconds })) }
        ensures others { (t : List ℕ) → bytes_eq tag.now t ≡ false
            → IsSwept self.old.second (get_by_text self.old.dialogs t) (get_by_text self.new.dialogs t) }
        ensures nobody { OnErr result (IsSwept self.old.second (get_by_text self.old.dialogs tag.now) (get_by_text self.new.dialogs tag.now)) }
        ensures passed { self.new.passed ≡ self.old.passed }
        ensures second { self.new.second ≡ self.old.second }
    {
        self.sweep();
        let until = self.until(seconds);
        put_owner(self.alloc, &mut self.dialogs, tag, Owner { user, until })?;
        Ok(())
    }

    /// The dialog with this tag is granted so many seconds more.
    fn renew(&mut self, tag: &str, seconds: u32)
        ensures renewed { (t : List ℕ) → get_by_text self.new.dialogs t ≡ (if bytes_eq tag.now t
            then option_map (spec.renewed (spec.until self.old.second seconds)) (get_by_text self.old.dialogs t) else get_by_text self.old.dialogs t) }
        ensures passed { self.new.passed ≡ self.old.passed }
        ensures second { self.new.second ≡ self.old.second }
    {
        let until = self.until(seconds);
        if let Some(owner) = self.dialogs.get_mut(tag) {
            owner.until = until;
        }
    }

    /// The dialog with this tag is over.
    fn end(&mut self, tag: &str)
        ensures ended { (t : List ℕ) → get_by_text self.new.dialogs t ≡ (if bytes_eq tag.now t then None else get_by_text self.old.dialogs t) }
        ensures passed { self.new.passed ≡ self.old.passed }
        ensures second { self.new.second ≡ self.old.second }
    {
        let gone = self.dialogs.swap_remove(tag);
        drop(gone);
    }

    /// A worker made this out as it handled a request, which this user sent, if it was outside a dialog and let through with a password.
    fn note(&mut self, out: &Out, user: Option<u32>) -> Result<(), NoMemory>
        ensures noted { OnOk result ((t : List ℕ) → IsNoted t self.old.second user out.now
            (get_by_text self.old.dialogs t) (get_by_text self.new.dialogs t)) }
        ensures owned { (t : List ℕ) → IsOwned t user (out.now ∷ []) (get_by_text self.old.dialogs t) (get_by_text self.new.dialogs t) }
        ensures passed { self.new.passed ≡ self.old.passed }
        ensures second { self.new.second ≡ self.old.second }
    {
        let Out::Notify {
            number,
            terminated: false,
            tag,
            note,
            ..
        } = out
        else {
            return Ok(());
        };
        let seconds = note.left.unwrap_or(0);
        match user {
            Some(user) if *number == FIRST => {
                self.begin(tag.as_str(), user, seconds)?;
                Ok(())
            }
            _ => {
                self.renew(tag.as_str(), seconds);
                Ok(())
            }
        }
    }

    /// The same of all these outs.
    fn note_all(&mut self, outs: &[Out], user: Option<u32>) -> Result<(), NoMemory>
        ensures noted { OnOk result ((t : List ℕ) → AreNoted t self.old.second user outs.now
            (get_by_text self.old.dialogs t) (get_by_text self.new.dialogs t)) }
        ensures owned { (t : List ℕ) → IsOwned t user outs.now (get_by_text self.old.dialogs t) (get_by_text self.new.dialogs t) }
        ensures passed { self.new.passed ≡ self.old.passed }
        ensures second { self.new.second ≡ self.old.second }
    {
        for out in outs {
            self.note(out, user)?;
        }
        Ok(())
    }

    /// The dialog is over whose last NOTIFY this out is, if it is one.
    fn end_last(&mut self, out: &Out)
        ensures ended { (t : List ℕ) → get_by_text self.new.dialogs t ≡ (if ends t out.now then None else get_by_text self.old.dialogs t) }
        ensures passed { self.new.passed ≡ self.old.passed }
        ensures second { self.new.second ≡ self.old.second }
    {
        if let Out::Notify {
            terminated: true,
            tag,
            ..
        } = out
        {
            self.end(tag.as_str());
        }
    }

    /// The dialogs are over whose last NOTIFYs are among these outs.
    fn end_all(&mut self, outs: &[Out])
        ensures ended { (t : List ℕ) → get_by_text self.new.dialogs t ≡ spec.ended t outs.now (get_by_text self.old.dialogs t) }
        ensures passed { self.new.passed ≡ self.old.passed }
        ensures second { self.new.second ≡ self.old.second }
    {
        for out in outs {
            self.end_last(out);
        }
    }

    /// A worker handled this request, which made these outs. Where there is no memory to note a dialog, it is nobody's, nor are those behind it.
    fn follow_request(&mut self, request: &Request, outs: &[Out]) -> Result<(), NoMemory>
        ensures followed { OnOk result ((t : List ℕ) → IsFollowedBy t self.old.second (spec.request_user request.now self.old.passed.items) outs.now
            (get_by_text self.old.dialogs t) (get_by_text self.new.dialogs t)) }
        ensures ended { (t : List ℕ) → list_any (ends t) outs.now ≡ true → get_by_text self.new.dialogs t ≡ None }
        ensures owned { (t : List ℕ) → IsOwned t (spec.request_user request.now self.old.passed.items) outs.now
            (get_by_text self.old.dialogs t) (get_by_text self.new.dialogs t) }
        ensures passed { self.new.passed.items ≡ spec.passed_after request.now self.old.passed.items }
        ensures second { self.new.second ≡ self.old.second }
    {
        let user = self.take(request);
        let noted = self.note_all(outs, user);
        self.end_all(outs);
        noted
    }

    /// A worker handled this event, which made these outs. Where there is no memory to note a dialog, it is nobody's, nor are those behind it.
    pub(crate) fn follow(&mut self, event: &Event, outs: &[Out]) -> Result<(), NoMemory>
        ensures followed { OnOk result ((t : List ℕ) → IsFollowed t self.old.second self.old.passed.items event.now outs.now
            (get_by_text self.old.dialogs t) (get_by_text self.new.dialogs t)) }
        ensures ended { (t : List ℕ) → list_any (ends t) outs.now ≡ true → get_by_text self.new.dialogs t ≡ None }
        // Nobody is handed in but who sent the request, for the dialogs whose first NOTIFYs it made.
        ensures owned { (t : List ℕ) → IsOwned t (spec.event_user event.now self.old.passed.items) outs.now
            (get_by_text self.old.dialogs t) (get_by_text self.new.dialogs t) }
        ensures passed { self.new.passed.items ≡ spec.passed_then event.now self.old.passed.items }
        ensures second { self.new.second ≡ spec.second_then event.now self.old.second }
    {
        match event {
            Event::Request(_, request) => self.follow_request(request, outs),
            Event::Tick(second) => {
                self.second = Some(*second);
                self.end_all(outs);
                Ok(())
            }
            Event::Reply(_) | Event::Mail(_) | Event::Progress(_) | Event::Shut => {
                self.end_all(outs);
                Ok(())
            }
        }
    }
}
