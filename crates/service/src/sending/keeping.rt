//! What is kept of an out that was sent: its row, and its transaction where it is a NOTIFY.
ghost use Rattle.std.specs.Prelude.{◌≡◌, ◌<◌, ◌^◌, List, [], OnOk, OnErr};
ghost use Rattle.first_contact.specs.Steps.{given_up};
ghost use Rattle.first_contact.specs.Tables.{IsStepped, at};
ghost use Rattle.service.specs.Watched.{IsRetargeted, IsTold, IsSeen, has_contact};
ghost use Rattle.transactions.specs.Machine.{State};
ghost use Rattle.watchers.specs.Rows.{Row};
ghost use Rattle.service.specs.Keeping.{AreKept};
ghost use Rattle.service.specs.Sending.{Act, kept_after};
ghost use Rattle.service.specs.Releasing.{Fewer, waits};

use crate::fates::{Put, tell_fate};
use crate::owners::FIRST;
use crate::sending::Waiting;
use crate::shared::{Counter, Shared};
use crate::users::Users;
use first_contact::Contacts;
use notifier_model::{NotifyOut, Out};
use sip_text::NoMemory;
use std::sync::Wait;
use watchers::{Known, NoRow, Watchers};

/// How many outs are kept as soon as no further one is posted. Behind more the thread waits a little: the worker may not be through yet.
const FEW: usize = 4;

/// The name of the user who made the dialog with this tag, where its row is still to begin and that is known: else empty.
fn new_user<'a, R: Wait>(
    rt: &R,
    users: &'a Users,
    watchers: &Watchers,
    tag: &str,
    shared: &Shared,
) -> &'a str {
    if users.is_empty() || watchers.find(tag).is_some() {
        return "";
    }
    match shared.owner(rt, tag) {
        Some(number) => users.name(number),
        None => "",
    }
}

/// The user with this name, if it isn't empty, for as long as the Contact beside it is known.
fn named<'a>(name: &'a str, _contact: &'a str) -> Option<&'a str> {
    if name.is_empty() { None } else { Some(name) }
}

/// Whether the row with this tag has this Contact.
fn has_contact(watchers: &Watchers, tag: &str, contact: &str) -> bool
    ensures { result ≡ has_contact tag.now contact.now watchers.now.rows }
{
    match watchers.find(tag) {
        Some(row) => row.contact.is(contact),
        None => false,
    }
}

/// The row with this tag has this Contact from now on. Without memory for it, it keeps the one that it had.
#[tactic(auto, using(crate::proofs::Rowing::had_contact, crate::proofs::Rowing::took_contact))]
fn retarget_row(watchers: &mut Watchers, tag: &str, contact: &str) -> Result<(), NoMemory>
    ensures retargeted { OnOk result (IsRetargeted tag.now contact.now watchers.old.rows watchers.new.rows) }
    ensures unchanged { OnErr result (watchers.new.rows ≡ watchers.old.rows) }
{
    // Most often it has: so no memory is taken.
    if has_contact(watchers, tag, contact) {
        return Ok(());
    }
    watchers.retarget(tag, contact)?;
    Ok(())
}

/// What waited for the answer to this NOTIFY, which nobody waits for any more, is dropped.
#[tactic(auto, using(crate::proofs::Releasing::given_up_fewer))]
pub(crate) fn drop_held(contacts: &mut Contacts, tag: &str, number: u32, shared: &Shared)
    ensures given_up { IsStepped contacts.old contacts.new tag.now (given_up number (at contacts.old tag.now)) }
    ensures fewer { Fewer (waits contacts.old) (waits contacts.new) }
{
    let lost = contacts.give_up(tag, number);
    shared.count_held_dropped(lost);
}

impl Waiting {
    /// Whose subscription an out tells, if that has a row and is counted.
    fn told_source(&self, out: &Out) -> Option<u32> {
        match out {
            Out::Notify { tag, .. } if self.counts_sources => self.watchers.source(tag.as_str()),
            _ => None,
        }
    }

    /// Tells how many subscriptions a source has, for those who ask for one more.
    pub(crate) fn tell_source<R: Wait>(&self, rt: &R, shared: &Shared, source: Option<u32>) {
        let Some(source) = source else {
            return;
        };
        if self.counts_sources {
            shared.set_live_from(rt, source, self.watchers.rows_from(source));
        }
    }

    /// Notes in its row what an out tells of its subscription. Without memory no row begins, and a row keeps the Contact that it had.
    #[tactic(auto, using(crate::proofs::Rowing::seen_last, crate::proofs::Rowing::seen_retargeted, crate::proofs::Rowing::seen_renewed, crate::proofs::Rowing::seen_refused, crate::proofs::Rowing::told_last, crate::proofs::Rowing::told_full, crate::proofs::Rowing::told_first, crate::proofs::Rowing::told_retargeted))]
    fn watch<R: Wait>(
        &mut self,
        rt: &R,
        now: u64,
        out: &Out,
        shared: &Shared,
    ) -> Result<(), NoMemory>
        requires in_range { now < 2 ^ 63 }
        ensures told { OnOk result (IsTold self.old.watchers.limit now out.now self.old.watchers.rows self.new.watchers.rows) }
        ensures seen { IsSeen now out.now self.old.watchers.rows self.new.watchers.rows }
        ensures transactions { self.new.transactions ≡ self.old.transactions }
        ensures contacts { self.new.contacts ≡ self.old.contacts }
        ensures burst { self.new.burst ≡ self.old.burst }
    {
        let Out::Notify {
            to,
            number,
            terminated,
            tag,
            note,
            ..
        } = out
        else {
            return Ok(());
        };
        if *terminated {
            self.watchers.end(tag.as_str());
            return Ok(());
        }
        let tag = tag.as_str();
        let contact = note.target.as_str();
        let name = new_user(rt, &self.users, &self.watchers, tag, shared);
        let user = named(name, contact);
        let known = Known {
            watcher: note.watcher.as_str(),
            contact,
            call_id: note.call_id.as_str(),
            user,
            resource: note.resource.as_str(),
            seconds: note.left.unwrap_or(0),
        };
        match self.watchers.renew(now, tag, *number, *to, known) {
            Ok(()) => {}
            // It stays without a row.
            Err(NoRow::Full) => return Ok(()),
            Err(NoRow::NoMemory) => return Err(NoMemory),
        }
        if *number == FIRST {
            // The row that begins with it has its Contact.
            return Ok(());
        }
        retarget_row(&mut self.watchers, tag, contact)?;
        Ok(())
    }

    /// A NOTIFY without room to be kept isn't sent again, so nobody is told that it stays unanswered. What waits behind the last one of its
    /// dialog is dropped then.
    #[tactic(auto, using(crate::proofs::Releasing::fewer_same))]
    fn doubt_where_full(&mut self, now: u64, tag: &str, number: u32, is_last: bool, shared: &Shared)
        ensures transactions { self.new.transactions ≡ self.old.transactions }
        ensures watchers { self.new.watchers ≡ self.old.watchers }
        ensures burst { self.new.burst ≡ self.old.burst }
        ensures fewer { Fewer (waits self.old.contacts) (waits self.new.contacts) }
    {
        if self.transactions.has_room(tag, number) {
            return;
        }
        self.doubts.add(tag, number, now);
        if is_last {
            drop_held(&mut self.contacts, tag, number, shared);
        }
    }

    /// Notes what an out tells of its subscription. A NOTIFY is kept from this moment on, any other out is dropped. An error where memory is
    /// wanting for the row: the NOTIFY is kept all the same.
    pub(crate) fn take_up<R: Wait>(
        &mut self,
        rt: &R,
        now: u64,
        out: Out,
        shared: &Shared,
    ) -> Result<(), NoMemory>
        requires in_range { now < 2 ^ 63 }
        ensures told { OnOk result (IsTold self.old.watchers.limit now out self.old.watchers.rows self.new.watchers.rows) }
        ensures kept { self.new.transactions ≡ kept_after now out self.old.transactions }
        ensures seen { IsSeen now out self.old.watchers.rows self.new.watchers.rows }
        ensures burst { self.new.burst ≡ self.old.burst }
        ensures fewer { Fewer (waits self.old.contacts) (waits self.new.contacts) }
    {
        let is_last = matches!(
            out,
            Out::Notify {
                terminated: true,
                ..
            }
        );
        let before = self.told_source(&out);
        let watched = self.watch(rt, now, &out, shared);
        let after = self.told_source(&out);
        // A row begins, or goes.
        if before != after {
            self.tell_source(rt, shared, before.or(after));
        }
        shared.set_live(self.watchers.len());
        let Some(
            NotifyOut {
                tag,
                number,
                to,
                bytes,
            },
        ) = out.into_notify()
        else {
            return watched;
        };
        self.doubt_where_full(now, tag.as_str(), number, is_last, shared);
        let kept = self.transactions.keep(now, tag, number, to, bytes);
        if kept.is_err() && !self.is_off {
            shared.count(Counter::Once);
        }
        watched
    }

    /// Counts and tells what became of an out. A NOTIFY is kept, any other out is dropped.
    pub(crate) fn keep<R: Wait + Eprint>(&mut self, rt: &R, put: Put, shared: &Shared)
        ensures kept { self.new.transactions ≡ kept_after put.now put.out self.old.transactions }
        ensures seen { IsSeen put.now put.out self.old.watchers.rows self.new.watchers.rows }
        ensures burst { self.new.burst ≡ self.old.burst }
        ensures fewer { Fewer (waits self.old.contacts) (waits self.new.contacts) }
    {
        let Put { now, out, fate } = put;
        tell_fate(rt, shared, &out, fate);
        let _ = self.take_up(rt, now, out, shared);
    }

    /// Keeps the outs of the burst, in their order.
    pub(crate) fn settle<R: Wait + Eprint>(&mut self, rt: &R, shared: &Shared)
        ensures kept { (s : State) (rows : List Row) (acts : List Act) → AreKept s rows acts self.old → AreKept s rows acts self.new }
        ensures none { self.new.burst.items ≡ [] }
        ensures fewer { Fewer (waits self.old.contacts) (waits self.new.contacts) }
    {
        while let Some(put) = self.burst.pop_front() {
            self.keep(rt, put, shared);
        }
    }

    /// The same where they are few.
    #[tactic(auto, using(crate::proofs::Releasing::fewer_same))]
    pub(crate) fn settle_few<R: Wait + Eprint>(&mut self, rt: &R, shared: &Shared)
        ensures kept { (s : State) (rows : List Row) (acts : List Act) → AreKept s rows acts self.old → AreKept s rows acts self.new }
        ensures fewer { Fewer (waits self.old.contacts) (waits self.new.contacts) }
    {
        if self.burst.len() < FEW {
            self.settle(rt, shared);
        }
    }
}
