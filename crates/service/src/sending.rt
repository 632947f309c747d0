//! The NOTIFYs that nobody has answered yet (RFC 3261 section 17.1.2): which of them go out now, and which wait. [`keeping`] keeps those that
//! went out, [`repeats`] takes answers and sends NOTIFYs again, and [`watch`] has the time.
ghost use Rattle.std.specs.Prelude.{◌≡◌, ℕ, List, [], ◌∷◌, ◌++◌, true, false, is_some, IfOk, IfSome, IfNone, OnSome};
ghost use Rattle.service.specs.Naps.{is_busy};
ghost use Rattle.transport.specs.Wires.{Grows};
ghost use Rattle.feeds.specs.Emitted.{wire_seen};
ghost use Rattle.first_contact.specs.Steps.{notice_of};
ghost use Rattle.transactions.specs.Machine.{State};
ghost use Rattle.watchers.specs.Rows.{Row};
ghost use Rattle.service.specs.Keeping.{act_of, AreKept, GoesOnBy};
ghost use Rattle.service.specs.Sending.{Act, Held};
ghost use Rattle.service.specs.Releasing.{Fewer, HoldsOn, PassesNone, WaitsBehind, waits};

mod keeping;
mod repeats;
pub(crate) mod watch;

use crate::doubts::{Doubts, NEVER_SENT};
use crate::fates::Put;
use crate::not_taken::Losses;
use crate::sending::repeats::Late;
use crate::sending::watch::{OUTS_AT_ONCE, Watch};
use crate::shared::{Counter, Shared};
use crate::users::Users;
use admission::Admission;
use circular_buffer::HeapCircularBuffer;
use first_contact::{Contacts, Notice, Offered};
use notifier_model::Out;
use sip_text::NoMemory;
use std::alloc::Global;
use std::sync::Wait;
use transactions::Transactions;
use transport::Wire;
use watchers::Watchers;

/// Takes down the tag of a NOTIFY in the place of the one before: none where there is no memory for it.
fn take_down(offered: &mut String, tag: &str) {
    offered.clear();
    let _ = offered.push_str(tag);
}

/// The worker of the NOTIFY with this tag and number, which isn't sent now, may end its subscription before its answer comes. Where there was
/// no memory for the tag nobody asks it.
fn doubt(doubts: &mut Doubts, tag: &str, number: u32) {
    if tag.is_empty() {
        return;
    }
    let now = doubts.moment();
    doubts.add(tag, number, now);
}

/// The NOTIFYs that wait for their answers, and the subscriptions of which they tell.
#[derive(Drop)]
pub(crate) struct Waiting {
    alloc: Global,
    pub(crate) transactions: Transactions,
    /// Which addresses have answered, and the NOTIFYs that wait for that.
    pub(crate) contacts: Contacts,
    /// The tag of the NOTIFY that was offered to them last, as long as there is memory for it.
    offered: String,
    pub(crate) watchers: Watchers,
    /// Who may have made their dialogs.
    users: Users,
    /// The last outs, which are still to be kept.
    pub(crate) burst: HeapCircularBuffer<Put>,
    /// Whether each NOTIFY is sent once, by the operator's word.
    is_off: bool,
    /// Whether it is told how many subscriptions a source has.
    counts_sources: bool,
    /// The subscriptions that their workers may have ended untold.
    doubts: Doubts,
    pub(crate) given_up: Losses,
    pub(crate) refusals: Losses,
}

impl Waiting {
    /// None, with the room of the contacts. Where there is room for none each NOTIFY is sent once. Where this admission lets each source
    /// have so many subscriptions only, it is told how many it has.
    pub(crate) fn new(
        alloc: Global,
        transactions: Transactions,
        watchers: Watchers,
        contacts: Contacts,
        admission: &Admission,
    ) -> Result<Waiting, NoMemory>
        ensures transactions { IfOk result (λ w. w.transactions ≡ transactions) }
        ensures none { IfOk result (λ w. w.burst.items ≡ []) }
        ensures contacts { IfOk result (λ w. w.contacts ≡ contacts) }
    {
        let burst = HeapCircularBuffer::with_capacity(alloc, OUTS_AT_ONCE as usize)?;
        Ok(Waiting {
            alloc,
            transactions,
            watchers,
            users: Users::new(alloc, admission)?,
            burst,
            is_off: contacts.places() == 0,
            contacts,
            offered: String::new(alloc),
            counts_sources: admission.per_source.is_some(),
            doubts: Doubts::new(alloc),
            given_up: Losses::new(),
            refusals: Losses::new(),
        })
    }

    /// How many were sent and wait for their answers at most.
    fn sent(&self) -> usize {
        self.transactions.len().saturating_add(self.burst.len())
    }

    /// How many there are at most, those too that weren't sent yet.
    pub(crate) fn len(&self) -> usize {
        self.sent().saturating_add(self.contacts.waiting())
    }

    /// Whether a NOTIFY with this number that is sent now is kept, so that its answer is told, or its giving up. Where too many of its dialog are
    /// open alone it isn't, but what waits behind it ends with its subscription: so a stranger who has so many open draws no more by it.
    #[tactic(auto, using(crate::proofs::Releasing::fewer_same))]
    fn has_room<R: Wait + Eprint>(&mut self, rt: &R, number: u32, shared: &Shared) -> bool
        ensures kept { (s : State) (rows : List Row) (acts : List Act) → AreKept s rows acts self.old → AreKept s rows acts self.new }
        ensures fewer { Fewer (waits self.old.contacts) (waits self.new.contacts) }
    {
        let room = self.transactions.places(number) as usize;
        if self.sent() < room {
            return true;
        }
        self.settle(rt, shared);
        self.sent() < room
    }

    /// The out, unless it is a NOTIFY: that is left to the next run, which makes it anew of its event in the journal.
    #[tactic(auto, using(crate::proofs::Releasing::fewer_same))]
    fn leave_notify<R: Wait + Eprint>(&mut self, rt: &R, out: Out, shared: &Shared) -> Option<Out>
        ensures itself { IfSome result (λ o. o ≡ out) }
        ensures notify { IfNone result (is_some (notice_of out) ≡ true) }
        ensures through { OnSome result ((s : State) (rows : List Row) (acts : List Act)
            → AreKept s rows acts self.old → AreKept s rows acts self.new) }
        ensures held { IfNone result ((s : State) (rows : List Row) (acts : List Act) (now : ℕ)
            → AreKept s rows acts self.old → AreKept s rows (acts ++ Held now out ∷ []) self.new) }
        ensures fewer { OnSome result (Fewer (waits self.old.contacts) (waits self.new.contacts)) }
        ensures behind { IfNone result (WaitsBehind out (waits self.old.contacts) (waits self.new.contacts)) }
        ensures passes_none { OnSome result (PassesNone out (waits self.new.contacts)) }
    {
        match Notice::new(out) {
            Ok(notice) => {
                drop(notice);
                self.settle(rt, shared);
                None
            }
            Err(out) => Some(out),
        }
    }

    /// Whether an out goes out as it is, and nothing is dropped by that: it is no NOTIFY, or its address has answered one of its dialog, and
    /// none waits for that.
    fn goes_out(&mut self, out: &Out) -> bool
        ensures transactions { self.new.transactions ≡ self.old.transactions }
        ensures watchers { self.new.watchers ≡ self.old.watchers }
        ensures burst { self.new.burst ≡ self.old.burst }
        ensures fewer { Fewer (waits self.old.contacts) (waits self.new.contacts) }
        ensures passes_none { result ≡ true → PassesNone out.now (waits self.new.contacts) }
    {
        let Out::Notify {
            to,
            terminated,
            tag,
            ..
        } = out
        else {
            return true;
        };
        self.contacts.go_on(tag.as_str(), *to, *terminated)
    }

    /// The out, where it goes out now. A NOTIFY to an address that has not answered one of its dialog waits behind the first one, and is
    /// dropped where there is no room for it, or no memory. Where the next run is to begin each NOTIFY is left to that.
    #[tactic(auto, using(crate::proofs::Releasing::fewer_same))]
    pub(crate) fn let_through<R: Wait + Eprint>(
        &mut self,
        rt: &R,
        out: Out,
        shared: &Shared,
    ) -> Option<Out>
        ensures itself { IfSome result (λ o. o ≡ out) }
        ensures notify { IfNone result (is_some (notice_of out) ≡ true) }
        ensures through { OnSome result ((s : State) (rows : List Row) (acts : List Act)
            → AreKept s rows acts self.old → AreKept s rows acts self.new) }
        ensures held { IfNone result ((s : State) (rows : List Row) (acts : List Act) (now : ℕ)
            → AreKept s rows acts self.old → AreKept s rows (acts ++ Held now out ∷ []) self.new) }
        ensures fewer { OnSome result (Fewer (waits self.old.contacts) (waits self.new.contacts)) }
        ensures behind { IfNone result (WaitsBehind out (waits self.old.contacts) (waits self.new.contacts)) }
        ensures passes_none { OnSome result (PassesNone out (waits self.new.contacts)) }
    {
        if shared.is_reloading() {
            return self.leave_notify(rt, out, shared);
        }
        if self.goes_out(&out) {
            return Some(out);
        }
        let Out::Notify { tag, number, .. } = &out else {
            return Some(out);
        };
        let number = *number;
        let may_begin = self.has_room(rt, number, shared);
        take_down(&mut self.offered, tag.as_str());
        let notice = match Notice::new(out) {
            Ok(notice) => notice,
            Err(out) => return Some(out),
        };
        match self.contacts.offer(may_begin, notice) {
            Ok(Offered::Through { notice, lost }) => {
                let Notice { out, .. } = notice;
                if lost == 0 {
                    return Some(out);
                }
                // So many that waited before it never go out.
                shared.count_held_dropped(lost);
                doubt(&mut self.doubts, self.offered.as_str(), NEVER_SENT);
                return Some(out);
            }
            Ok(Offered::Waits) => shared.count(Counter::Held),
            Ok(Offered::Lost) => shared.count_held_dropped(1),
            Err(_) => shared.count_held_dropped(1),
        }
        doubt(&mut self.doubts, self.offered.as_str(), number);
        self.settle(rt, shared);
        None
    }

    /// Whether each NOTIFY is sent once, by the operator's word.
    pub(crate) fn is_off(&self) -> bool
        ensures { result ≡ self.now.is_off }
    {
        self.is_off
    }

    /// An out was put. It is kept behind those that follow it closely.
    #[tactic(auto, using(crate::proofs::Releasing::fewer_same))]
    pub(crate) fn put<R: Wait + Eprint>(&mut self, rt: &R, put: Put, shared: &Shared)
        ensures put { (s : State) (rows : List Row) (acts : List Act) → AreKept s rows acts self.old
            → AreKept s rows (acts ++ act_of put ∷ []) self.new }
        ensures fewer { Fewer (waits self.old.contacts) (waits self.new.contacts) }
    {
        if let Err(put) = self.burst.try_push_back(put) {
            self.settle(rt, shared);
            self.keep(rt, put, shared);
        }
    }

    /// Takes notes of answers, sends what waited for them, and ends what workers told as gone; once no note waits, it asks the workers, and
    /// sends a NOTIFY again that is due, or gives it up. Nothing of that while only what is posted counts. True where more may be done at
    /// once: notes wait, or another NOTIFY may be due and sent again in this moment.
    pub(crate) fn tend<R: Wait + Eprint, W: Wire>(
        &mut self,
        rt: &R,
        wire: &mut W,
        watch: &mut Watch,
        shared: &Shared,
    ) -> bool
        ensures does { (more : List Act) × GoesOnBy more self.old self.new
            (wire_seen W.taken W.failures wire.old) (wire_seen W.taken W.failures wire.new)
            × HoldsOn more (waits self.old.contacts) (waits self.new.contacts) }
        ensures given { Grows (W.given wire.old) (W.given wire.new) [] }
        ensures busy { is_busy watch.old ≡ true → (result ≡ false) × (self.new ≡ self.old) × (watch.new ≡ watch.old) }
        ensures moment { watch.new.moment ≡ watch.old.moment }
    {
        let is_busy = watch.is_busy();
        if is_busy {
            return false;
        }
        watch.outs = 0;
        let was_empty = watch.empty > 0;
        watch.empty = 0;
        self.settle(rt, shared);
        self.doubts.turn(rt, watch.now(), was_empty, shared);
        let taken = self.take_notes(rt, watch.now(), shared);
        let late = Late {
            now: watch.now(),
            through: taken.through,
        };
        self.catch_up(rt, wire, late, shared);
        if taken.has_more {
            return true;
        }
        self.doubts.note_none();
        self.doubts.look(rt, &self.watchers, shared);
        self.given_up.look(rt, shared, watch.now());
        self.refusals.look(rt, shared, watch.now());
        shared.set_live(self.watchers.len());
        shared.window.answer(rt, watch.now(), &self.watchers);
        shared.hold_clock(rt, self.transactions.next_moment());
        if watch.repeats == 0 {
            return false;
        }
        let was_due = self.send_due(rt, wire, watch, shared);
        if was_due {
            watch.repeats -= 1;
        }
        was_due
    }
}
