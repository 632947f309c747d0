//! A desk with the list of its events.
ghost use Rattle.std.specs.Prelude.{◌≡◌, ◌≢◌, ◌↔◌, ◌++◌, ◌∷◌, [], IfOk, OnErr, OnOk, Some, None, Err};
ghost use Rattle.notifier.specs.Held.{seen_by};
ghost use Rattle.notifier.specs.Standing.{Standing, IsHandled};
ghost use Rattle.crew.specs.Recorded.{IsRun};

use notifier::{Desk, DeskError, Event, Out};
use package::Package;
use std::alloc::Global;
use std::marker::Model;
use std::snapshot::Snapshot;

/// A desk with the list of the events that it handled, and the desk as it came, which contracts alone see.
pub struct Replay<P: Package> {
    spent: bool,
    desk: Desk<P>,
    start: Snapshot<Desk<P>>,
    events: Vec<Event>,
}

/// By hand, so that all that drops one calls this one function, and none proves the ways through each field.
impl<P: Package> Drop for Replay<P> {
    fn drop(self) {
        let Replay {
            spent: _,
            desk: _,
            start: _,
            events: _,
        } = self;
    }
}

impl<P: Package> Model for Replay<P> {
    ghost use Rattle.std.specs.Prelude.{◌≡◌, false, None, if◌then◌else◌};
    ghost use Rattle.std.specs.Coded.{codes};
    ghost use Rattle.package.specs.Code.{coded_contents};
    ghost use Rattle.notifier.specs.Held.{seen_by};
    ghost use Rattle.crew.specs.Recorded.{Recorded, IsRun};

    ghost Value = { Recorded };

    ghost coded = { Prim.hlevel (codes, coded_contents) };

    ghost view = { λ r. record {
      start = seen_by P.seen r.start.value;
      events = r.events.items;
      now = if r.spent then None else seen_by P.seen r.desk;
    } };

    ghost invariant = { λ r. r.spent ≡ false → IsRun (seen_by P.seen r.start.value) r.events.items (seen_by P.seen r.desk) };
}

/// Handles one event, and adds it to the list.
fn handle_listed<P: Package>(
    alloc: Global,
    desk: &mut Desk<P>,
    events: &mut Vec<Event>,
    event: Event,
) -> Result<Vec<Out>, DeskError>
    ensures ok { IfOk result (λ outs. (s : Standing) → seen_by P.seen desk.old ≡ Some s
        → IsHandled s event (seen_by P.seen desk.new) outs.items) }
    ensures alive { OnOk result (seen_by P.seen desk.old ≢ None) }
    ensures added { OnOk result (events.new.items ≡ events.old.items ++ event ∷ []) }
    ensures err { OnErr result (events.new.items ≡ events.old.items) }
    ensures spent { result ≡ Err DeskError.Spent ↔ seen_by P.seen desk.old ≡ None }
{
    if desk.is_spent() {
        drop(event);
        return Err(DeskError::Spent);
    }
    if events.try_reserve(1).is_err() {
        drop(event);
        return Err(DeskError::NoMemory);
    }
    match desk.handle(alloc, &event) {
        Ok(outs) => {
            events.push_reserved(event);
            Ok(outs)
        }
        Err(error) => {
            drop(event);
            Err(error)
        }
    }
}

impl<P: Package> Replay<P> {
    /// The replay of this desk, of which no event is listed yet. It takes no memory.
    pub fn new(alloc: Global, desk: Desk<P>) -> Replay<P>
        ensures { result ≡ record { start = seen_by P.seen desk; events = []; now = seen_by P.seen desk } }
    {
        let start = Snapshot::of(&desk);
        Replay {
            spent: false,
            desk,
            start,
            events: Vec::new(alloc),
        }
    }

    /// Handles one event as the desk does, and lists it. The desk had come to where it stood by the listed events. Where memory
    /// ran out, of the desk or of the list, there are no outs: the replay is spent then, and its list is as it was. A spent
    /// replay answers Spent.
    pub fn handle(&mut self, alloc: Global, event: Event) -> Result<Vec<Out>, DeskError>
        ensures start { self.new.start ≡ self.old.start }
        ensures ran { OnOk result (IsRun self.old.start self.old.events self.old.now) }
        ensures ok { IfOk result (λ outs.
            (s : Standing) → self.old.now ≡ Some s → IsHandled s event self.new.now outs.items) }
        ensures added { OnOk result (self.new.events ≡ self.old.events ++ event ∷ []) }
        ensures err { OnErr result ((self.new.events ≡ self.old.events) × (self.new.now ≡ None)) }
        ensures spent { result ≡ Err DeskError.Spent ↔ self.old.now ≡ None }
    {
        if self.spent {
            drop(event);
            return Err(DeskError::Spent);
        }
        self.spent = true;
        match handle_listed(alloc, &mut self.desk, &mut self.events, event) {
            Ok(outs) => {
                self.spent = false;
                Ok(outs)
            }
            Err(error) => Err(error),
        }
    }
}
