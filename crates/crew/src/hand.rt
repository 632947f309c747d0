//! What handles the events of a worker, and its loop.
ghost use Rattle.std.specs.Prelude.{◌≡◌, ◌+◌, [], true, false, Some, IfSome, OnOk, OnErr};
ghost use Rattle.notifier_model.specs.declared.saved.Saved.{Saved};
ghost use Rattle.snapshots.specs.Books.{IsBook, book_text};
ghost use Rattle.notifier.specs.Held.{seen_by};
ghost use Rattle.notifier.specs.Standing.{Standing};
ghost use Rattle.notifier.specs.Written.{saved_of};
ghost use Rattle.crew.specs.Loop.{posts_all, HandlesOne, Halted};
ghost use Rattle.queues.specs.Ended.{count_ended};
ghost use Rattle.crew.specs.Recorded.{AreOutsOf};
ghost use Rattle.crew.specs.Worked.{AllFrom, KeepsQueues};

use crate::gate::Gate;
use notifier::{Desk, DeskError, Event, Out};
use notifier_model::homes::TagNumbers;
use notifier_model::row::Row;
use package::Package;
use queues::inbox::{Receiver, Taken};
use queues::outbox::Poster;
use sip_text::NoMemory;
use std::alloc::Global;
use std::sync::Wait;

/// The count and so many more. It waits for good where there is no such number.
pub fn count_up<R: Wait>(rt: &R, count: u64, more: u64) -> u64
    ensures { result ≡ count + more }
{
    if let Some(sum) = count.checked_add(more) {
        return sum;
    }
    for _ in rt.forever() {}
    unreachable!()
}

/// The outs of one event, on their way to the outbox.
#[derive(Drop)]
struct Batch {
    outs: Vec<Out>,
    /// Whether the gate was told of the event. Before that no out of it may be posted: its record waits in front of them.
    is_told: bool,
}

impl Batch {
    /// Tells the gate of the event that made these outs.
    #[tactic(auto, using(crate::proofs::Grown::outs_same))]
    fn tell<R: Wait, G: Gate>(&mut self, rt: &R, gate: &G, worker: u32, event: &Event)
        requires { AreOutsOf event.now self.old.outs.items }
        ensures told { self.new.is_told ≡ true }
        ensures outs { self.new.outs ≡ self.old.outs }
    {
        gate.handled(rt, worker, event, self.outs.as_slice());
        self.is_told = true;
    }

    /// Posts the outs of this worker, whose gate was told of the event, and tells the gate of each.
    fn post<R: Wait, G: Gate>(self, rt: &R, gate: &G, worker: u32, poster: &mut Poster)
        requires told { self.is_told ≡ true }
        ensures { poster.new ≡ posts_all poster.old self.outs.items }
    {
        let Batch { outs, is_told: _ } = self;
        for out in outs {
            poster.post(rt, out);
            gate.posted(worker);
        }
    }
}

/// A worker's desk and its end of the outbox, and what it has counted.
#[derive(Drop)]
pub(crate) struct Hand<P: Package> {
    /// The worker's number.
    pub(crate) worker: u32,
    /// Whether a stop is planned.
    pub(crate) stop: bool,
    pub(crate) desk: Desk<P>,
    pub(crate) poster: Poster,
    /// How many events were handled.
    pub(crate) handled: u64,
    /// How many outs were posted.
    pub(crate) made: u64,
    /// How many bytes the next book has room for before it grows.
    pub(crate) room: usize,
}

/// Whether one of these rows has this local tag. They stand in the order of these serials, which rise.
fn has_row(rows: &[&Row], serials: &[u32], tag: &str) -> bool {
    let Some(
        TagNumbers {
            serial: Some(serial),
            ..
        },
    ) = TagNumbers::read(tag)
    else {
        return false;
    };
    let Ok(place) = serials.binary_search(&serial) else {
        return false;
    };
    match rows.get(place) {
        Some(row) => row.sub.usage().local_tag.is(tag),
        None => false,
    }
}

/// Those of these local tags that no row of the desk has.
fn missing<P: Package>(
    alloc: Global,
    desk: &Desk<P>,
    tags: Vec<String>,
) -> Result<Vec<String>, NoMemory> {
    let rows = desk.rows(alloc)?;
    let serials: Vec<u32> = rows.iter().map(|row| row.serial).collect(alloc)?;
    let mut gone = Vec::new(alloc);
    for tag in tags {
        if !has_row(rows.as_slice(), serials.as_slice(), tag.as_str()) {
            gone.push(tag)?;
        }
    }
    Ok(gone)
}

/// An empty book with room for so many bytes, where memory has it.
fn empty_book(alloc: Global, room: usize) -> Vec<u8>
    ensures { result.items ≡ [] }
{
    match Vec::with_capacity(alloc, room) {
        Ok(book) => book,
        Err(_) => Vec::new(alloc),
    }
}

/// The book of a desk, written where there is room for so many bytes. None: the desk is spent, or memory ran out.
fn written_book<P: Package>(alloc: Global, desk: &Desk<P>, room: usize) -> Option<Vec<u8>>
    ensures desk { IfSome result (λ written. (s : Standing) → seen_by P.seen desk.now ≡ Some s → written.items ≡ book_text (saved_of s.book)) }
    ensures book { IfSome result (λ written. (saved : Saved) × IsBook written.items saved) }
{
    let mut written = empty_book(alloc, room);
    match desk.save(alloc, &mut written) {
        Ok(()) => Some(written),
        Err(_) => None,
    }
}

impl<P: Package> Hand<P> {
    /// Passes the gate, handles one event and tells the gate of it, posts its outs, counts it and them, tells which subscriptions are gone
    /// of those of which the gate asks, and writes the book where the gate wants it.
    pub(crate) fn handle<R: Wait, G: Gate>(
        &mut self,
        rt: &R,
        alloc: Global,
        gate: &G,
        event: Event,
    ) -> Result<(), DeskError>
        ensures same { (self.new.poster.outbox ≡ self.old.poster.outbox)
            × (self.new.poster.number ≡ self.old.poster.number) }
        ensures stop { self.new.stop ≡ self.old.stop }
        ensures ok { OnOk result ((s : Standing) → seen_by P.seen self.old.desk ≡ Some s
            → HandlesOne s event (seen_by P.seen self.new.desk) self.old.poster self.new.poster self.old.made self.new.made) }
        ensures counted { OnOk result (self.new.handled ≡ self.old.handled + 1) }
        ensures err { OnErr result ((self.new.poster ≡ self.old.poster)
            × (self.new.handled ≡ self.old.handled) × (self.new.made ≡ self.old.made)) }
    {
        gate.pass(self.worker, self.handled);
        let outs = self.desk.handle(alloc, &event)?;
        self.made = count_up(rt, self.made, outs.len() as u64);
        self.handled = count_up(rt, self.handled, 1);
        let mut batch = Batch {
            outs,
            is_told: false,
        };
        batch.tell(rt, gate, self.worker, &event);
        batch.post(rt, gate, self.worker, &mut self.poster);
        self.tell_gone(rt, alloc, gate);
        self.room = self.write_book(rt, alloc, gate);
        Ok(())
    }

    /// Tells which subscriptions the desk has no more, of those of which the gate asks. Where memory runs out it tells nothing: the desk
    /// isn't spent by that.
    fn tell_gone<R: Wait, G: Gate>(&self, rt: &R, alloc: Global, gate: &G) {
        let Some(tags) = gate.asked(rt, self.worker) else {
            return;
        };
        if let Ok(gone) = missing(alloc, &self.desk, tags) {
            gate.gone(rt, self.worker, gone);
        }
    }

    /// Hands the book over where the gate wants it. A spent desk has none, and where memory runs out none is handed over. Says how
    /// much room the next book is to have: an eighth more than the last one took.
    pub(crate) fn write_book<R: Wait, G: Gate>(&self, rt: &R, alloc: Global, gate: &G) -> usize {
        if self.desk.is_spent() || !gate.wants_book(self.worker) {
            return self.room;
        }
        let Some(written) = written_book(alloc, &self.desk, self.room) else {
            return self.room;
        };
        let length = written.len();
        gate.book(rt, self.worker, written);
        length.saturating_add(length / 8)
    }
}

/// Why a worker handles no more.
#[derive(Clone, Copy)]
pub(crate) enum Stop {
    /// Each port has ended.
    Finished,
    /// An allocation failed.
    Full,
    /// All ports went away.
    Deserted,
}

/// Where a worker came to a halt.
#[derive(Clone, Copy)]
pub(crate) struct Halt {
    pub(crate) stop: Stop,
    /// How many ports haven't ended.
    pub(crate) left: u32,
}

/// Handles the events of an inbox in their order.
pub(crate) fn handle_all<R: Wait, P: Package, G: Gate>(
    rt: &R,
    alloc: Global,
    gate: &G,
    hand: &mut Hand<P>,
    receiver: &mut Receiver,
) -> Halt
    requires taken { receiver.old.taken ≡ [] }
    requires posted { hand.old.poster.posted ≡ [] }
    requires counts { (hand.old.handled ≡ 0) × (hand.old.made ≡ 0) }
    ensures same { KeepsQueues receiver.old receiver.new hand.old.poster hand.new.poster }
    ensures among { AllFrom receiver.old.ports receiver.new.taken }
    ensures left { result.left + count_ended receiver.old.ports receiver.new.taken ≡ receiver.old.ports }
    ensures stop { hand.new.stop ≡ hand.old.stop }
    ensures halted { (stands : Standing) → seen_by P.seen hand.old.desk ≡ Some stands
        → Halted hand.old.poster.number receiver.old.ports stands receiver.new.taken
        (seen_by P.seen hand.new.desk) hand.new.poster.posted hand.new.handled hand.new.made result.stop }
{
    let mut left = receiver.ports();
    for _ in rt.forever() {
        if left == 0 {
            return Halt {
                stop: Stop::Finished,
                left,
            };
        }
        let Ok(taken) = receiver.take(rt) else {
            return Halt {
                stop: Stop::Deserted,
                left,
            };
        };
        match taken {
            Taken::Ended(_) => left -= 1,
            Taken::Event(event) => {
                let Ok(()) = hand.handle(rt, alloc, gate, event) else {
                    return Halt {
                        stop: Stop::Full,
                        left,
                    };
                };
            }
        }
    }
    unreachable!()
}
