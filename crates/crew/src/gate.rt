//! What a worker passes before each event, and what it tells of what it did.
ghost use Rattle.notifier_model.specs.declared.saved.Saved.{Saved};
ghost use Rattle.snapshots.specs.Books.{IsBook};
ghost use Rattle.crew.specs.Recorded.{AreOutsOf};

use notifier_model::{Event, Out};
use std::sync::Wait;

/// Is passed before each event that a worker handles, and told of what was handled and posted, and of a worker that handles no more. It
/// may wait; what it does is no part of any contract. What it is told has its form: outs are those of their event at some desk, and a
/// book can be read again.
///
/// Who keeps a journal of the events has each in hand before an out of it can be sent, and asks now and then for the book that they
/// made: from that a desk goes on (`notifier::Desk::resume`).
pub trait Gate: Send + Sync {
    /// `worker` is the worker's number, and `index` counts its events from 0.
    fn pass(&self, worker: u32, index: u64);

    /// The worker with this number handled this event at its desk, which made these outs; none of them is posted yet. An event at which
    /// memory ran out isn't told.
    fn handled<R: Wait>(&self, rt: &R, worker: u32, event: &Event, outs: &[Out])
        requires { AreOutsOf event.now outs.now }
    {
        let _ = rt;
        let _ = worker;
        let _ = event;
        let _ = outs;
    }

    /// The worker with this number posted an out, or put its end mark: who takes them may be asleep.
    fn posted(&self, worker: u32) {
        let _ = worker;
    }

    /// Whether the worker with this number is to write its book. It is asked behind the outs of each event, and once more, before the
    /// end mark, where the worker ends and its memory didn't run out.
    fn wants_book(&self, worker: u32) -> bool {
        let _ = worker;
        false
    }

    /// The book of the worker with this number after all events that were handled so far, as `notifier::Desk::save` writes it. Where
    /// memory runs out no book comes.
    fn book<R: Wait>(&self, rt: &R, worker: u32, written: Vec<u8>)
        requires { (saved : Saved) × IsBook written.items saved }
    {
        let _ = rt;
        let _ = worker;
        drop(written);
    }

    /// Local tags of subscriptions of which somebody wants to know whether the desk of the worker with this number still has them. It is
    /// asked behind the outs of each event.
    fn asked<R: Wait>(&self, rt: &R, worker: u32) -> Option<Vec<String>> {
        let _ = rt;
        let _ = worker;
        None
    }

    /// Those of them that it has no more: whatever it made of them is posted. So it also tells of those that ended untold (RFC 6665
    /// section 4.2.2). Where memory runs out it isn't told.
    fn gone<R: Wait>(&self, rt: &R, worker: u32, tags: Vec<String>) {
        let _ = rt;
        let _ = worker;
        drop(tags);
    }

    /// The worker with this number ran out of memory: from now on it drops what is sent to it, until each port has ended.
    fn give_up(&self, worker: u32) {
        let _ = worker;
    }
}

/// A gate that does nothing.
#[derive(Drop)]
pub struct Open;

impl Gate for Open {
    fn pass(&self, _worker: u32, _index: u64) {}
}
