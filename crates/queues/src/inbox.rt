//! The inbox of a worker: a queue of events, from many ports to one worker.
//!
//! [`make`] gives a [`Sender`] for each port and the worker's [`Receiver`]. Each port's events arrive in the order in
//! which it sent them; nothing is said of the order between ports. A port that is done puts its end mark
//! ([`Sender::finish`]) and keeps a [`Sent`]; once the threads are joined, [`Receiver::settle`] compares what was taken
//! with what that port had sent. Contracts see an end as its seat (`specs/InboxSeats`): its inbox, its number, and the
//! items that it has sent, or taken, so far.
//!
//! It is a channel of `crossbeam_channel` under the rule of `specs/Rule`, which every step of every thread keeps. What
//! it isn't: it handles no event, and no clause says that an item arrives, or that a call that waits returns. Begin
//! with [`make`], then `specs/InboxSeats`.
ghost use Rattle.std.specs.Prelude.{◌≡◌, ◌<◌, IfOk};
ghost use Rattle.queues.specs.InboxSeats.{new_senders, new_receiver};

use crate::many_to_one;
pub use crate::many_to_one::Left;
use notifier_model::Event;
use sip_text::NoMemory;
use std::alloc::Global;

/// A port's end, which has not put its end mark.
pub type Sender = many_to_one::Sender<Event>;

/// What is left of a port's end that is done: the channel's end and the port's seat.
pub type Sent = many_to_one::Sent<Event>;

/// The worker's end.
pub type Receiver = many_to_one::Receiver<Event>;

/// The receiver is gone. It holds the event that was not sent.
pub type Gone = many_to_one::Gone<Event>;

/// What the worker took.
pub type Taken = many_to_one::Taken<Event>;

/// An inbox of this many ports, numbered from 0, which holds `capacity` items at most. Nothing was sent.
pub fn make(alloc: Global, capacity: u32, ports: u32) -> Result<(Vec<Sender>, Receiver), NoMemory>
    requires { 0 < capacity }
    ensures new { IfOk result
        (λ ends. (ends.0.items ≡ new_senders ends.1.inbox ports) × (ends.1 ≡ new_receiver ends.1.inbox ports)) }
    ensures holds { IfOk result (λ ends. ends.1.inbox.capacity ≡ capacity) }
{
    many_to_one::make::<Event>(alloc, capacity, ports)
}
