//! The outbox: a queue of what many workers give out, to one taker.
//!
//! [`make`] gives a [`Poster`] for each worker and the [`Taker`]. Each worker's outs arrive in the order in which it
//! posted them; nothing is said of the order between workers. A worker that is done puts its end mark
//! ([`Poster::finish`]) and leaves a [`PosterDone`]; once the threads are joined, [`Taker::settle`] compares what was
//! got with what that worker had posted. Contracts see an end as its seat (`specs/OutboxSeats`): its outbox, its number, and
//! the items that it has posted, or got, so far.
//!
//! It is a queue of `crossbeam_queue` under the rule of `specs/Rule`, which every step of every thread keeps. What it
//! isn't: it sends nothing to anyone, and no clause says that a post finds room, or that an item is ever taken. Begin with
//! [`make`], then `specs/OutboxSeats`.
ghost use Rattle.std.specs.Prelude.{◌≡◌, ◌<◌, ◌∷◌, [], ◌++◌, true, false, MatchOption, IfOk, IfSome, IfNone};
ghost use Rattle.crossbeam_queue.specs.Passes.{view, IsPassOf, IsSamePass};
ghost use Rattle.queues.specs.Items.{TookInOrder, items_of, has_end};
ghost use Rattle.queues.specs.Values.{value_item, end_item};
ghost use Rattle.queues.specs.Rule.{sender_view, TakesItem, RestIsHeld};
ghost use Rattle.queues.specs.OutboxSeats.{with_posted, new_posters, new_taker};
ghost use Rattle.queues.specs.OutboxTook.{Took, posted_item};

use crate::items::{Entry, Item};
use crate::rule::{InOrder, Roles};
use crate::steps::{Compares, Sends, Takes};
use crate::views::View;
use crossbeam_queue::{Pass, RuledArrayQueue};
use notifier_model::Out;
use sip_text::NoMemory;
use std::alloc::Global;
use std::marker::Model;
use std::sync::{Arc, Wait};
use std::thread;

type Queue = RuledArrayQueue<Item<Out>, View<Out>, InOrder, Global>;

type Seat = Pass<Item<Out>, View<Out>>;

/// What the taker took.
#[derive(Debug, Drop)]
pub enum Posted {
    /// An out, with the number of the worker that posted it.
    Out(u32, Out),
    /// The end mark of the worker with this number.
    Ended(u32),
}

/// A worker's end, which has not put its end mark.
pub struct Poster {
    number: u32,
    queue: Arc<Queue, Global>,
    seat: Seat,
}

/// By hand, so that all that lets go of one calls this one function, and none proves the ways through each field.
impl Drop for Poster {
    fn drop(self) {
        let Poster {
            number: _,
            queue: _,
            seat: _,
        } = self;
    }
}

impl Model for Poster {
    ghost use Rattle.std.specs.Prelude.{◌≡◌, false};
    ghost use Rattle.std.specs.Arc.{arc_value};
    ghost use Rattle.crossbeam_queue.specs.Passes.{view as known, IsPassOf};
    ghost use Rattle.queues.specs.Items.{has_end};
    ghost use Rattle.queues.specs.Rule.{sender_view};
    ghost use Rattle.queues.specs.OutboxSeats.{PosterSeat, outbox_of};

    ghost Value = { PosterSeat };

    ghost view = { λ s. record { outbox = outbox_of (arc_value s.queue); number = s.number; posted = (known s.seat).sent } };

    ghost invariant = { λ s. IsPassOf (arc_value s.queue) s.seat
        × (known s.seat ≡ sender_view s.number (known s.seat).sent)
        × (has_end (known s.seat).sent ≡ false) };
}

/// What is left of a worker's end that has put its end mark: the queue and the worker's seat.
#[derive(Drop)]
pub struct PosterDone {
    number: u32,
    queue: Arc<Queue, Global>,
    seat: Seat,
}

impl Model for PosterDone {
    ghost use Rattle.std.specs.Prelude.{◌≡◌};
    ghost use Rattle.std.specs.Arc.{arc_value};
    ghost use Rattle.crossbeam_queue.specs.Passes.{view as known, IsPassOf};
    ghost use Rattle.queues.specs.Rule.{sender_view};
    ghost use Rattle.queues.specs.OutboxSeats.{PosterSeat, outbox_of};

    ghost Value = { PosterSeat };

    ghost view = { λ s. record { outbox = outbox_of (arc_value s.queue); number = s.number; posted = (known s.seat).sent } };

    ghost invariant = { λ s. IsPassOf (arc_value s.queue) s.seat × (known s.seat ≡ sender_view s.number (known s.seat).sent) };
}

/// The taker's end.
pub struct Taker {
    workers: u32,
    queue: Arc<Queue, Global>,
    seat: Seat,
}

/// By hand, as a [`Poster`]'s.
impl Drop for Taker {
    fn drop(self) {
        let Taker {
            workers: _,
            queue: _,
            seat: _,
        } = self;
    }
}

impl Model for Taker {
    ghost use Rattle.std.specs.Prelude.{◌≡◌, true};
    ghost use Rattle.std.specs.Arc.{arc_value};
    ghost use Rattle.crossbeam_queue.specs.Passes.{view as known, IsPassOf};
    ghost use Rattle.queues.specs.OutboxSeats.{TakerSeat, outbox_of};

    ghost Value = { TakerSeat };

    ghost view = { λ r. record { outbox = outbox_of (arc_value r.queue); workers = r.workers; got = (known r.seat).taken } };

    ghost invariant = { λ r. IsPassOf (arc_value r.queue) r.seat
        × ((known r.seat).is_receiver ≡ true)
        × ((known r.seat).senders ≡ r.workers) };
}

/// An outbox of this many workers, numbered from 0, which holds `capacity` items at most. Nothing was posted.
pub fn make(alloc: Global, capacity: u32, workers: u32) -> Result<(Vec<Poster>, Taker), NoMemory>
    requires { 0 < capacity }
    ensures new { IfOk result
        (λ ends. (ends.0.items ≡ new_posters ends.1.outbox workers) × (ends.1 ≡ new_taker ends.1.outbox workers)) }
    ensures holds { IfOk result (λ ends. ends.1.outbox.capacity ≡ capacity) }
{
    let (queue, mut seat) = Queue::ruled(alloc, capacity as usize)?;
    let Ok(queue) = Arc::new(alloc, queue) else {
        return Err(NoMemory);
    };
    let mut posters = Vec::new(alloc);
    for number in 0..workers {
        let theirs = Arc::try_clone(&queue)?;
        let worker = queue.another::<Roles>(&mut seat);
        let poster = Poster {
            number,
            queue: theirs,
            seat: worker,
        };
        posters.push(poster)?;
    }
    Ok((
        posters,
        Taker {
            workers,
            queue,
            seat,
        },
    ))
}

// Pushes an item, and tries until there is room.
fn push<R: Wait>(rt: &R, queue: &Queue, seat: &mut Seat, mut item: Item<Out>)
    requires queue { IsPassOf queue.now seat.old }
    requires unended { ((view seat.old).is_sender ≡ true) × (has_end (view seat.old).sent ≡ false) }
    requires ours { item.from ≡ (view seat.old).number }
    ensures queue { IsSamePass seat.old seat.new }
    ensures sent { view seat.new ≡ sender_view item.from ((view seat.old).sent ++ item ∷ []) }
{
    for _ in rt.forever() {
        match queue.push_as::<Sends, R>(rt, seat, item) {
            Ok(()) => return,
            Err(back) => item = back,
        }
        thread::yield_now();
    }
    unreachable!()
}

impl Poster {
    /// Posts an out, and tries until there is room.
    pub fn post<R: Wait>(&mut self, rt: &R, out: Out)
        ensures { self.new ≡ with_posted self.old (value_item self.old.number out) }
    {
        let item = Item {
            from: self.number,
            entry: Entry::Value(out),
        };
        push(rt, &self.queue, &mut self.seat, item);
    }

    /// Puts the worker's end mark, and tries until there is room.
    pub fn finish<R: Wait>(self, rt: &R) -> PosterDone
        ensures { result ≡ with_posted self (end_item self.number) }
    {
        let Poster {
            number,
            queue,
            mut seat,
        } = self;
        let item = Item {
            from: number,
            entry: Entry::End,
        };
        push(rt, &queue, &mut seat, item);
        PosterDone {
            number,
            queue,
            seat,
        }
    }
}

// Pops the next item. None by a step that found the queue empty.
fn pop<R: Wait>(rt: &R, queue: &Queue, seat: &mut Seat) -> Option<Posted>
    requires queue { IsPassOf queue.now seat.old }
    requires takes { (view seat.old).is_receiver ≡ true }
    ensures queue { IsSamePass seat.old seat.new }
    ensures none { IfNone result ((view seat.new ≡ view seat.old) × RestIsHeld (view seat.old) []) }
    ensures some { IfSome result (λ posted. TakesItem (view seat.old) (posted_item posted) (view seat.new)) }
{
    let Item { from, entry } = queue.pop_as::<Takes, R>(rt, seat)?;
    match entry {
        Entry::Value(out) => Some(Posted::Out(from, out)),
        Entry::End => Some(Posted::Ended(from)),
    }
}

impl Taker {
    /// Takes the next item. `None` where the outbox was empty at one moment of the call: then nothing has changed.
    pub fn take<R: Wait>(&mut self, rt: &R) -> Option<Posted>
        ensures { MatchOption result (self.new ≡ self.old) (λ posted. Took self.old posted self.new) }
    {
        pop(rt, &self.queue, &mut self.seat)
    }

    /// Takes over the seat of a worker of this outbox. So it is known how what was got stands to what the worker had
    /// posted: it is the beginning of that, and all of it where the worker's end mark was got.
    pub fn settle(&mut self, done: PosterDone)
        requires { done.outbox ≡ self.old.outbox }
        ensures same { self.new ≡ self.old }
        ensures took { TookInOrder done.number self.old.got done.posted }
    {
        let PosterDone { seat, .. } = done;
        self.queue.absorb::<Roles>(&mut self.seat, seat);
        self.queue.learn_as::<Compares>(&mut self.seat);
    }

    /// Takes over the seat of a worker of this outbox, and then takes the next item. `None` by a step that found the
    /// outbox empty, so that all that the worker had posted was got.
    pub fn take_after<R: Wait>(&mut self, rt: &R, done: PosterDone) -> Option<Posted>
        requires { done.outbox ≡ self.old.outbox }
        ensures none { IfNone result ((self.new ≡ self.old) × (items_of done.number self.old.got ≡ done.posted)) }
        ensures some { IfSome result (λ posted. Took self.old posted self.new) }
    {
        let PosterDone { seat, .. } = done;
        self.queue.absorb::<Roles>(&mut self.seat, seat);
        pop(rt, &self.queue, &mut self.seat)
    }
}
