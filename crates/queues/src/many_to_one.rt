//! A bounded queue of many ports to one receiver, whatever it carries.
//!
//! [`make`] gives a [`Sender`] for each port and the one [`Receiver`]. What a port sends arrives in the order in which it
//! was sent; nothing is said of the order between ports. A port that is done puts its end mark ([`Sender::finish`]) and
//! keeps a [`Sent`]; once the threads are joined, [`Receiver::settle`] compares what was taken with what that port had
//! sent. Contracts see an end as its seat: its queue, its number, and the items that it has sent, or taken, so far. `inbox`
//! is this queue with events.
//!
//! It is a channel of `crossbeam_channel` under the rule of `specs/Rule`, which every step of every thread keeps. What it
//! isn't: no clause says that an item arrives, or that a call that waits returns. Begin with [`make`], then `specs/EndSeats`.
ghost use Rattle.std.specs.Prelude.{◌≡◌, ◌<◌, IfOk, MatchOption, MatchResult, MatchBool};
ghost use Rattle.queues.specs.Items.{TookInOrder};
ghost use Rattle.queues.specs.Values.{value_item, end_item};
ghost use Rattle.queues.specs.EndSeats.{with_sent, new_senders, new_receiver};
ghost use Rattle.queues.specs.EndTook.{Took};

use crate::items::{Entry, Item};
use crate::rule::{InOrder, Roles};
use crate::steps::{Compares, Sends, Takes};
use crate::views::View;
use crossbeam_channel::{Pass, RuledReceiver, RuledSender, bounded_with};
use sip_text::NoMemory;
use std::alloc::Global;
use std::marker::Model;
use std::sync::Wait;
use std::thread;
use thiserror::Error;

// How often a call tries, and yields, before it sleeps: a thread that sleeps is woken by a system call.
const TRIES: u32 = 8;

/// The receiver is gone. It holds the event that was not sent.
#[derive(Debug, Drop, Error)]
#[error("the receiver is gone")]
pub struct Gone<T> {
    pub event: T,
}

/// Every sender is gone, and all that they sent was taken.
#[derive(Clone, Copy, Debug, PartialEq, Eq, Error)]
#[error("every sender is gone")]
pub struct Left;

/// What the worker took.
#[derive(Debug, Drop)]
pub enum Taken<T> {
    /// An event.
    Event(T),
    /// The end mark of the port with this number.
    Ended(u32),
}

/// A port's end, which has not put its end mark.
pub struct Sender<T: Drop> {
    number: u32,
    end: RuledSender<Item<T>, View<T>, InOrder>,
    seat: Pass<Item<T>, View<T>>,
}

/// By hand, so that all that lets go of one calls this one function, and none proves the ways through each field.
impl<T: Drop> Drop for Sender<T> {
    fn drop(self) {
        let Sender {
            number: _,
            end: _,
            seat: _,
        } = self;
    }
}

impl<T: Drop> Model for Sender<T> {
    ghost use Rattle.std.specs.Prelude.{◌≡◌, false};
    ghost use Rattle.crossbeam_channel.specs.Claims.{view as known, IsSeatAt};
    ghost use Rattle.crossbeam_channel.specs.Ends.{sends_on};
    ghost use Rattle.queues.specs.Items.{has_end};
    ghost use Rattle.queues.specs.Rule.{sender_view};
    ghost use Rattle.queues.specs.EndSeats.{SenderSeat, inbox_of};

    ghost Value = { SenderSeat T };

    ghost view = { λ s. record { inbox = inbox_of (sends_on s.end); number = s.number; sent = (known s.seat).sent } };

    ghost invariant = { λ s. IsSeatAt (sends_on s.end) s.seat
        × (known s.seat ≡ sender_view s.number (known s.seat).sent)
        × (has_end (known s.seat).sent ≡ false) };
}

/// What is left of a port's end that is done: the channel's end and the port's seat.
#[derive(Drop)]
pub struct Sent<T: Drop> {
    number: u32,
    end: RuledSender<Item<T>, View<T>, InOrder>,
    seat: Pass<Item<T>, View<T>>,
}

impl<T: Drop> Model for Sent<T> {
    ghost use Rattle.std.specs.Prelude.{◌≡◌};
    ghost use Rattle.crossbeam_channel.specs.Claims.{view as known, IsSeatAt};
    ghost use Rattle.crossbeam_channel.specs.Ends.{sends_on};
    ghost use Rattle.queues.specs.Rule.{sender_view};
    ghost use Rattle.queues.specs.EndSeats.{SenderSeat, inbox_of};

    ghost Value = { SenderSeat T };

    ghost view = { λ s. record { inbox = inbox_of (sends_on s.end); number = s.number; sent = (known s.seat).sent } };

    ghost invariant = { λ s. IsSeatAt (sends_on s.end) s.seat × (known s.seat ≡ sender_view s.number (known s.seat).sent) };
}

/// The worker's end.
pub struct Receiver<T: Drop> {
    ports: u32,
    end: RuledReceiver<Item<T>, View<T>, InOrder>,
    seat: Pass<Item<T>, View<T>>,
}

/// By hand, as a [`Sender`]'s.
impl<T: Drop> Drop for Receiver<T> {
    fn drop(self) {
        let Receiver {
            ports: _,
            end: _,
            seat: _,
        } = self;
    }
}

impl<T: Drop> Model for Receiver<T> {
    ghost use Rattle.std.specs.Prelude.{◌≡◌, true};
    ghost use Rattle.crossbeam_channel.specs.Claims.{view as known, IsSeatAt};
    ghost use Rattle.crossbeam_channel.specs.Ends.{receives_on};
    ghost use Rattle.queues.specs.EndSeats.{ReceiverSeat, inbox_of};

    ghost Value = { ReceiverSeat T };

    ghost view = { λ r. record { inbox = inbox_of (receives_on r.end); ports = r.ports; taken = (known r.seat).taken } };

    ghost invariant = { λ r. IsSeatAt (receives_on r.end) r.seat
        × ((known r.seat).is_receiver ≡ true)
        × ((known r.seat).senders ≡ r.ports) };
}

/// An inbox of this many ports, numbered from 0, which holds `capacity` items at most. Nothing was sent.
pub fn make<T: Drop>(
    alloc: Global,
    capacity: u32,
    ports: u32,
) -> Result<(Vec<Sender<T>>, Receiver<T>), NoMemory>
    requires { 0 < capacity }
    ensures new { IfOk result
        (λ ends. (ends.0.items ≡ new_senders ends.1.inbox ports) × (ends.1 ≡ new_receiver ends.1.inbox ports)) }
    ensures holds { IfOk result (λ ends. ends.1.inbox.capacity ≡ capacity) }
{
    let (end, receiver, mut seat) = bounded_with::<Item<T>, View<T>, InOrder, Global>(
        alloc,
        capacity as usize,
    )?;
    let mut senders = Vec::new(alloc);
    for number in 0..ports {
        let theirs = end.try_clone()?;
        let port = end.another::<Roles>(&mut seat);
        let sender = Sender {
            number,
            end: theirs,
            seat: port,
        };
        senders.push(sender)?;
    }
    Ok((
        senders,
        Receiver {
            ports,
            end: receiver,
            seat,
        },
    ))
}

impl<T: Drop> Sender<T> {
    // One try. The event comes back where the inbox is full, and where the receiver is gone.
    fn try_send<R: Wait>(&mut self, rt: &R, event: T) -> Result<(), T>
        ensures { MatchResult result
            (λ _. self.new ≡ with_sent self.old (value_item self.old.number event))
            (λ back. (back ≡ event) × (self.new ≡ self.old)) }
    {
        let item = Item {
            from: self.number,
            entry: Entry::Value(event),
        };
        match self.end.try_send_as::<Sends, R>(rt, &mut self.seat, item) {
            Ok(()) => Ok(()),
            Err(error) => match error.into_inner().entry {
                Entry::Value(event) => Err(event),
                Entry::End => unreachable!(),
            },
        }
    }

    // Sleeps while the inbox is full.
    fn send_or_sleep<R: Wait>(&mut self, rt: &R, event: T) -> Result<(), Gone<T>>
        ensures { MatchResult result
            (λ _. self.new ≡ with_sent self.old (value_item self.old.number event))
            (λ gone. (gone.event ≡ event) × (self.new ≡ self.old)) }
    {
        let item = Item {
            from: self.number,
            entry: Entry::Value(event),
        };
        match self.end.send_as::<Sends, R>(rt, &mut self.seat, item) {
            Ok(()) => Ok(()),
            Err(error) => match error.into_inner().entry {
                Entry::Value(event) => Err(Gone { event }),
                Entry::End => unreachable!(),
            },
        }
    }

    /// Sends an event, and waits while the inbox is full. Where the receiver is gone, the event comes back and nothing
    /// has changed.
    pub fn send<R: Wait>(&mut self, rt: &R, mut event: T) -> Result<(), Gone<T>>
        ensures { MatchResult result
            (λ _. self.new ≡ with_sent self.old (value_item self.old.number event))
            (λ gone. (gone.event ≡ event) × (self.new ≡ self.old)) }
    {
        for _ in 0..TRIES {
            match self.try_send(rt, event) {
                Ok(()) => return Ok(()),
                Err(back) => event = back,
            }
            thread::yield_now();
        }
        self.send_or_sleep(rt, event)
    }

    /// Puts the port's end mark, and waits while the inbox is full. `false` where the receiver is gone: then nothing
    /// was put.
    pub fn finish<R: Wait>(self, rt: &R) -> (Sent<T>, bool)
        ensures { MatchBool result.1 (result.0 ≡ with_sent self (end_item self.number)) (result.0 ≡ self) }
    {
        let Sender {
            number,
            end,
            mut seat,
        } = self;
        let item = Item {
            from: number,
            entry: Entry::End,
        };
        let is_put = end.send_as::<Sends, R>(rt, &mut seat, item).is_ok();
        (Sent { number, end, seat }, is_put)
    }
}

impl<T: Drop> Receiver<T> {
    /// How many ports the inbox has.
    pub fn ports(&self) -> u32
        ensures { result ≡ self.now.ports }
    {
        self.ports
    }

    // One try. None where the inbox is empty.
    fn try_take<R: Wait>(&mut self, rt: &R) -> Option<Taken<T>>
        ensures { MatchOption result (self.new ≡ self.old) (λ taken. Took self.old taken self.new) }
    {
        match self.end.try_recv_as::<Takes, R>(rt, &mut self.seat) {
            Ok(Item { from, entry }) => match entry {
                Entry::Value(event) => Some(Taken::Event(event)),
                Entry::End => Some(Taken::Ended(from)),
            },
            Err(_) => None,
        }
    }

    // Sleeps while the inbox is empty.
    fn take_or_sleep<R: Wait>(&mut self, rt: &R) -> Result<Taken<T>, Left>
        ensures { MatchResult result (λ taken. Took self.old taken self.new) (λ _. self.new ≡ self.old) }
    {
        match self.end.recv_as::<Takes, R>(rt, &mut self.seat) {
            Ok(Item { from, entry }) => match entry {
                Entry::Value(event) => Ok(Taken::Event(event)),
                Entry::End => Ok(Taken::Ended(from)),
            },
            Err(_) => Err(Left),
        }
    }

    /// Takes the next item, and waits while there is none. After `Left` nothing has changed.
    pub fn take<R: Wait>(&mut self, rt: &R) -> Result<Taken<T>, Left>
        ensures { MatchResult result (λ taken. Took self.old taken self.new) (λ _. self.new ≡ self.old) }
    {
        for _ in 0..TRIES {
            if let Some(taken) = self.try_take(rt) {
                return Ok(taken);
            }
            thread::yield_now();
        }
        self.take_or_sleep(rt)
    }

    /// Takes over the seat of a port of this inbox. So it is known how what was taken stands to what the port had
    /// sent: it is the beginning of that, and all of it where the port's end mark was taken.
    pub fn settle(&mut self, sent: Sent<T>)
        requires { sent.inbox ≡ self.old.inbox }
        ensures same { self.new ≡ self.old }
        ensures took { TookInOrder sent.number self.old.taken sent.sent }
    {
        let Sent { end, seat, .. } = sent;
        end.absorb::<Roles>(&mut self.seat, seat);
        end.learn_as::<Compares>(&mut self.seat);
    }
}
