//! Ports of a crew.
ghost use Rattle.std.specs.Prelude.{◌≡◌, ◌<◌, ◌≤◌, [], true, false, not, length, reverse, OnOk, OnErr, MatchResult, vec_len};
ghost use Rattle.notifier_model.specs.declared.event.Event.TheVariants as event;
ghost use Rattle.notifier_model.specs.Home as spec;
ghost use Rattle.crew.specs.Ports.{no_seats, seated, AreUnused, NoneHasSent, NoneWasClosed, HaveRoom, TakeSeats, Closes, ClosesSome, OneStays, SendsTo, SendsAt, sent_first, sends_first};
ghost use Rattle.crew.specs.PortErrors.{GivesBack, TicksFirst};
ghost use Rattle.crew.specs.AtHome.{SentHome};
ghost use Rattle.crew.specs.Calls.{call_event};

use crate::errors::{SendError, TickError};
use crate::hand::count_up;
use notifier_model::Event;
use notifier_model::homes::home;
use queues::inbox::{Gone, Sender, Sent};
use queues::many_to_one::Left;
use sip_text::NoMemory;
use std::alloc::Global;
use std::marker::Model;
use std::sync::Wait;

/// A port of a crew: its seat in each worker's inbox. Contracts see the seats in the order of the workers, each with what it
/// has sent, whether the port is open, and how many calls found a worker gone. Each event that it sent has its home there, or goes
/// to all.
pub struct Port {
    senders: Vec<Sender>,
    // Of a closed port, from the last worker's on. It has room for all, so that closing takes no memory.
    sents: Vec<Sent>,
    // How many calls to send something found a worker gone.
    missed: u64,
}

/// By hand, so that all that drops one calls this one function, and none proves the ways through each field.
impl Drop for Port {
    fn drop(self) {
        let Port {
            senders: _,
            sents: _,
            missed: _,
        } = self;
    }
}

impl Model for Port {
    ghost use Rattle.std.specs.Prelude.{◌++◌, ◌≡◌, ◌<◌, ◌≤◌, ◌+◌, nat_lt, length, reverse, vec_len, vec_capacity};
    ghost use Rattle.crew.specs.AtHome.{SentHome};
    ghost use Rattle.crew.specs.Ports.{PortSeats};

    ghost Value = { PortSeats };

    ghost view = { λ p. record { is_open = nat_lt 0 (vec_len p.senders); seats = p.senders.items ++ reverse p.sents.items; missed = p.missed } };

    ghost invariant = { λ p. (vec_len p.senders + vec_len p.sents ≤ vec_capacity p.sents) × (0 < vec_len p.senders → vec_len p.sents ≡ 0) × (vec_len p.senders ≤ 256) × SentHome (p.senders.items ++ reverse p.sents.items) };
}

impl Port {
    /// A port without a seat.
    pub(crate) fn new(alloc: Global) -> Port
        ensures { result ≡ no_seats }
    {
        Port {
            senders: Vec::new(alloc),
            sents: Vec::new(alloc),
            missed: 0,
        }
    }

    /// Takes a seat in one inbox more.
    pub(crate) fn seat(&mut self, sender: Sender) -> Result<(), NoMemory>
        requires unclosed { self.old.is_open ≡ false → self.old.seats ≡ [] }
        requires room { length self.old.seats < 256 }
        requires unsent { AreUnused self.old.seats }
        requires new { sender.sent ≡ [] }
        ensures { OnOk result (self.new ≡ seated self.old sender) }
    {
        self.sents.try_reserve(self.senders.len() + 1)?;
        self.senders.push(sender)?;
        Ok(())
    }

    /// The seats of a closed port, from the last worker's on.
    pub(crate) fn into_sents(self) -> Vec<Sent>
        requires { self.is_open ≡ false }
        ensures seats { reverse result.items ≡ self.seats }
        ensures home { SentHome self.seats }
    {
        let Port {
            senders: _,
            sents,
            missed: _,
        } = self;
        sents
    }

    /// Whether it was closed. It takes no memory and waits for nothing.
    pub fn is_closed(&self) -> bool
        ensures { result ≡ not self.now.is_open }
    {
        self.senders.is_empty()
    }

    /// How many calls of [`Port::send`], [`Port::tick`] and [`Port::shut`] found a worker gone.
    pub fn missed(&self) -> u64
        ensures { result ≡ self.now.missed }
    {
        self.missed
    }
}

impl Port {
    /// Puts the end mark into each inbox, and waits while one is full. The port is closed then, also where a worker is gone,
    /// which is [`Left`]: its seat is as it was then. Closing again answers Ok and changes nothing.
    pub fn close<R: Wait>(&mut self, rt: &R) -> Result<(), Left>
        ensures closed { self.new.is_open ≡ false }
        ensures ends { MatchResult result (λ _. Closes self.old self.new)
            (λ _. ClosesSome self.old.seats self.new.seats) }
        ensures left { OnErr result (OneStays self.old.seats self.new.seats) }
        ensures missed { self.new.missed ≡ self.old.missed }
        ensures again { self.old.is_open ≡ false → (result ≡ Ok tt) × (self.new ≡ self.old) }
    {
        let mut all_there = true;
        while let Some(sender) = self.senders.pop() {
            let (sent, is_there) = sender.finish(rt);
            self.sents.push_reserved(sent);
            all_there = all_there && is_there;
        }
        if all_there { Ok(()) } else { Err(Left) }
    }
}

/// Sends an event by the seat at this place. Where the worker is gone it comes back.
fn send_to<R: Wait>(rt: &R, senders: &mut [Sender], at: usize, event: Event) -> Result<(), Event>
    requires { at < length senders.old }
    ensures { MatchResult result
        (λ _. SendsAt senders.old at event senders.new)
        (λ back. (back ≡ event) × (senders.new ≡ senders.old)) }
{
    let sender = &mut senders[at];
    match sender.send(rt, event) {
        Ok(()) => Ok(()),
        Err(Gone { event }) => Err(event),
    }
}

/// What goes to all workers.
#[derive(Clone, Copy)]
enum Call {
    /// It is this second.
    Tick(u64),
    /// The planned stop.
    Shut,
}

impl Call {
    fn event(self) -> Event
        ensures { result ≡ call_event self }
    {
        match self {
            Call::Tick(now) => Event::Tick(now),
            Call::Shut => Event::Shut,
        }
    }
}

/// Sends this by each seat in order. Where a worker is gone it answers how many inboxes took it, and the rest get none.
fn call_all<R: Wait>(rt: &R, senders: &mut [Sender], call: Call) -> Result<(), u32>
    requires { length senders.old ≤ 256 }
    ensures { MatchResult result
        (λ _. senders.new ≡ sent_first (length senders.old) (call_event call) senders.old)
        (λ i. (i < length senders.old) × (senders.new ≡ sent_first i (call_event call) senders.old)) }
{
    for at in 0..senders.len() {
        if let Err(back) = send_to(rt, senders, at, call.event()) {
            drop(back);
            return Err(at as u32);
        }
    }
    Ok(())
}

impl Port {
    /// Sends an event to its home, and waits while that inbox is full. Where the port is closed or the worker gone the event
    /// comes back, and a worker that is gone is counted. A tick has no home, and goes by [`Port::tick`]; nor has the planned stop, which goes by [`Port::shut`].
    pub fn send<R: Wait>(&mut self, rt: &R, event: Event) -> Result<(), SendError>
        requires told { spec.is_for_all event ≡ false }
        ensures { MatchResult result
            (λ _. (self.old.is_open ≡ true) × SendsTo self.old (spec.home event (length self.old.seats)) event self.new)
            (λ error. GivesBack self.old event self.new error) }
    {
        let count = self.senders.len();
        if count == 0 {
            return Err(SendError::Closed(event));
        }
        let at = home(&event, count as u32);
        match send_to(rt, self.senders.as_mut_slice(), at as usize, event) {
            Ok(()) => Ok(()),
            Err(back) => {
                self.missed = count_up(rt, self.missed, 1);
                Err(SendError::Gone(back))
            }
        }
    }

    /// Tells each worker in order that it is this second, and waits while an inbox is full.
    pub fn tick<R: Wait>(&mut self, rt: &R, now: u64) -> Result<(), TickError>
        ensures { MatchResult result
            (λ _. (self.old.is_open ≡ true) × (self.new ≡ sends_first (length self.old.seats) (event.Tick now) self.old))
            (λ error. TicksFirst self.old (event.Tick now) self.new error) }
    {
        self.call(rt, Call::Tick(now))
    }

    /// Tells each worker in order to end its subscriptions, as the planned stop of a setup does, and waits while an inbox is full. So who
    /// decides only then whether watchers hear a farewell starts without a planned stop, and sends it before the port is closed.
    pub fn shut<R: Wait>(&mut self, rt: &R) -> Result<(), TickError>
        ensures { MatchResult result
            (λ _. (self.old.is_open ≡ true) × (self.new ≡ sends_first (length self.old.seats) event.Shut self.old))
            (λ error. TicksFirst self.old event.Shut self.new error) }
    {
        self.call(rt, Call::Shut)
    }

    /// Sends this to each worker in order.
    fn call<R: Wait>(&mut self, rt: &R, call: Call) -> Result<(), TickError>
        ensures { MatchResult result
            (λ _. (self.old.is_open ≡ true) × (self.new ≡ sends_first (length self.old.seats) (call_event call) self.old))
            (λ error. TicksFirst self.old (call_event call) self.new error) }
    {
        if self.is_closed() {
            return Err(TickError::Closed);
        }
        match call_all(rt, self.senders.as_mut_slice(), call) {
            Ok(()) => Ok(()),
            Err(count) => {
                self.missed = count_up(rt, self.missed, 1);
                Err(TickError::Gone(count))
            }
        }
    }
}

/// Gives each port its seat in an inbox.
pub(crate) fn deal_out(ports: &mut [Port], senders: Vec<Sender>) -> Result<(), NoMemory>
    requires len { vec_len senders ≡ length ports.old }
    requires unclosed { NoneWasClosed ports.old }
    requires room { HaveRoom ports.old }
    requires unsent { NoneHasSent ports.old }
    requires new { AreUnused senders.items }
    ensures { OnOk result (TakeSeats ports.old ports.new senders.items (length ports.old)) }
{
    let mut at = 0;
    for sender in senders {
        let port = &mut ports[at];
        port.seat(sender)?;
        at += 1;
    }
    Ok(())
}
