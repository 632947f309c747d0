//! A crew of two workers whose two ports are handed to `join`.
ghost use Rattle.std.specs.Prelude.{◌≡◌, ◌<◌, ◌∷◌, [], ℕ, true, false, vec_len, vec_capacity};
ghost use Rattle.notifier_model.specs.Start.{Start};
ghost use Rattle.crew.specs.Kept.{SameSeats};
ghost use Rattle.crew.specs.Started.{IsStarted};

use crate::boxes::{Part, Props, place_all};
use crate::error::RunError;
use crate::events::{mail, subscribe};
use crate::gathering::Gathered;
use crate::page::Page;
use crate::running::{Plan, Ready, Taking, make_ready};
use crate::scenes::TWO;
use crew::{Crew, Port, Report};
use feeds::send_event;
use notifier_model::Event;
use package::{Class, Package};
use queues::outbox::Taker;
use sip_text::NoMemory;
use std::alloc::Global;
use std::rt::Clock;
use std::sync::Wait;
use std::thread::Threads;

/// What each of the two ports is to send.
#[derive(Drop)]
struct Sendings {
    first: Vec<Event>,
    second: Vec<Event>,
}

/// A crew that was just started with two ports.
#[derive(Drop)]
struct Begun {
    crew: Crew,
    ports: Vec<Port>,
    taker: Taker,
    workers: u32,
}

/// Sends these events, up to the first that isn't sent.
fn send_all<R: Wait>(rt: &R, port: &mut Port, events: Vec<Event>)
    requires { port.old.is_open ≡ true }
    ensures seats { SameSeats port.old port.new }
{
    for event in events {
        if !send_event(rt, port, event) {
            return;
        }
    }
}

/// Sends these events and closes the port.
fn send_and_close<R: Wait>(rt: &R, mut port: Port, events: Vec<Event>) -> Port
    requires { port.is_open ≡ true }
    ensures shut { result.is_open ≡ false }
    ensures seats { SameSeats port result }
{
    send_all(rt, &mut port, events);
    let told = port.close(rt);
    drop(told);
    port
}

/// The two ports of a crew.
fn take_both(ports: &mut Vec<Port>) -> (Port, Port)
    requires { vec_len ports.old ≡ 2 }
    ensures both { ports.old.items ≡ result.0 ∷ result.1 ∷ [] }
    ensures none { vec_len ports.new ≡ 0 }
    ensures capacity { vec_capacity ports.new ≡ vec_capacity ports.old }
{
    let Some(second) = ports.pop() else {
        unreachable!()
    };
    let Some(first) = ports.pop() else {
        unreachable!()
    };
    (first, second)
}

/// Has both ports send and close, hears what the workers post, and joins them with both ports. The queues hold all that is sent and
/// posted.
fn join_both<R: Threads + Wait + Clock>(
    rt: &R,
    alloc: Global,
    begun: Begun,
    sendings: Sendings,
    gathered: &mut Gathered,
) -> Report
    requires some { 0 < begun.workers }
    requires started { (start : ℕ → Start) × IsStarted start begun.workers 2 begun.crew begun.ports.items begun.taker }
{
    let Begun {
        crew,
        mut ports,
        mut taker,
        workers,
    } = begun;
    let Sendings { first, second } = sendings;
    let (sooner, later) = take_both(&mut ports);
    let sooner = send_and_close(rt, sooner, first);
    let later = send_and_close(rt, later, second);
    gathered.take_all(rt, alloc, &mut taker, workers);
    ports.push_reserved(sooner);
    ports.push_reserved(later);
    crew.join(rt, ports, taker)
}

/// Alice subscribes by the first port and gets a mail change, bob subscribes by the second.
fn new_sendings(alloc: Global) -> Result<Sendings, RunError> {
    let mut first = Vec::new(alloc);
    first.push(subscribe(alloc, "alice", "c1", "")?)?;
    first.push(mail(alloc, "alice", Class::Voice, 1)?)?;
    let mut second = Vec::new(alloc);
    second.push(subscribe(alloc, "bob", "c3", "")?)?;
    Ok(Sendings { first, second })
}

/// Runs the crew, and tells what its workers did.
pub(crate) fn handed_ports<R>(rt: R, alloc: Global, page: &mut Page) -> Result<(), RunError>
where
    R: Threads + Wait + Clock + Copy + Send + 'static,
{
    let props = Props::new(alloc, false)?;
    let sendings = new_sendings(alloc)?;
    let mut gathered = Gathered::nothing(alloc, 2, false)?;
    let Ready { setup, crowd, gate } = make_ready(alloc, Plan::USUAL, TWO, &props)?;
    let place = move |part: Part| -> Result<Box<dyn Package>, NoMemory> {
        match part {
            Part::Mail(boxes) => Ok(Box::new(alloc, boxes)?),
            Part::Transfers(transfers) => Ok(Box::new(alloc, transfers)?),
        }
    };
    let boxes = place_all(alloc, crowd, &place)?;
    let workers = boxes.len() as u32;
    let (crew, ports, taker) = Crew::start(rt, alloc, &setup, 2, boxes, gate)?;
    let begun = Begun {
        crew,
        ports,
        taker,
        workers,
    };
    let report = join_both(&rt, alloc, begun, sendings, &mut gathered);
    gathered.show(alloc, &report, page);
    Ok(())
}
