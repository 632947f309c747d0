//! Two ports, two workers and a taker, each in a thread of its own.
#![tactic(auto)]

ghost use Rattle.std.specs.Prelude.{◌≡◌, ◌<◌, IfOk};

use notifier_model::{Event, Out};
use package::{Class, MailChange};
use queues::inbox::{Receiver, Sender, Sent, Taken};
use queues::outbox::{Posted, Poster, PosterDone, Taker};
use queues::{inbox, outbox};
use sip_text::{NoMemory, Text};
use std::alloc::Global;
use std::sync::Wait;
use std::thread;
use std::thread::{Threads, join};

/// A mail change. None where memory is refused.
fn mail(alloc: Global, new_count: u32) -> Option<Event> {
    let name = String::from_str(alloc, "alice").ok()?;
    let change = MailChange::new(name, Class::Voice, new_count, 0, 0, 0)?;
    Some(Event::Mail(change))
}

// Sends an event. false where the receiver is gone.
fn is_sent<R: Wait>(rt: &R, sender: &mut Sender, event: Event) -> bool
    ensures { sender.new.inbox ≡ sender.old.inbox }
{
    match sender.send(rt, event) {
        Ok(()) => true,
        Err(gone) => {
            drop(gone);
            false
        }
    }
}

// Sends an event to one of two workers, by turns. false where none could be sent.
fn send_next<R: Wait>(
    rt: &R,
    alloc: Global,
    first: &mut Sender,
    second: &mut Sender,
    number: u32,
) -> bool
    ensures first { first.new.inbox ≡ first.old.inbox }
    ensures second { second.new.inbox ≡ second.old.inbox }
{
    let Some(event) = mail(alloc, number) else {
        return false;
    };
    if number % 2 == 0 {
        is_sent(rt, first, event)
    } else {
        is_sent(rt, second, event)
    }
}

// Puts the end mark.
fn end<R: Wait>(rt: &R, sender: Sender) -> Sent
    ensures { result.inbox ≡ sender.inbox }
{
    sender.finish(rt).0
}

// One port: sends up to this many events to the two workers, then puts its end marks.
fn send_all<R: Wait>(rt: &R, alloc: Global, senders: (Sender, Sender), count: u32) -> (Sent, Sent)
    ensures { (result.0.inbox ≡ senders.0.inbox) × (result.1.inbox ≡ senders.1.inbox) }
{
    let (mut first, mut second) = senders;
    for number in 0..count {
        if !send_next(rt, alloc, &mut first, &mut second, number) {
            break;
        }
    }
    (end(rt, first), end(rt, second))
}

// Posts an out for an event.
fn serve<R: Wait>(rt: &R, alloc: Global, event: Event, poster: &mut Poster)
    ensures { poster.new.outbox ≡ poster.old.outbox }
{
    drop(event);
    let Ok(tag) = Text::of(alloc, "alice") else {
        return;
    };
    let refer_to = Text::new(String::new(alloc));
    poster.post(rt, Out::Start { tag, refer_to });
}

// One worker: serves events until each port has ended, then puts its end mark.
fn work<R: Wait>(rt: &R, alloc: Global, ends: (Receiver, Poster)) -> (Receiver, PosterDone)
    ensures { (result.0.inbox ≡ ends.0.inbox) × (result.1.outbox ≡ ends.1.outbox) }
{
    let (mut receiver, mut poster) = ends;
    let mut still_open = receiver.ports();
    for _ in rt.forever() {
        if still_open == 0 {
            break;
        }
        match receiver.take(rt) {
            Ok(Taken::Event(event)) => serve(rt, alloc, event, &mut poster),
            Ok(Taken::Ended(_)) => still_open -= 1,
            Err(_) => break,
        }
    }
    (receiver, poster.finish(rt))
}

// Takes until each worker has ended, and counts the outs.
fn take_all<R: Wait>(rt: &R, mut taker: Taker, workers: u32) -> (Taker, u32)
    ensures { result.0.outbox ≡ taker.outbox }
{
    let mut outs = 0u32;
    let mut still_open = workers;
    for _ in rt.forever() {
        if still_open == 0 {
            break;
        }
        match taker.take(rt) {
            Some(Posted::Out(_, _)) => outs = outs.wrapping_add(1),
            Some(Posted::Ended(_)) => still_open -= 1,
            None => thread::yield_now(),
        }
    }
    (taker, outs)
}

// The ends of an inbox of two ports.
fn two_ports(alloc: Global, capacity: u32) -> Result<(Sender, Sender, Receiver), NoMemory>
    requires { 0 < capacity }
    ensures { IfOk result (λ ends. (ends.0.inbox ≡ ends.2.inbox) × (ends.1.inbox ≡ ends.2.inbox)) }
{
    let (mut senders, receiver) = inbox::make(alloc, capacity, 2)?;
    let Some(second) = senders.pop() else {
        unreachable!()
    };
    let Some(first) = senders.pop() else {
        unreachable!()
    };
    Ok((first, second, receiver))
}

// The ends of an outbox of two workers.
fn two_workers(alloc: Global, capacity: u32) -> Result<(Poster, Poster, Taker), NoMemory>
    requires { 0 < capacity }
    ensures { IfOk result (λ ends. (ends.0.outbox ≡ ends.2.outbox) × (ends.1.outbox ≡ ends.2.outbox)) }
{
    let (mut posters, taker) = outbox::make(alloc, capacity, 2)?;
    let Some(second) = posters.pop() else {
        unreachable!()
    };
    let Some(first) = posters.pop() else {
        unreachable!()
    };
    Ok((first, second, taker))
}

// Both ports, each in a thread.
fn send_both<R: Threads + Wait + Sync>(
    rt: &R,
    alloc: Global,
    first: (Sender, Sender),
    second: (Sender, Sender),
    count: u32,
) -> ((Sent, Sent), (Sent, Sent))
    ensures first { (result.0.0.inbox ≡ first.0.inbox) × (result.0.1.inbox ≡ first.1.inbox) }
    ensures second { (result.1.0.inbox ≡ second.0.inbox) × (result.1.1.inbox ≡ second.1.inbox) }
{
    join(
        rt,
        move || -> (Sent, Sent)
            ensures { (result.0.inbox ≡ first.0.inbox) × (result.1.inbox ≡ first.1.inbox) }
        { send_all(rt, alloc, first, count) },
        move || -> (Sent, Sent)
            ensures { (result.0.inbox ≡ second.0.inbox) × (result.1.inbox ≡ second.1.inbox) }
        { send_all(rt, alloc, second, count) },
    )
}

// Both workers, each in a thread.
fn work_both<R: Threads + Wait + Sync>(
    rt: &R,
    alloc: Global,
    first: (Receiver, Poster),
    second: (Receiver, Poster),
) -> ((Receiver, PosterDone), (Receiver, PosterDone))
    ensures first { (result.0.0.inbox ≡ first.0.inbox) × (result.0.1.outbox ≡ first.1.outbox) }
    ensures second { (result.1.0.inbox ≡ second.0.inbox) × (result.1.1.outbox ≡ second.1.outbox) }
{
    join(
        rt,
        move || -> (Receiver, PosterDone)
            ensures { (result.0.inbox ≡ first.0.inbox) × (result.1.outbox ≡ first.1.outbox) }
        { work(rt, alloc, first) },
        move || -> (Receiver, PosterDone)
            ensures { (result.0.inbox ≡ second.0.inbox) × (result.1.outbox ≡ second.1.outbox) }
        { work(rt, alloc, second) },
    )
}

// Both workers, and the taker beside them. The seats of the outbox are settled.
fn work_and_take<R: Threads + Wait + Sync>(
    rt: &R,
    alloc: Global,
    first: (Receiver, Poster),
    second: (Receiver, Poster),
    taker: Taker,
) -> (Receiver, Receiver, u32)
    requires first { first.1.outbox ≡ taker.outbox }
    requires second { second.1.outbox ≡ taker.outbox }
    ensures { (result.0.inbox ≡ first.0.inbox) × (result.1.inbox ≡ second.0.inbox) }
{
    let (workers, taken) = join(
        rt,
        move || -> ((Receiver, PosterDone), (Receiver, PosterDone))
            ensures first { (result.0.0.inbox ≡ first.0.inbox) × (result.0.1.outbox ≡ first.1.outbox) }
            ensures second { (result.1.0.inbox ≡ second.0.inbox) × (result.1.1.outbox ≡ second.1.outbox) }
        { work_both(rt, alloc, first, second) },
        move || -> (Taker, u32)
            ensures { result.0.outbox ≡ taker.outbox }
        { take_all(rt, taker, 2) },
    );
    let ((first, first_done), (second, second_done)) = workers;
    let (mut taker, outs) = taken;
    taker.settle(first_done);
    taker.settle(second_done);
    (first, second, outs)
}

/// Two ports send this many events each, to two workers in turn; each worker posts an out for each; a taker counts them.
/// Each queue holds `capacity` items at most. Once all have ended, each seat is settled.
pub(crate) fn hand_over<R: Threads + Wait + Sync>(
    rt: &R,
    alloc: Global,
    capacity: u32,
    count: u32,
) -> Result<u32, NoMemory>
    requires { 0 < capacity }
{
    let (first_to_a, second_to_a, a) = two_ports(alloc, capacity)?;
    let (first_to_b, second_to_b, b) = two_ports(alloc, capacity)?;
    let (post_a, post_b, taker) = two_workers(alloc, capacity)?;
    let (first, second) = ((first_to_a, first_to_b), (second_to_a, second_to_b));
    let (ports, workers) = join(
        rt,
        move || -> ((Sent, Sent), (Sent, Sent))
            ensures first { (result.0.0.inbox ≡ first.0.inbox) × (result.0.1.inbox ≡ first.1.inbox) }
            ensures second { (result.1.0.inbox ≡ second.0.inbox) × (result.1.1.inbox ≡ second.1.inbox) }
        { send_both(rt, alloc, first, second, count) },
        move || -> (Receiver, Receiver, u32)
            requires { (post_a.outbox ≡ taker.outbox) × (post_b.outbox ≡ taker.outbox) }
            ensures { (result.0.inbox ≡ a.inbox) × (result.1.inbox ≡ b.inbox) }
        { work_and_take(rt, alloc, (a, post_a), (b, post_b), taker) },
    );
    let ((first_a, first_b), (second_a, second_b)) = ports;
    let (mut a, mut b, outs) = workers;
    a.settle(first_a);
    a.settle(second_a);
    b.settle(first_b);
    b.settle(second_b);
    Ok(outs)
}
