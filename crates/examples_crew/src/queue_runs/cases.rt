//! Small cases of both queues: ends that are gone or done, and calls that sleep and are woken.
ghost use Rattle.std.specs.Prelude.{◌≡◌, ◌<◌, IfSome};

use notifier_model::{Event, Out};
use queues::inbox::{Receiver, Sender};
use queues::outbox::{Posted, Poster, Taker};
use queues::{inbox, outbox};
use sip_text::Text;
use std::alloc::Global;
use std::sync::Wait;
use std::thread;
use std::thread::{JoinHandle, Threads};

/// What a send answers: 0 sent, 1 gone with the event that was to be sent, 9 gone with another.
fn send<R: Wait>(rt: &R, sender: &mut Sender, second: u64) -> u32 {
    match sender.send(rt, Event::Tick(second)) {
        Ok(()) => 0,
        Err(gone) => {
            let same = matches!(&gone.event, Event::Tick(back) if *back == second);
            drop(gone);
            if same { 1 } else { 9 }
        }
    }
}

/// What a send answers, and whether the end mark was put, where the receiver was dropped.
pub(crate) fn without_receiver<R: Wait>(rt: &R, alloc: Global) -> Option<(u32, bool)> {
    let (mut senders, receiver) = inbox::make(alloc, 1, 2).ok()?;
    drop(receiver);
    let mut sender = senders.pop()?;
    let answer = send(rt, &mut sender, 7);
    let (sent, is_put) = sender.finish(rt);
    drop(sent);
    Some((answer, is_put))
}

/// Whether a take answers Left, where both senders were dropped.
pub(crate) fn without_senders<R: Wait>(rt: &R, alloc: Global) -> Option<bool> {
    let (senders, mut receiver) = inbox::make(alloc, 1, 2).ok()?;
    drop(senders);
    let taken = receiver.take(rt);
    let is_left = taken.is_err();
    drop(taken);
    Some(is_left)
}

/// The ends of an outbox of one worker.
fn one_worker(alloc: Global, capacity: u32) -> Option<(Poster, Taker)>
    requires { 0 < capacity }
    ensures { IfSome result (λ ends. ends.0.outbox ≡ ends.1.outbox) }
{
    let (mut posters, taker) = outbox::make(alloc, capacity, 1).ok()?;
    let poster = posters.pop()?;
    Some((poster, taker))
}

/// The out of the transfer `t`.
fn start(alloc: Global) -> Option<Out> {
    let tag = Text::of(alloc, "t").ok()?;
    let refer_to = Text::new(String::new(alloc));
    Some(Out::Start { tag, refer_to })
}

/// Whether it is the out of the transfer `t`.
fn is_start(out: Out) -> bool {
    let same = matches!(&out, Out::Start { tag, .. } if tag.as_str() == "t");
    drop(out);
    same
}

/// What a take answers: 0 nothing, 1 worker 0's out, 2 its end mark, 9 anything else.
fn kind(posted: Option<Posted>) -> u32 {
    match posted {
        None => 0,
        Some(Posted::Out(worker, out)) => { if is_start(out) && worker == 0 { 1 } else { 9 } }
        Some(Posted::Ended(worker)) => if worker == 0 { 2 } else { 9 },
    }
}

/// What is taken before and after a post and an end mark.
pub(crate) fn posted_one_by_one<R: Wait>(rt: &R, alloc: Global) -> Option<[u32; 4]> {
    let out = start(alloc)?;
    let (mut poster, mut taker) = one_worker(alloc, 1)?;
    let empty = kind(taker.take(rt));
    poster.post(rt, out);
    let posted = kind(taker.take(rt));
    let again = kind(taker.take(rt));
    drop(poster.finish(rt));
    let ended = kind(taker.take(rt));
    Some([empty, posted, again, ended])
}

/// What is taken of a worker that is done.
pub(crate) fn taken_after<R: Wait>(rt: &R, alloc: Global) -> Option<[u32; 3]> {
    let out = start(alloc)?;
    let (mut poster, mut taker) = one_worker(alloc, 2)?;
    poster.post(rt, out);
    let done = poster.finish(rt);
    let first = kind(taker.take_after(rt, done));
    let second = kind(taker.take(rt));
    let third = kind(taker.take(rt));
    Some([first, second, third])
}

/// Sends until the receiver is gone, at most a thousand times. How many were sent.
fn fill<R: Wait>(rt: &R, mut sender: Sender) -> u64 {
    for second in 0..1000 {
        if send(rt, &mut sender, second) != 0 {
            return second;
        }
    }
    1000
}

/// Ends of an inbox that go late.
#[derive(Drop)]
enum Late {
    Receiver(Receiver),
    Senders(Vec<Sender>),
}

fn drop_late(late: Late) {
    for _ in 0..10000 {
        thread::yield_now();
    }
    drop(late)
}

/// Starts a thread in which these ends go late.
fn start_late<R: Threads>(rt: &R, late: Late) -> Option<JoinHandle<()>> {
    match thread::spawn(rt, move || drop_late(late)) {
        Ok(handle) => Some(handle),
        Err(_) => None,
    }
}

/// Whether no more was sent than an inbox of one item holds, where the receiver goes late.
pub(crate) fn gone_late<R: Threads + Wait>(rt: &R, alloc: Global) -> Option<bool> {
    let (mut senders, receiver) = inbox::make(alloc, 1, 1).ok()?;
    let sender = senders.pop()?;
    let late = start_late(rt, Late::Receiver(receiver))?;
    let sent = fill(rt, sender);
    late.join(rt);
    Some(sent <= 1)
}

/// Whether a take that waits answers Left, where the senders go late.
pub(crate) fn left_late<R: Threads + Wait>(rt: &R, alloc: Global) -> Option<bool> {
    let (senders, mut receiver) = inbox::make(alloc, 1, 2).ok()?;
    let late = start_late(rt, Late::Senders(senders))?;
    let is_left = receiver.take(rt).is_err();
    late.join(rt);
    Some(is_left)
}
