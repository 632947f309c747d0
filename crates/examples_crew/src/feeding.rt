//! What feeds the ports of a crew, each from a thread of its own.

use crate::error::RunError;
use crate::events::{mail, subscribe};
use crate::names::{Names, names_of};
use crew::Port;
use feeds::{FeedReport, control, feed};
use notifier_model::Event;
use notifier_model::homes::is_for_all;
use package::Class;
use std::alloc::Global;
use std::sync::Wait;
use std::thread;
use std::thread::{JoinHandle, Threads};
use transport::{MemoryWire, UdpWire, Wire};

/// Of how many steps a feed tells what was refused.
const STEPS: usize = 5;

/// What is done with a port.
#[derive(Clone, Copy)]
pub(crate) enum Step {
    /// The SUBSCRIBE of a phone for this mailbox, with this Call-ID.
    Subscribe(&'static str, &'static str),
    /// The next one in its dialog, whose tag is known from before.
    GoOn(&'static str, &'static str),
    /// Rounds over mailboxes, from this one on and before that one: round 0 brings the SUBSCRIBE of each, with its name as
    /// Call-ID, and each later one a mail change of each, with as many new messages.
    Rounds(Names, u32, u32),
    /// A new fax for this mailbox.
    Fax(&'static str),
    /// The time.
    Tick(u64),
    /// The port is closed.
    Close,
    /// The port is asked whether it is closed.
    LookClosed,
}

/// What feeds a port.
#[derive(Drop)]
pub(crate) enum Feeder {
    /// These steps, by phones that know this tag of a dialog. The port goes away as they left it.
    Steps(&'static [Step], String),
    /// So many datagrams of a wire in memory.
    Memory(MemoryWire, u32),
    /// So many datagrams of a socket.
    Datagrams(UdpWire, u32),
    /// The control lines of a socket.
    Lines(UdpWire),
}

/// What came of a feed.
#[derive(Clone, Copy)]
pub(crate) struct Fed {
    /// How many events were not made or not sent at each step; 1 also where a call of the port was refused.
    pub(crate) refused: [u32; STEPS],
    /// What a wire brought, and by which call.
    pub(crate) heard: Option<(&'static str, FeedReport)>,
}

/// How many were missed of one.
fn missed(is_done: bool) -> u32 {
    if is_done { 0 } else { 1 }
}

/// Sends one event that has a home, and tells whether it was sent.
fn send_one<R: Wait>(rt: &R, port: &mut Port, event: Event) -> bool {
    if is_for_all(&event) {
        drop(event);
        return false;
    }
    let told = port.send(rt, event);
    let is_sent = told.is_ok();
    drop(told);
    is_sent
}

/// Sends an event, if it could be made, and tells how many were not sent.
fn send_made<R: Wait>(rt: &R, port: &mut Port, made: Result<Event, RunError>) -> u32 {
    match made {
        Ok(event) => missed(send_one(rt, port, event)),
        Err(_) => 1,
    }
}

/// One round over these mailboxes. Tells how many events were not sent.
fn send_round<R: Wait>(
    rt: &R,
    alloc: Global,
    port: &mut Port,
    mailboxes: &[String],
    round: u32,
) -> u32 {
    let mut refused = 0u32;
    for mailbox in mailboxes {
        let name = mailbox.as_str();
        let made = if round == 0 {
            subscribe(alloc, name, name, "")
        } else {
            mail(alloc, name, Class::Voice, round)
        };
        refused = refused.saturating_add(send_made(rt, port, made));
    }
    refused
}

/// These rounds over these mailboxes. Tells how many events were not sent.
fn send_rounds<R: Wait>(
    rt: &R,
    alloc: Global,
    port: &mut Port,
    names: Names,
    rounds: (u32, u32),
) -> u32 {
    let Ok(mailboxes) = names_of(alloc, names) else {
        return 1;
    };
    let mut refused = 0u32;
    for round in rounds.0..rounds.1 {
        let more = send_round(rt, alloc, port, mailboxes.as_slice(), round);
        refused = refused.saturating_add(more);
    }
    refused
}

/// One step. Tells how many events were not sent, or 1 where the port refused it.
fn take_step<R: Wait>(rt: &R, alloc: Global, port: &mut Port, step: Step, tag: &str) -> u32 {
    match step {
        Step::Subscribe(mailbox, call) => {
            send_made(rt, port, subscribe(alloc, mailbox, call, ""))
        }
        Step::GoOn(mailbox, call) => send_made(rt, port, subscribe(alloc, mailbox, call, tag)),
        Step::Rounds(names, from, to) => send_rounds(rt, alloc, port, names, (from, to)),
        Step::Fax(mailbox) => send_made(rt, port, mail(alloc, mailbox, Class::Fax, 1)),
        Step::Tick(second) => missed(port.tick(rt, second).is_ok()),
        Step::Close => missed(port.close(rt).is_ok()),
        Step::LookClosed => missed(port.is_closed()),
    }
}

/// These steps, one after the other. Tells what was refused at each.
fn take_steps<R: Wait>(
    rt: &R,
    alloc: Global,
    port: &mut Port,
    steps: &[Step],
    tag: &str,
) -> [u32; STEPS] {
    let mut refused = [0; STEPS];
    let mut at = 0usize;
    for step in steps {
        let more = take_step(rt, alloc, port, *step, tag);
        if let Some(place) = refused.get_mut(at) {
            *place = more;
        }
        at = at.saturating_add(1);
    }
    refused
}

/// Feeds a port from a wire, with so many datagrams or with control lines, and closes the port. Nothing where it was closed.
fn hear<R: Wait, W: Wire>(
    rt: &R,
    alloc: Global,
    wire: &mut W,
    port: &mut Port,
    count: Option<u32>,
) -> Option<(&'static str, FeedReport)> {
    if port.is_closed() {
        return None;
    }
    let heard = match count {
        Some(count) => ("feed", feed(rt, alloc, wire, port, count)),
        None => ("control", control(rt, alloc, wire, port)),
    };
    let _ = port.close(rt);
    Some(heard)
}

/// Feeds a port, and lets it go.
fn feed_port<R: Wait>(rt: &R, alloc: Global, mut port: Port, mut feeder: Feeder) -> Fed {
    let mut refused = [0; STEPS];
    let heard = match &mut feeder {
        Feeder::Steps(steps, tag) => {
            refused = take_steps(rt, alloc, &mut port, steps, tag.as_str());
            None
        }
        Feeder::Memory(wire, count) => hear(rt, alloc, wire, &mut port, Some(*count)),
        Feeder::Datagrams(wire, count) => hear(rt, alloc, wire, &mut port, Some(*count)),
        Feeder::Lines(wire) => hear(rt, alloc, wire, &mut port, None),
    };
    Fed { refused, heard }
}

/// Starts the thread that feeds this port.
fn start_feed<R: Threads + Wait + Copy + Send + 'static>(
    rt: R,
    alloc: Global,
    port: Port,
    feeder: Feeder,
) -> Result<JoinHandle<Fed>, RunError> {
    match thread::spawn(&rt, move || feed_port(&rt, alloc, port, feeder)) {
        Ok(handle) => Ok(handle),
        Err(_) => Err(RunError::NoThread),
    }
}

/// Starts a thread for each port. The last feeder gets the first port.
pub(crate) fn start_feeds<R: Threads + Wait + Copy + Send + 'static>(
    rt: R,
    alloc: Global,
    ports: Vec<Port>,
    feeders: &mut Vec<Feeder>,
) -> Result<Vec<JoinHandle<Fed>>, RunError> {
    let mut threads = Vec::new(alloc);
    for port in ports {
        if let Some(feeder) = feeders.pop() {
            threads.push(start_feed(rt, alloc, port, feeder)?)?;
        }
    }
    Ok(threads)
}

/// Waits for the threads, if all were started, and tells what came of each.
pub(crate) fn join_feeds<R: Threads>(
    rt: &R,
    alloc: Global,
    threads: Result<Vec<JoinHandle<Fed>>, RunError>,
) -> Result<Vec<Fed>, RunError> {
    let mut fed = Vec::new(alloc);
    for thread in threads? {
        fed.push(thread.join(rt))?;
    }
    Ok(fed)
}
