//! Feeding and emitting over wires in memory, whose calls fail where it is asked, and over sockets of this machine.
ghost use Rattle.std.specs.Prelude.{◌≡◌, IfOk};
ghost use Rattle.queues.specs.OutboxSeats.{new_taker};

use crate::boxes::Props;
use crate::error::RunError;
use crate::events::PHONE;
use crate::feeding::{Fed, Feeder};
use crate::gathering::Gathered;
use crate::page::Page;
use crate::running::{Going, Plan, make_ready, run};
use crate::scenes::ONE;
use crate::vectors::{ANSWER, NOTIFY, SUBSCRIBE};
use feeds::{EmitReport, FeedEnd, emit};
use notifier_model::Out;
use queues::outbox;
use queues::outbox::{Poster, Taker};
use sip_text::{Addr, Octets, Text};
use std::alloc::Global;
use std::io::{ErrorKind, Write};
use std::net::Net;
use std::rt::Clock;
use std::sync::Wait;
use std::thread::{JoinHandle, Threads};
use std::time::Duration;
use std::{io, thread};
use transport::{Datagram, MemoryWire, Sink, UdpWire, Wire, WireFault};

/// How often the port of the phone is asked for.
const TRIES: u32 = 500;

/// What each feed did, in a line each.
fn show_fed(alloc: Global, fed: &[Fed], page: &mut Page) {
    for fed in fed {
        let Some((name, report)) = fed.heard else {
            page.say("no port\n");
            continue;
        };
        page.say(name);
        page.tell(alloc, ": seen ", u64::from(report.seen));
        page.tell(alloc, ", unread ", u64::from(report.unread));
        page.say(match report.end {
            FeedEnd::Done => ", done\n",
            FeedEnd::Fault => ", fault\n",
            FeedEnd::Gone => ", gone\n",
        });
    }
}

/// What was emitted.
fn show_emitted(alloc: Global, report: EmitReport, page: &mut Page) {
    page.tell(alloc, "sent ", report.sent);
    page.tell(alloc, ", starts ", report.starts);
    page.tell(alloc, ", failed ", report.failed);
    page.say("\n");
}

/// Runs a crew of one worker, with alice's mailbox, whose outs go by this wire, and tells what came of all.
fn run_over<R, W: Wire + Drop>(
    rt: R,
    alloc: Global,
    feeders: &mut Vec<Feeder>,
    wire: W,
    page: &mut Page,
) -> Result<(), RunError>
where
    R: Threads + Wait + Clock + Copy + Send + 'static,
{
    let props = Props::new(alloc, false)?;
    let ready = make_ready(alloc, Plan::USUAL, ONE, &props)?;
    let mut going = Going {
        wire,
        emitted: None,
    };
    let came = run(rt, alloc, ready, feeders, &mut going)?;
    show_fed(alloc, came.fed.as_slice(), page);
    Gathered::nothing(alloc, 0, false)?.show(alloc, &came.report, page);
    if let Some(emitted) = going.emitted {
        show_emitted(alloc, emitted, page);
    }
    Ok(())
}

fn octets_of(alloc: Global, text: &str) -> Result<Octets, RunError> {
    Ok(Octets::new(Vec::from_slice(alloc, text.as_bytes())?))
}

/// What comes: five letters that are no message, and then a SUBSCRIBE.
fn coming(alloc: Global) -> Result<Vec<Datagram>, RunError> {
    let mut coming = Vec::new(alloc);
    for text in ["hello", SUBSCRIBE] {
        coming.push(Datagram {
            peer: PHONE,
            octets: octets_of(alloc, text)?,
        })?;
    }
    Ok(coming)
}

/// Feeds two datagrams to a crew of one worker. Where it is asked the second receive fails.
pub(crate) fn feed_two<R>(
    rt: R,
    alloc: Global,
    is_second_to_fail: bool,
    page: &mut Page,
) -> Result<(), RunError>
where
    R: Threads + Wait + Clock + Copy + Send + 'static,
{
    let mut wire = MemoryWire::new(alloc, coming(alloc)?);
    if is_second_to_fail {
        wire.fail_receive(1);
    }
    let mut feeders = Vec::new(alloc);
    feeders.push(Feeder::Memory(wire, 2))?;
    let out = MemoryWire::new(alloc, Vec::new(alloc));
    run_over(rt, alloc, &mut feeders, out, page)
}

/// What is posted.
#[derive(Clone, Copy)]
pub(crate) enum Item {
    /// An answer of these octets.
    Answer(&'static str),
    /// The start of the transfer with this tag.
    Start(&'static str),
}

/// What an outbox holds that is emitted, after how many sends one fails, if any, and whether the writer takes nothing.
#[derive(Clone, Copy)]
pub(crate) struct Emission {
    pub(crate) items: &'static [Item],
    pub(crate) fails_after: Option<u64>,
    pub(crate) is_shut: bool,
}

/// Two transfers that start, and an answer.
const STARTS: &[Item] = &[
    Item::Start("w0-1-a"),
    Item::Answer("A"),
    Item::Start("w0-2-b"),
];

/// Three answers. The second send fails.
pub(crate) const SECOND_SEND_FAILS: Emission = Emission {
    items: &[Item::Answer("A"), Item::Answer("BB"), Item::Answer("CCC")],
    fails_after: Some(1),
    is_shut: false,
};

/// Two transfers that start, and an answer.
pub(crate) const TRANSFERS_START: Emission = Emission {
    items: STARTS,
    fails_after: None,
    is_shut: false,
};

/// The same, to a writer that takes nothing.
pub(crate) const WRITER_FAILS: Emission = Emission {
    items: STARTS,
    fails_after: None,
    is_shut: true,
};

/// A writer that may take nothing.
#[derive(Drop)]
struct Writer {
    text: Vec<u8>,
    is_shut: bool,
}

impl Write for Writer {
    fn write(&mut self, buf: &[u8]) -> io::Result<usize> {
        if self.is_shut {
            return Err(io::Error::from(ErrorKind::BrokenPipe));
        }
        self.text.write(buf)
    }

    fn flush(&mut self) -> io::Result<()> {
        Ok(())
    }
}

/// The out of an item.
fn out_of(alloc: Global, item: Item) -> Result<Out, RunError> {
    match item {
        Item::Answer(text) => Ok(Out::Answer {
            to: PHONE,
            bytes: octets_of(alloc, text)?,
        }),
        Item::Start(tag) => {
            let refer_to = Text::of(alloc, "sip:carol@127.0.0.1")?;
            Ok(Out::Start {
                tag: Text::of(alloc, tag)?,
                refer_to,
            })
        }
    }
}

/// Posts these items, which a queue has room for, and ends.
fn post_all<R: Wait>(
    rt: &R,
    alloc: Global,
    mut poster: Poster,
    items: &[Item],
) -> Result<(), RunError> {
    for item in items {
        poster.post(rt, out_of(alloc, *item)?);
    }
    drop(poster.finish(rt));
    Ok(())
}

/// The end of an outbox of one worker that has posted these items.
fn outbox_of<R: Wait>(rt: &R, alloc: Global, items: &[Item]) -> Result<Taker, RunError>
    ensures { IfOk result (λ t. t ≡ new_taker t.outbox 1) }
{
    let (mut posters, taker) = outbox::make(alloc, 64, 1)?;
    if let Some(poster) = posters.pop() {
        post_all(rt, alloc, poster, items)?;
    }
    Ok(taker)
}

/// Emits what an outbox holds, and tells what the wire took and what was written.
pub(crate) fn emit_items<R: Wait + Clock>(
    rt: &R,
    alloc: Global,
    emission: Emission,
    page: &mut Page,
) -> Result<(), RunError> {
    let mut wire = MemoryWire::new(alloc, Vec::new(alloc));
    if let Some(after) = emission.fails_after {
        wire.fail_send(after);
    }
    let mut sink = Sink::new(Writer {
        text: Vec::new(alloc),
        is_shut: emission.is_shut,
    });
    let mut taker = outbox_of(rt, alloc, emission.items)?;
    let emitted = emit(rt, &mut wire, &mut sink, &mut taker, 1);
    for datagram in wire.taken() {
        let octets = datagram.octets.as_slice();
        page.tell(alloc, "took ", octets.len() as u64);
        let first = octets.first().copied().unwrap_or(0);
        page.tell(alloc, " octets, the first is ", u64::from(first));
        page.say("\n");
    }
    show_emitted(alloc, emitted, page);
    page.say(str::from_utf8(sink.writer().text.as_slice()).unwrap_or("no text\n"));
    Ok(())
}

/// What a phone got: whether it was what was written down.
#[derive(Clone, Copy)]
struct Got {
    answer: bool,
    notify: bool,
}

/// Whether the next datagram is this text.
fn is_next<R: Wait>(rt: &R, wire: &mut UdpWire, text: &str) -> Result<bool, WireFault> {
    let mut octets = [0; 2048];
    let (length, _) = wire.recv(rt, &mut octets)?;
    Ok(octets.split_at(length).0 == text.as_bytes())
}

/// Subscribes, waits for the answer and the NOTIFY, and ends the notifier.
fn call<R: Wait>(
    rt: &R,
    phone: &mut (UdpWire, UdpWire),
    sip: Addr,
    control: Addr,
) -> Result<Got, WireFault> {
    phone.1.send(rt, sip, SUBSCRIBE.as_bytes())?;
    let answer = is_next(rt, &mut phone.0, ANSWER)?;
    let notify = is_next(rt, &mut phone.0, NOTIFY)?;
    phone.1.send(rt, control, b"CLOSE")?;
    Ok(Got { answer, notify })
}

/// The phone's wires, at the port of its Contact. Where somebody else has it, it is waited for, some seconds at most.
fn phone_wires<R: Wait + Net + Clock>(rt: &R) -> Result<(UdpWire, UdpWire), WireFault> {
    for _ in 0..TRIES {
        if let Ok(wires) = UdpWire::bind(rt, PHONE.port) {
            return Ok(wires);
        }
        thread::sleep(rt, Duration::from_millis(10));
    }
    UdpWire::bind(rt, PHONE.port)
}

/// Starts the thread of a phone, which calls the notifier at these addresses.
fn start_call<R>(
    rt: R,
    sip: Addr,
    control: Addr,
) -> Result<JoinHandle<Result<Got, WireFault>>, RunError>
where
    R: Threads + Wait + Net + Clock + Copy + Send + 'static,
{
    let mut phone = phone_wires(&rt)?;
    match thread::spawn(&rt, move || call(&rt, &mut phone, sip, control)) {
        Ok(handle) => Ok(handle),
        Err(_) => Err(RunError::NoThread),
    }
}

/// A phone subscribes to alice's mailbox at a notifier in the same process, gets the answer and the NOTIFY, and ends it.
pub(crate) fn loopback<R>(rt: R, alloc: Global, page: &mut Page) -> Result<(), RunError>
where
    R: Threads + Wait + Net + Clock + Copy + Send + 'static,
{
    let (sip, out) = UdpWire::bind(&rt, 0)?;
    let (control, _) = UdpWire::bind(&rt, 0)?;
    let calling = start_call(rt, sip.local(), control.local())?;
    let mut feeders = Vec::new(alloc);
    feeders.push(Feeder::Lines(control))?;
    feeders.push(Feeder::Datagrams(sip, 1))?;
    let mut told = Page::new(alloc);
    run_over(rt, alloc, &mut feeders, out, &mut told)?;
    let got = calling.join(&rt)?;
    page.judge("the answer as written down: ", got.answer);
    page.judge(", the NOTIFY: ", got.notify);
    page.say_all(&["\n", told.text()?]);
    Ok(())
}
