//! What waits for what workers post, and sends it out.
ghost use Rattle.std.specs.Prelude.{◌≡◌, ◌⊎◌, ◌∷◌, [], true, false, ◌+◌, ◌<◌, ◌↔◌, IsTrue, min};
ghost use Rattle.queues.specs.Ended.{count_ended, AllEnded};
ghost use Rattle.transport.specs.Devices.{rises};
ghost use Rattle.transport.specs.Wires.{Grows};
ghost use Rattle.feeds.specs.Emitted.{wire_seen, writer_seen, Fates, IsEmitted, MayMeet, Writes, counted, is_start, is_held, sent_datagrams, count, fails_to_send, fails_to_start};
ghost use Rattle.feeds.specs.Waiting.{IsNext};

use crate::writing::write_start;
use crew::count_up;
use notifier_model::Out;
use queues::outbox::{Posted, Taker};
use std::io::Write;
use std::rt::Clock;
use std::sync::Wait;
use std::thread;
use std::time::Duration;
use transport::{Sink, Wire};

/// How long the thread sleeps where nothing is posted, in microseconds: much less than a phone notices.
const NAP: u64 = 500;

/// After how many turns in a row without anything to do a thread may sleep.
const TURNS: u32 = 8;

/// What is next of what workers post.
#[derive(Debug, Drop)]
pub enum Next {
    /// An out of one of them.
    Out(Out),
    /// One of them has ended.
    Ended,
    /// Nothing was posted, or each of them has ended.
    Nothing,
}

/// Takes what is next, where so many workers haven't ended. One less is left behind an end mark.
pub fn next_out<R: Wait>(rt: &R, taker: &mut Taker, left: &mut u32) -> Next
    ensures { IsNext taker.old taker.new left.old left.new result }
{
    if *left == 0 {
        return Next::Nothing;
    }
    match taker.take(rt) {
        Some(Posted::Out(_, out)) => Next::Out(out),
        Some(Posted::Ended(_)) => {
            *left -= 1;
            Next::Ended
        }
        None => Next::Nothing,
    }
}

/// The turns in a row in which a thread had nothing to do.
#[derive(Clone, Copy, Debug, PartialEq, Eq)]
pub struct Idle {
    turns: u32,
}

impl Idle {
    /// There was no such turn yet.
    pub fn new() -> Idle
        ensures { result.turns ≡ 0 }
    {
        Idle { turns: 0 }
    }

    /// Whether something was done in the last turn.
    pub fn is_none(&self) -> bool
        ensures { IsTrue result ↔ self.now.turns ≡ 0 }
    {
        self.turns == 0
    }

    /// Whether something was done a few turns ago: so more may be there soon, and the thread doesn't sleep.
    pub fn is_short(&self) -> bool
        ensures { IsTrue result ↔ self.now.turns < 8 }
    {
        self.turns < TURNS
    }

    /// Nothing was to be done in one turn more. The count stays at 2^32 - 1 once there.
    pub fn add(&mut self)
        ensures { self.new.turns ≡ min (self.old.turns + 1) u32.MAX }
    {
        self.turns = self.turns.saturating_add(1);
    }

    /// Something was done.
    pub fn end(&mut self)
        ensures { self.new.turns ≡ 0 }
    {
        self.turns = 0;
    }

    /// Lets other threads run where something was done a few turns ago. False where it was longer ago: the thread may sleep.
    pub fn yields(&self) -> bool
        ensures { IsTrue result ↔ self.now.turns < 8 }
    {
        let is_short = self.is_short();
        if is_short {
            thread::yield_now();
        }
        is_short
    }
}

/// What became of an out.
#[derive(Clone, Copy, Debug, PartialEq, Eq)]
pub enum Fate {
    /// It was an answer or a NOTIFY, and was sent.
    Sent,
    /// It was the start of a transfer, and was written.
    Started,
    /// The wire or the writer failed at it.
    Failed,
    /// It is a NOTIFY, and was not sent when it was taken: it waits for the answer to another one. No function here holds one back.
    Held,
}

/// What became of all outs.
#[derive(Clone, Copy, Debug, PartialEq, Eq)]
pub struct EmitReport {
    /// How many answers and NOTIFYs were sent.
    pub sent: u64,
    /// How many transfers were written.
    pub starts: u64,
    /// At how many outs the wire or the writer failed.
    pub failed: u64,
    /// How many NOTIFYs were not sent when they were taken.
    pub held: u64,
}

/// Sends an answer or a NOTIFY, or writes the line of a transfer that starts and flushes it. It takes no memory.
pub fn put_out<R: Wait, W: Wire, F: Write>(
    rt: &R,
    wire: &mut W,
    sink: &mut Sink<F>,
    out: &Out,
) -> Fate
    ensures fate { MayMeet out.now result }
    ensures not_held { is_held result ≡ false }
    ensures given { Grows (W.given wire.old) (W.given wire.new) [] }
    ensures taken { Grows (W.taken wire.old) (W.taken wire.new) (sent_datagrams ((out.now, result) ∷ [])) }
    ensures wire_failures { W.failures wire.new
        ≡ rises (count fails_to_send ((out.now, result) ∷ [])) (W.failures wire.old) }
    ensures failures { sink.new.failures
        ≡ rises (count fails_to_start ((out.now, result) ∷ [])) sink.old.failures }
    ensures writes { Writes (F.contents sink.old.writer) (F.contents sink.new.writer) out.now result }
    ensures flushed { result ≡ Fate.Started → sink.new.is_flushed ≡ true }
    ensures stays { is_start out.now ≡ false → sink.new ≡ sink.old }
{
    match out {
        Out::Answer { to, bytes } => match wire.send(rt, *to, bytes.as_slice()) {
            Ok(()) => Fate::Sent,
            Err(_) => Fate::Failed,
        },
        Out::Notify { to, bytes, .. } => match wire.send(rt, *to, bytes.as_slice()) {
            Ok(()) => Fate::Sent,
            Err(_) => Fate::Failed,
        },
        Out::Start { tag, refer_to } => match write_start(sink, tag.as_str(), refer_to.as_str()) {
            Ok(()) => Fate::Started,
            Err(_) => Fate::Failed,
        },
    }
}

impl EmitReport {
    /// One out more.
    fn add<R: Wait>(&mut self, rt: &R, fate: Fate)
        ensures { self.new ≡ counted self.old fate }
    {
        match fate {
            Fate::Sent => self.sent = count_up(rt, self.sent, 1),
            Fate::Started => self.starts = count_up(rt, self.starts, 1),
            Fate::Failed => self.failed = count_up(rt, self.failed, 1),
            Fate::Held => self.held = count_up(rt, self.held, 1),
        }
    }
}

/// Sends out what the workers post, in the order in which it is taken, until each worker has ended: answers and NOTIFYs by the
/// wire, and a line for each transfer that starts. What fails is counted, and the rest goes on. Where nothing is posted the
/// thread yields, and after a while it sleeps between two looks. No worker's end mark was taken yet.
pub fn emit<R: Wait + Clock, W: Wire, F: Write>(
    rt: &R,
    wire: &mut W,
    sink: &mut Sink<F>,
    taker: &mut Taker,
    workers: u32,
) -> EmitReport
    requires workers { workers ≡ taker.old.workers }
    requires none_ended { count_ended taker.old.workers taker.old.got ≡ 0 }
    // Where the writer never failed, what it took is flushed.
    ensures emitted { (log : Fates) × IsEmitted taker.old.workers log taker.old.got taker.new.got
        (wire_seen W.taken W.failures wire.old) (wire_seen W.taken W.failures wire.new)
        (writer_seen F.contents sink.old) (writer_seen F.contents sink.new) result
        × (count fails_to_start log ≡ 0 → (sink.new ≡ sink.old) ⊎ (sink.new.is_flushed ≡ true)) }
    ensures given { Grows (W.given wire.old) (W.given wire.new) [] }
    ensures outbox { taker.new.outbox ≡ taker.old.outbox }
    ensures workers { taker.new.workers ≡ taker.old.workers }
    ensures ended { AllEnded taker.old.workers taker.new.got }
{
    let mut report = EmitReport {
        sent: 0,
        starts: 0,
        failed: 0,
        held: 0,
    };
    let mut left = workers;
    let mut idle = Idle::new();
    for _ in rt.forever() {
        if left == 0 {
            return report;
        }
        match next_out(rt, taker, &mut left) {
            Next::Out(out) => {
                idle.end();
                let fate = put_out(rt, wire, sink, &out);
                report.add(rt, fate);
            }
            Next::Ended => {}
            Next::Nothing => {
                idle.add();
                if !idle.yields() {
                    thread::sleep(rt, Duration::from_micros(NAP));
                }
            }
        }
    }
    unreachable!()
}
