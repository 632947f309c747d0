//! What feeds the ports of a crew with what comes by a wire.
ghost use Rattle.std.specs.Prelude.{◌≡◌, ◌∷◌, [], true, MatchBool};
ghost use Rattle.crew.specs.Kept.{SameSeats};
ghost use Rattle.transport.specs.Wires.{Grows};
ghost use Rattle.feeds.specs.Fed.{Sends, Misses, IsPassedOn, Log, datagrams, IsFed, is_fault, failures_at};

use crate::hearing::{Heard, Language, hear};
use crew::Port;
use notifier_model::Event;
use std::alloc::Global;
use std::sync::Wait;
use transport::Wire;

/// The room for a datagram: none is longer.
const ROOM: usize = 65536;

/// The most datagrams that [`control`] takes.
pub const MOST_CONTROL_LINES: u32 = 1_048_576;

/// Why a feed has ended.
#[derive(Clone, Copy, Debug, PartialEq, Eq)]
pub enum FeedEnd {
    /// All datagrams came that were to come, or CLOSE did.
    Done,
    /// The wire failed.
    Fault,
    /// A worker is gone.
    Gone,
}

impl FeedEnd {
    /// Whether the wire failed.
    pub fn is_fault(self) -> bool
        ensures { result ≡ is_fault self }
    {
        matches!(self, FeedEnd::Fault)
    }
}

/// What a feed did.
#[derive(Clone, Copy, Debug, PartialEq, Eq)]
pub struct FeedReport {
    /// How many datagrams came.
    pub seen: u32,
    /// How many of them were dropped unread.
    pub unread: u32,
    pub end: FeedEnd,
}

impl FeedReport {
    fn new(seen: u32, unread: u32, end: FeedEnd) -> FeedReport
        ensures { result ≡ record { seen = seen; unread = unread; end = end } }
    {
        FeedReport { seen, unread, end }
    }
}

/// What came of a datagram.
#[derive(Clone, Copy, Debug, PartialEq, Eq)]
pub enum Told {
    /// Its event was sent.
    Sent,
    /// It was dropped unread.
    Unread,
    /// The server takes no more.
    Close,
    /// The worker of its event is gone.
    Gone,
}

/// Sends an event to its home, or a tick or the planned stop to all workers, and waits while an inbox is full. False where the port
/// found a worker gone: an event with a home has gone to none then, and one for all to the workers before that one.
pub fn send_event<R: Wait>(rt: &R, port: &mut Port, happened: Event) -> bool
    requires still_open { port.old.is_open ≡ true }
    ensures sent { MatchBool result (Sends port.old (happened ∷ []) port.new) (Misses port.old happened port.new) }
    ensures seats { SameSeats port.old port.new }
{
    match happened {
        // `..`: the event is looked at, and dropped as one
        Event::Tick(now, ..) => port.tick(rt, now).is_ok(),
        Event::Shut { .. } => port.shut(rt).is_ok(),
        other => port.send(rt, other).is_ok(),
    }
}

/// Sends what was heard: its event, if it has one.
pub fn tell<R: Wait>(rt: &R, port: &mut Port, heard: Heard) -> Told
    requires still_open { port.old.is_open ≡ true }
    ensures told { IsPassedOn heard port.old port.new result }
    ensures seats { SameSeats port.old port.new }
{
    match heard {
        Heard::Unread => Told::Unread,
        Heard::Close => Told::Close,
        Heard::Event(happened) => {
            if send_event(rt, port, happened) {
                Told::Sent
            } else {
                Told::Gone
            }
        }
    }
}

/// Sends what the datagrams of a wire say, until so many have come, a CLOSE, a fault or a worker that is gone. The port isn't
/// closed.
pub fn listen<R: Wait, W: Wire>(
    rt: &R,
    alloc: Global,
    wire: &mut W,
    port: &mut Port,
    language: Language,
    count: u32,
) -> FeedReport
    requires still_open { port.old.is_open ≡ true }
    ensures fed { (log : Log) × Grows (W.given wire.old) (W.given wire.new) (datagrams log)
        × IsFed language count log port.old port.new result }
    ensures taken { Grows (W.taken wire.old) (W.taken wire.new) [] }
    ensures failures { W.failures wire.new ≡ failures_at result.end (W.failures wire.old) }
    ensures seats { SameSeats port.old port.new }
{
    let mut octets = [0; ROOM];
    let mut unread = 0;
    for seen in 0..count {
        let Ok((length, source)) = wire.recv(rt, &mut octets) else {
            return FeedReport::new(seen, unread, FeedEnd::Fault);
        };
        let heard = hear(alloc, language, source, &octets[..length]);
        match tell(rt, port, heard) {
            Told::Sent => {}
            Told::Unread => unread += 1,
            Told::Close => return FeedReport::new(seen + 1, unread, FeedEnd::Done),
            Told::Gone => return FeedReport::new(seen + 1, unread, FeedEnd::Gone),
        }
    }
    FeedReport::new(count, unread, FeedEnd::Done)
}

/// Sends the messages of so many SIP datagrams, or until a fault or a worker that is gone. What can't be read is counted and
/// dropped. The port isn't closed.
pub fn feed<R: Wait, W: Wire>(
    rt: &R,
    alloc: Global,
    wire: &mut W,
    port: &mut Port,
    count: u32,
) -> FeedReport
    requires still_open { port.old.is_open ≡ true }
    ensures fed { (log : Log) × Grows (W.given wire.old) (W.given wire.new) (datagrams log)
        × IsFed Language.Sip count log port.old port.new result }
    ensures done { result.end ≡ FeedEnd.Done → result.seen ≡ count }
    ensures taken { Grows (W.taken wire.old) (W.taken wire.new) [] }
    ensures failures { W.failures wire.new ≡ failures_at result.end (W.failures wire.old) }
    ensures seats { SameSeats port.old port.new }
{
    listen(rt, alloc, wire, port, Language::Sip, count)
}

/// Sends what control lines say happened, one in a datagram, until a CLOSE, [`MOST_CONTROL_LINES`], a fault or a worker that is
/// gone. What is no such line is counted and dropped. The port isn't closed.
pub fn control<R: Wait, W: Wire>(rt: &R, alloc: Global, wire: &mut W, port: &mut Port) -> FeedReport
    requires still_open { port.old.is_open ≡ true }
    ensures fed { (log : Log) × Grows (W.given wire.old) (W.given wire.new) (datagrams log)
        × IsFed Language.Control 1048576 log port.old port.new result }
    ensures taken { Grows (W.taken wire.old) (W.taken wire.new) [] }
    ensures failures { W.failures wire.new ≡ failures_at result.end (W.failures wire.old) }
    ensures seats { SameSeats port.old port.new }
{
    listen(rt, alloc, wire, port, Language::Control, MOST_CONTROL_LINES)
}
