//! The time, sent on.
ghost use Rattle.std.specs.Prelude.{◌≡◌, true, List, is_none};
ghost use Rattle.crew.specs.Kept.{SameSeats};
ghost use Rattle.feeds.specs.Fed.{failures_at};
ghost use Rattle.service.specs.Taken.{failures_then};
ghost use Rattle.notifier_model.specs.declared.event.Event.{Event};
ghost use Rattle.service.specs.Ticks.{AreNotices, ArePassedOn, new_stopwatch};

use crate::shared::Shared;
use crew::Port;
use feeds::{FeedEnd, send_event};
use notifier_model::Event;
use outage_clock::Look;
use std::rt::Clock;
use std::sync::Wait;
use std::thread;
use std::time::Duration;

/// How long the clock sleeps at most before it looks whether the service closes, in milliseconds.
const NAP: u64 = 100;

/// How many milliseconds a second has.
const SECOND: u64 = 1000;

/// What the time is read by. It counts how often the clock couldn't be read.
#[derive(Drop)]
pub struct Stopwatch {
    /// The second that was told last before the service began.
    tick: u64,
    failures: u64,
}

impl Stopwatch {
    /// One that hasn't failed yet, of a service that goes on from this second.
    pub fn new(tick: u64) -> Stopwatch
        ensures { result ≡ new_stopwatch tick }
    {
        Stopwatch { tick, failures: 0 }
    }

    /// How many milliseconds the service is up, and the moment of its clock. None where the clock can't be read.
    fn look<R: Wait + Clock>(&mut self, rt: &R, shared: &Shared) -> Option<(u64, Look)>
        ensures { self.new.failures ≡ failures_then (is_none result) self.old.failures }
    {
        match shared.look(rt) {
            Some(look) => Some(look),
            None => {
                self.failures = self.failures.saturating_add(1);
                None
            }
        }
    }
}

/// Sends a tick each second of the service's clock: the seconds since the service began, behind those that were told before it did, without
/// those in which nothing left this machine or the process stood still (`outage_clock`).
/// It fails the transfers whose START lines were not written. So it goes on until the service closes, the clock fails or a worker is gone.
/// Once a minute it says on standard error what was refused, dropped or not sent in it.
/// The port isn't closed.
pub fn tell_time<R: Wait + Clock + Eprint>(
    rt: &R,
    stopwatch: &mut Stopwatch,
    port: &mut Port,
    shared: &Shared,
) -> FeedEnd
    requires still_open { port.old.is_open ≡ true }
    // Ticks are sent to all workers, each later than the one before, and to its worker that a transfer fails, and nothing else.
    ensures ticks { (events : List Event) × AreNotices stopwatch.old.tick events × ArePassedOn events port.old port.new result }
    ensures failures { stopwatch.new.failures ≡ failures_at result stopwatch.old.failures }
    ensures seats { SameSeats port.old port.new }
{
    let mut second = stopwatch.tick;
    for _ in rt.forever() {
        if shared.is_closing() {
            return FeedEnd::Done;
        }
        if let Some(failed) = shared.lost_starts.take(rt) {
            if !send_event(rt, port, Event::Progress(failed)) {
                return FeedEnd::Gone;
            }
            continue;
        }
        thread::sleep(rt, Duration::from_millis(NAP));
        let Some((passed, look)) = stopwatch.look(rt, shared) else {
            return FeedEnd::Fault;
        };
        shared.complain(rt, passed / SECOND);
        shared.sync_journal(rt, passed / SECOND);
        shared.tell_outages(rt);
        let now = stopwatch.tick.saturating_add(look.moment / SECOND);
        if now <= second {
            continue;
        }
        if !send_event(rt, port, Event::Tick(now)) {
            return FeedEnd::Gone;
        }
        second = now;
    }
    unreachable!()
}
