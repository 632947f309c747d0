//! A crew that handles a script: one port, whose events the caller's thread sends, and a thread for the taker.
ghost use Rattle.std.specs.Prelude.{◌≡◌, ◌≢◌, ◌<◌, ◌≤◌, ℕ, true, List, [], length, get_or, vec_len, IfOk, IfErr};
ghost use Rattle.notifier_model.specs.Start.{Start};
ghost use Rattle.crew.specs.Ports.{PortSeats};
ghost use Rattle.crew.specs.Started.{Hired};
ghost use Rattle.crew.specs.Joined.{HasEndOf, IsPortOf};
ghost use Rattle.server.specs.Page.{events_at};
ghost use Rattle.server.specs.Runs.{starts_of};
ghost use Rattle.server.specs.Gathering.{AreNew, IsGathered};
ghost use Rattle.server.specs.Working.{AreWorks};
ghost use Rattle.server.specs.Crew.{cause_of, IsRunning, Counts, AreCounted, IsFinished};

use crate::gathering::{GatheredOuts, Lent, gather_all, new_works};
use crate::sending::send_script;
use crate::work::Work;
use crew::{Crew, End, Open, Port, StartError, WorkerReport};
use notifier_model::{Event, Setup};
use package::Package;
use queues::outbox::Taker;
use scripts::ScriptError;
use std::alloc::Global;
use std::snapshot::Snapshot;
use std::sync::{Arc, Wait};
use std::thread;
use std::thread::Threads;

/// Why no page is written where a crew isn't started.
fn refusal(error: StartError) -> ScriptError
    ensures { result ≡ cause_of error }
{
    match error {
        StartError::NoThread => ScriptError::Device,
        StartError::NoMemory | StartError::NoWorkers | StartError::NoPorts => ScriptError::NoMemory,
    }
}

/// Notes how many events the worker handled. False where it didn't come to the end of what was sent.
fn note_count(work: &mut Work, report: &WorkerReport) -> bool
    ensures { result ≡ true → Counts report.now work.old work.new }
{
    match report.end {
        End::Closed => {
            work.handled = report.handled;
            true
        }
        End::NoMemory(_) | End::Abandoned(_) => false,
    }
}

/// Notes how many events each worker handled. False where one didn't come to the end of what was sent.
fn note_counts(works: &mut [Work], reports: &[WorkerReport]) -> bool
    requires { length works.old ≡ length reports.now }
    ensures len { length works.new ≡ length works.old }
    ensures counted { result ≡ true → AreCounted (length works.old) reports.now works.old works.new }
{
    for at in 0..works.len() {
        let work = &mut works[at];
        if !note_count(work, &reports[at]) {
            return false;
        }
    }
    true
}

/// Joins a crew by these closed ports, if any, and a taker that has each end mark, and counts what the workers handled.
fn finish<H: Threads + Wait>(
    rt: &H,
    crew: Crew,
    ports: Vec<Port>,
    gathered: GatheredOuts,
    is_sent: bool,
) -> Result<Vec<Work>, ScriptError>
    requires ports { (p : ℕ) (q : PortSeats) → p < vec_len ports → IsPortOf crew (get_or ports.items p q) }
    requires ended { (w : ℕ) (h : Hired) → w < length crew → HasEndOf gathered.taker (get_or crew w h) }
    requires len { vec_len gathered.works ≡ length crew }
    ensures works { IfOk result (λ works. IsFinished crew ports.items gathered is_sent works.items) }
    ensures no_memory { IfErr result (λ e. e ≡ ScriptError.NoMemory) }
{
    let GatheredOuts {
        taker,
        mut works,
        is_whole,
    } = gathered;
    let report = crew.join(rt, ports, taker);
    let is_counted = note_counts(works.as_mut_slice(), report.workers.as_slice());
    if is_sent && is_whole && is_counted {
        Ok(works)
    } else {
        Err(ScriptError::NoMemory)
    }
}

/// Sends the events of a script to a crew that was just started, and waits for its end. Where there is no thread for the taker
/// nothing is sent, the taker is served here, and the crew has ended as well.
fn run_to_end<H>(
    rt: H,
    started: (Crew, Vec<Port>, Taker),
    works: Vec<Work>,
    events: Vec<Event>,
) -> Result<Vec<Work>, ScriptError>
where
    H: Threads + Wait + Copy + Send + 'static,
    requires some { 0 < length started.0 }
    requires running { (starts : List Start) × IsRunning starts started.0 started.1.items started.2 }
    requires new { AreNew (length started.0) works.items }
    ensures works { IfOk result (λ done. (starts : List Start) → IsRunning starts started.0 started.1.items started.2
        → AreWorks starts (events_at (length starts) events.items) done.items) }
    ensures causes { IfErr result (λ e. e ≢ ScriptError.BadScript) }
{
    let (crew, mut ports, taker) = started;
    let Some(mut port) = ports.pop() else {
        unreachable!()
    };
    let lent = Lent {
        taker: Snapshot::of(&taker),
    };
    let gather = move || -> GatheredOuts
        requires { (taker.got ≡ []) × AreNew taker.workers works.items }
        ensures { IsGathered taker result }
    {
        let taker = taker;
        let works = works;
        gather_all(&rt, taker, works)
    };
    match thread::spawn_with(&rt, lent, gather) {
        Ok(handle) => {
            let is_sent = send_script(&rt, &mut port, events);
            let gathered = handle.join(&rt);
            ports.push_reserved(port);
            finish(&rt, crew, ports, gathered, is_sent)
        }
        Err(refused) => {
            drop(port);
            let gather = refused.value;
            let gathered = gather();
            drop(finish(&rt, crew, ports, gathered, false));
            Err(ScriptError::Device)
        }
    }
}

/// Has a crew of workers with these boxes handle the events, each where it goes, and the stop where one is planned. A worker
/// that didn't come to its end ran out of memory, and a thread that can't be started is a device fault.
pub fn work_together<H, P>(
    rt: H,
    alloc: Global,
    setup: &Setup,
    boxes: Vec<Vec<P>>,
    events: Vec<Event>,
) -> Result<Vec<Work>, ScriptError>
where
    H: Threads + Wait + Copy + Send + 'static,
    P: Package + 'static,
    requires few { vec_len boxes ≤ 256 }
    ensures works { IfOk result (λ works. let starts = starts_of P.seen setup.now boxes.items
        in AreWorks starts (events_at (length starts) events.items) works.items) }
    ensures causes { IfErr result (λ e. e ≢ ScriptError.BadScript) }
{
    let works = new_works(alloc, boxes.len())?;
    let gate = Arc::new(alloc, Open)?;
    match Crew::start_any(rt, alloc, setup, 1, boxes, gate) {
        Ok(started) => run_to_end(rt, started, works, events),
        Err(error) => Err(refusal(error)),
    }
}
