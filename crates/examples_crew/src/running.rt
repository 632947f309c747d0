//! A crew that is run to its end.
ghost use Rattle.std.specs.Prelude.{◌≡◌, ◌≤◌, []};
ghost use Rattle.queues.specs.Ended.{AllEnded};

use crate::boxes::{Crowd, Part, Props, Role, crowd_of, place_all};
use crate::error::RunError;
use crate::feeding::{Fed, Feeder, join_feeds, start_feeds};
use crate::gates::Stage;
use crate::gathering::Gathered;
use crew::{Crew, Report};
use feeds::{EmitReport, emit};
use notifier_model::{Limits, Setup};
use package::Package;
use queues::outbox::{Posted, Taker};
use sip_text::{Addr, NoMemory};
use std::alloc::Global;
use std::rt::Clock;
use std::sync::{Arc, Wait};
use std::thread;
use std::thread::Threads;
use transport::{Sink, Wire};

/// How a crew is run: the places of its queues, and whether its subscriptions are told of a planned stop at the end.
#[derive(Clone, Copy)]
pub(crate) struct Plan {
    pub(crate) places: u32,
    pub(crate) stop: bool,
}

impl Plan {
    /// Queues of 64 places.
    pub(crate) const USUAL: Plan = Plan {
        places: 64,
        stop: false,
    };
}

/// The setup of a run: the limits of `notifyd`, but for the queues.
pub(crate) fn setup_of(plan: Plan) -> Result<Setup, RunError> {
    let Some(limits) = Limits::new(
        60,
        86400,
        3600,
        180,
        2147483647,
        1024,
        4294967295,
        64,
        plan.places,
        plan.places,
    ) else {
        return Err(RunError::NoRun);
    };
    Ok(Setup {
        limits,
        seed: [0; 32],
        me: Addr {
            ip: [127, 0, 0, 1],
            port: 5060,
        },
        stop: plan.stop,
    })
}

/// A crew that may start.
#[derive(Drop)]
pub(crate) struct Ready {
    pub(crate) setup: Setup,
    pub(crate) crowd: Crowd,
    pub(crate) gate: Arc<Stage, Global>,
}

/// Makes a crew of these workers ready.
pub(crate) fn make_ready(
    alloc: Global,
    plan: Plan,
    roles: &[Role],
    props: &Props,
) -> Result<Ready, RunError> {
    let setup = setup_of(plan)?;
    let gate = Arc::try_clone(&props.stage)?;
    let crowd = crowd_of(alloc, roles, props)?;
    Ok(Ready { setup, crowd, gate })
}

/// What becomes of the outs of a crew.
pub(crate) trait Taking {
    ghost use Rattle.std.specs.Prelude.{◌≡◌, []};
    ghost use Rattle.queues.specs.Ended.{AllEnded};

    /// Takes what the workers post until each has ended.
    fn take_all<R: Wait + Clock>(&mut self, rt: &R, alloc: Global, taker: &mut Taker, workers: u32)
        requires none { taker.old.got ≡ [] }
        requires workers { workers ≡ taker.old.workers }
        ensures outbox { taker.new.outbox ≡ taker.old.outbox }
        ensures ended { AllEnded taker.old.workers taker.new.got };
}

/// Takes what the workers post until each has ended, and has it heard. Where the outbox is empty the thread yields.
fn gather<R: Wait>(rt: &R, alloc: Global, taker: &mut Taker, workers: u32, gathered: &mut Gathered)
    requires none { taker.old.got ≡ [] }
    requires workers { workers ≡ taker.old.workers }
    ensures outbox { taker.new.outbox ≡ taker.old.outbox }
    ensures ended { AllEnded taker.old.workers taker.new.got }
{
    let mut left = workers;
    for _ in rt.forever() {
        if left == 0 {
            return;
        }
        match taker.take(rt) {
            Some(Posted::Ended(_)) => left -= 1,
            Some(Posted::Out(worker, out)) => {
                gathered.hear(alloc, worker, &out);
                drop(out);
            }
            None => thread::yield_now(),
        }
    }
    unreachable!()
}

impl Taking for Gathered {
    fn take_all<R: Wait + Clock>(
        &mut self,
        rt: &R,
        alloc: Global,
        taker: &mut Taker,
        workers: u32,
    ) {
        gather(rt, alloc, taker, workers, self);
    }
}

/// A wire by which the outs go, and what became of them.
#[derive(Drop)]
pub(crate) struct Going<W> {
    pub(crate) wire: W,
    pub(crate) emitted: Option<EmitReport>,
}

impl<W: Wire> Taking for Going<W> {
    fn take_all<R: Wait + Clock>(
        &mut self,
        rt: &R,
        alloc: Global,
        taker: &mut Taker,
        workers: u32,
    ) {
        let mut sink = Sink::new(Vec::new(alloc));
        let emitted = emit(rt, &mut self.wire, &mut sink, taker, workers);
        self.emitted = Some(emitted);
    }
}

/// What came of a crew: what its workers report, and what of each feed.
#[derive(Drop)]
pub(crate) struct Came {
    pub(crate) report: Report,
    pub(crate) fed: Vec<Fed>,
}

/// How many ports so many feeders need: one each, and 256 at most.
fn ports_for(feeders: usize) -> u32
    ensures { result ≤ 256 }
{
    if feeders < 256 { feeders as u32 } else { 256 }
}

/// Runs a crew to its end, with its packages in boxes. A thread for each feeder feeds a port of its own, while this one takes
/// what the workers post; then all are joined.
pub(crate) fn run<R, T>(
    rt: R,
    alloc: Global,
    ready: Ready,
    feeders: &mut Vec<Feeder>,
    taking: &mut T,
) -> Result<Came, RunError>
where
    R: Threads + Wait + Clock + Copy + Send + 'static,
    T: Taking,
{
    let Ready { setup, crowd, gate } = ready;
    let place = move |part: Part| -> Result<Box<dyn Package>, NoMemory> {
        match part {
            Part::Mail(boxes) => Ok(Box::new(alloc, boxes)?),
            Part::Transfers(transfers) => Ok(Box::new(alloc, transfers)?),
        }
    };
    let boxes = place_all(alloc, crowd, &place)?;
    let workers = boxes.len() as u32;
    let ports = ports_for(feeders.len());
    let (crew, ports, mut taker) = Crew::start(rt, alloc, &setup, ports, boxes, gate)?;
    let threads = start_feeds(rt, alloc, ports, feeders);
    taking.take_all(&rt, alloc, &mut taker, workers);
    let report = crew.join(&rt, Vec::new(alloc), taker);
    let fed = join_feeds(&rt, alloc, threads)?;
    Ok(Came { report, fed })
}
