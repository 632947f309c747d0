//! How a crew is started.
ghost use Rattle.std.specs.Prelude.{◌≡◌, ◌↔◌, ◌⊎◌, ◌<◌, ◌≤◌, ℕ, true, [], length, map, get_or, vec_len, vec_capacity, IfOk, IfErr, IsTrue, OnOk, OnErr, MatchOption, Err};
ghost use Rattle.notifier.specs.Held.{seen_by};
ghost use Rattle.crew.specs.Desks.{standing_of, AllMayBegin, MayBegin, IsUnfit};
ghost use Rattle.crew.specs.Ready.{start_of, new_worker_seen, IsFit};
ghost use Rattle.crew.specs.Started.{hired, HaveBegun, IsStarted};

use crate::end::Done;
use crate::errors::{GoOnError, StartError};
use crate::fitting::{CrewParts, fit_out};
use crate::gate::Gate;
use crate::launching::{Began, NewWorker, launch};
use crate::port::Port;
use crate::report::WorkerReport;
use crate::seating::open_desks;
use notifier::{Desk, Setup};
use package::Package;
use queues::outbox::{Posted, Taker};
use std::alloc::Global;
use std::marker::Model;
use std::sync::{Arc, Wait};
use std::thread;
use std::thread::{PromisedHandle, Threads};

/// Workers that run. Contracts see what each began with. Where it is dropped the workers go on, each in its own thread, until
/// their ports have ended.
pub struct Crew {
    workers: Vec<PromisedHandle<Done, Began>>,
    reports: Vec<WorkerReport>,
}

/// By hand, so that all that drops one calls this one function, and none proves the ways through each field.
impl Drop for Crew {
    fn drop(self) {
        let Crew {
            workers: _,
            reports: _,
        } = self;
    }
}

impl Model for Crew {
    ghost use Rattle.std.specs.Prelude.{◌≡◌, ◌≤◌, List, [], map, vec_len, vec_capacity};
    ghost use Rattle.std.specs.Coded.{codes};
    ghost use Rattle.package.specs.Code.{coded_contents};
    ghost use Rattle.crew.specs.Started.{Hired, hired};

    ghost Value = { List Hired };

    ghost coded = { Prim.hlevel (codes, coded_contents) };

    ghost view = { λ c. map (λ h. hired h.promise) c.workers.items };

    ghost invariant = { λ c. (vec_len c.workers ≤ vec_capacity c.reports) × (c.reports.items ≡ []) };
}

/// Launches the workers, in their order. False where a thread was refused; then fewer run, and what the others were given is
/// dropped.
fn launch_all<R, P, G>(
    rt: R,
    alloc: Global,
    new_workers: Vec<NewWorker<P>>,
    gates: Vec<Arc<G, Global>>,
    mut workers: Vec<PromisedHandle<Done, Began>>,
) -> (Vec<PromisedHandle<Done, Began>>, bool)
where
    R: Threads + Wait + Copy + Send + 'static,
    P: Package + 'static,
    G: Gate + Drop + 'static,
    requires room { vec_len new_workers ≤ vec_capacity workers }
    requires empty { workers.items ≡ [] }
    requires gates { vec_len gates ≡ vec_len new_workers }
    requires ready { (k : ℕ) (s : _) → k < vec_len new_workers
        → IsFit (new_worker_seen P.seen (get_or new_workers.items k s)) }
    ensures all { result.1 ≡ true → vec_len result.0 ≡ vec_len new_workers }
    ensures launched { (k : ℕ) (h : _) (s : _) → k < vec_len result.0 →
        hired (get_or result.0.items k h).promise ≡ record {
          stands = (get_or new_workers.items k s).token.stands;
          reads = (get_or new_workers.items k s).receiver;
          posts = (get_or new_workers.items k s).poster;
        } }
{
    let mut rest = gates.into_iter();
    for new_worker in new_workers {
        let Some(gate) = rest.next() else {
            unreachable!()
        };
        let Ok(worker) = launch(rt, alloc, new_worker, gate) else {
            return (workers, false);
        };
        workers.push_reserved(worker);
    }
    (workers, true)
}

/// Takes and drops what workers post until so many have ended.
fn take_ends<R: Wait>(rt: &R, taker: &mut Taker, workers: usize) {
    let mut left = workers;
    for _ in rt.forever() {
        if left == 0 {
            break;
        }
        match taker.take(rt) {
            Some(Posted::Ended(_)) => left -= 1,
            Some(Posted::Out(..)) => {}
            None => thread::yield_now(),
        }
    }
}

/// Joins workers whose ports are gone. Their end marks are taken first: an outbox that holds one item is full with the first
/// worker's, and the others could not end.
fn stop_all<R: Threads + Wait>(
    rt: &R,
    workers: Vec<PromisedHandle<Done, Began>>,
    taker: &mut Taker,
) {
    take_ends(rt, taker, workers.len());
    for worker in workers {
        let done = worker.join(rt);
        drop(done);
    }
}

impl Crew {
    /// The handles of the workers, and room for their reports.
    pub(crate) fn into_parts(self) -> (Vec<PromisedHandle<Done, Began>>, Vec<WorkerReport>)
        ensures workers { map (λ h. hired h.promise) result.0.items ≡ self }
        ensures room { vec_len result.0 ≤ vec_capacity result.1 }
        ensures empty { result.1.items ≡ [] }
    {
        let Crew { workers, reports } = self;
        (workers, reports)
    }
}

/// Whether there is a worker, and a port by which something can be sent to it.
fn judge(workers: usize, ports: u32) -> Result<(), StartError>
    ensures no_workers { result ≡ Err StartError.NoWorkers ↔ workers ≡ 0 }
    ensures no_ports { result ≡ Err StartError.NoPorts ↔ (0 < workers) × (ports ≡ 0) }
    ensures ok { OnOk result ((0 < workers) × (0 < ports)) }
    ensures refused { OnErr result ((workers ≡ 0) ⊎ (ports ≡ 0)) }
{
    if workers == 0 {
        Err(StartError::NoWorkers)
    } else if ports == 0 {
        Err(StartError::NoPorts)
    } else {
        Ok(())
    }
}

/// Whether a worker of this number can begin with this desk, where the first worker begins with that one.
fn may_begin<P: Package>(first: &Desk<P>, worker: u32, desk: &Desk<P>) -> bool
    ensures { IsTrue result ↔ MayBegin (seen_by P.seen first.now) worker (seen_by P.seen desk.now) }
{
    if first.is_spent() || desk.is_spent() {
        return false;
    }
    let place = desk.place();
    place.worker == worker && place.limits.outbox() == first.place().limits.outbox()
}

/// The number of the first desk with which no worker can begin, if there is one.
fn first_unfit<P: Package>(desks: &[Desk<P>]) -> Option<u32>
    requires few { length desks.now ≤ 256 }
    ensures { MatchOption result (AllMayBegin P.seen desks.now) (λ worker. IsUnfit P.seen desks.now worker) }
{
    for at in 0..desks.len() {
        if !may_begin(&desks[0], at as u32, &desks[at]) {
            return Some(at as u32);
        }
    }
    None
}

/// Starts a worker for each of these desks.
fn man<R, P, G>(
    rt: R,
    alloc: Global,
    ports: u32,
    desks: Vec<Desk<P>>,
    gate: Arc<G, Global>,
) -> Result<(Crew, Vec<Port>, Taker), StartError>
where
    R: Threads + Wait + Copy + Send + 'static,
    P: Package + 'static,
    G: Gate + Drop + 'static,
    requires few_ports { ports ≤ 256 }
    requires some { 0 < vec_len desks }
    requires few_workers { vec_len desks ≤ 256 }
    requires fit { AllMayBegin P.seen desks.items }
    ensures begun { IfOk result (λ r. (d : _) → HaveBegun
        (λ k. standing_of P.seen (get_or desks.items k d)) (vec_len desks) ports r.0 r.1.items r.2) }
    ensures causes { IfErr result (λ error. (error ≡ StartError.NoMemory) ⊎ (error ≡ StartError.NoThread)) }
{
    let all = desks.as_slice();
    let limits = all[0].place().limits;
    let Ok(fitted) = fit_out(alloc, &limits, ports, desks, &gate) else {
        return Err(StartError::NoMemory);
    };
    let CrewParts {
        new_workers,
        gates,
        ports,
        mut taker,
        workers,
        reports,
    } = fitted;
    let (workers, is_whole) = launch_all(rt, alloc, new_workers, gates, workers);
    if !is_whole {
        drop(ports);
        stop_all(&rt, workers, &mut taker);
        return Err(StartError::NoThread);
    }
    Ok((Crew { workers, reports }, ports, taker))
}

impl Crew {
    /// Starts a worker for each of these desks, which goes on where its desk stands, and makes this many ports and the taker of what the
    /// workers post. The gate is passed before each event. The desks are those of workers 0, 1, 2 and so on, and [`GoOnError::BadDesk`]
    /// names the first that isn't. Where it is refused what was started has ended and is joined, and the desks are dropped.
    pub fn go_on<R, P, G>(
        rt: R,
        alloc: Global,
        ports: u32,
        desks: Vec<Desk<P>>,
        gate: Arc<G, Global>,
    ) -> Result<(Crew, Vec<Port>, Taker), GoOnError>
    where
        R: Threads + Wait + Copy + Send + 'static,
        P: Package + 'static,
        G: Gate + Drop + 'static,
        requires few_ports { ports ≤ 256 }
        requires few_workers { vec_len desks ≤ 256 }
        ensures begun { IfOk result (λ r. (d : _) → HaveBegun
            (λ k. standing_of P.seen (get_or desks.items k d)) (vec_len desks) ports r.0 r.1.items r.2) }
        ensures fit { OnOk result (AllMayBegin P.seen desks.items) }
        ensures no_workers { result ≡ Err (GoOnError.Start StartError.NoWorkers) ↔ vec_len desks ≡ 0 }
        ensures no_ports { result ≡ Err (GoOnError.Start StartError.NoPorts) ↔ (0 < vec_len desks) × (ports ≡ 0) }
        ensures bad_desk { (worker : ℕ) → result ≡ Err (GoOnError.BadDesk worker)
            ↔ (0 < ports) × IsUnfit P.seen desks.items worker }
    {
        if let Err(error) = judge(desks.len(), ports) {
            return Err(GoOnError::Start(error));
        }
        if let Some(worker) = first_unfit(desks.as_slice()) {
            return Err(GoOnError::BadDesk(worker));
        }
        match man(rt, alloc, ports, desks, gate) {
            Ok(manned) => Ok(manned),
            Err(error) => Err(GoOnError::Start(error)),
        }
    }

    /// What [`Crew::start`] does over boxes, over packages of any one type.
    pub fn start_any<R, P, G>(
        rt: R,
        alloc: Global,
        setup: &Setup,
        ports: u32,
        boxes: Vec<Vec<P>>,
        gate: Arc<G, Global>,
    ) -> Result<(Crew, Vec<Port>, Taker), StartError>
    where
        R: Threads + Wait + Copy + Send + 'static,
        P: Package + 'static,
        G: Gate + Drop + 'static,
        requires few_ports { ports ≤ 256 }
        requires few_workers { vec_len boxes ≤ 256 }
        ensures started { IfOk result (λ r. (b : _) → IsStarted
            (λ w. start_of P.seen setup.now w (get_or boxes.items w b).items) (vec_len boxes) ports r.0 r.1.items r.2) }
        ensures no_workers { result ≡ Err StartError.NoWorkers ↔ vec_len boxes ≡ 0 }
        ensures no_ports { result ≡ Err StartError.NoPorts ↔ (0 < vec_len boxes) × (ports ≡ 0) }
    {
        judge(boxes.len(), ports)?;
        let Ok(desks) = open_desks(alloc, setup, boxes) else {
            return Err(StartError::NoMemory);
        };
        man(rt, alloc, ports, desks, gate)
    }
}
