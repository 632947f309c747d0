//! A crew that runs as a service, to its end.
ghost use Rattle.std.specs.Prelude.{◌≡◌, ◌<◌, ◌≤◌, ◌⊎◌, ◌*◌, ◌∷◌, [], ℕ, List, get_or, vec_len, vec_capacity, Err, IfOk, IfErr, OnOk, OnErr};
ghost use Rattle.notifier.specs.Standing.{Standing};
ghost use Rattle.crew.specs.Desks.{standing_of, AllMayBegin, IsUnfit};
ghost use Rattle.crew.specs.Ports.{PortSeats};
ghost use Rattle.crew.specs.Started.{HaveBegun};
ghost use Rattle.service.specs.Handing.{IsNew, NoneClosed, AreLent, AreErrands, begins_so};
ghost use Rattle.service.specs.declared.error.RunError.TheVariants as error;
ghost use Rattle.service.specs.declared.running.Sources.{Sources};
ghost use Rattle.transport.specs.Sockets.{misses};
ghost use Rattle.transactions.specs.Machine.{empty};
ghost use Rattle.service.specs.Running.{Opening, Runs, Leaves, AreFaults, IsFresh, beginning, is_faulty, opening};
ghost use Rattle.service.specs.Releasing.{waits};
ghost use Rattle.service.specs.Sending.{open_first, outflow};
ghost use Rattle.service.specs.Taken.{seen};
ghost use Rattle.service.specs.Ticks.{new_stopwatch};

use crate::begins::Begins;
use crate::clock::Stopwatch;
use crate::datagrams::SipDesk;
use crate::error::RunError;
use crate::feeding::{Feeder, Task, start_feeder};
use crate::lines::{ControlDesk, ControlPort};
use crate::outs::{Exit, Outgoing, Waker, send_outs};
use crate::roll::RollCall;
use crate::sending::Waiting;
use crate::shared::Shared;
use admission::Admission;
use crew::{Crew, Port, Report};
use feeds::FeedEnd;
use first_contact::Contacts;
use notifier::Desk;
use notifier_model::Setup;
use package::Package;
use queues::outbox::Taker;
use sip_text::{Addr, NoMemory};
use std::alloc::Global;
use std::fs::File;
use std::io::Write;
use std::rt::{Clock, Files};
use std::sync::{Arc, Wait};
use std::thread::Threads;
use transactions::{Allowance, Transactions};
use transport::{UdpWire, Wire};
use watchers::Watchers;

/// What a service works with beside its packages.
#[derive(Drop)]
pub struct ServiceWork {
    pub setup: Setup,
    /// What hears SIP datagrams.
    pub sip: SipDesk<UdpWire>,
    /// Where control lines come in, and of which mailboxes.
    pub desk: ControlPort<UdpWire>,
    pub shared: Arc<Shared, Global>,
    /// What it begins with beside its desks.
    pub begins: Begins,
    /// How many NOTIFYs may wait for their answers at once, of all and of one subscription, and are sent again until these come. 0: each
    /// is sent once.
    pub repeats: Allowance,
    /// For how many seconds at most it waits, at its end, for the answers to the last NOTIFYs.
    pub linger: u32,
    /// How many seconds at most its clock leaves out in which each send fails. 0: none.
    pub outage: u32,
}

/// What came of a service.
#[derive(Drop)]
pub struct ServiceEnd {
    /// Why no more SIP datagrams were taken.
    pub sip: FeedEnd,
    /// Whether the wire by which they come was deaf behind that, while answers were heard.
    pub sip_fails_late: bool,
    /// Why no more control lines were.
    pub lines: FeedEnd,
    /// Whether the wire by which they come was deaf behind that, while lines were refused.
    pub lines_fail_late: bool,
    /// Why no more time was told.
    pub time: FeedEnd,
    /// What each worker did.
    pub report: Report,
    /// What heard SIP datagrams, as it is left.
    pub sip_desk: SipDesk<UdpWire>,
    /// What took control lines, as it is left.
    pub desk: ControlDesk<UdpWire>,
    /// What the time was read by, as it is left.
    pub stopwatch: Stopwatch,
}

impl ServiceEnd {
    /// Whether a wire by which something comes in was deaf, or the clock failed.
    pub fn is_faulty(&self) -> bool
        ensures { result ≡ is_faulty self.now }
    {
        self.sip.is_fault()
            || self.sip_fails_late
            || self.lines.is_fault()
            || self.lines_fail_late
            || self.time.is_fault()
    }
}

/// A crew that runs as a service.
#[derive(Drop)]
pub(crate) struct RunningService {
    pub(crate) crew: Crew,
    pub(crate) outgoing: Outgoing,
    pub(crate) shared: Arc<Shared, Global>,
}

/// What its ports are fed from: SIP datagrams, control lines, and the time.
#[derive(Drop)]
pub(crate) struct Sources {
    pub(crate) sip: SipDesk<UdpWire>,
    pub(crate) desk: ControlDesk<UdpWire>,
    pub(crate) stopwatch: Stopwatch,
}

/// The threads that feed its ports.
#[derive(Drop)]
pub(crate) struct Feeders {
    pub(crate) sip: Feeder,
    pub(crate) lines: Feeder,
    pub(crate) time: Feeder,
}

/// The threads that were started where a further one was refused.
#[derive(Drop)]
pub(crate) struct Begun {
    time: Option<Feeder>,
    lines: Option<Feeder>,
}

impl Begun {
    /// Waits for their ends, once the service closes and is finished, and lets their ports go: while an end of a closed port is
    /// kept, workers wait for a port that went away unclosed.
    fn end<R: Threads + Wait>(self, rt: &R) {
        let Begun { time, lines } = self;
        if let Some(time) = time {
            drop(time.join(rt));
        }
        if let Some(lines) = lines {
            drop(lines.join(rt));
        }
    }
}

/// The three ports of a crew.
fn take_three(ports: &mut Vec<Port>) -> (Port, Port, Port)
    requires { vec_len ports.old ≡ 3 }
    ensures all { ports.old.items ≡ result.0 ∷ result.1 ∷ result.2 ∷ [] }
    ensures none { vec_len ports.new ≡ 0 }
    ensures capacity { vec_capacity ports.new ≡ vec_capacity ports.old }
{
    let Some(third) = ports.pop() else {
        unreachable!()
    };
    let Some(second) = ports.pop() else {
        unreachable!()
    };
    let Some(first) = ports.pop() else {
        unreachable!()
    };
    (first, second, third)
}

/// Starts a thread for each of the three ports, or answers those that were started where one is refused. The one for SIP is the
/// last: so nothing was subscribed then, and no worker waits for room in the outbox.
fn start_feeders<R: Threads + Wait + Clock + Eprint + Copy + Send + 'static>(
    rt: R,
    alloc: Global,
    ports: &mut Vec<Port>,
    sources: Sources,
    shared: &Arc<Shared, Global>,
) -> Result<Feeders, Begun>
    requires three { vec_len ports.old ≡ 3 }
    requires still_open { NoneClosed ports.old.items }
    ensures ports { IfOk result (λ f. AreLent ports.old.items f) }
    ensures errands { IfOk result (AreErrands sources) }
    ensures none { vec_len ports.new ≡ 0 }
    ensures capacity { vec_capacity ports.new ≡ vec_capacity ports.old }
{
    let (first, second, third) = take_three(ports);
    let Sources {
        sip,
        desk,
        stopwatch,
    } = sources;
    let Ok(time) = start_feeder(rt, alloc, third, Task::Time(stopwatch), shared) else {
        drop((first, second, sip, desk));
        return Err(Begun {
            time: None,
            lines: None,
        });
    };
    let Ok(lines) = start_feeder(rt, alloc, second, Task::Lines(desk), shared) else {
        drop((first, sip));
        return Err(Begun {
            time: Some(time),
            lines: None,
        });
    };
    let Ok(sip) = start_feeder(rt, alloc, first, Task::Datagrams(sip), shared) else {
        return Err(Begun {
            time: Some(time),
            lines: Some(lines),
        });
    };
    Ok(Feeders { sip, lines, time })
}

/// Closes a service of which only these threads were started, and waits for their end and that of its crew.
fn wind_up<R: Threads + Wait + Clock + Files<File = File> + Eprint, W: Wire, F: Write>(
    rt: &R,
    alloc: Global,
    running: RunningService,
    begun: Begun,
    exit: &mut Exit<W, F>,
)
    requires new { (stands : ℕ → Standing) × (ports : List PortSeats) × IsNew stands ports running }
    requires none_put { running.outgoing.waiting.burst.items ≡ [] }
    requires none_waits { (tag : List ℕ) → waits running.outgoing.waiting.contacts tag ≡ [] }
    ensures { (stands : ℕ → Standing) (ports : List PortSeats) (tick : ℕ) → IsNew stands ports running
        → Leaves (begins_so stands running tick) running.outgoing.workers
        (outflow W.taken W.failures F.contents exit.old exit.new) }
{
    let RunningService {
        crew,
        mut outgoing,
        shared,
    } = running;
    shared.close();
    shared.finish();
    begun.end(rt);
    send_outs(rt, exit, &mut outgoing, &shared);
    let Outgoing {
        taker,
        waiting,
        parker,
        ..
    } = outgoing;
    let report = crew.join(rt, Vec::new(alloc), taker);
    drop((report, waiting, parker));
}

/// Sends out what the workers post until the ports have ended, and joins all threads. There is room for the ports.
fn send_to_end<R: Threads + Wait + Clock + Files<File = File> + Eprint, W: Wire, F: Write>(
    rt: &R,
    running: RunningService,
    mut ports: Vec<Port>,
    feeders: Feeders,
    exit: &mut Exit<W, F>,
) -> ServiceEnd
    requires new { (stands : ℕ → Standing) × (lent : List PortSeats) × IsNew stands lent running × AreLent lent feeders }
    requires none_put { running.outgoing.waiting.burst.items ≡ [] }
    requires none_waits { (tag : List ℕ) → waits running.outgoing.waiting.contacts tag ≡ [] }
    requires errands { (sources : Sources) × AreErrands sources feeders }
    requires room { (vec_len ports ≡ 0) × (3 ≤ vec_capacity ports) }
    ensures faults { (sources : Sources) → AreErrands sources feeders → sources.stopwatch.failures ≡ 0
        → AreFaults (misses sources.sip.coming) (misses sources.desk.coming) result }
    ensures runs { (stands : ℕ → Standing) (lent : List PortSeats) (sources : Sources)
        → IsNew stands lent running → AreLent lent feeders → AreErrands sources feeders
        → (opened : Opening) → IsFresh opened running.outgoing.workers (seen sources.desk)
        → Runs (begins_so stands running sources.stopwatch.tick) running.outgoing.workers opened sources.sip.admission
        (outflow W.taken W.failures F.contents exit.old exit.new) result }
{
    let RunningService {
        crew,
        mut outgoing,
        shared,
    } = running;
    send_outs(rt, exit, &mut outgoing, &shared);
    shared.finish();
    let Feeders { sip, lines, time } = feeders;
    let sip = sip.join(rt);
    let lines = lines.join(rt);
    let time = time.join(rt);
    shared.complain_last(rt);
    ports.push_reserved(sip.port);
    ports.push_reserved(lines.port);
    ports.push_reserved(time.port);
    let Outgoing {
        taker,
        waiting,
        parker,
        ..
    } = outgoing;
    let report = crew.join(rt, ports, taker);
    drop((waiting, parker));
    ServiceEnd {
        sip: sip.end,
        sip_fails_late: sip.fails_late,
        lines: lines.end,
        lines_fail_late: lines.fails_late,
        time: time.end,
        report,
        sip_desk: sip.left.into_sip_desk(),
        desk: lines.left.into_control_desk(),
        stopwatch: time.left.into_stopwatch(),
    }
}

/// Has a crew that was just started run as a service to its end, and joins it. Where a thread is refused all that was started
/// ends. The stopwatch hasn't failed yet.
fn run_to_end<R, W, F>(
    rt: R,
    alloc: Global,
    running: RunningService,
    mut ports: Vec<Port>,
    sources: Sources,
    exit: &mut Exit<W, F>,
) -> Result<ServiceEnd, RunError>
where
    R: Threads + Wait + Clock + Files<File = File> + Eprint + Copy + Send + 'static,
    W: Wire,
    F: Write,
    requires some { 0 < running.outgoing.workers }
    requires new { (stands : ℕ → Standing) × IsNew stands ports.items running }
    requires none_put { running.outgoing.waiting.burst.items ≡ [] }
    requires none_waits { (tag : List ℕ) → waits running.outgoing.waiting.contacts tag ≡ [] }
    requires unfailed { sources.stopwatch.failures ≡ 0 }
    ensures served { IfOk result (λ o. (stands : ℕ → Standing) → IsNew stands ports.items running
        → (opened : Opening) → IsFresh opened running.outgoing.workers (seen sources.desk)
        → Runs (begins_so stands running sources.stopwatch.tick) running.outgoing.workers opened sources.sip.admission
        (outflow W.taken W.failures F.contents exit.old exit.new) o) }
    ensures faults { IfOk result (AreFaults (misses sources.sip.coming) (misses sources.desk.coming)) }
    ensures refused { IfErr result (λ e. e ≡ error.NoThread) }
    ensures left { OnErr result ((stands : ℕ → Standing) → IsNew stands ports.items running
        → Leaves (begins_so stands running sources.stopwatch.tick) running.outgoing.workers
        (outflow W.taken W.failures F.contents exit.old exit.new)) }
{
    match start_feeders(rt, alloc, &mut ports, sources, &running.shared) {
        Ok(feeders) => Ok(send_to_end(&rt, running, ports, feeders, exit)),
        Err(begun) => {
            wind_up(&rt, alloc, running, begun, exit);
            Err(RunError::NoThread)
        }
    }
}

/// Starts a crew with these desks and three ports, whose workers pass this gate.
fn start_crew<R, P>(
    rt: R,
    alloc: Global,
    desks: Vec<Desk<P>>,
    waker: Waker,
) -> Result<(Crew, Vec<Port>, Taker), RunError>
where
    R: Threads + Wait + Copy + Send + 'static,
    P: Package + 'static,
    requires few_workers { vec_len desks ≤ 256 }
    ensures begun { IfOk result (λ r. (d : _) → HaveBegun
        (λ w. standing_of P.seen (get_or desks.items w d)) (vec_len desks) 3 r.0 r.1.items r.2) }
    ensures some { IfOk result (λ _. 0 < vec_len desks) }
    ensures fit { OnOk result (AllMayBegin P.seen desks.items) }
    ensures bad_desk { (worker : ℕ) → result ≡ Err (error.BadDesk worker) → IsUnfit P.seen desks.items worker }
{
    let gate = Arc::new(alloc, waker)?;
    let started = Crew::go_on(rt, alloc, 3, desks, gate)?;
    Ok(started)
}

/// What a service sends with, before its crew is there.
#[derive(Drop)]
pub(crate) struct Sending {
    pub(crate) waiting: Waiting,
    /// For how many milliseconds at most the answers to the last NOTIFYs are waited for.
    pub(crate) linger: u64,
    pub(crate) shared: Arc<Shared, Global>,
}

/// What a service begins with, before its crew is there.
#[derive(Drop)]
pub(crate) struct Ready {
    pub(crate) sources: Sources,
    pub(crate) sending: Sending,
}

/// No NOTIFY waits, and so many may. So many rows may be. It is told how many each source has, where this admission lets it have so many only.
fn new_waiting(
    alloc: Global,
    repeats: Allowance,
    rows: u32,
    admission: &Admission,
) -> Result<Waiting, NoMemory>
    ensures none { IfOk result (λ w. w.transactions ≡ empty repeats) }
    ensures places { IfOk result (λ w. w.contacts.places ≡ repeats.all) }
    ensures none_put { IfOk result (λ w. w.burst.items ≡ []) }
    ensures none_waits { IfOk result (λ w. (tag : List ℕ) → waits w.contacts tag ≡ []) }
{
    let transactions = Transactions::new(alloc, repeats)?;
    let contacts = Contacts::new(alloc, rows.saturating_add(repeats.all), repeats.all);
    let rows = Watchers::new(alloc, rows);
    Waiting::new(alloc, transactions, rows, contacts, admission)
}

/// What the ports of a service with so many workers are fed from, which goes on from this second. It took no line yet, and hears none
/// that one of its two sockets sends.
fn new_sources(
    alloc: Global,
    workers: u32,
    sip: SipDesk<UdpWire>,
    desk: ControlPort<UdpWire>,
    tick: u64,
) -> Result<Sources, NoMemory>
    ensures sip { IfOk result (λ e. e.sip ≡ sip) }
    ensures coming { IfOk result (λ e. e.desk.coming ≡ desk.coming) }
    ensures fresh { IfOk result (λ e. IsFresh (opening desk) workers (seen e.desk)) }
    ensures own { IfOk result (λ e. e.desk.operators.own ≡ sip.coming.local ∷ desk.coming.local ∷ []) }
    ensures stopwatch { IfOk result (λ e. e.stopwatch ≡ new_stopwatch tick) }
{
    let own = [sip.coming.local(), desk.coming.local()];
    let desk = ControlDesk::at(alloc, desk, own, workers)?;
    let stopwatch = Stopwatch::new(tick);
    Ok(Sources {
        sip,
        desk,
        stopwatch,
    })
}

/// Has the threads of a service with so many workers know them, how long an outage may last, and where control lines are heard.
fn tell_shared(
    alloc: Global,
    shared: &Shared,
    workers: u32,
    outage: u32,
    control: Addr,
) -> Result<(), NoMemory> {
    shared.watch_control(control)?;
    shared.set_workers(workers);
    shared.allow_outages(outage);
    shared.set_roll(RollCall::new(alloc, workers)?);
    Ok(())
}

/// Makes what a service with so many workers begins with.
fn make_ready<R: Wait>(
    rt: &R,
    alloc: Global,
    workers: u32,
    work: ServiceWork,
) -> Result<Ready, NoMemory>
    ensures sip { IfOk result (λ r. r.sources.sip ≡ work.sip) }
    ensures coming { IfOk result (λ r. r.sources.desk.coming ≡ work.desk.coming) }
    ensures fresh { IfOk result (λ r. IsFresh (opening work.desk) workers (seen r.sources.desk)) }
    ensures own { IfOk result (λ r. r.sources.desk.operators.own ≡ work.sip.coming.local ∷ work.desk.coming.local ∷ []) }
    ensures stopwatch { IfOk result (λ r. r.sources.stopwatch ≡ new_stopwatch work.begins.tick) }
    ensures first { IfOk result (λ r. r.sending.waiting.transactions ≡ open_first work.repeats work.begins.unanswered.items) }
    ensures none_put { IfOk result (λ r. r.sending.waiting.burst.items ≡ []) }
    ensures none_waits { IfOk result (λ r. (tag : List ℕ) → waits r.sending.waiting.contacts tag ≡ []) }
    ensures linger { IfOk result (λ r. r.sending.linger ≡ work.linger * 1000) }
{
    let rows = work.setup.limits.table().saturating_mul(workers);
    // What is left is dropped by a call: in place the proof would take it apart, field by field.
    let mut waiting = match new_waiting(alloc, work.repeats, rows, &work.sip.admission) {
        Ok(waiting) => waiting,
        Err(error) => {
            drop(work);
            return Err(error);
        }
    };
    let ServiceWork {
        setup: _,
        sip,
        desk,
        shared,
        begins,
        repeats: _,
        linger,
        outage,
    } = work;
    let sources = match new_sources(alloc, workers, sip, desk, begins.tick) {
        Ok(sources) => sources,
        Err(error) => {
            drop((waiting, begins, shared));
            return Err(error);
        }
    };
    let control = sources.desk.coming.local();
    if let Err(error) = tell_shared(alloc, &shared, workers, outage, control) {
        drop((sources, waiting, begins, shared));
        return Err(error);
    }
    waiting.begin(rt, begins, &shared);
    let linger = u64::from(linger) * 1000;
    let sending = Sending {
        waiting,
        linger,
        shared,
    };
    Ok(Ready { sources, sending })
}

/// Starts a crew with these desks and three ports, whose outs are sent so.
fn start_running<R, P>(
    rt: R,
    alloc: Global,
    desks: Vec<Desk<P>>,
    sending: Sending,
) -> Result<(RunningService, Vec<Port>), RunError>
where
    R: Threads + Wait + Copy + Send + 'static,
    P: Package + 'static,
    requires few_workers { vec_len desks ≤ 256 }
    ensures begun { IfOk result (λ r. (d : _)
        → IsNew (λ w. standing_of P.seen (get_or desks.items w d)) r.1.items r.0) }
    ensures workers { IfOk result (λ r. r.0.outgoing.workers ≡ vec_len desks) }
    ensures some { IfOk result (λ _. 0 < vec_len desks) }
    ensures waiting { IfOk result (λ r. r.0.outgoing.waiting ≡ sending.waiting) }
    ensures fit { OnOk result (AllMayBegin P.seen desks.items) }
    ensures bad_desk { (worker : ℕ) → result ≡ Err (error.BadDesk worker) → IsUnfit P.seen desks.items worker }
{
    let workers = desks.len() as u32;
    // What is left is dropped by a call: in place the proof would take it apart, field by field.
    let (parker, waker) = match Waker::pair(alloc, &sending.shared) {
        Ok(pair) => pair,
        Err(error) => {
            drop((desks, sending));
            return Err(error.into());
        }
    };
    let (crew, ports, taker) = match start_crew(rt, alloc, desks, waker) {
        Ok(started) => started,
        Err(error) => {
            drop((sending, parker));
            return Err(error);
        }
    };
    let Sending {
        waiting,
        linger,
        shared,
    } = sending;
    let outgoing = Outgoing {
        alloc,
        taker,
        workers,
        waiting,
        linger,
        parker,
    };
    let running = RunningService {
        crew,
        outgoing,
        shared,
    };
    Ok((running, ports))
}

/// Runs a crew as a service, whose workers go on where these desks stand: a thread for each of three ports feeds it, with what SIP
/// datagrams say, with what control lines tell, and with the time, while this one sends out what the workers post; then all are joined. Of
/// the SIP datagrams only those are sent on that the admission of `work` allows. [`open_desks`](crew::open_desks) makes the desks of a
/// service that begins anew.
pub fn run_crew<R, P, W, F>(
    rt: R,
    alloc: Global,
    desks: Vec<Desk<P>>,
    work: ServiceWork,
    exit: &mut Exit<W, F>,
) -> Result<ServiceEnd, RunError>
where
    R: Threads + Wait + Clock + Files<File = File> + Eprint + Copy + Send + 'static,
    P: Package + 'static,
    W: Wire,
    F: Write,
    requires few_workers { vec_len desks ≤ 256 }
    // NOTIFYs that were unanswered before are sent again as if they had gone out at its start, and the time goes on.
    ensures runs { IfOk result (λ o. (d : _)
        → Runs (beginning (λ w. standing_of P.seen (get_or desks.items w d)) work.repeats work.begins) (vec_len desks)
        (opening work.desk) work.sip.admission
        (outflow W.taken W.failures F.contents exit.old exit.new) o) }
    // Without a worker nothing runs, nor where a worker can't begin with its desk: the first such desk is named.
    ensures workers { IfOk result (λ _. 0 < vec_len desks) }
    ensures fit { OnOk result (AllMayBegin P.seen desks.items) }
    ensures bad_desk { (worker : ℕ) → result ≡ Err (error.BadDesk worker)
        → IsUnfit P.seen desks.items worker × (exit.new ≡ exit.old) }
    // A socket that wasn't deaf before is so now exactly where a fault of it is told; a read of the clock failed exactly where one of
    // it is.
    ensures faults { IfOk result (AreFaults (misses work.sip.coming) (misses work.desk.coming)) }
    // Without memory nothing is started, and nothing leaves. Where a thread is refused only outs of workers that went on there do.
    ensures no_memory { result ≡ Err error.NoMemory → exit.new ≡ exit.old }
    ensures no_thread { OnErr result ((exit.new ≡ exit.old) ⊎ ((d : _)
        → Leaves (beginning (λ w. standing_of P.seen (get_or desks.items w d)) work.repeats work.begins) (vec_len desks)
        (outflow W.taken W.failures F.contents exit.old exit.new))) }
{
    let workers = desks.len() as u32;
    let Ready { sources, sending } = make_ready(&rt, alloc, workers, work)?;
    let (running, ports) = start_running(rt, alloc, desks, sending)?;
    run_to_end(rt, alloc, running, ports, sources, exit)
}
