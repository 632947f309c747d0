//! The threads that feed the ports of the crew, each a port of its own.
ghost use Rattle.std.specs.Prelude.{◌≡◌, true, false, IfOk};
ghost use Rattle.crew.specs.Kept.{SameSeats};
ghost use Rattle.crew.specs.Ports.{IsLeftByClose};
ghost use Rattle.transport.specs.declared.udp.UdpWire.{UdpWire};
ghost use Rattle.service.specs.declared.clock.Stopwatch.{Stopwatch};
ghost use Rattle.service.specs.declared.datagrams.SipDesk.{SipDesk};
ghost use Rattle.service.specs.declared.feeding.Task.TheVariants as tasks;
ghost use Rattle.service.specs.declared.lines.ControlDesk.{ControlDesk};
ghost use Rattle.service.specs.Running.{IsLeftBehind, Keeps, SendsFor};

use crate::clock::{Stopwatch, tell_time};
use crate::datagrams::SipDesk;
use crate::lines::ControlDesk;
use crate::shared::Shared;
use crew::Port;
use feeds::FeedEnd;
use std::alloc::Global;
use std::rt::Clock;
use std::snapshot::Snapshot;
use std::sync::{Arc, Wait};
use std::thread;
use std::thread::{Promise, PromisedHandle, SpawnError, Threads};
use transport::UdpWire;

/// What a thread sends through its port.
#[derive(Drop)]
pub(crate) enum Task {
    /// What SIP datagrams say.
    Datagrams(SipDesk<UdpWire>),
    /// What control lines tell.
    Lines(ControlDesk<UdpWire>),
    /// The time.
    Time(Stopwatch),
}

impl Task {
    /// Sends through a port what it is to send, until the service closes. The port isn't closed.
    fn feed<R: Wait + Clock + Eprint>(
        &mut self,
        rt: &R,
        alloc: Global,
        port: &mut Port,
        shared: &Shared,
    ) -> FeedEnd
        requires still_open { port.old.is_open ≡ true }
        ensures sends { SendsFor self.old result port.old port.new }
        ensures fails { IsLeftBehind self.old result false self.new }
        ensures seats { SameSeats port.old port.new }
    {
        match self {
            Task::Datagrams(desk) => desk.hear_datagrams(rt, alloc, port, shared),
            Task::Lines(desk) => desk.take_lines(rt, port, shared),
            Task::Time(stopwatch) => tell_time(rt, stopwatch, port, shared),
        }
    }

    /// Hears answers to NOTIFYs and refuses control lines while the service closes, until all was sent out or the wire is deaf: true then.
    /// Where the next run is to begin what comes waits for that.
    #[tactic(auto, using(crate::proofs::Faults::left_same))]
    fn listen_on<R: Wait + Clock + Eprint>(
        &mut self,
        rt: &R,
        alloc: Global,
        shared: &Shared,
    ) -> bool
        ensures { IsLeftBehind self.old FeedEnd.Done result self.new }
    {
        if shared.is_reloading() {
            return false;
        }
        match self {
            Task::Datagrams(desk) => desk.hear_answers(rt, alloc, shared),
            Task::Lines(desk) => desk.refuse_lines(rt, shared),
            Task::Time(_) => false,
        }
    }

    /// What it heard SIP datagrams by.
    pub(crate) fn into_sip_desk(self) -> SipDesk<UdpWire>
        requires { (desk : SipDesk UdpWire) × (self ≡ tasks.Datagrams desk) }
        ensures { self ≡ tasks.Datagrams result }
    {
        let Task::Datagrams(desk) = self else {
            unreachable!()
        };
        desk
    }

    /// What it took control lines by.
    pub(crate) fn into_control_desk(self) -> ControlDesk<UdpWire>
        requires { (desk : ControlDesk UdpWire) × (self ≡ tasks.Lines desk) }
        ensures { self ≡ tasks.Lines result }
    {
        let Task::Lines(desk) = self else {
            unreachable!()
        };
        desk
    }

    /// What it read the time by.
    pub(crate) fn into_stopwatch(self) -> Stopwatch
        requires { (stopwatch : Stopwatch) × (self ≡ tasks.Time stopwatch) }
        ensures { self ≡ tasks.Time result }
    {
        let Task::Time(stopwatch) = self else {
            unreachable!()
        };
        stopwatch
    }
}

/// A port that was fed and closed.
#[derive(Drop)]
pub(crate) struct Fed {
    pub(crate) port: Port,
    pub(crate) end: FeedEnd,
    /// Whether the wire was deaf behind this end, while the service closed.
    pub(crate) fails_late: bool,
    /// What was to be sent, as it is left.
    pub(crate) left: Task,
}

/// What a thread is to send, and through which port, as contracts see it.
#[derive(Drop)]
pub(crate) struct Errand {
    pub(crate) port: Snapshot<Port>,
    pub(crate) task: Snapshot<Task>,
}

impl Promise<Fed> for Errand {
    ghost use Rattle.service.specs.Running.{Keeps};

    ghost kept_by = { λ errand fed. Keeps errand.task.value errand.port.value fed };
}

/// A thread that feeds a port.
pub(crate) type Feeder = PromisedHandle<Fed, Errand>;

/// No thread could be started.
#[derive(Clone, Copy)]
pub(crate) struct NoThread;

impl<F: Drop> From<SpawnError<F>> for NoThread {
    fn from(_refused: SpawnError<F>) -> NoThread {
        NoThread
    }
}

/// Closes a port that was fed. The service closes too, whatever ended the feed.
fn shut<R: Wait>(rt: &R, mut port: Port, shared: &Shared) -> Port
    ensures shut { result.is_open ≡ false }
    ensures ends { IsLeftByClose port result }
    ensures seats { SameSeats port result }
{
    shared.close();
    let told = port.close(rt);
    drop(told);
    port
}

/// Does a task to its end, and closes the port. Where it listens it goes on with that until all was sent out.
fn do_task<R: Wait + Clock + Eprint>(
    rt: &R,
    alloc: Global,
    mut port: Port,
    mut task: Task,
    shared: &Shared,
) -> Fed
    requires { port.is_open ≡ true }
    ensures { Keeps task port result }
{
    let end = task.feed(rt, alloc, &mut port, shared);
    let port = shut(rt, port, shared);
    let fails_late = task.listen_on(rt, alloc, shared);
    Fed {
        port,
        end,
        fails_late,
        left: task,
    }
}

/// Starts the thread that feeds this port. Where there is none the port goes away unclosed.
pub(crate) fn start_feeder<R: Threads + Wait + Clock + Eprint + Copy + Send + 'static>(
    rt: R,
    alloc: Global,
    port: Port,
    task: Task,
    shared: &Arc<Shared, Global>,
) -> Result<Feeder, NoThread>
    requires { port.is_open ≡ true }
    ensures port { IfOk result (λ h. h.promise.port.value ≡ port) }
    ensures task { IfOk result (λ h. h.promise.task.value ≡ task) }
{
    let Ok(theirs) = Arc::try_clone(shared) else {
        return Err(NoThread);
    };
    let errand = Errand {
        port: Snapshot::of(&port),
        task: Snapshot::of(&task),
    };
    let feeder = thread::spawn_with(
        &rt,
        errand,
        move || -> Fed
            requires { port.is_open ≡ true }
            ensures { Keeps task port result }
        { do_task(&rt, alloc, port, task, &theirs) },
    )?;
    Ok(feeder)
}
