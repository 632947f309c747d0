//! What listens at a socket, on a thread of its own: for SIP at one, for control lines at the other.
ghost use Rattle.std.specs.Prelude.{◌≡◌, true, false, IfOk};
ghost use Rattle.crew.specs.Kept.{SameSeats};
ghost use Rattle.crew.specs.Ports.{IsLeftByClose};
ghost use Rattle.transport.specs.Wires.{Grows};
ghost use Rattle.feeds.specs.Fed.{Log, datagrams, IsFed, failures_at};
ghost use Rattle.udp_command.specs.UdpHearing.{language_of, count_of, HearsOut, HearsOutSocket};

use crew::Port;
use feeds::{FeedReport, control, feed};
use std::alloc::Global;
use std::snapshot::Snapshot;
use std::sync::Wait;
use std::thread;
use std::thread::{Promise, PromisedHandle, SpawnError, Threads};
use transport::{UdpWire, Wire};

/// What a thread that listened leaves.
#[derive(Drop)]
pub(crate) struct Fed {
    /// It is closed.
    pub(crate) port: Port,
    pub(crate) report: FeedReport,
}

/// What a thread is to hear.
#[derive(Clone, Copy)]
pub(crate) enum Intake {
    /// The messages of so many SIP datagrams.
    Sip(u32),
    /// Control lines, until a CLOSE.
    Control,
}

/// What a thread is to hear, and the port that it feeds, as contracts see it.
#[derive(Drop)]
pub(crate) struct Errand {
    pub(crate) port: Snapshot<Port>,
    pub(crate) hearing: Intake,
}

impl Promise<Fed> for Errand {
    ghost use Rattle.udp_command.specs.UdpHearing.{language_of, count_of, HearsOutSocket};

    ghost kept_by = { λ errand fed. HearsOutSocket (language_of errand.hearing) (count_of errand.hearing) errand.port.value fed.port fed.report };
}

/// A thread that listens.
pub(crate) type Listener = PromisedHandle<Fed, Errand>;

/// No thread could be started.
#[derive(Clone, Copy)]
pub(crate) struct NoThread;

impl<F: Drop> From<SpawnError<F>> for NoThread {
    fn from(_refused: SpawnError<F>) -> NoThread {
        NoThread
    }
}

/// A port that was fed, closed.
fn closed<H: Wait>(rt: &H, mut port: Port) -> Port
    ensures shut { result.is_open ≡ false }
    ensures ends { IsLeftByClose port result }
    ensures seats { SameSeats port result }
{
    let told = port.close(rt);
    drop(told);
    port
}

/// Feeds a port with what the datagrams of a wire say of what is to be heard. The port isn't closed.
fn hear<H: Wait, W: Wire>(
    rt: &H,
    alloc: Global,
    wire: &mut W,
    port: &mut Port,
    hearing: Intake,
) -> FeedReport
    requires { port.old.is_open ≡ true }
    ensures fed { (log : Log) × Grows (W.given wire.old) (W.given wire.new) (datagrams log)
        × IsFed (language_of hearing) (count_of hearing) log port.old port.new result }
    ensures failures { W.failures wire.new ≡ failures_at result.end (W.failures wire.old) }
    ensures seats { SameSeats port.old port.new }
{
    match hearing {
        Intake::Sip(count) => feed(rt, alloc, wire, port, count),
        Intake::Control => control(rt, alloc, wire, port),
    }
}

/// Feeds a port with what the datagrams of a wire say of what is to be heard, and closes the port.
fn hear_out<H: Wait, W: Wire>(
    rt: &H,
    alloc: Global,
    wire: &mut W,
    mut port: Port,
    hearing: Intake,
) -> Fed
    requires { port.is_open ≡ true }
    ensures heard { HearsOut (W.given wire.old) (W.given wire.new) (language_of hearing) (count_of hearing) port result.port result.report }
    ensures failures { W.failures wire.new ≡ failures_at result.report.end (W.failures wire.old) }
{
    let report = hear(rt, alloc, wire, &mut port, hearing);
    let port = closed(rt, port);
    Fed { port, report }
}

/// Starts a thread that feeds a port with what it is to hear of the datagrams of a socket. Where there is none the port goes away unclosed.
pub(crate) fn start_listener<H: Threads + Wait + Copy + Send + 'static>(
    rt: H,
    alloc: Global,
    wire: UdpWire,
    port: Port,
    hearing: Intake,
) -> Result<Listener, NoThread>
    requires { port.is_open ≡ true }
    ensures port { IfOk result (λ h. h.promise.port.value ≡ port) }
    ensures hearing { IfOk result (λ h. h.promise.hearing ≡ hearing) }
{
    let errand = Errand {
        port: Snapshot::of(&port),
        hearing,
    };
    let listener = thread::spawn_with(
        &rt,
        errand,
        move || -> Fed
            requires { port.is_open ≡ true }
            ensures { HearsOutSocket (language_of hearing) (count_of hearing) port result.port result.report }
        {
            let mut wire = wire;
            hear_out(&rt, alloc, &mut wire, port, hearing)
        },
    )?;
    Ok(listener)
}
