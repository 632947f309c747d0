//! A crew that serves two sockets to its end.
ghost use Rattle.std.specs.Prelude.{◌≡◌, ◌<◌, ◌≤◌, ◌∷◌, [], ℕ, List, vec_len, vec_capacity, IfOk, OnErr};
ghost use Rattle.notifier_model.specs.Start.{Start};
ghost use Rattle.crew.specs.Ports.{PortSeats};
ghost use Rattle.udp_command.specs.UdpHearing.{count_of};
ghost use Rattle.udp_command.specs.UdpServing.{Serves};
ghost use Rattle.udp_command.specs.UdpRunning.{IsNew, AreErrands, outcome_of};

use crate::udp_listening::{Intake, Listener, NoThread, start_listener};
use crew::{Crew, Port, Report};
use feeds::{EmitReport, FeedReport, emit};
use queues::outbox::Taker;
use std::alloc::Global;
use std::io::Write;
use std::rt::Clock;
use std::sync::Wait;
use std::thread::Threads;
use transport::{Sink, UdpWire, Wire};

/// What came of a run.
#[derive(Drop)]
pub(crate) struct UdpServed {
    pub(crate) feed: FeedReport,
    pub(crate) control: FeedReport,
    pub(crate) emitted: EmitReport,
    pub(crate) report: Report,
}

/// A crew that runs, and the wire by which its outs go.
#[derive(Drop)]
pub(crate) struct Running {
    pub(crate) crew: Crew,
    pub(crate) taker: Taker,
    pub(crate) workers: u32,
    pub(crate) outgoing: UdpWire,
}

/// The sockets at which a run listens, and how many datagrams of SIP it takes.
#[derive(Drop)]
pub(crate) struct Ears {
    pub(crate) sip: UdpWire,
    pub(crate) control: UdpWire,
    pub(crate) count: u32,
}

/// The threads that listen.
#[derive(Drop)]
struct Listeners {
    sip: Listener,
    control: Listener,
}

/// Waits for the end of a crew whose ports are gone or ending. Its lines of transfers are not written.
fn wind_up<H: Threads + Wait + Clock>(rt: &H, alloc: Global, running: Running)
    requires { (start : ℕ → Start) × (ports : List PortSeats) × IsNew start ports running }
{
    let Running {
        crew,
        mut taker,
        workers,
        mut outgoing,
    } = running;
    let mut unheard = Sink::new(Vec::new(alloc));
    emit(rt, &mut outgoing, &mut unheard, &mut taker, workers);
    let report = crew.join(rt, Vec::new(alloc), taker);
    drop(report);
}

/// Sends out what the workers post until both ports have ended, and joins all threads. There is room for the ports.
fn serve_to_end<H: Threads + Wait + Clock, F: Write>(
    rt: &H,
    running: Running,
    mut ports: Vec<Port>,
    listeners: Listeners,
    sink: &mut Sink<F>,
) -> UdpServed
    requires new { (start : ℕ → Start)
        × IsNew start (listeners.sip.promise.port.value ∷ listeners.control.promise.port.value ∷ []) running }
    requires errands { AreErrands listeners.sip.promise listeners.control.promise }
    requires room { (vec_len ports ≡ 0) × (2 ≤ vec_capacity ports) }
    ensures { (start : ℕ → Start)
        → IsNew start (listeners.sip.promise.port.value ∷ listeners.control.promise.port.value ∷ []) running
        → Serves F.contents start running.workers (count_of listeners.sip.promise.hearing) sink.old sink.new (outcome_of result) }
{
    let Running {
        crew,
        mut taker,
        workers,
        mut outgoing,
    } = running;
    let emitted = emit(rt, &mut outgoing, sink, &mut taker, workers);
    let Listeners { sip, control } = listeners;
    let sip = sip.join(rt);
    let control = control.join(rt);
    ports.push_reserved(sip.port);
    ports.push_reserved(control.port);
    let report = crew.join(rt, ports, taker);
    UdpServed {
        feed: sip.report,
        control: control.report,
        emitted,
        report,
    }
}

/// The two ports of a crew.
fn take_both(ports: &mut Vec<Port>) -> (Port, Port)
    requires { vec_len ports.old ≡ 2 }
    ensures both { ports.old.items ≡ result.0 ∷ result.1 ∷ [] }
    ensures none { vec_len ports.new ≡ 0 }
    ensures capacity { vec_capacity ports.new ≡ vec_capacity ports.old }
{
    let Some(second) = ports.pop() else {
        unreachable!()
    };
    let Some(first) = ports.pop() else {
        unreachable!()
    };
    (first, second)
}

/// Has a crew that was just started serve the sockets until both its ports have ended, and joins it. Where a thread is refused
/// nothing is written, and all that was started has ended; control lines may have been heard.
pub(crate) fn listen_and_serve<H, F>(
    rt: H,
    alloc: Global,
    running: Running,
    mut ports: Vec<Port>,
    ears: Ears,
    sink: &mut Sink<F>,
) -> Result<UdpServed, NoThread>
where
    H: Threads + Wait + Clock + Copy + Send + 'static,
    F: Write,
    requires some { 0 < running.workers }
    requires new { (start : ℕ → Start) × IsNew start ports.items running }
    // What the workers send leaves by the port where SIP comes in.
    requires one_port { running.outgoing.local ≡ ears.sip.local }
    ensures served { IfOk result (λ served. (start : ℕ → Start) → IsNew start ports.items running
        → Serves F.contents start running.workers ears.count sink.old sink.new (outcome_of served)) }
    ensures unwritten { OnErr result (sink.new ≡ sink.old) }
{
    let (first, second) = take_both(&mut ports);
    let Ears {
        sip,
        control,
        count,
    } = ears;
    let control_addr = control.local();
    let Ok(control) = start_listener(rt, alloc, control, second, Intake::Control) else {
        drop(first);
        wind_up(&rt, alloc, running);
        return Err(NoThread);
    };
    let Ok(sip) = start_listener(rt, alloc, sip, first, Intake::Sip(count)) else {
        let mut running = running;
        let _ = running.outgoing.send(&rt, control_addr, b"CLOSE");
        // First the port that it closed goes: while an end of it is kept the workers wait for the one that went away unclosed.
        drop(control.join(&rt));
        wind_up(&rt, alloc, running);
        return Err(NoThread);
    };
    Ok(serve_to_end(&rt, running, ports, Listeners { sip, control }, sink))
}
