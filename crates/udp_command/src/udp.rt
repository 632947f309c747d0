//! The notifier on the network: `notifyd udp`.
//!
//! [`run`] binds two ports of 127.0.0.1 and starts a crew with two ports. One thread hears SIP (RFC 3261 section 18) at the
//! first, one hears control lines at the second, and the caller's thread sends out what the workers post and writes a line for
//! each transfer that starts (RFC 3515). Once so many datagrams and a CLOSE have come, all ends, and a line for each worker tells
//! how it ended. The answer is an [`ExitStatus`].
//!
//! What it isn't: it knows no other addresses than 127.0.0.1, and it tells no time: ticks come by the control port. That a
//! datagram arrives no contract can say. Begin with [`run`], then `specs/UdpCall`, `specs/UdpServing` and `specs/UdpEnds`; what
//! datagrams are to a crew, and what becomes of outs, the crate `feeds` says.
ghost use Rattle.std.specs.Prelude.{◌≡◌, ◌≢◌, ◌<◌, ◌≤◌, ◌⊎◌, IfOk, IfErr, OnErr, Err};
ghost use Rattle.arguments.specs.declared.exit_status.ExitStatus.TheVariants as status;
ghost use Rattle.arguments.specs.Wanted.{Gives};
ghost use Rattle.crew.specs.Started.{IsStarted};
ghost use Rattle.udp_command.specs.UdpCall.{start_at, AsksFor, AsksForNone};
ghost use Rattle.udp_command.specs.UdpEnds as ends;
ghost use Rattle.udp_command.specs.UdpEnds.{EndsAs, Runs};
ghost use Rattle.udp_command.specs.UdpRunning.{status_of, AreBound, outcome_of};
ghost use Rattle.udp_command.specs.UdpServing.{Serves};

use crate::udp_printing::worker_lines;
use crate::udp_serving::{Ears, Running, UdpServed, listen_and_serve};
use arguments::{
    ArgumentsError, ExitStatus, UdpArguments, Wanted, dealt_boxes, loopback_setup,
    parse_udp_arguments,
};
use crew::{Crew, End, Open, Port, StartError, WorkerReport};
use package::Package;
use queues::outbox::Taker;
use scripts::write_page;
use sip_text::{NoMemory, Text};
use std::alloc::Global;
use std::io::Write;
use std::net::Net;
use std::rt::Clock;
use std::sync::{Arc, Wait};
use std::thread::Threads;
use transport::{Sink, UdpWire, WireFault};

/// The sockets of a run.
#[derive(Drop)]
struct UdpSockets {
    /// SIP is heard here.
    sip: UdpWire,
    /// What the workers send goes out here, from the same port.
    outgoing: UdpWire,
    /// Control lines are heard here.
    control: UdpWire,
}

/// Binds the two ports of 127.0.0.1.
fn bind<H: Wait + Net>(rt: &H, port: u16, control_port: u16) -> Result<UdpSockets, WireFault>
    requires chosen { (port ≢ 0) × (control_port ≢ 0) }
    ensures bound { IfOk result (AreBound port control_port) }
{
    let (sip, outgoing) = UdpWire::bind(rt, port)?;
    let (control, _) = UdpWire::bind(rt, control_port)?;
    Ok(UdpSockets {
        sip,
        outgoing,
        control,
    })
}

/// Whether a wire failed, or a line of a transfer was not written.
fn has_fault(served: &UdpServed) -> bool
    ensures { result ≡ ends.has_fault (outcome_of served.now) }
{
    served.feed.end.is_fault() || served.control.end.is_fault() || served.emitted.failed != 0
}

fn is_closed(end: End) -> bool
    ensures { result ≡ ends.is_closed end }
{
    match end {
        End::Closed => true,
        End::NoMemory(_) | End::Abandoned(_) => false,
    }
}

/// Whether each worker came to the end of what was sent to it.
pub fn all_closed(reports: &[WorkerReport]) -> bool
    ensures { result ≡ ends.all_closed reports.now }
{
    for report in reports {
        if !is_closed(report.end) {
            return false;
        }
    }
    true
}

/// Writes the lines of the workers, and tells how the run ended.
fn close_off<F: Write>(alloc: Global, served: &UdpServed, sink: &mut Sink<F>) -> ExitStatus
    ensures { EndsAs F.contents (outcome_of served.now) sink.old sink.new result }
{
    let has_fault = has_fault(served);
    let reports = served.report.workers.as_slice();
    let Ok(lines) = worker_lines(alloc, reports) else {
        return if has_fault {
            ExitStatus::DeviceFault
        } else {
            ExitStatus::OutOfMemory
        };
    };
    if write_page(sink, lines.as_bytes()).is_err() || has_fault {
        return ExitStatus::DeviceFault;
    }
    if all_closed(reports) {
        ExitStatus::Done
    } else {
        ExitStatus::OutOfMemory
    }
}

/// The status where a crew isn't started.
fn start_status(error: StartError) -> ExitStatus
    ensures { result ≡ status_of error }
{
    match error {
        StartError::NoThread => ExitStatus::DeviceFault,
        StartError::NoMemory | StartError::NoWorkers | StartError::NoPorts =>
            ExitStatus::OutOfMemory,
    }
}

/// Starts the crew that a call asks for: its workers have the mailboxes, and two ports are open.
fn start_crew<H, P, M>(
    rt: H,
    alloc: Global,
    call: &UdpArguments,
    make: &M,
) -> Result<(Crew, Vec<Port>, Taker), ExitStatus>
where
    H: Threads + Wait + Copy + Send + 'static,
    P: Package + 'static,
    M: Fn(Wanted) -> Result<P, NoMemory>,
    requires callable { M.IsAlwaysCallable make.now }
    requires gives { Gives P.seen (M.post make.now) }
    requires some { 0 < call.now.workers }
    requires few { call.now.workers ≤ 256 }
    ensures started { IfOk result (λ r. IsStarted (start_at call.now) call.now.workers 2 r.0 r.1.items r.2) }
    ensures refused { IfErr result (λ s. (s ≡ status.DeviceFault) ⊎ (s ≡ status.OutOfMemory)) }
{
    let setup = loopback_setup(call.port, call.seed, call.stop);
    let Ok(boxes) = dealt_boxes(alloc, call.mailboxes.as_slice(), call.workers, make) else {
        return Err(ExitStatus::OutOfMemory);
    };
    let Ok(gate) = Arc::new(alloc, Open) else {
        return Err(ExitStatus::OutOfMemory);
    };
    match Crew::start_any(rt, alloc, &setup, 2, boxes, gate) {
        Ok(started) => Ok(started),
        Err(error) => Err(start_status(error)),
    }
}

/// Starts the crew that a call asks for, and has it serve these sockets.
fn serve_sockets<H, F, P, M>(
    rt: H,
    alloc: Global,
    call: &UdpArguments,
    sockets: UdpSockets,
    sink: &mut Sink<F>,
    make: &M,
) -> Result<UdpServed, ExitStatus>
where
    H: Threads + Wait + Clock + Copy + Send + 'static,
    F: Write,
    P: Package + 'static,
    M: Fn(Wanted) -> Result<P, NoMemory>,
    requires callable { M.IsAlwaysCallable make.now }
    requires gives { Gives P.seen (M.post make.now) }
    requires some { 0 < call.now.workers }
    requires few { call.now.workers ≤ 256 }
    requires bound { AreBound call.now.port call.now.control_port sockets }
    ensures served { IfOk result (λ served.
        Serves F.contents (start_at call.now) call.now.workers call.now.count sink.old sink.new (outcome_of served)) }
    ensures refused { IfErr result (λ s. (s ≡ status.DeviceFault) ⊎ (s ≡ status.OutOfMemory)) }
    ensures unwritten { OnErr result (sink.new ≡ sink.old) }
{
    let UdpSockets {
        sip,
        outgoing,
        control,
    } = sockets;
    let (crew, ports, taker) = start_crew(rt, alloc, call, make)?;
    let running = Running {
        crew,
        taker,
        workers: call.workers,
        outgoing,
    };
    let ears = Ears {
        sip,
        control,
        count: call.count,
    };
    match listen_and_serve(rt, alloc, running, ports, ears, sink) {
        Ok(served) => Ok(served),
        Err(_) => Err(ExitStatus::DeviceFault),
    }
}

/// Reads the arguments, binds the ports and serves them.
fn attempt<H, F, P, M>(
    rt: H,
    alloc: Global,
    words: &[Text],
    sink: &mut Sink<F>,
    make: &M,
) -> Result<UdpServed, ExitStatus>
where
    H: Threads + Wait + Net + Clock + Copy + Send + 'static,
    F: Write,
    P: Package + 'static,
    M: Fn(Wanted) -> Result<P, NoMemory>,
    requires callable { M.IsAlwaysCallable make.now }
    requires gives { Gives P.seen (M.post make.now) }
    ensures served { IfOk result (λ served. AsksFor words.now (λ call.
        Serves F.contents (start_at call) call.workers call.count sink.old sink.new (outcome_of served))) }
    ensures refused { IfErr result (λ s. (s ≢ status.Done) × (s ≢ status.BadScript)) }
    ensures bad_arguments { result ≡ Err status.BadArguments → AsksForNone words.now }
    ensures device { result ≡ Err status.DeviceFault → AsksFor words.now (λ call. sink.new ≡ sink.old) }
    ensures unwritten { OnErr result (sink.new ≡ sink.old) }
{
    let call = match parse_udp_arguments(alloc, words) {
        Ok(call) => call,
        Err(ArgumentsError::Bad) => return Err(ExitStatus::BadArguments),
        Err(ArgumentsError::NoMemory) => return Err(ExitStatus::OutOfMemory),
    };
    let Ok(sockets) = bind(&rt, call.port, call.control_port) else {
        return Err(ExitStatus::DeviceFault);
    };
    serve_sockets(rt, alloc, &call, sockets, sink, make)
}

/// Runs the program on the network: looks at the words behind its name, binds the two ports, serves them until so many datagrams
/// have come at the first and a CLOSE, or 1,048,576 lines, at the second, or a wire failed or a worker is gone, and writes a line
/// for each transfer that starts, as it comes, and last a line for each worker. Both ports are free again then. Arguments are looked at
/// before a port is bound. Each package is one that `make` gives.
pub fn run<H, F, P, M>(
    rt: H,
    alloc: Global,
    words: &[Text],
    sink: &mut Sink<F>,
    make: &M,
) -> ExitStatus
where
    H: Threads + Wait + Net + Clock + Copy + Send + 'static,
    F: Write,
    P: Package + 'static,
    M: Fn(Wanted) -> Result<P, NoMemory>,
    // What `make` answers is a new package of those that are wanted.
    requires callable { M.IsAlwaysCallable make.now }
    requires gives { Gives P.seen (M.post make.now) }
    // No wire failed, each out was sent or written, and each worker came to the end of what the ports sent.
    ensures done { result ≡ status.Done → AsksFor words.now (λ call.
        Runs F.contents call sink.old sink.new status.Done) }

    // Only words that ask for no such run are bad arguments.
    ensures bad_arguments { result ≡ status.BadArguments → AsksForNone words.now × (sink.new ≡ sink.old) }
    ensures no_script { result ≢ status.BadScript }

    // Nothing was served, or something failed at it.
    ensures device { result ≡ status.DeviceFault → AsksFor words.now (λ call.
        (sink.new ≡ sink.old) ⊎ Runs F.contents call sink.old sink.new status.DeviceFault) }

    // Nothing was served, or nothing failed and a worker didn't come to the end, or there was no memory for the lines.
    ensures memory { result ≡ status.OutOfMemory → (sink.new ≡ sink.old) ⊎ AsksFor words.now (λ call.
        Runs F.contents call sink.old sink.new status.OutOfMemory) }
{
    match attempt(rt, alloc, words, sink, make) {
        Ok(served) => close_off(alloc, &served, sink),
        Err(status) => status,
    }
}
