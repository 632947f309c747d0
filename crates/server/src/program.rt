//! The program, over any reader and writer.
ghost use Rattle.std.specs.Prelude.{◌≡◌, ◌≢◌, ◌<◌, ◌≤◌, true, length};
ghost use Rattle.arguments.specs.declared.arguments.Arguments.{Arguments};
ghost use Rattle.arguments.specs.Wanted.{Gives};
ghost use Rattle.server.specs.Runs.{WritesPage, ReadsNoScript, IsHindered, Runs};
ghost use Rattle.server.specs.Call.{starts_for, AsksFor, AsksForNone};

use crate::script::{script_many, script_one};
use arguments::{
    Arguments, ArgumentsError, ExitStatus, Wanted, dealt_boxes, dealt_names, loopback_setup,
    made_boxes, parse_arguments,
};
use package::Package;
use scripts::ScriptError;
use sip_text::{NoMemory, Text};
use std::alloc::Global;
use std::io::{Read, Write};
use std::sync::Wait;
use std::thread::Threads;
use transport::{Sink, Source};

/// Runs a script by one worker with this seed and these mailboxes, on this thread.
fn run_one<R: Read, W: Write, P, M>(
    alloc: Global,
    call: &Arguments,
    source: &mut Source<R>,
    sink: &mut Sink<W>,
    make: &M,
) -> Result<(), ScriptError>
where
    P: Package,
    M: Fn(Wanted) -> Result<P, NoMemory>,
    requires one { call.now.workers ≡ 1 }
    requires callable { M.IsAlwaysCallable make.now }
    requires gives { Gives P.seen (M.post make.now) }
    ensures { Runs R.remaining W.contents ⊥ (starts_for call.now) result source.old source.new sink.old sink.new }
{
    let names = dealt_names(alloc, call.mailboxes.as_slice(), 1, 0)?;
    let boxes = made_boxes(alloc, names, make)?;
    script_one(
        alloc,
        source,
        sink,
        &loopback_setup(5060, call.seed, call.stop),
        boxes,
    )
}

/// Runs a script by several workers with this seed and these mailboxes, each on a thread of its own.
fn run_many<H, R: Read, W: Write, P, M>(
    rt: H,
    call: &Arguments,
    source: &mut Source<R>,
    sink: &mut Sink<W>,
    make: &M,
) -> Result<(), ScriptError>
where
    H: Threads + Wait + AllocGlobal + Copy + Send + 'static,
    P: Package + 'static,
    M: Fn(Wanted) -> Result<P, NoMemory>,
    requires callable { M.IsAlwaysCallable make.now }
    requires gives { Gives P.seen (M.post make.now) }
    requires some { 0 < call.now.workers }
    requires few { call.now.workers ≤ 256 }
    ensures { Runs R.remaining W.contents (Unit {0}) (starts_for call.now) result source.old source.new sink.old sink.new }
{
    let boxes = dealt_boxes(rt.alloc(), call.mailboxes.as_slice(), call.workers, make)?;
    script_many(
        rt,
        rt.alloc(),
        source,
        sink,
        &loopback_setup(5060, call.seed, call.stop),
        boxes,
    )
}

/// Runs a script as these arguments ask for it.
fn run_script<H, R: Read, W: Write, P, M>(
    rt: H,
    call: &Arguments,
    source: &mut Source<R>,
    sink: &mut Sink<W>,
    make: &M,
) -> Result<(), ScriptError>
where
    H: Threads + Wait + AllocGlobal + Copy + Send + 'static,
    P: Package + 'static,
    M: Fn(Wanted) -> Result<P, NoMemory>,
    requires callable { M.IsAlwaysCallable make.now }
    requires gives { Gives P.seen (M.post make.now) }
    requires some { 0 < call.now.workers }
    requires few { call.now.workers ≤ 256 }
    ensures { Runs R.remaining W.contents (1 < length (starts_for call.now)) (starts_for call.now) result source.old source.new sink.old sink.new }
{
    if call.workers == 1 {
        return run_one(rt.alloc(), call, source, sink, make);
    }
    run_many(rt, call, source, sink, make)
}

/// Runs the program: looks at the words behind its name, then runs the script that the reader gives by as many workers
/// as they ask for, among whom the mailboxes are dealt out that they name, and writes the page. Each package is one that `make`
/// gives. What it starts from is in `specs/Call`. Arguments are looked at before anything is read. One worker runs on the
/// caller's thread, several on threads of their own.
pub fn run<H, R: Read, W: Write, P, M>(
    rt: H,
    words: &[Text],
    source: &mut Source<R>,
    sink: &mut Sink<W>,
    make: &M,
) -> ExitStatus
where
    H: Threads + Wait + AllocGlobal + Copy + Send + 'static,
    P: Package + 'static,
    M: Fn(Wanted) -> Result<P, NoMemory>,
    // What `make` answers is a new package of those that are wanted.
    requires callable { M.IsAlwaysCallable make.now }
    requires gives { Gives P.seen (M.post make.now) }
    // What was written is the page of all that was read.
    ensures done { result ≡ ExitStatus.Done → AsksFor words.now (λ starts.
        WritesPage R.remaining W.contents starts source.old source.new sink.old sink.new) }
    ensures flushed { result ≡ ExitStatus.Done → sink.new.is_flushed ≡ true }

    // Only words that ask for nothing are bad arguments, and then nothing is read.
    ensures bad_arguments { result ≡ ExitStatus.BadArguments → AsksForNone words.now × (source.new ≡ source.old) }
    ensures bad_script { result ≡ ExitStatus.BadScript → AsksFor words.now (λ starts.
        ReadsNoScript R.remaining source.old source.new) }

    // Only a read or a write that failed is a device fault, or that a thread could not be started for several workers.
    ensures device { result ≡ ExitStatus.DeviceFault →
        AsksFor words.now (λ starts.
        IsHindered R.remaining W.contents (1 < length starts) starts source.old source.new sink.old sink.new) }
    ensures no_failure { result ≢ ExitStatus.DeviceFault →
        (source.new.failures ≡ source.old.failures) × (sink.new.failures ≡ sink.old.failures) }

    // Nothing is written but a page or a front of it.
    ensures unwritten { result ≢ ExitStatus.Done → result ≢ ExitStatus.DeviceFault → sink.new ≡ sink.old }
{
    let call = match parse_arguments(rt.alloc(), words) {
        Ok(call) => call,
        Err(ArgumentsError::Bad) => return ExitStatus::BadArguments,
        Err(ArgumentsError::NoMemory) => return ExitStatus::OutOfMemory,
    };
    match run_script(rt, &call, source, sink, make) {
        Ok(()) => ExitStatus::Done,
        Err(ScriptError::BadScript) => ExitStatus::BadScript,
        Err(ScriptError::Device) => ExitStatus::DeviceFault,
        Err(ScriptError::NoMemory) => ExitStatus::OutOfMemory,
    }
}
