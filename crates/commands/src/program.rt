//! `notifyd serve`.
ghost use Rattle.std.specs.Prelude.{◌≡◌, ◌<◌, ◌≤◌, ◌⊎◌, None, true, false, get_or, vec_len, IfOk, IfErr, IfSome, OnOk};
ghost use Rattle.crew.specs.Desks.{standing_of};
ghost use Rattle.arguments.specs.Wanted.{Gives};
ghost use Rattle.transport.specs.Sockets.{misses};
ghost use Rattle.service.specs.Running.{AreFaults, beginning, is_faulty, opening};
ghost use Rattle.udp_command.specs.UdpEnds as ends;
ghost use Rattle.udp_command.specs.UdpEnds.{Tells};
ghost use Rattle.commands.specs.Refused.{AskForText, IsOther, IsRefusal, IsStatus, status_after, status_of};
ghost use Rattle.commands.specs.declared.error.ServeError.TheVariants as error;
ghost use Rattle.commands.specs.Readiness.{IsFitted};
ghost use Rattle.commands.specs.Reloading.{IsCarried};
ghost use Rattle.commands.specs.Serving.{AreOpen, CanEndWell, IsWork, Ran, RanAsPlanned, Serves, new_sink};

use crate::error::ServeError;
use crate::help::{HELP, asked_text};
use crate::journal_opened::held_folder;
use crate::logging::{say_goodbye, say_spent_worker, say_why};
use crate::prompt::{Patience, Prompt};
use crate::ready::{Fitted, Ready, make_ready};
use crate::reloading::{Carried, all_mailboxes};
use crate::sockets::Sockets;
use arguments::{ExitStatus, Wanted};
use notifier::Desk;
use package::{Change, Package};
use plans::{Plan, local_setup, most_mailboxes};
use scripts::write_page;
use service::{
    Allowance, Begins, ControlPort, Exit, ServiceEnd, ServiceWork, Shared, SipDesk, run_crew,
};
use sip_text::{NoMemory, Text};
use std::alloc::{AllocError, Global};
use std::fs::File;
use std::io;
use std::io::Write;
use std::net::Net;
use std::random::RandomSource;
use std::rt::{Clock, Files};
use std::sync::{Arc, Wait};
use std::thread::Threads;
use transport::{Sink, UdpWire};
use udp_command::udp::all_closed;
use udp_command::worker_lines;

/// A service that has ended: what came of it, and what its lines of transfers were written to.
#[derive(Drop)]
pub struct Served<F> {
    pub outcome: ServiceEnd,
    pub sink: Sink<F>,
    pub shared: Arc<Shared, Global>,
}

/// What a service works with: the plan over these sockets, and the wire by which its outs go.
#[tactic(auto, using(crate::proofs::Started::opens_as))]
fn new_work(
    plan: Plan,
    sockets: Sockets,
    shared: Arc<Shared, Global>,
    begins: Begins,
    changes: Option<Vec<Change>>,
) -> (ServiceWork, UdpWire)
    requires sockets { AreOpen plan.choices sockets }
    // Without a journal nothing was told but what the plan says.
    requires changes { plan.journal ≡ None → changes ≡ None }
    ensures work { IsWork plan result.0 }
    ensures begins { result.0.begins ≡ begins }
    ensures wire { result.1.local ≡ result.0.sip.coming.local }
{
    let Sockets {
        sip,
        refusals,
        outgoing,
        lines,
        replies,
    } = sockets;
    let setup = local_setup(&plan, sip.local());
    let numbers = plan.choices.numbers;
    let desk = ControlPort {
        coming: lines,
        going: replies,
        mailboxes: plan.mailboxes,
        changes: changes.unwrap_or(plan.changes),
        most: most_mailboxes(&plan.choices),
        networks: plan.operators,
    };
    let sip = SipDesk {
        coming: sip,
        going: refusals,
        longest: numbers.max_datagram,
        admission: plan.admission,
    };
    let work = ServiceWork {
        setup,
        sip,
        desk,
        shared,
        begins,
        repeats: Allowance {
            all: numbers.repeats,
            per_tag: numbers.per_subscription,
        },
        linger: numbers.linger,
        outage: numbers.outage,
    };
    (work, outgoing)
}

/// Runs a service to its end, with these desks of its workers.
fn run<R, F, P>(
    rt: R,
    desks: Vec<Desk<P>>,
    work: ServiceWork,
    shared: Arc<Shared, Global>,
    exit: Exit<UdpWire, F>,
) -> Result<Served<F>, ServeError>
where
    R: Threads + Wait + Clock + Files<File = File> + Eprint + AllocGlobal + Copy + Send + 'static,
    F: Write + Drop,
    P: Package + 'static,
    requires few_workers { vec_len desks ≤ 256 }
    // What the workers send leaves from where SIP comes in.
    requires one_place { exit.wire.local ≡ work.sip.coming.local }
    ensures refused { IfErr result IsOther }
    ensures ran { IfOk result (λ s. (d : _)
        → Ran F.contents (beginning (λ w. standing_of P.seen (get_or desks.items w d)) work.repeats work.begins) (vec_len desks)
        (opening work.desk) work.sip.admission exit.sink s.sink s.outcome) }
    ensures faults { IfOk result (λ s. AreFaults (misses work.sip.coming) (misses work.desk.coming) s.outcome) }
{
    let mut exit = exit;
    let outcome = run_crew(rt, rt.alloc(), desks, work, &mut exit)?;
    Ok(Served {
        outcome,
        sink: exit.sink,
        shared,
    })
}

/// Runs the service that is planned so, with what it was fitted out with, and writes its lines here.
fn run_fitted<R, F, P>(
    rt: R,
    plan: Plan,
    fitted: Fitted<P>,
    writer: F,
) -> Result<Served<F>, ServeError>
where
    R: Threads + Wait + Clock + Files<File = File> + Eprint + AllocGlobal + Copy + Send + 'static,
    F: Write + Drop,
    P: Package + 'static,
    requires few { plan.workers ≤ 256 }
    requires fitted { IsFitted P.seen plan fitted }
    ensures ran { IfOk result (λ s. RanAsPlanned F.contents plan (new_sink writer) s.sink s.outcome) }
    ensures refused { IfErr result IsOther }
{
    let Fitted {
        desks,
        begins,
        changes,
        shared,
        theirs,
        sockets,
    } = fitted;
    let (work, wire) = new_work(plan, sockets, theirs, begins, changes);
    let sink = Sink::new(writer);
    run(rt, desks, work, shared, Exit { wire, sink })
}

/// Runs the service that the words behind `serve` ask for until a CLOSE, a RELOAD with good files, a fault or a worker that is gone, with what
/// its last run left, and says on standard error where it is. Answers what the next run goes on with, where there is to be one.
#[tactic(auto, using(crate::proofs::Refused::other_is))]
fn serve_on<R, F, P, M>(
    rt: R,
    words: &[Text],
    writer: F,
    make: &M,
    carried: Carried,
) -> Result<(Served<F>, Carried), ServeError>
where
    R: Threads
        + Wait
        + Net
        + Clock
        + Files<File = File>
        + RandomSource
        + Eprint
        + AllocGlobal
        + Copy
        + Clone
        + Drop
        + Send
        + 'static,
    R::Dir: Send,
    F: Write + Drop,
    P: Package + 'static,
    M: Fn(Wanted) -> Result<P, NoMemory>,
    requires callable { M.IsAlwaysCallable make.now }
    requires gives { Gives P.seen (M.post make.now) }
    requires carried { IsCarried words.now carried }
    ensures served { IfOk result (λ r. Serves F.contents words.now (new_sink writer) r.0.sink r.0.outcome) }
    ensures carried { IfOk result (λ r. IsCarried words.now r.1) }
    ensures refused { IfErr result (IsRefusal words.now) }
{
    let Ready {
        plan,
        opened,
        mailboxes,
        fitted,
        aides,
    } = make_ready(rt, words, make, carried)?;
    let served = run_fitted(rt, plan, fitted, writer);
    let (plan, sockets) = aides.end(&rt);
    match served {
        Ok(served) => {
            let next = Carried {
                plan,
                // No other service may write the folder till the next run has it.
                folder: held_folder(opened),
                sockets,
                mailboxes: all_mailboxes(&rt, mailboxes, &served.shared),
                caller: served.shared.reload_caller(&rt),
            };
            Ok((served, next))
        }
        Err(error) => {
            drop((plan, opened, sockets, mailboxes));
            Err(error)
        }
    }
}

/// Runs the service that the words behind `serve` ask for until a CLOSE, a RELOAD with good files, a fault or a worker that is gone, and says
/// on standard error where it is. Each package is one that `make` gives.
pub fn serve_words<R, F, P, M>(
    rt: R,
    words: &[Text],
    writer: F,
    make: &M,
) -> Result<Served<F>, ServeError>
where
    R: Threads
        + Wait
        + Net
        + Clock
        + Files<File = File>
        + RandomSource
        + Eprint
        + AllocGlobal
        + Copy
        + Clone
        + Drop
        + Send
        + 'static,
    R::Dir: Send,
    F: Write + Drop,
    P: Package + 'static,
    M: Fn(Wanted) -> Result<P, NoMemory>,
    // What `make` answers is a new package of those that are wanted.
    requires callable { M.IsAlwaysCallable make.now }
    requires gives { Gives P.seen (M.post make.now) }
    // It ran as the words ask for it: with which desks it began, whose datagrams its ports sent, what its workers did with them, what became of
    // their outs, and which faults of its sockets and of the clock it tells. With a journal it went on from what some file says, or began anew.
    ensures served { IfOk result (λ s. Serves F.contents words.now (new_sink writer) s.sink s.outcome) }
    // A cause that is in the words stands in them.
    ensures refused { IfErr result (IsRefusal words.now) }
{
    match serve_on(rt, words, writer, make, Carried::new()) {
        Ok((served, next)) => {
            drop(next);
            Ok(served)
        }
        Err(error) => Err(error),
    }
}

/// Writes what the workers did, says goodbye, and tells whether all went well.
fn close_off<R, F>(rt: &R, served: &mut Served<F>) -> Result<(), ServeError>
where
    R: Clock + Eprint + AllocGlobal,
    F: Write,
    ensures no_fault { OnOk result (is_faulty served.old.outcome ≡ false) }
    ensures closed { OnOk result (ends.all_closed served.old.outcome.report.workers.items ≡ true) }
    ensures told { OnOk result
        (Tells F.contents served.old.outcome.report.workers.items served.old.sink served.new.sink) }
    ensures outcome { served.new.outcome ≡ served.old.outcome }
    ensures refused { IfErr result IsOther }
{
    say_spent_worker(rt, &served.shared);
    let reports = served.outcome.report.workers.as_slice();
    let lines = worker_lines(rt.alloc(), reports)?;
    let is_closed = all_closed(reports);
    let written = write_page(&mut served.sink, lines.as_bytes());
    say_goodbye(rt, &served.shared)?;
    if written.is_err() || served.outcome.is_faulty() {
        return Err(ServeError::Device);
    }
    if is_closed {
        Ok(())
    } else {
        Err(ServeError::NoMemory)
    }
}

/// Where the lines of a run go, and whether who reads them is waited for.
#[derive(Drop)]
struct Output<F> {
    writer: F,
    patience: Patience,
}

impl<F: Write + Drop> Output<Prompt<F>> {
    /// Whole lines to this writer, which is standard output.
    fn new(writer: F, patience: &Patience) -> Result<Output<Prompt<F>>, NoMemory> {
        Ok(Output {
            writer: Prompt::new(writer, patience)?,
            patience: patience.further()?,
        })
    }
}

/// Runs the service that the words ask for once, with what its last run left, and writes its lines here. Answers what the next run goes on with, or
/// none where this was the last one and ended well: then it has written there what the workers did. Who reads is waited for once the service has
/// ended.
#[tactic(auto, using(crate::proofs::Refused::other_is))]
fn serve_over<R, F, P, M>(
    rt: R,
    words: &[Text],
    output: Output<F>,
    make: &M,
    carried: Carried,
) -> Result<Option<Carried>, ServeError>
where
    R: Threads
        + Wait
        + Net
        + Clock
        + Files<File = File>
        + RandomSource
        + Eprint
        + AllocGlobal
        + Copy
        + Clone
        + Drop
        + Send
        + 'static,
    R::Dir: Send,
    F: Write + Drop,
    P: Package + 'static,
    M: Fn(Wanted) -> Result<P, NoMemory>,
    requires callable { M.IsAlwaysCallable make.now }
    requires gives { Gives P.seen (M.post make.now) }
    requires carried { IsCarried words.now carried }
    ensures well { IfOk result (λ next. next ≡ None → CanEndWell words.now) }
    ensures carried { IfOk result (λ next. IfSome next (IsCarried words.now)) }
    ensures refused { IfErr result (IsRefusal words.now) }
{
    let Output { writer, patience } = output;
    let (mut served, next) = serve_on(rt, words, writer, make, carried)?;
    if served.shared.is_reloading() {
        drop(served);
        return Ok(Some(next));
    }
    drop(next);
    patience.wait();
    let closed = close_off(&rt, &mut served);
    drop(served);
    match closed {
        Ok(()) => Ok(None),
        Err(error) => Err(error),
    }
}

/// The same, over a writer of its own to standard output.
#[tactic(auto, using(crate::proofs::Refused::other_is))]
fn serve_once<R, P, M>(
    rt: R,
    words: &[Text],
    patience: &Patience,
    make: &M,
    carried: Carried,
) -> Result<Option<Carried>, ServeError>
where
    R: Threads
        + Wait
        + Net
        + Clock
        + Files<File = File>
        + RandomSource
        + Print
        + Eprint
        + AllocGlobal
        + Copy
        + Clone
        + Drop
        + Send
        + 'static,
    R::Dir: Send,
    P: Package + 'static,
    M: Fn(Wanted) -> Result<P, NoMemory>,
    requires callable { M.IsAlwaysCallable make.now }
    requires gives { Gives P.seen (M.post make.now) }
    requires carried { IsCarried words.now carried }
    ensures well { IfOk result (λ next. next ≡ None → CanEndWell words.now) }
    ensures carried { IfOk result (λ next. IfSome next (IsCarried words.now)) }
    ensures refused { IfErr result (IsRefusal words.now) }
{
    let Ok(output) = Output::new(io::writer(&rt), patience) else {
        drop(carried);
        return Err(ServeError::NoMemory);
    };
    serve_over(rt, words, output, make, carried)
}

/// Runs the service that the words ask for to its end, one run behind the other. It answers a service that ended well.
fn attempt<R, P, M>(rt: R, words: &[Text], patience: &Patience, make: &M) -> Result<(), ServeError>
where
    R: Threads
        + Wait
        + Net
        + Clock
        + Files<File = File>
        + RandomSource
        + Print
        + Eprint
        + AllocGlobal
        + Copy
        + Clone
        + Drop
        + Send
        + 'static,
    R::Dir: Send,
    P: Package + 'static,
    M: Fn(Wanted) -> Result<P, NoMemory>,
    requires callable { M.IsAlwaysCallable make.now }
    requires gives { Gives P.seen (M.post make.now) }
    ensures well { OnOk result (CanEndWell words.now) }
    ensures refused { IfErr result (IsRefusal words.now) }
{
    let mut carried = Carried::new();
    for _ in rt.forever() {
        match serve_once(rt, words, patience, make, carried)? {
            Some(next) => carried = next,
            None => return Ok(()),
        }
    }
    unreachable!()
}

/// Prints a text that the words asked for alone. Answers the exit status.
fn print_text<R: Print>(rt: &R, text: &str) -> u8
    ensures status { (result ≡ 0) ⊎ (result ≡ status_of error.Device) }
{
    match println!(rt; "{text}") {
        Ok(()) => ExitStatus::Done.code(),
        Err(_) => ExitStatus::DeviceFault.code(),
    }
}

/// Prints what the program does. Answers the exit status: 3 where it could not be printed.
pub fn print_help<R: Print>(rt: &R) -> u8
    ensures status { (result ≡ 0) ⊎ (result ≡ status_of error.Device) }
{
    print_text(rt, HELP)
}

/// Whether these words want lines on standard error to be JSON objects. They may be words that can't be read.
fn want_json(words: &[Text]) -> bool {
    words.iter().any(|word| word.is("--log-json"))
}

/// Tells on standard error, where there is room, why no service runs, or has ended. Answers the exit status.
fn tell_why<R: Clock + Eprint + AllocGlobal>(rt: &R, is_json: bool, error: &ServeError) -> u8
    ensures status { result ≡ status_of error.now }
{
    let text: Result<String, AllocError> = format!(in rt.alloc(); "{error}");
    let words = text.as_ref().map_or("out of memory", |text| text.as_str());
    say_why(rt, is_json, error.status(), words);
    error.status()
}

/// The exit status of what came of the words, whose error is told on standard error.
fn exit_status<R, T>(rt: &R, is_json: bool, came: &Result<T, ServeError>) -> u8
where
    R: Clock + Eprint + AllocGlobal,
    ensures status { result ≡ status_after came.now }
{
    match came {
        Ok(_) => ExitStatus::Done.code(),
        Err(error) => tell_why(rt, is_json, error),
    }
}

/// `notifyd serve` with these words behind it. Answers the exit status: 0 where a service ended well, or where a text was asked for
/// and printed, 1 where the words ask for no service, 3 where an address is of another form or a socket, a file or a thread failed,
/// 4 where memory ran out. What kept a service from running, or went wrong in it, is told in one line on standard error.
pub fn serve<R, P, M>(rt: R, words: &[Text], make: &M) -> u8
where
    R: Threads
        + Wait
        + Net
        + Clock
        + Files<File = File>
        + RandomSource
        + Print
        + Eprint
        + AllocGlobal
        + Copy
        + Clone
        + Drop
        + Send
        + 'static,
    R::Dir: Send,
    P: Package + 'static,
    M: Fn(Wanted) -> Result<P, NoMemory>,
    // What `make` answers is a new package of those that are wanted.
    requires callable { M.IsAlwaysCallable make.now }
    requires gives { Gives P.seen (M.post make.now) }
    ensures status { IsStatus words.now result }
    // A text that is asked for is printed, or could not be.
    ensures text { AskForText words.now → (result ≡ 0) ⊎ (result ≡ status_of error.Device) }
{
    if let Some(text) = asked_text(words) {
        return print_text(&rt, text);
    }
    let is_json = want_json(words);
    let Ok(patience) = Patience::new(rt.alloc()) else {
        return tell_why(&rt, is_json, &ServeError::NoMemory);
    };
    let came = attempt(rt, words, &patience, make);
    exit_status(&rt, is_json, &came)
}
