//! The files of a service, read again at a RELOAD, and what goes on from one run of it to the next.
//!
//! A thread of its own reads them while the service runs, so that it is known whether they are good before anything ends. Where they are, the
//! run ends, and the next one begins from the journal as a start would, with the plan that this thread made. The lock on the folder of the
//! journal is held from run to run, and the sockets stay open: what comes meanwhile waits there. The next run answers the RELOAD.
ghost use Rattle.std.specs.Prelude.{◌≡◌, ℕ, List, None, true, option_map, IfOk, IfErr, IfSome, IsSome};
ghost use Rattle.plans.specs.Plans.{IsPlan};
ghost use Rattle.commands.specs.Refused.{IsOther};
ghost use Rattle.commands.specs.Reloading.{IsAnswered, IsRereading};
ghost use Rattle.commands.specs.Runs.{AreFirst, AreAll};

use crate::error::ServeError;
use crate::journal_folder::Folder;
use crate::sockets::Standby;
use control_lines::ControlAnswer;
use plans::{Plan, PlanError, next_plan};
use service::{Caller, Rereader, Shared};
use sip_text::{Addr, NoMemory, Text};
use std::alloc::{AllocError, Global};
use std::fs::File;
use std::random::RandomSource;
use std::rt::{Clock, Files};
use std::snapshot::Snapshot;
use std::sync::{Arc, Wait};
use std::thread;
use std::thread::{Promise, PromisedHandle, Threads};
use transport::{UdpWire, Wire};

/// What goes on from one run of a service to the next.
#[derive(Drop)]
pub(crate) struct Carried {
    /// What the words ask for, and what stands in the files that they name, as they were read last.
    pub(crate) plan: Option<Plan>,
    /// The folder of the journal, which no other service writes meanwhile.
    pub(crate) folder: Option<Folder>,
    pub(crate) sockets: Option<Standby>,
    /// The mailboxes of the last run, in its order, where lines make some: so the pages of a DUMP that began there go on in the next run.
    pub(crate) mailboxes: Option<Vec<Text>>,
    /// Who asked for the RELOAD by which the next run begins.
    pub(crate) caller: Option<Caller>,
}

impl Carried {
    /// Nothing: the service starts.
    pub(crate) fn new() -> Carried
        ensures plan { result.plan ≡ None }
        ensures sockets { result.sockets ≡ None }
    {
        Carried {
            plan: None,
            folder: None,
            sockets: None,
            mailboxes: None,
            caller: None,
        }
    }
}

/// The mailboxes with which a run of this plan begins, in order, where lines make some. None also where there is no memory: then the next run has
/// another order.
pub(crate) fn first_mailboxes(alloc: Global, plan: &Plan) -> Option<Vec<Text>>
    ensures first { IfSome result (λ first. AreFirst plan.now first.items) }
{
    if plan.choices.any_mailbox {
        copies(alloc, plan.mailboxes.as_slice()).ok()
    } else {
        None
    }
}

/// The mailboxes of a run that began with these: those that lines made stand behind them.
pub(crate) fn all_mailboxes<R: Wait>(
    rt: &R,
    first: Option<Vec<Text>>,
    shared: &Shared,
) -> Option<Vec<Text>>
    ensures all { IfSome result (λ all. AreAll (option_map (λ f. f.items) first) all.items) }
{
    let mut all = first?;
    let mut made = shared.made_mailboxes(rt).ok()?;
    all.append(&mut made).ok()?;
    Some(all)
}

/// Answers by this wire that a RELOAD is done. Where that can't be sent, who asked asks again.
fn send_done<R: Wait, W: Wire>(rt: &R, wire: &mut W, to: Addr)
    ensures { IsAnswered to (W.taken wire.old) (W.taken wire.new) (W.failures wire.old) (W.failures wire.new) }
{
    let answer = ControlAnswer::Done.text().as_bytes();
    let _ = wire.send(rt, to, answer);
}

/// Answers who asked for the RELOAD by which a run begins, if it begins by one, by a further wire over this one: whatever comes behind the answer
/// is taken by this run. Where it can't be sent who asks asks again, and is answered then.
pub(crate) fn answer_reload<R: Wait>(
    rt: &R,
    shared: &Shared,
    replies: &UdpWire,
    caller: Option<Caller>,
) {
    let Some(caller) = caller else {
        return;
    };
    shared.begin_behind(rt, caller.token);
    let Ok(mut wire) = replies.further() else {
        return;
    };
    send_done(rt, &mut wire, caller.source);
}

/// Why files are refused: the exit status of a start with them, and the words that such a start has for it. None where memory runs out.
fn refusal(alloc: Global, error: &PlanError) -> Option<String> {
    let status = error.status();
    let text: Result<String, AllocError> = format!(in alloc; "{status} {error}");
    text.ok()
}

/// Refuses files for this reason. Where nobody asked, since they were read for mailboxes that lines made, it is told on standard error.
fn refuse<R>(rt: &R, rereader: &Rereader, number: u64, error: &PlanError)
where
    R: Wait + Clock + Eprint + AllocGlobal,
{
    if rereader.refuse(rt, number, refusal(rt.alloc(), error)) {
        let text: Result<String, AllocError> = format!(in rt.alloc(); "{error}");
        let words = text.as_ref().map_or("out of memory", |text| text.as_str());
        rereader.say_why(rt, error.status(), words);
    }
}

/// Accepts good files: the next run begins with what they say, which it answers.
fn accept<R: Wait>(rt: &R, rereader: &Rereader, number: u64, plan: Plan) -> Plan
    ensures same { result ≡ plan }
    ensures plan { (words : List (List ℕ)) → IsPlan words plan → IsPlan words result }
{
    rereader.accept(rt, number);
    plan
}

/// Reads the files that the words name, as this call asks. Answers what they say, if they are good.
fn read_once<R>(rt: &R, words: &[Text], rereader: &Rereader, number: u64) -> Option<Plan>
where
    R: Threads + Wait + Clock + Files + RandomSource + Eprint + AllocGlobal,
    ensures { IfSome result (IsPlan words.now) }
{
    match next_plan(rt, words) {
        Ok(plan) => Some(accept(rt, rereader, number, plan)),
        Err(error) => {
            refuse(rt, rereader, number, &error);
            None
        }
    }
}

/// Reads the files that the words name whenever that is asked for, until the service has ended. Answers what was read last, if it was good.
fn read_again<R>(rt: &R, words: &[Text], rereader: &Rereader) -> Option<Plan>
where
    R: Threads + Wait + Clock + Files + RandomSource + Eprint + AllocGlobal,
    ensures { IfSome result (IsPlan words.now) }
{
    let mut last = None;
    for _ in rt.forever() {
        let Some(number) = rereader.next(rt) else {
            return last;
        };
        // Dropped by a call, and not where the next one takes its place: there the proof would take it apart, field by field.
        drop(last);
        last = read_once(rt, words, rereader, number);
    }
    unreachable!()
}

/// What a thread promises that reads files again: what it leaves is what these words ask for.
#[derive(Drop)]
pub(crate) struct Rereading {
    pub(crate) words: Snapshot<Vec<Text>>,
}

impl Promise<Option<Plan>> for Rereading {
    ghost use Rattle.std.specs.Prelude.{IfSome};
    ghost use Rattle.plans.specs.Plans.{IsPlan};

    ghost kept_by = { λ rereading plan. IfSome plan (IsPlan rereading.words.value.items) };
}

/// A thread that reads files again.
pub(crate) type Reader = PromisedHandle<Option<Plan>, Rereading>;

/// What reads the files of a service again, where it has a journal from which the next run can go on.
#[derive(Drop)]
pub(crate) struct Reloader {
    shared: Arc<Shared, Global>,
    pub(crate) reader: Option<Reader>,
}

/// Copies of these words.
fn copies(alloc: Global, words: &[Text]) -> Result<Vec<Text>, NoMemory>
    ensures { IfOk result (λ copies. copies.items ≡ words.now) }
{
    let mut copies = Vec::new(alloc);
    for word in words {
        copies.push(word.copy(alloc)?)?;
    }
    Ok(copies)
}

/// Starts a thread that reads the files that these words name.
fn start_reader<R>(
    rt: R,
    shared: &Arc<Shared, Global>,
    words: &[Text],
) -> Result<Reader, ServeError>
where
    R: Threads
        + Wait
        + Clock
        + Files<File = File>
        + RandomSource
        + Eprint
        + AllocGlobal
        + Copy
        + Send
        + 'static,
    R::Dir: Send,
    ensures words { IfOk result (λ h. h.promise.words.value.items ≡ words.now) }
    ensures refused { IfErr result IsOther }
{
    let rereader = Rereader::new(rt.alloc(), shared)?;
    let words = copies(rt.alloc(), words)?;
    let rereading = Rereading {
        words: Snapshot::of(&words),
    };
    match thread::spawn_with(
        &rt,
        rereading,
        move || -> Option<Plan>
            ensures { IfSome result (IsPlan words.items) }
        { read_again(&rt, words.as_slice(), &rereader) },
    ) {
        Ok(reader) => Ok(reader),
        Err(_) => Err(ServeError::System),
    }
}

impl Reloader {
    /// Begins to wait for a RELOAD, where the service has a journal.
    pub(crate) fn begin<R>(
        rt: R,
        shared: &Arc<Shared, Global>,
        words: &[Text],
        has_journal: bool,
    ) -> Result<Reloader, ServeError>
    where
        R: Threads
            + Wait
            + Clock
            + Files<File = File>
            + RandomSource
            + Eprint
            + AllocGlobal
            + Copy
            + Send
            + 'static,
        R::Dir: Send,
        ensures words { IfOk result (IsRereading words.now) }
        ensures reads { has_journal ≡ true → IfOk result (λ r. IsSome r.reader) }
        ensures refused { IfErr result IsOther }
    {
        let ours = Arc::try_clone(shared)?;
        let reader = if has_journal {
            Some(start_reader(rt, shared, words)?)
        } else {
            None
        };
        Ok(Reloader {
            shared: ours,
            reader,
        })
    }

    /// Waits no more: the run has ended. Answers what was read last for it, if that was good.
    pub(crate) fn end<R: Threads + Wait>(self, rt: &R) -> Option<Plan>
        ensures { (words : _) → IsRereading words self → IfSome result (IsPlan words) }
    {
        let Reloader { shared, reader } = self;
        shared.finish_reading();
        match reader {
            Some(reader) => reader.join(rt),
            None => None,
        }
    }
}
