//! What a run of `notifyd serve` is made ready with.
ghost use Rattle.std.specs.Prelude.{◌≡◌, ◌≢◌, ◌<◌, ◌≤◌, ℕ, List, None, option_map, IfOk, IfErr, IfSome, IsSome};
ghost use Rattle.arguments.specs.Wanted.{Gives};
ghost use Rattle.commands.specs.Refused.{IsOther, IsRefusal};
ghost use Rattle.commands.specs.declared.error.ServeError.TheVariants as error;
ghost use Rattle.plans.specs.Plans.{IsPlan};
ghost use Rattle.commands.specs.Readiness.{IsFitted, IsReady};
ghost use Rattle.commands.specs.Runs as runs;
ghost use Rattle.commands.specs.Runs.{IsRunBy, IsRunOf};
ghost use Rattle.commands.specs.Reloading.{IsCarried, IsRereading};
ghost use Rattle.commands.specs.Serving.{AreOpen};

use crate::error::ServeError;
use crate::feed::{FeedDesk, open_feed};
use crate::input::Watch;
use crate::journal_folder::Folder;
use crate::journal_opened::{Opened, found_header, open_journal, told_mailboxes};
use crate::journal_start::{Started, start};
use crate::logging::{say_hello, say_journal, warn_of_control};
use crate::reloading::{Carried, Reloader, answer_reload, first_mailboxes};
use crate::sockets::{Sockets, Standby, find};
use arguments::Wanted;
use journal::Header;
use log_lines::Course;
use notifier::Desk;
use package::{Change, Package};
use plans::{Plan, adopted, new_plan, with_told};
use service::{Begins, Caller, Journal, Shared};
use sip_text::{Addr, NoMemory, Text};
use std::alloc::Global;
use std::fs::File;
use std::net::Net;
use std::random::RandomSource;
use std::rt::{Clock, Files};
use std::sync::{Arc, Wait};
use std::thread::Threads;
use std::time::Instant;

/// What the threads of a service share, which begins now and hears SIP datagrams at this address: twice.
fn begin<R: Clock + AllocGlobal>(
    rt: &R,
    place: Addr,
) -> Result<(Arc<Shared, Global>, Arc<Shared, Global>), ServeError>
    ensures { IfErr result IsOther }
{
    let Ok(now) = Instant::now(rt) else {
        return Err(ServeError::System);
    };
    let shared = Arc::new(rt.alloc(), Shared::new(rt.alloc(), now, place)?)?;
    let theirs = Arc::try_clone(&shared)?;
    Ok((shared, theirs))
}

/// Opens the sockets that a plan asks for, unless they stand by, and says where they are.
fn open_sockets<R: Wait + Net + Clock + Eprint + AllocGlobal>(
    rt: &R,
    plan: &Plan,
    standby: Option<Standby>,
) -> Result<Sockets, ServeError>
    requires open { IfSome standby (λ s. AreOpen s.choices s.sockets) }
    ensures opened { IfOk result (AreOpen plan.now.choices) }
    ensures refused { IfErr result IsOther }
{
    let sockets = find(rt, &plan.choices, standby)?;
    let (sip, control) = (sockets.sip.local(), sockets.lines.local());
    let is_json = plan.choices.log_json;
    say_hello(
        rt,
        is_json,
        (sip, control),
        plan.workers,
        plan.mailboxes.len(),
    );
    if plan.operators.is_empty() {
        warn_of_control(rt, is_json, control);
    }
    Ok(sockets)
}

/// What the words ask for, as it was read last, if it was.
fn known_plan<R>(rt: &R, words: &[Text], known: Option<Plan>) -> Result<Plan, ServeError>
where
    R: Threads + Files + RandomSource + AllocGlobal,
    requires known { IfSome known (IsPlan words.now) }
    ensures plan { IfOk result (IsPlan words.now) }
    ensures refused { IfErr result (IsRefusal words.now) }
{
    match known {
        Some(plan) => Ok(plan),
        None => Ok(new_plan(rt, words)?),
    }
}

/// The plan with seed and number of workers of the journal that begins so, if there is one, where the words ask for none.
fn adopted_from(plan: Plan, header: Option<&Header>) -> Plan
    ensures adopted { result ≡ runs.adopted_from (option_map (λ h. h.now) header.entry) plan }
    ensures plan { (words : List (List ℕ)) → IsPlan words plan → IsPlan words result }
{
    match header {
        Some(header) => adopted(plan, header.seed, header.workers),
        None => plan,
    }
}

/// The plan of a run with this journal: also with the mailboxes of which lines told, in the order of the former run.
fn run_plan(
    alloc: Global,
    plan: Plan,
    opened: &Option<Opened>,
    former: Option<Vec<Text>>,
) -> Result<Plan, NoMemory>
    ensures run { IfOk result (IsRunOf plan opened.now (option_map (λ f. f.items) former)) }
    ensures plan { (words : List (List ℕ)) → IsPlan words plan → IfOk result (IsPlan words) }
{
    let told = told_mailboxes(alloc, &plan, opened, former)?;
    let plan = with_told(alloc, plan, told)?;
    Ok(adopted_from(plan, found_header(opened)))
}

/// What the words ask for, as it was read last, if it was, and the folder of the journal that they name, with what stands there. Seed and
/// number of workers are then those of the journal, where the words ask for none, and the mailboxes of which lines told are there too, where
/// lines make mailboxes, in the order of the former run.
#[tactic(auto, using(crate::proofs::Refused::other_is, crate::proofs::Refused::of_journal_is))]
fn plan_with_journal<R>(
    rt: &R,
    words: &[Text],
    known: Option<Plan>,
    held: Option<Folder>,
    former: Option<Vec<Text>>,
) -> Result<(Plan, Option<Opened>), ServeError>
where
    R: Threads + Files<File = File> + RandomSource + AllocGlobal + Clone + Drop,
    requires known { IfSome known (IsPlan words.now) }
    ensures plan { IfOk result (λ r. IsPlan words.now r.0) }
    ensures run { IfOk result (λ r. IsRunBy words.now r.1 (option_map (λ f. f.items) former) r.0) }
    ensures refused { IfErr result (IsRefusal words.now) }
{
    let plan = known_plan(rt, words, known)?;
    // What is left is dropped by a call: in place the proof would take it apart, field by field.
    let opened = match open_journal(rt, &plan, held) {
        Ok(opened) => opened,
        Err(error) => {
            drop(plan);
            return Err(error);
        }
    };
    let plan = run_plan(rt.alloc(), plan, &opened, former)?;
    Ok((plan, opened))
}

/// What a service is run with, beside its plan.
#[derive(Drop)]
pub(crate) struct Fitted<P> {
    pub(crate) desks: Vec<Desk<P>>,
    pub(crate) begins: Begins,
    pub(crate) changes: Option<Vec<Change>>,
    pub(crate) shared: Arc<Shared, Global>,
    pub(crate) theirs: Arc<Shared, Global>,
    pub(crate) sockets: Sockets,
}

/// Has a service keep the journal that it begins with. Where one is asked for and can't be written, it is said once.
fn keep_journal<R: Clock + Eprint + AllocGlobal>(
    rt: &R,
    plan: &Plan,
    shared: &Shared,
    journal: Option<Journal>,
) {
    match (journal, &plan.journal) {
        (Some(journal), _) => shared.keep_journal(journal),
        (None, Some(folder)) => {
            say_journal(rt, plan.choices.log_json, folder, Course::Unwritable);
            shared.count_unwritten(1);
        }
        (None, None) => {}
    }
}

/// Makes what a service that is planned so is run with, and says where it is.
fn fit_out<R, P, M>(
    rt: &R,
    plan: &Plan,
    opened: &mut Option<Opened>,
    standby: Option<Standby>,
    make: &M,
) -> Result<Fitted<P>, ServeError>
where
    R: Wait + Net + Clock + Files<File = File> + Eprint + AllocGlobal,
    P: Package,
    M: Fn(Wanted) -> Result<P, NoMemory>,
    requires some { 0 < plan.now.workers }
    requires few { plan.now.workers ≤ 256 }
    requires callable { M.IsAlwaysCallable make.now }
    requires gives { Gives P.seen (M.post make.now) }
    requires open { IfSome standby (λ s. AreOpen s.choices s.sockets) }
    ensures fitted { IfOk result (IsFitted P.seen plan.now) }
    ensures refused { IfErr result IsOther }
{
    let sockets = open_sockets(rt, plan, standby)?;
    let Started {
        desks,
        begins,
        changes,
        journal,
    } = start(rt, plan, sockets.sip.local(), opened, make)?;
    let (shared, theirs) = match begin(rt, sockets.sip.local()) {
        Ok(both) => both,
        Err(error) => {
            drop((desks, begins, changes, journal, sockets));
            return Err(error);
        }
    };
    keep_journal(rt, plan, &shared, journal);
    Ok(Fitted {
        desks,
        begins,
        changes,
        shared,
        theirs,
        sockets,
    })
}

/// Has each line on standard error be as a plan asks for it.
fn set_log<R: Clock>(rt: &R, plan: &Plan, shared: &Shared) {
    if plan.choices.log_requests {
        shared.log_requests();
    }
    if plan.choices.log_json {
        shared.log_json(rt);
    }
}

/// Further wires over these sockets, where a service has a journal from which a next run can go on.
fn stand_by(plan: &Plan, sockets: &Sockets) -> Result<Option<Standby>, ServeError>
    requires open { AreOpen plan.now.choices sockets.now }
    ensures open { IfOk result (λ standby. IfSome standby (λ s. AreOpen s.choices s.sockets)) }
    ensures kept { plan.now.journal ≢ None → IfOk result IsSome }
    ensures refused { IfErr result IsOther }
{
    match &plan.journal {
        Some(_) => Ok(Some(Standby::of(&plan.choices, sockets)?)),
        None => Ok(None),
    }
}

/// Starts what looks for the end of standard input, and what reads files again, where a plan asks for them.
fn start_threads<R>(
    rt: R,
    words: &[Text],
    plan: &Plan,
    shared: &Arc<Shared, Global>,
    feed: Option<FeedDesk>,
) -> Result<(Watch, Reloader), ServeError>
where
    R: Threads
        + Wait
        + Clock
        + Files<File = File>
        + RandomSource
        + Eprint
        + AllocGlobal
        + Copy
        + Send
        + 'static,
    R::Dir: Send,
    ensures reads { IfOk result (λ r. IsRereading words.now r.1) }
    ensures refused { IfErr result IsOther }
{
    let reloader = Reloader::begin(rt, shared, words, plan.journal.is_some())?;
    match Watch::begin(rt, shared, plan.choices.until_input_ends, feed) {
        Ok(watch) => Ok((watch, reloader)),
        Err(error) => {
            drop(reloader.end(&rt));
            Err(error)
        }
    }
}

/// What runs beside a service, and the sockets that stay open for its next run.
#[derive(Drop)]
pub(crate) struct Aides {
    pub(crate) watch: Watch,
    pub(crate) reloader: Reloader,
    pub(crate) standby: Option<Standby>,
}

/// Starts what a plan asks for beside the service, and answers who asked for the run, if somebody did.
fn start_aides<R, P>(
    rt: R,
    words: &[Text],
    plan: &Plan,
    fitted: &Fitted<P>,
    caller: Option<Caller>,
) -> Result<Aides, ServeError>
where
    R: Threads
        + Wait
        + Net
        + Clock
        + Files<File = File>
        + RandomSource
        + Eprint
        + AllocGlobal
        + Copy
        + Send
        + 'static,
    R::Dir: Send,
    requires open { AreOpen plan.now.choices fitted.now.sockets }
    ensures reads { IfOk result (λ a. IsRereading words.now a.reloader) }
    ensures open { IfOk result (λ a. IfSome a.standby (λ s. AreOpen s.choices s.sockets)) }
    ensures refused { IfErr result IsOther }
{
    let standby = stand_by(plan, &fitted.sockets)?;
    set_log(&rt, plan, &fitted.shared);
    let feed = open_feed(&rt, plan, fitted.sockets.lines.local())?;
    match start_threads(rt, words, plan, &fitted.shared, feed) {
        Ok((watch, reloader)) => {
            answer_reload(&rt, &fitted.shared, &fitted.sockets.replies, caller);
            Ok(Aides {
                watch,
                reloader,
                standby,
            })
        }
        Err(error) => {
            drop(standby);
            Err(error)
        }
    }
}

impl Aides {
    /// Ends what runs beside a service that has ended. Answers what its next run goes on with: what was read last for it, if that was good, and
    /// the sockets.
    pub(crate) fn end<R: Threads + Wait>(self, rt: &R) -> (Option<Plan>, Option<Standby>)
        ensures plan { (words : _) → IsRereading words self.reloader → IfSome result.0 (IsPlan words) }
        ensures sockets { result.1 ≡ self.standby }
    {
        let Aides {
            watch,
            reloader,
            standby,
        } = self;
        watch.end(rt);
        (reloader.end(rt), standby)
    }
}

/// A run of a service that may begin: what it is run with, what runs beside it, and what goes on from it to the next one.
#[derive(Drop)]
pub(crate) struct Ready<P> {
    pub(crate) plan: Plan,
    pub(crate) opened: Option<Opened>,
    /// The mailboxes with which it begins, in order, where lines make some.
    pub(crate) mailboxes: Option<Vec<Text>>,
    pub(crate) fitted: Fitted<P>,
    pub(crate) aides: Aides,
}

/// Makes a run of the service ready that the words behind `serve` ask for, with what its last run left, and says on standard error where it is.
#[tactic(auto, using(crate::proofs::Refused::other_is))]
pub(crate) fn make_ready<R, P, M>(
    rt: R,
    words: &[Text],
    make: &M,
    carried: Carried,
) -> Result<Ready<P>, ServeError>
where
    R: Threads
        + Wait
        + Net
        + Clock
        + Files<File = File>
        + RandomSource
        + Eprint
        + AllocGlobal
        + Copy
        + Clone
        + Drop
        + Send
        + 'static,
    R::Dir: Send,
    P: Package + 'static,
    M: Fn(Wanted) -> Result<P, NoMemory>,
    requires callable { M.IsAlwaysCallable make.now }
    requires gives { Gives P.seen (M.post make.now) }
    requires carried { IsCarried words.now carried }
    ensures ready { IfOk result (IsReady P.seen words.now) }
    ensures refused { IfErr result (IsRefusal words.now) }
{
    let Carried {
        plan,
        folder,
        sockets,
        mailboxes,
        caller,
    } = carried;
    let (plan, mut opened) = plan_with_journal(&rt, words, plan, folder, mailboxes)?;
    let fitted = match fit_out(&rt, &plan, &mut opened, sockets, make) {
        Ok(fitted) => fitted,
        Err(error) => {
            drop((plan, opened));
            return Err(error);
        }
    };
    match start_aides(rt, words, &plan, &fitted, caller) {
        Ok(aides) => Ok(Ready {
            mailboxes: first_mailboxes(rt.alloc(), &plan),
            plan,
            opened,
            fitted,
            aides,
        }),
        Err(error) => {
            drop((plan, opened, fitted));
            Err(error)
        }
    }
}
