//! What a service begins with, by the words behind `serve`.
ghost use Rattle.std.specs.Prelude.{◌≡◌, ◌↔◌, ℕ, List, [], Some, IsTrue, IfOk, IfErr, OnOk, OnErr};
ghost use Rattle.notifier_model.specs.Limits.{AreLimits};
ghost use Rattle.plans.specs.declared.error.PlanError.TheVariants as error;
ghost use Rattle.plans.specs.declared.plan.Occasion.TheVariants as occasions;
ghost use Rattle.plans.specs.declared.ranged.Ranged.{Ranged};
ghost use Rattle.plans.specs.Ranges.{ranges, IsFirstOut};
ghost use Rattle.plans.specs.Plans as spec;
ghost use Rattle.plans.specs.Plans.{IsCount, IsSeed, IsReached, IsPlan};
ghost use Rattle.arguments.specs.Choices.{state_of};
ghost use Rattle.plans.specs.State.{IsState};
ghost use Rattle.plans.specs.Refused.{IsOfMailboxes, IsOfNamedState, IsRefusal};

use crate::admitting::{check_watched, new_admission, secret};
use crate::error::PlanError;
use crate::mailboxes::{each_once, named_mailboxes, with_further};
use crate::ranged::number_out;
use crate::state::told_changes;
use admission::{Admission, Network};
use arguments::{
    Choices, Numbers, Setting, control_networks, feed_networks, journal_folder, parse_settings,
};
use notifier_model::{Limits, Setup};
use package::Change;
use sip_text::{Addr, NoMemory, Text};
use std::alloc::Global;
use std::random::RandomSource;
use std::rt::Files;
use std::thread;
use std::thread::Threads;

/// What a service is to be, before a socket is open.
#[derive(Drop)]
pub struct Plan {
    pub choices: Choices,
    pub limits: Limits,
    pub seed: [u8; 32],
    pub workers: u32,
    /// Each once: those of the words, and behind them those that lines told, where these make mailboxes.
    pub mailboxes: Vec<Text>,
    /// What is told of mailboxes before the first datagram is heard.
    pub changes: Vec<Change>,
    /// Whose datagrams of SIP are heard.
    pub admission: Admission,
    /// The networks whose control lines are heard, beside this machine's: all are, where there is none.
    pub operators: Vec<Network>,
    /// The networks whose voicemail systems are heard: none is, where there is none.
    pub feeds: Vec<Network>,
    /// The folder of its journal, if it keeps one.
    pub journal: Option<Text>,
}

/// The limits that the numbers ask for. An error names the first number that is out of its range: times may not go together.
#[tactic(auto, using(crate::proofs::FirstOut::are_limits, crate::proofs::FirstOut::are_none))]
fn chosen_limits(numbers: &Numbers) -> Result<Limits, PlanError>
    ensures limits { IfOk result (λ limits. limits ≡ spec.limits_of numbers.now) }
    ensures within { IfOk result AreLimits }
    ensures times { OnErr result (¬ (AreLimits (spec.limits_of numbers.now))) }
    ensures refused { IfErr result (λ e. (r : Ranged) × (e ≡ error.Times r) × IsFirstOut (ranges numbers.now) r) }
{
    if let Some(ranged) = number_out(numbers) {
        return Err(PlanError::Times(ranged));
    }
    let Some(limits) = Limits::new(
        numbers.min_time,
        numbers.max_time,
        numbers.default_time,
        numbers.refer_time,
        numbers.max_cseq,
        numbers.table,
        numbers.serials,
        numbers.kept,
        numbers.inbox,
        numbers.outbox,
    ) else {
        unreachable!()
    };
    Ok(limits)
}

/// The seed that was asked for, or 32 bytes of the system's randomness.
fn seed_or_random<R: RandomSource>(rt: &R, asked: Option<[u8; 32]>) -> Result<[u8; 32], PlanError>
    ensures seed { IfOk result (IsSeed asked) }
    ensures refused { IfErr result (λ e. e ≡ error.System) }
{
    match asked {
        Some(seed) => Ok(seed),
        None => secret(rt),
    }
}

/// How many processors there are, as far as the system tells.
fn processors<R: Threads>(rt: &R) -> u32 {
    match thread::available_parallelism(rt) {
        Ok(count) => u32::try_from(count.get()).unwrap_or(u32::MAX),
        Err(_) => 1,
    }
}

/// How many workers are asked for: without a number one a processor. From 1 to 256.
fn worker_count<R: Threads>(rt: &R, asked: Option<u32>) -> u32
    ensures { IsCount asked result }
{
    let count = match asked {
        Some(count) => count,
        None => processors(rt),
    };
    count.clamp(1, 256)
}

/// Whether phones are told an address: 0.0.0.0 is none. A service that listens at each of its addresses must name one.
fn is_reached(choices: &Choices) -> bool
    ensures { IsTrue result ↔ IsReached choices.now }
{
    choices.contact.unwrap_or(choices.listen).ip != [0; 4]
}

/// When the words are read.
#[derive(Clone, Copy)]
enum Occasion {
    /// The service starts.
    Start,
    /// It runs: its journal tells of its mailboxes, and the file of changes with which it started may be gone.
    Reload,
}

/// What the words ask for, but for what stands in files.
#[derive(Drop)]
struct Read {
    choices: Choices,
    mailboxes: Vec<Text>,
    changes: Vec<Change>,
    admission: Admission,
    operators: Vec<Network>,
    feeds: Vec<Network>,
    journal: Option<Text>,
}

/// What is told of mailboxes before the first datagram is heard: what the file of the settings says at a start, and nothing more where a
/// service goes on.
#[tactic(auto, using(crate::proofs::ToldLines::state_none))]
fn first_changes<R>(
    rt: &R,
    settings: &[Setting],
    occasion: Occasion,
) -> Result<Vec<Change>, PlanError>
where
    R: Files + AllocGlobal,
    ensures state { IfOk result (λ changes. IsState (state_of settings.now) changes.items) }
    ensures later { occasion ≡ occasions.Reload → IfOk result (λ changes. changes.items ≡ []) }
    ensures refused { IfErr result (IsOfNamedState settings.now) }
{
    match occasion {
        Occasion::Start => told_changes(rt, settings),
        Occasion::Reload => Ok(Vec::new(rt.alloc())),
    }
}

/// What the words ask for, and what stands in the files that they name.
#[tactic(auto, using(crate::proofs::Refused::of_one_is, crate::proofs::Refused::of_state_is, crate::proofs::Refused::of_admission_is, crate::proofs::Refused::of_further_is))]
fn read_words<R>(rt: &R, words: &[Text], occasion: Occasion) -> Result<Read, PlanError>
where
    R: Files + RandomSource + AllocGlobal,
    ensures read { IfOk result (λ r. spec.AreRead words.now r.choices r.mailboxes.items) }
    ensures changes { IfOk result (λ r. spec.AreChanges words.now r.changes.items) }
    ensures heard { IfOk result (λ r. spec.AreHeard words.now r.admission) }
    ensures watched { IfOk result (λ r. spec.HasWatched words.now r.mailboxes.items) }
    ensures operators { IfOk result (λ r. spec.AreOperators words.now r.operators.items) }
    ensures feeds { IfOk result (λ r. spec.AreFeeds words.now r.feeds.items) }
    ensures journal { IfOk result (λ r. spec.IsJournal words.now r.journal) }
    ensures later { occasion ≡ occasions.Reload → IfOk result (λ r. r.changes.items ≡ []) }
    ensures refused { IfErr result (IsRefusal words.now) }
{
    let settings = parse_settings(rt.alloc(), words)?;
    let mailboxes = named_mailboxes(rt, settings.as_slice())?;
    let changes = first_changes(rt, settings.as_slice(), occasion)?;
    let admission = new_admission(rt, settings.as_slice())?;
    check_watched(rt.alloc(), settings.as_slice(), mailboxes.as_slice())?;
    let operators = control_networks(rt.alloc(), settings.as_slice())?;
    let feeds = feed_networks(rt.alloc(), settings.as_slice())?;
    let journal = journal_folder(rt.alloc(), settings.as_slice())?;
    Ok(Read {
        choices: Choices::of(settings.as_slice()),
        mailboxes,
        changes,
        admission,
        operators,
        feeds,
        journal,
    })
}

/// Sees that there are mailboxes, or that lines make some which a journal keeps.
fn check_mailboxes(
    choices: &Choices,
    mailboxes: &[Text],
    journal: &Option<Text>,
) -> Result<(), PlanError>
    ensures some { OnOk result (spec.AreSome choices.now mailboxes.now) }
    ensures kept { OnOk result (spec.AreKept choices.now journal.now) }
    ensures refused { IfErr result (IsOfMailboxes choices.now mailboxes.now journal.now) }
{
    if choices.any_mailbox {
        if journal.is_none() {
            return Err(PlanError::NoJournal);
        }
    } else if mailboxes.is_empty() {
        return Err(PlanError::NoMailbox);
    }
    Ok(())
}

/// What the words ask for on this occasion: files are read and the system is asked for randomness, and no socket is opened.
#[tactic(auto, using(crate::proofs::Refused::other_is, crate::proofs::Refused::times_are, crate::proofs::Refused::of_mailboxes_is, crate::proofs::Planned::planned))]
fn plan_on<R>(rt: &R, words: &[Text], occasion: Occasion) -> Result<Plan, PlanError>
where
    R: Threads + Files + RandomSource + AllocGlobal,
    ensures plan { IfOk result (IsPlan words.now) }
    ensures later { occasion ≡ occasions.Reload → IfOk result (λ plan. plan.changes.items ≡ []) }
    ensures refused { IfErr result (IsRefusal words.now) }
{
    let Read {
        choices,
        mailboxes,
        changes,
        admission,
        operators,
        feeds,
        journal,
    } = read_words(rt, words, occasion)?;
    if !is_reached(&choices) {
        return Err(PlanError::NoContact);
    }
    check_mailboxes(&choices, &mailboxes, &journal)?;
    let mailboxes = each_once(rt.alloc(), mailboxes)?;
    Ok(Plan {
        choices,
        limits: chosen_limits(&choices.numbers)?,
        seed: seed_or_random(rt, choices.seed)?,
        workers: worker_count(rt, choices.numbers.workers),
        mailboxes,
        changes,
        admission,
        operators,
        feeds,
        journal,
    })
}

/// What the words ask for: files are read and the system is asked for randomness, and no socket is opened.
pub fn new_plan<R>(rt: &R, words: &[Text]) -> Result<Plan, PlanError>
where
    R: Threads + Files + RandomSource + AllocGlobal,
    ensures plan { IfOk result (IsPlan words.now) }
    ensures refused { IfErr result (IsRefusal words.now) }
{
    plan_on(rt, words, Occasion::Start)
}

/// The same while the service runs, whose journal tells of its mailboxes: no file of changes is read.
pub fn next_plan<R>(rt: &R, words: &[Text]) -> Result<Plan, PlanError>
where
    R: Threads + Files + RandomSource + AllocGlobal,
    ensures plan { IfOk result (IsPlan words.now) }
    ensures later { IfOk result (λ plan. plan.changes.items ≡ []) }
    ensures refused { IfErr result (IsRefusal words.now) }
{
    plan_on(rt, words, Occasion::Reload)
}

/// The seed of a journal, where none was asked for; else the planned one.
fn seed_or(asked: Option<[u8; 32]>, seed: [u8; 32], planned: [u8; 32]) -> [u8; 32]
    ensures { result ≡ spec.seed_or asked seed planned }
{
    match asked {
        Some(_) => planned,
        None => seed,
    }
}

/// The number of workers of a journal, where none was asked for; else the planned one.
fn workers_or(asked: Option<u32>, workers: u32, planned: u32) -> u32
    ensures { result ≡ spec.workers_or asked workers planned }
{
    match asked {
        Some(_) => planned,
        None => workers.clamp(1, 256),
    }
}

/// The plan with the seed and the number of workers that a journal had, where the words ask for none.
#[tactic(auto, using(crate::proofs::Planned::still_a_plan))]
pub fn adopted(plan: Plan, seed: [u8; 32], workers: u32) -> Plan
    ensures adopted { result ≡ spec.adopted seed workers plan }
    ensures plan { (words : List (List ℕ)) → IsPlan words plan → IsPlan words result }
{
    let mut plan = plan;
    plan.seed = seed_or(plan.choices.seed, seed, plan.seed);
    plan.workers = workers_or(plan.choices.numbers.workers, workers, plan.workers);
    plan
}

/// The plan with mailboxes of which lines told, where they make some: behind those that it has, as long as there are not more than may be.
#[tactic(auto, using(crate::proofs::Planned::told_too))]
pub fn with_told(alloc: Global, plan: Plan, told: Vec<Text>) -> Result<Plan, NoMemory>
    ensures plan { (words : List (List ℕ)) → IsPlan words plan → IfOk result (IsPlan words) }
    ensures same { IfOk result (λ r. r ≡ record plan { mailboxes = r.mailboxes }) }
    ensures told { IfOk result (λ r. r.mailboxes.items ≡ spec.mailboxes_told plan told.items) }
{
    if !plan.choices.any_mailbox {
        return Ok(plan);
    }
    let mut plan = plan;
    let most = plan.choices.numbers.max_mailboxes as usize;
    plan.mailboxes = with_further(alloc, plan.mailboxes, told, most)?;
    Ok(plan)
}

/// How many mailboxes there are at most where lines make some. 0: none does.
pub fn most_mailboxes(choices: &Choices) -> u32
    ensures { result ≡ spec.most_mailboxes choices.now }
{
    if choices.any_mailbox {
        choices.numbers.max_mailboxes
    } else {
        0
    }
}

/// What the desks of the workers stand on. Phones reach the service at its contact, or else where its socket is.
pub fn local_setup(plan: &Plan, local: Addr) -> Setup
    ensures { result ≡ spec.setup_of plan.now local }
{
    Setup {
        limits: plan.limits,
        seed: plan.seed,
        me: plan.choices.contact.unwrap_or(local),
        stop: !plan.choices.keep_subscriptions,
    }
}
