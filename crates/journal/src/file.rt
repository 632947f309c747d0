//! What a file says: from what each worker goes on.
ghost use Rattle.std.specs.Prelude.{◌≡◌, ◌≤◌, ◌∷◌, ◌++◌, [], length, OnOk, IfOk, IfErr};
ghost use Rattle.std.specs.Vec.Iter.{into_iter_items};
ghost use Rattle.journal.specs.Generations.{IsSaid, clock_after, last_clock};
ghost use Rattle.journal.specs.Gathering.{AreGathered, AreAccounts, IsWith, MissesBook, GatherFails};

use crate::header::Header;
use crate::known::{Known, all_unknown, note};
use crate::record::{Book, Clock, Record};
use notifier_model::Event;
use package::MailChange;
use sip_text::{NoMemory, Values};
use std::alloc::Global;
use std::vec::IntoIter;
use thiserror::Error;

/// What a file says.
#[derive(Drop)]
pub struct Generation {
    /// What it begins with.
    pub header: Header,
    /// What the clocks showed last, where that stands there.
    pub clock: Option<Clock>,
    /// From what each worker goes on, by its number.
    pub accounts: Values<Account>,
}

/// From what a worker goes on.
#[derive(Drop)]
pub struct Account {
    /// What it had at the last moment that was written.
    pub book: Book,
    /// What it handled since then, in its order.
    pub events: Values<Event>,
    /// What control lines changed that were answered `ok` and that it hadn't handled, in their order.
    pub lines: Values<MailChange>,
}

/// Why a file says nothing.
#[derive(Clone, Copy, Debug, PartialEq, Eq, Error)]
pub enum GenerationError {
    /// There is no memory for it.
    #[error("out of memory")]
    NoMemory,
    /// It doesn't begin with a header.
    #[error("no journal")]
    NoHeader,
    /// A program of another version wrote it.
    #[error("a journal of another version")]
    OtherVersion,
    /// A record is of a worker that there is not.
    #[error("a record of worker {0}, which there is not")]
    NoSuchWorker(u32),
    /// No book of this worker stands there.
    #[error("no book of worker {0}")]
    NoBook(u32),
}

/// What the clocks showed last, with one record more.
fn later(last: Option<Clock>, entry: &Record) -> Option<Clock>
    ensures { result ≡ clock_after last entry.now }
{
    match entry {
        Record::Clock(clock) => Some(*clock),
        Record::Header(_)
        | Record::Book(_)
        | Record::Handled {
            worker: _,
            event: _,
        }
        | Record::Line(_) => last,
    }
}

/// What the clocks showed last.
fn last_clock(records: &[Record]) -> Option<Clock>
    ensures { result ≡ last_clock records.now }
{
    let mut last = None;
    for entry in records {
        last = later(last, entry);
    }
    last
}

/// What is known of each worker behind these records.
fn gather(
    alloc: Global,
    workers: u32,
    records: IntoIter<Record, Global>,
) -> Result<Vec<Known>, GenerationError>
    ensures all { IfOk result (λ all. AreGathered workers (into_iter_items records) all.items) }
    ensures fails { IfErr result (GatherFails workers (into_iter_items records)) }
{
    let Ok(mut all) = all_unknown(alloc, workers) else {
        return Err(GenerationError::NoMemory);
    };
    for entry in records {
        if let Err(error) = note(&mut all, entry) {
            return Err(error);
        }
    }
    Ok(all)
}

/// One account more.
pub(crate) fn keep(all: &mut Vec<Account>, account: Account) -> Result<(), NoMemory>
    ensures { OnOk result (all.new.items ≡ all.old.items ++ account ∷ []) }
{
    all.push(account)?;
    Ok(())
}

/// From what each worker goes on.
fn accounts(alloc: Global, all: Vec<Known>) -> Result<Values<Account>, GenerationError>
    requires few { length all.items ≤ 4294967295 }
    ensures each { IfOk result (AreAccounts all.items) }
    ensures misses { IfErr result (MissesBook all.items) }
{
    let mut accounts = Vec::new(alloc);
    let mut worker = 0;
    for known in all {
        let Ok(account) = known.into_account(alloc) else {
            return Err(GenerationError::NoMemory);
        };
        let Some(account) = account else {
            return Err(GenerationError::NoBook(worker));
        };
        if keep(&mut accounts, account).is_err() {
            return Err(GenerationError::NoMemory);
        }
        worker += 1;
    }
    Ok(Values::new(accounts))
}

/// The generation that has these.
fn with_accounts(
    alloc: Global,
    header: Header,
    clock: Option<Clock>,
    all: Vec<Known>,
) -> Result<Generation, GenerationError>
    requires few { length all.items ≤ 4294967295 }
    ensures whole { IfOk result (IsWith header clock all.items) }
    ensures misses { IfErr result (MissesBook all.items) }
{
    match accounts(alloc, all) {
        Ok(accounts) => Ok(Generation {
            header,
            clock,
            accounts,
        }),
        Err(error) => Err(error),
    }
}

/// What these records say, of a file that a program of this version wrote.
pub fn read_generation(
    alloc: Global,
    version: &str,
    records: Values<Record>,
) -> Result<Generation, GenerationError>
    ensures { IsSaid version.now records result }
{
    let clock = last_clock(records.as_slice());
    let mut records = records.into_vec().into_iter();
    let Some(first) = records.next() else {
        return Err(GenerationError::NoHeader);
    };
    let Some(header) = first.into_header() else {
        return Err(GenerationError::NoHeader);
    };
    if !header.version.is(version) {
        return Err(GenerationError::OtherVersion);
    }
    match gather(alloc, header.workers, records) {
        Ok(all) => with_accounts(alloc, header, clock, all),
        Err(error) => Err(error),
    }
}
