//! Two files that follow each other, as one.
ghost use Rattle.std.specs.Prelude.{◌≡◌, ◌↔◌, ◌≤◌, ◌++◌, length, take, IsTrue, IfOk, IfErr};
ghost use Rattle.journal.specs.Chains.{Follows, joined, later_clock, Chains, AreJoined, HasNoChain};

use crate::file::{Account, Generation, keep};
use crate::record::Clock;
use notifier_model::Event;
use sip_text::{NoMemory, Values};
use std::alloc::Global;
use thiserror::Error;

/// Why two files are not joined.
#[derive(Clone, Copy, Debug, PartialEq, Eq, Error)]
pub enum ChainError {
    /// There is no memory for it.
    #[error("out of memory")]
    NoMemory,
    /// They have different seeds.
    #[error("journals of different seeds")]
    OtherSeed,
    /// They have different numbers of workers.
    #[error("journals of different numbers of workers")]
    OtherWorkers,
    /// Events of this worker between its two books are in neither file.
    #[error("events of worker {0} are missing between two journals")]
    Gap(u32),
}

/// The first so many of the older events, and the newer ones behind them.
fn events_since(count: usize, older: Vec<Event>, newer: Vec<Event>) -> Result<Vec<Event>, NoMemory>
    ensures { IfOk result (λ events. events.items ≡ take count older.items ++ newer.items) }
{
    let mut events = older;
    let mut others = newer;
    events.truncate(count);
    events.append(&mut others)?;
    Ok(events)
}

/// Whether the newer account's book is behind the older one's, and all events between them stand in the older account.
fn follows(older: &Account, newer: &Account) -> bool
    ensures { IsTrue result ↔ Follows older.now newer.now }
{
    let first = older.book.told.events;
    let second = newer.book.told.events;
    first <= second && second - first <= older.events.as_slice().len() as u64
}

/// What a worker goes on from.
fn join(older: Account, newer: Account) -> Result<Account, NoMemory>
    requires follows { Follows older newer }
    ensures { IfOk result (λ account. account ≡ joined older newer) }
{
    let between = newer.book.told.events - older.book.told.events;
    let events = events_since(
        between as usize,
        older.events.into_vec(),
        newer.events.into_vec(),
    )?;
    Ok(Account {
        book: older.book,
        events: Values::new(events),
        lines: newer.lines,
    })
}

/// What the clocks showed last.
fn later(older: Option<Clock>, newer: Option<Clock>) -> Option<Clock>
    ensures { result ≡ later_clock older newer }
{
    match newer {
        Some(clock) => Some(clock),
        None => older,
    }
}

/// What each worker goes on from.
fn join_all(
    alloc: Global,
    older: Vec<Account>,
    newer: Vec<Account>,
) -> Result<Values<Account>, ChainError>
    requires few { length older.items ≤ 4294967295 }
    requires same { length older.items ≡ length newer.items }
    ensures all { IfOk result (AreJoined older.items newer.items) }
    ensures gap { IfErr result (HasNoChain older.items newer.items) }
{
    let mut all = Vec::new(alloc);
    let mut others = newer.into_iter();
    let mut worker = 0;
    for account in older {
        let Some(other) = others.next() else {
            return Err(ChainError::OtherWorkers);
        };
        if !follows(&account, &other) {
            return Err(ChainError::Gap(worker));
        }
        let Ok(account) = join(account, other) else {
            return Err(ChainError::NoMemory);
        };
        if keep(&mut all, account).is_err() {
            return Err(ChainError::NoMemory);
        }
        worker += 1;
    }
    Ok(Values::new(all))
}

/// Two files that follow each other, as one: the older's books, all events since, and what the newer says of lines and clocks.
pub fn chained(
    alloc: Global,
    older: Generation,
    newer: Generation,
) -> Result<Generation, ChainError>
    requires few { length older.accounts ≤ 4294967295 }
    ensures { Chains older newer result }
{
    if older.header.seed != newer.header.seed {
        return Err(ChainError::OtherSeed);
    }
    let older_accounts = older.accounts.into_vec();
    let newer_accounts = newer.accounts.into_vec();
    if older_accounts.len() != newer_accounts.len() {
        return Err(ChainError::OtherWorkers);
    }
    let clock = later(older.clock, newer.clock);
    match join_all(alloc, older_accounts, newer_accounts) {
        Ok(accounts) => Ok(Generation {
            header: newer.header,
            clock,
            accounts,
        }),
        Err(error) => Err(error),
    }
}
