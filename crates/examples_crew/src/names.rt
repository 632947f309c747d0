//! The mailboxes of the runs: one by its name, or some of four hundred by number.

use crate::error::RunError;
use notifier_model::homes::key_hash;
use std::alloc::Global;

/// How many workers hold the four hundred.
const WORKERS: u32 = 4;

/// How many of them a port feeds.
pub(crate) const MAILBOXES: u32 = 100;

/// Names of mailboxes.
#[derive(Clone, Copy)]
pub(crate) enum Names {
    /// This one.
    One(&'static str),
    /// A hundred of the four hundred, from this one on.
    From(u32),
    /// Those of the four hundred whose home is this worker.
    At(u32),
}

/// The mailbox of this name alone.
fn one_name(alloc: Global, mailbox: &str) -> Result<Vec<String>, RunError> {
    let mut names = Vec::new(alloc);
    names.push(String::from_str(alloc, mailbox)?)?;
    Ok(names)
}

/// The names of so many mailboxes from this one on, a letter and three digits each: of all, or of those whose home is this
/// worker. A quarter of all have their home at each worker.
fn numbered(
    alloc: Global,
    first: u32,
    count: u32,
    home: Option<u32>,
) -> Result<Vec<String>, RunError> {
    let mut names = Vec::new(alloc);
    for mailbox in first..first.saturating_add(count) {
        let name = format!(in alloc; "m{mailbox:03}")?;
        let at = key_hash(name.as_str()) % WORKERS;
        if at == home.unwrap_or(at) {
            names.push(name)?;
        }
    }
    Ok(names)
}

/// The names.
pub(crate) fn names_of(alloc: Global, names: Names) -> Result<Vec<String>, RunError> {
    match names {
        Names::One(mailbox) => one_name(alloc, mailbox),
        Names::From(first) => numbered(alloc, first, MAILBOXES, None),
        Names::At(worker) => numbered(alloc, 0, WORKERS * MAILBOXES, Some(worker)),
    }
}
