//! Reads records.
ghost use Rattle.std.specs.Prelude.{◌≡◌, ◌++◌, MatchOption, IfOk};
ghost use Rattle.sip_text.specs.Bytes.{Gives};
ghost use Rattle.journal.specs.Records.{IsTorn, IsRecord, written, whole_at, AreRead};

use crate::frames::first_payload;
use crate::record::Record;
use sip_text::{NoMemory, Values};
use snapshots::form::Form;
use std::alloc::Global;

/// What the bytes of a file hold.
#[derive(Drop)]
pub struct Contents {
    /// Its records, up to the first that is torn.
    pub records: Values<Record>,
    /// How many bytes these have: there the first torn record begins.
    pub whole: usize,
}

/// The record that a payload is, if it is one and nothing follows.
#[tactic(auto, unfolding(crate::specs::Records::whole_at))]
fn whole_record(alloc: Global, payload: &[u8]) -> Result<Option<Record>, NoMemory>
    ensures { Gives (λ r. r) result (whole_at payload.now) }
{
    let Some((record, rest)) = Record::cut(alloc, payload)? else {
        return Ok(None);
    };
    if !rest.is_empty() {
        return Ok(None);
    }
    Ok(Some(record))
}

/// A record at the front, and the rest. No memory is taken by a length that the bytes name.
fn first_record(alloc: Global, bytes: &[u8]) -> Result<Option<(Record, &[u8])>, NoMemory>
    ensures { IfOk result (λ o. MatchOption o (IsTorn bytes.now)
        (λ r. IsRecord r.0 × (bytes.now ≡ written r.0 ++ r.1.now))) }
{
    let Some((payload, rest)) = first_payload(bytes) else {
        return Ok(None);
    };
    match whole_record(alloc, payload)? {
        Some(record) => Ok(Some((record, rest))),
        None => Ok(None),
    }
}

/// The records that the bytes of a file hold: those up to the first that is torn.
pub fn records(alloc: Global, bytes: &[u8]) -> Result<Contents, NoMemory>
    ensures { IfOk result (λ r. AreRead bytes.now r.records r.whole) }
{
    let mut found = Vec::new(alloc);
    let mut rest = bytes;
    while let Some((record, behind)) = first_record(alloc, rest)? {
        found.push(record)?;
        rest = behind;
    }
    let whole = bytes.len() - rest.len();
    Ok(Contents {
        records: Values::new(found),
        whole,
    })
}
