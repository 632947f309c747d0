//! How a desk goes on from a saved book.
#![tactic(auto, unfolding(notifier_model::specs::Answers::ring_with))]

ghost use Rattle.std.specs.Prelude.{◌≡◌, ◌↔◌, ◌<◌, ◌≤◌, ◌^◌, ◌++◌, ◌∷◌, [], All, IfOk, OnOk, IsTrue, vec_len};
ghost use Rattle.circular_buffer.specs.Buffer.{buffer};
ghost use Rattle.notifier.specs.Ledger.{IsSound};
ghost use Rattle.notifier.specs.Resumed.{AreRows, MayFollow, IsAbove, IsRightly, NamesRow, NamesCause};
ghost use Rattle.notifier.specs.Sound.{AreTimely, IsLive, IsOwn};
ghost use Rattle.notifier.specs.Stored.{rows_of};

use crate::store::Ledger;
use crate::store::kept::KeptAnswers;
use crate::store::transaction::Transaction;
use crate::tag::Tags;
use notifier_model::limits::Limits;
use notifier_model::place::Place;
use notifier_model::row::{Kept, Row, Unanswered};
use sip_text::NoMemory;
use std::alloc::Global;
use thiserror::Error;

/// Why a desk doesn't go on from a saved book.
#[derive(Clone, Copy, Debug, PartialEq, Eq, Error)]
pub enum ResumeError {
    /// A growth was refused.
    #[error("out of memory")]
    NoMemory,
    /// The moment or the next serial is out of its range, or there are more kept answers than the limits allow.
    #[error("a number is out of its range")]
    Numbers,
    /// The row with this serial has no time left, or isn't of this worker and seed, or doesn't stand above those before it.
    #[error("row {0} doesn't belong here")]
    BadRow(u32),
}

impl From<NoMemory> for ResumeError {
    ghost use Rattle.notifier.specs.declared.resume.ResumeError.TheVariants as error;

    ghost from_gives = { λ _ e. e ≡ error.NoMemory };

    fn from(_: NoMemory) -> ResumeError {
        ResumeError::NoMemory
    }
}

/// Whether these NOTIFYs were made by this moment, in this order.
fn are_timely(clock: u64, notifys: &[Unanswered]) -> bool
    ensures { IsTrue result ↔ AreTimely clock notifys.now }
{
    let mut latest = 0;
    for notify in notifys {
        if notify.moment < latest || clock < notify.moment {
            return false;
        }
        latest = notify.moment;
    }
    true
}

/// Whether a row has time left at this moment, and no more than can be granted.
fn is_live(clock: u64, row: &Row) -> bool
    requires { clock < 2 ^ 63 }
    ensures { IsTrue result ↔ IsLive clock row.now }
{
    let due = row.sub.due();
    if due <= clock || clock + 4294967295 < due {
        return false;
    }
    are_timely(clock, row.unanswered.as_slice())
}

/// Whether the serial of a row was given before the next one, and its tag is that of its serial.
fn is_own(
    alloc: Global,
    tags: &mut Tags,
    place: &Place,
    next: u64,
    row: &Row,
) -> Result<bool, NoMemory>
    ensures { IfOk result (λ own. IsTrue own ↔ IsOwn place.now next row.now) }
{
    if next <= u64::from(row.serial) {
        return Ok(false);
    }
    let tag = tags.tag(alloc, place, row.serial)?;
    let usage = row.sub.usage();
    Ok(usage.local_tag.is(tag.as_str()))
}

/// Keeps these answers, the newest first, as many as there is room for at most.
pub fn keep_all(alloc: Global, limits: &Limits, kept: Vec<Kept>) -> Result<KeptAnswers, NoMemory>
    requires { vec_len kept ≤ limits.now.kept }
    ensures { IfOk result (λ ring. ring ≡ buffer kept.items limits.now.kept) }
{
    let mut ring = KeptAnswers::with_room(alloc, limits.kept() as usize)?;
    let mut left = kept;
    while let Some(answer) = left.pop() {
        let Kept { key, bytes } = answer;
        let transaction = Transaction::named(alloc, &key)?;
        ring.keep(alloc, Some(transaction), bytes)?;
    }
    Ok(ring)
}

impl<P> Ledger<P> {
    /// A saved row stands behind the others, whose serials are below `low`.
    fn put(&mut self, alloc: Global, place: &Place, low: u64, row: Row) -> Result<(), ResumeError>
        requires sound { IsSound place.now self.old }
        requires low { IsAbove low (rows_of self.old.rows) }
        ensures rows { OnOk result (rows_of self.new.rows ≡ rows_of self.old.rows ++ row ∷ []) }
        ensures sound { OnOk result (IsSound place.now self.new) }
        ensures same { OnOk result ((self.new.clock ≡ self.old.clock) × (self.new.next ≡ self.old.next)
            × (self.new.ring ≡ self.old.ring) × (self.new.boxes ≡ self.old.boxes)) }
        ensures rightly { IsRightly result (MayFollow place.now self.old.clock self.old.next (rows_of self.old.rows) row) }
        ensures named { NamesRow result row }
    {
        let serial = row.serial;
        if u64::from(serial) < low || !is_live(self.clock, &row) {
            return Err(ResumeError::BadRow(serial));
        }
        if !is_own(alloc, &mut self.tags, place, self.next, &row)? {
            return Err(ResumeError::BadRow(serial));
        }
        self.rows.push(alloc, row)?;
        Ok(())
    }

    /// Saved rows stand again, each behind those before it.
    pub fn put_all(
        &mut self,
        alloc: Global,
        place: &Place,
        rows: Vec<Row>,
    ) -> Result<(), ResumeError>
        requires sound { IsSound place.now self.old }
        requires none { rows_of self.old.rows ≡ [] }
        ensures rows { OnOk result (rows_of self.new.rows ≡ rows.items) }
        ensures sound { OnOk result (IsSound place.now self.new) }
        ensures same { OnOk result ((self.new.clock ≡ self.old.clock) × (self.new.next ≡ self.old.next)
            × (self.new.ring ≡ self.old.ring) × (self.new.boxes ≡ self.old.boxes)) }
        ensures rightly { IsRightly result (AreRows place.now self.old.clock self.old.next rows.items) }
        ensures cause { NamesCause result ⊥ place.now self.old.clock self.old.next rows.items }
    {
        let mut low = 0;
        for row in rows {
            let above = u64::from(row.serial) + 1;
            if let Err(error) = self.put(alloc, place, low, row) {
                return Err(error);
            }
            low = above;
        }
        Ok(())
    }
}
