//! The rows of the live subscriptions, each found by its tag.
ghost use Rattle.std.specs.Prelude.{◌≡◌, ◌↔◌, ◌<◌, ◌^◌, ℕ, true, false, [], ◌∷◌, ◌++◌, nat_lt, not, is_some, length, option_map, string_bytes, if◌then◌else◌, OnOk, OnErr, IsErr, Err, slice_get};
ghost use Rattle.watchers.specs.Rows as spec;
ghost use Rattle.watchers.specs.Notifies.{first_row, known_seen, word};
ghost use Rattle.watchers.specs.Rows.{rows_in};
ghost use Rattle.watchers.specs.Tallies.{AreCounted, rows_from};

use crate::counts::Counts;
use crate::notify::{Known, first_row, until, word};
use crate::row::Watcher;
use indexmap::IndexMap;
use sip_text::{Addr, NoMemory, Text};
use std::alloc::Global;
use std::marker::Model;
use thiserror::Error;

/// The status of an answer that says that the dialog or its usage is gone (RFC 3261 section 12.2.1.2).
pub const GONE: u16 = 481;

/// The least status of a final answer (RFC 3261 section 7.2).
pub const FINAL: u16 = 200;

/// The least status of an answer by which a request isn't accepted (RFC 3261 section 7.2).
pub const REFUSED: u16 = 300;

/// Why a subscription gets no row.
#[derive(Clone, Copy, Debug, PartialEq, Eq, Error)]
pub enum NoRow {
    /// There are as many rows as there may be.
    #[error("no room for another watcher")]
    Full,
    /// An allocation failed.
    #[error("out of memory")]
    NoMemory,
}

/// Whether there is a row with this tag.
#[tactic(auto, using(crate::proofs::Rows::found_lookup))]
fn has_row(rows: &IndexMap<String, Watcher>, tag: &str) -> bool
    ensures { result ≡ spec.has tag.now (rows_in rows.now.entries) }
{
    rows.contains_key(tag)
}

/// Whether a NOTIFY with this number went out.
#[tactic(auto, using(crate::proofs::Rows::found_lookup))]
fn was_sent(rows: &IndexMap<String, Watcher>, tag: &str, number: u32) -> bool
    ensures { result ≡ spec.was_sent tag.now number (rows_in rows.now.entries) }
{
    match rows.get(tag) {
        Some(watcher) => number <= watcher.sent,
        None => false,
    }
}

/// The row with this tag, if there is one.
#[tactic(auto, using(crate::proofs::Rows::found_lookup))]
fn find_row<'a>(rows: &'a IndexMap<String, Watcher>, tag: &str) -> Option<&'a Watcher>
    ensures { option_map (λ w. w.now) result ≡ spec.found tag.now (rows_in rows.now.entries) }
{
    rows.get(tag)
}

/// Whose the row with this tag is, if there is one.
#[tactic(auto, using(crate::proofs::Rows::found_lookup))]
fn row_source(rows: &IndexMap<String, Watcher>, tag: &str) -> Option<u32>
    ensures { result ≡ option_map (λ w. w.source) (spec.found tag.now (rows_in rows.now.entries)) }
{
    let watcher = rows.get(tag)?;
    Some(watcher.source)
}

/// A NOTIFY with this number went to this address, and tells that the subscription lasts until this moment.
fn renew_row(rows: &mut IndexMap<String, Watcher>, tag: &str, number: u32, to: Addr, until: u64)
    ensures renewed { rows_in rows.new.entries ≡ spec.changed tag.now (spec.renewed number to until) (rows_in rows.old.entries) }
    ensures sources { (k : ℕ) → rows_from (rows_in rows.new.entries) k ≡ rows_from (rows_in rows.old.entries) k }
{
    let Some(watcher) = rows.get_mut(tag) else {
        return;
    };
    watcher.renew(number, to, until);
}

/// The NOTIFYs of a subscription go to this Contact from now on.
fn retarget_row(rows: &mut IndexMap<String, Watcher>, tag: &str, contact: Text)
    ensures retargeted { rows_in rows.new.entries ≡ spec.changed tag.now (spec.retargeted contact) (rows_in rows.old.entries) }
    ensures sources { (k : ℕ) → rows_from (rows_in rows.new.entries) k ≡ rows_from (rows_in rows.old.entries) k }
{
    let Some(watcher) = rows.get_mut(tag) else {
        return;
    };
    watcher.retarget(contact);
}

/// The NOTIFY with this number was answered with this status code, if it went out.
fn mark_answered(rows: &mut IndexMap<String, Watcher>, tag: &str, number: u32, code: u16)
    ensures answered { rows_in rows.new.entries ≡ (if not (spec.was_sent tag.now number (rows_in rows.old.entries))
        then rows_in rows.old.entries else spec.changed tag.now (spec.answered number code) (rows_in rows.old.entries)) }
    ensures sources { (k : ℕ) → rows_from (rows_in rows.new.entries) k ≡ rows_from (rows_in rows.old.entries) k }
{
    let Some(watcher) = rows.get_mut(tag) else {
        return;
    };
    watcher.answer(number, code);
}

/// The row of a subscription that has none comes behind the others.
fn add_row(
    rows: &mut IndexMap<String, Watcher>,
    counts: &mut Counts,
    tag: String,
    watcher: Watcher,
) -> Result<(), NoMemory>
    requires new { spec.has (string_bytes tag) (rows_in rows.old.entries) ≡ false }
    requires room { length (rows_in rows.old.entries) < usize.MAX }
    requires counted { AreCounted (rows_in rows.old.entries) counts.old }
    ensures begun { OnOk result (rows_in rows.new.entries ≡ rows_in rows.old.entries ++ (string_bytes tag, watcher) ∷ []) }
    ensures unchanged { OnErr result (rows_in rows.new.entries ≡ rows_in rows.old.entries) }
    ensures counted { AreCounted (rows_in rows.new.entries) counts.new }
{
    let source = watcher.source;
    let count = counts.get(source);
    counts.set(source, count + 1)?;
    match rows.insert(tag, watcher) {
        Ok(_) => Ok(()),
        Err(_) => {
            // It has one, so no memory is needed.
            let Ok(()) = counts.set(source, count) else {
                unreachable!()
            };
            Err(NoMemory)
        }
    }
}

/// The row of a subscription goes, and the last one takes its place.
fn remove_row(rows: &mut IndexMap<String, Watcher>, counts: &mut Counts, tag: &str)
    requires counted { AreCounted (rows_in rows.old.entries) counts.old }
    ensures rows { rows_in rows.new.entries ≡ spec.without tag.now (rows_in rows.old.entries) }
    ensures counted { AreCounted (rows_in rows.new.entries) counts.new }
{
    let Some(gone) = rows.swap_remove(tag) else {
        return;
    };
    let count = counts.get(gone.source);
    // It has one, so no memory is needed.
    let Ok(()) = counts.set(gone.source, count - 1) else {
        unreachable!()
    };
}

/// The row of a subscription goes, if a NOTIFY with this number went out in it.
fn end_sent(rows: &mut IndexMap<String, Watcher>, counts: &mut Counts, tag: &str, number: u32)
    requires counted { AreCounted (rows_in rows.old.entries) counts.old }
    ensures rows { rows_in rows.new.entries ≡ (if not (spec.was_sent tag.now number (rows_in rows.old.entries))
        then rows_in rows.old.entries else spec.without tag.now (rows_in rows.old.entries)) }
    ensures counted { AreCounted (rows_in rows.new.entries) counts.new }
{
    if was_sent(rows, tag, number) {
        remove_row(rows, counts, tag);
    }
}

/// The live subscriptions. Contracts see how many there may be, and the list of their rows, each behind its tag.
#[derive(Drop)]
pub struct Watchers {
    alloc: Global,
    rows: IndexMap<String, Watcher>,
    counts: Counts,
    limit: usize,
}

impl Model for Watchers {
    ghost use Rattle.watchers.specs.Rows.{Standing, rows_in};
    ghost use Rattle.watchers.specs.Tallies.{AreCounted};

    ghost Value = { Standing };

    ghost view = { λ w. record { limit = w.limit; rows = rows_in w.rows.entries } };

    ghost invariant = { λ w. AreCounted (rows_in w.rows.entries) w.counts };
}

impl Watchers {
    /// None, and so many may be. Memory is taken as rows begin.
    pub fn new(alloc: Global, limit: u32) -> Watchers
        ensures { result ≡ record { limit = limit; rows = [] } }
    {
        Watchers {
            alloc,
            rows: IndexMap::new(alloc),
            counts: Counts::new(alloc),
            limit: limit as usize,
        }
    }

    /// By which its texts are made.
    pub(crate) fn alloc(&self) -> Global {
        self.alloc
    }

    /// How many there are.
    pub fn len(&self) -> usize
        ensures { result ≡ length self.now.rows }
    {
        self.rows.len()
    }

    /// The row at this place, behind its tag.
    pub fn get(&self, place: usize) -> Option<(&str, &Watcher)>
        ensures { option_map (λ row. (row.0.now, row.1.now)) result ≡ slice_get self.now.rows place }
    {
        let (tag, watcher) = self.rows.get_index(place)?;
        Some((tag.as_str(), watcher))
    }

    /// How many of the rows are of this source.
    pub fn rows_from(&self, source: u32) -> usize
        ensures { result ≡ rows_from self.now.rows source }
    {
        self.counts.get(source)
    }

    /// What is known of the subscription with this tag, if it has a row.
    pub fn find(&self, tag: &str) -> Option<&Watcher>
        ensures { option_map (λ w. w.now) result ≡ spec.found tag.now self.now.rows }
    {
        find_row(&self.rows, tag)
    }

    /// Whose the row with this tag is, if there is one.
    pub fn source(&self, tag: &str) -> Option<u32>
        ensures { result ≡ option_map (λ w. w.source) (spec.found tag.now self.now.rows) }
    {
        row_source(&self.rows, tag)
    }

    /// The row of a subscription with this tag begins at this moment by a NOTIFY to this address. It comes behind the others.
    fn begin(
        &mut self,
        now: u64,
        tag: &str,
        number: u32,
        to: Addr,
        known: Known<'_>,
    ) -> Result<(), NoRow>
        requires in_range { now < 2 ^ 63 }
        requires new { spec.has tag.now self.old.rows ≡ false }
        ensures begun { OnOk result (self.new.rows
            ≡ self.old.rows ++ (tag.now, first_row now number to (known_seen known.entry)) ∷ []) }
        ensures unchanged { OnErr result (self.new ≡ self.old) }
        ensures limit { self.new.limit ≡ self.old.limit }
        ensures full { result ≡ Err NoRow.Full ↔ nat_lt (length self.old.rows) self.old.limit ≡ false }
    {
        if self.rows.len() >= self.limit {
            return Err(NoRow::Full);
        }
        let Ok(watcher) = first_row(self.alloc, now, number, to, known) else {
            return Err(NoRow::NoMemory);
        };
        let Ok(tag) = String::from_str(self.alloc, tag) else {
            return Err(NoRow::NoMemory);
        };
        match add_row(&mut self.rows, &mut self.counts, tag, watcher) {
            Ok(()) => Ok(()),
            Err(NoMemory) => Err(NoRow::NoMemory),
        }
    }

    /// A NOTIFY with this tag and this number, with which this is known, went out to this address at this moment, and its subscription goes on.
    /// Where it has no row one begins with it: at its first NOTIFY, or where an earlier one was given up. An error where there is no room
    /// for that, and only then [`NoRow::Full`], or no memory: nothing changes then, and it stays without a row.
    pub fn renew(
        &mut self,
        now: u64,
        tag: &str,
        number: u32,
        to: Addr,
        known: Known<'_>,
    ) -> Result<(), NoRow>
        requires in_range { now < 2 ^ 63 }
        ensures renewed { OnOk result (self.new.rows ≡ spec.after_notify now tag.now number to (known_seen known.entry) self.old.rows) }
        ensures unchanged { OnErr result (self.new ≡ self.old) }
        ensures refused { IsErr result → spec.begins tag.now self.old.rows ≡ true }
        ensures full { result ≡ Err NoRow.Full
            ↔ (spec.begins tag.now self.old.rows ≡ true) × (nat_lt (length self.old.rows) self.old.limit ≡ false) }
        ensures limit { self.new.limit ≡ self.old.limit }
    {
        if !has_row(&self.rows, tag) {
            return self.begin(now, tag, number, to, known);
        }
        renew_row(&mut self.rows, tag, number, to, until(now, known.seconds));
        Ok(())
    }

    /// The NOTIFYs with this tag go to this Contact from now on (a target refresh, RFC 3261 section 12.2). Its only error is out of memory:
    /// the row keeps the Contact that it had then.
    pub fn retarget(&mut self, tag: &str, contact: &str) -> Result<(), NoMemory>
        ensures retargeted { OnOk result (self.new.rows ≡ spec.after_retarget tag.now contact.now self.old.rows) }
        ensures unchanged { OnErr result (self.new ≡ self.old) }
        ensures limit { self.new.limit ≡ self.old.limit }
    {
        let contact = Text::of(self.alloc, word(contact.as_bytes()))?;
        retarget_row(&mut self.rows, tag, contact);
        Ok(())
    }

    /// The subscription with this tag is over, or nobody takes its NOTIFYs: its row goes, and the last one takes its place.
    pub fn end(&mut self, tag: &str)
        ensures rows { self.new.rows ≡ spec.without tag.now self.old.rows }
        ensures limit { self.new.limit ≡ self.old.limit }
    {
        remove_row(&mut self.rows, &mut self.counts, tag);
    }

    /// An answer with this status came to the NOTIFY with this number in the subscription with this tag. A 481 says that the
    /// subscription is gone (RFC 6665 section 4.2.2): its row goes. The code of any other final answer stands in the row, unless a
    /// later NOTIFY was answered before. A provisional answer changes nothing, nor does one to what never went out.
    pub fn answer(&mut self, tag: &str, number: u32, status: u16)
        ensures rows { self.new.rows ≡ spec.answered_rows tag.now number status self.old.rows }
        ensures limit { self.new.limit ≡ self.old.limit }
    {
        if status < FINAL {
            return;
        }
        if status == GONE {
            end_sent(&mut self.rows, &mut self.counts, tag, number);
        } else {
            mark_answered(&mut self.rows, tag, number, status);
        }
    }
}
