//! The mailboxes of a worker, each with the last counts that it was told.
ghost use Rattle.std.specs.Prelude.{◌≡◌, ◌↔◌, ◌≤◌, ◌++◌, List, [], not, filter, length, option_map, slice_get, vec_len, vec_capacity, OnOk, OnErr, IfOk, IsTrue, MatchOption};
ghost use Rattle.package.specs.Values as values;
ghost use Rattle.keeper.specs.Told as spec;
ghost use Rattle.keeper.specs.Told.{rows_in, rows_of, last_changes};

use crate::comparison::changes_behind;
use indexmap::IndexMap;
use package::MailChange;
use sip_text::NoMemory;
use std::alloc::Global;
use std::marker::Model;

/// Whether both changes are of one class.
fn same_class(one: &MailChange, other: &MailChange) -> bool
    ensures { result ≡ spec.same_class one.now other.now }
{
    other.class() == one.class()
}

/// The changes of another class than this one.
fn keep_others(changes: &mut Vec<MailChange>, change: &MailChange)
    ensures others { changes.new.items ≡ filter (λ c. not (spec.same_class change.now c)) changes.old.items }
    ensures shorter { vec_len changes.new ≤ vec_len changes.old }
    ensures room { vec_capacity changes.new ≡ vec_capacity changes.old }
{
    changes.retain(|other| !same_class(change, other));
}

/// Of one mailbox the last change of each class. Contracts see a list.
#[derive(Drop)]
pub(crate) struct LastChanges {
    changes: Vec<MailChange>,
}

impl Model for LastChanges {
    ghost use Rattle.std.specs.Prelude.{List};
    ghost use Rattle.package.specs.Values as values;

    ghost Value = { List values.MailChange };

    ghost view = { λ l. l.changes.items };
}

impl LastChanges {
    /// None.
    fn new(alloc: Global) -> LastChanges
        ensures { result ≡ [] }
    {
        LastChanges {
            changes: Vec::new(alloc),
        }
    }

    /// One change more: it takes the place of the one of its class.
    fn take(&mut self, change: MailChange) -> Result<(), NoMemory>
        ensures taken { OnOk result (self.new ≡ spec.with_change change self.old) }
        ensures unchanged { OnErr result (self.new ≡ self.old) }
    {
        self.changes.reserve(1)?;
        keep_others(&mut self.changes, &change);
        let Ok(()) = self.changes.push(change) else {
            unreachable!()
        };
        Ok(())
    }

    /// What stands behind them, where these begin with them.
    fn behind<'a>(&self, changes: &'a [MailChange]) -> Option<&'a [MailChange]>
        ensures { MatchOption result ((rest : List values.MailChange) → changes.now ≡ self.now ++ rest → ⊥)
            (λ rest. changes.now ≡ self.now ++ rest.now) }
    {
        changes_behind(self.changes.as_slice(), changes)
    }

    /// Appends copies of them.
    fn copy_to(&self, alloc: Global, all: &mut Vec<MailChange>) -> Result<(), NoMemory>
        ensures { OnOk result (all.new.items ≡ all.old.items ++ self.now) }
    {
        for change in &self.changes {
            all.push(change.copy(alloc)?)?;
        }
        Ok(())
    }
}

/// A mailbox was told this. One that isn't here changes nothing.
fn note(
    rows: &mut IndexMap<String, LastChanges>,
    name: &str,
    change: MailChange,
) -> Result<(), NoMemory>
    requires named { name.now ≡ change.mailbox }
    ensures told { OnOk result (rows_in rows.new.entries ≡ spec.told_mail change (rows_in rows.old.entries)) }
    ensures unchanged { OnErr result (rows_in rows.new.entries ≡ rows_in rows.old.entries) }
{
    let Some(last) = rows.get_mut(name) else {
        return Ok(());
    };
    last.take(change)?;
    Ok(())
}

/// Adds a mailbox that was told nothing, unless it is there.
fn add(alloc: Global, rows: &mut IndexMap<String, LastChanges>, name: &str) -> Result<(), NoMemory>
    ensures { OnOk result (rows_in rows.new.entries ≡ spec.with_name name.now (rows_in rows.old.entries)) }
{
    if rows.contains_key(name) {
        return Ok(());
    }
    let name = String::from_str(alloc, name)?;
    rows.insert(name, LastChanges::new(alloc))?;
    Ok(())
}

/// The mailboxes that a worker holds, each with the last change of each class. Contracts see a list of rows.
#[derive(Drop)]
pub(crate) struct Mailboxes {
    rows: IndexMap<String, LastChanges>,
}

impl Model for Mailboxes {
    ghost use Rattle.std.specs.Prelude.{List};
    ghost use Rattle.keeper.specs.Told.{Row, rows_in};

    ghost Value = { List Row };

    ghost view = { λ m. rows_in m.rows.entries };
}

impl Mailboxes {
    /// The mailboxes that these changes name, told these.
    pub(crate) fn new(alloc: Global, changes: Vec<MailChange>) -> Result<Mailboxes, NoMemory>
        ensures { IfOk result (λ m. m ≡ rows_of changes.items) }
    {
        let mut mailboxes = Mailboxes {
            rows: IndexMap::new(alloc),
        };
        for change in changes {
            mailboxes.hold(alloc, &change)?;
        }
        Ok(mailboxes)
    }

    /// A mailbox is held, and was told this.
    fn hold(&mut self, alloc: Global, change: &MailChange) -> Result<(), NoMemory>
        ensures { OnOk result (self.new ≡ spec.held_mail self.old change.now) }
    {
        add(alloc, &mut self.rows, change.mailbox())?;
        self.tell(alloc, change)
    }

    /// A mailbox was told this. One that isn't held changes nothing.
    pub(crate) fn tell(&mut self, alloc: Global, change: &MailChange) -> Result<(), NoMemory>
        ensures told { OnOk result (self.new ≡ spec.told_mail change.now self.old) }
        ensures unchanged { OnErr result (self.new ≡ self.old) }
    {
        let copy = change.copy(alloc)?;
        note(&mut self.rows, change.mailbox(), copy)
    }

    /// How many there are.
    fn len(&self) -> usize
        ensures { result ≡ length self.now }
    {
        self.rows.len()
    }

    /// The mailbox at this place, and its last changes.
    fn get(&self, place: usize) -> Option<(&str, &LastChanges)>
        ensures { option_map (λ row. (row.0.now, row.1.now)) result ≡ slice_get self.now place }
    {
        let (name, last) = self.rows.get_index(place)?;
        Some((name.as_str(), last))
    }

    /// Copies of the last changes of all.
    pub(crate) fn last(&self, alloc: Global) -> Result<Vec<MailChange>, NoMemory>
        ensures { IfOk result (λ all. all.items ≡ last_changes self.now) }
    {
        let mut all = Vec::new(alloc);
        for place in 0..self.len() {
            let Some((_name, last)) = self.get(place) else {
                return Ok(all);
            };
            last.copy_to(alloc, &mut all)?;
        }
        Ok(all)
    }

    /// Whether these are the last changes of all.
    pub(crate) fn are_last(&self, changes: &[MailChange]) -> bool
        ensures { IsTrue result ↔ (last_changes self.now ≡ changes.now) }
    {
        let mut rest = changes;
        for place in 0..self.len() {
            let Some((_name, last)) = self.get(place) else {
                return rest.is_empty();
            };
            let Some(behind) = last.behind(rest) else {
                return false;
            };
            rest = behind;
        }
        rest.is_empty()
    }
}
