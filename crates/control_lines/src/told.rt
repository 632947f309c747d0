//! The mailboxes of a service, each with the counts that it was told last.
ghost use Rattle.std.specs.Prelude.{◌≡◌, ◌<◌, ◌+◌, length, slice_get, option_map, string_bytes, IfOk, OnOk, OnErr, IfSome, IsSome};
ghost use Rattle.indexmap.specs.IndexMap.{get_by_text};
ghost use Rattle.control_lines.specs.Told as spec;
ghost use Rattle.control_lines.specs.Told.{AreUntold, rows_in};

use indexmap::IndexMap;
use package::{MailChange, MailCounts};
use sip_text::{NoMemory, Text};
use std::alloc::Global;
use std::marker::Model;

/// The mailboxes of a service, each with the counts of the classes that it was told of. Contracts see a list of rows.
#[derive(Drop)]
pub struct ToldCounts {
    mailboxes: IndexMap<String, MailCounts>,
}

impl Model for ToldCounts {
    ghost use Rattle.std.specs.Prelude.{List};
    ghost use Rattle.control_lines.specs.Told.{Row, rows_in};

    ghost Value = { List Row };

    ghost view = { λ t. rows_in t.mailboxes.entries };
}

/// The place of the mailbox with this name.
fn position(mailboxes: &IndexMap<String, MailCounts>, name: &str) -> Option<usize>
    ensures place { result ≡ spec.place name.now (rows_in mailboxes.now.entries) }
    ensures within { IfSome result (λ n. n < length (rows_in mailboxes.now.entries)) }
{
    mailboxes.get_index_of(name)
}

/// Puts counts in the place of those of a mailbox that is there.
fn replace(mailboxes: &mut IndexMap<String, MailCounts>, name: &str, counts: MailCounts)
    requires { IsSome (get_by_text mailboxes.old name.now) }
    ensures { rows_in mailboxes.new.entries ≡ spec.with_row name.now counts (rows_in mailboxes.old.entries) }
{
    if let Some(place) = mailboxes.get_mut(name) {
        *place = counts;
    }
}

/// A mailbox was told these counts of one class.
fn note(mailboxes: &mut IndexMap<String, MailCounts>, change: &MailChange)
    ensures { rows_in mailboxes.new.entries ≡ spec.told change.now (rows_in mailboxes.old.entries) }
{
    let name = change.mailbox();
    let Some(found) = mailboxes.get(name).copied() else {
        return;
    };
    let mut next = found;
    next.set(change.class(), change.counts());
    replace(mailboxes, name, next);
}

/// Adds a mailbox that was told nothing, unless it is there.
fn add(mailboxes: &mut IndexMap<String, MailCounts>, name: String) -> Result<(), NoMemory>
    ensures added { OnOk result (rows_in mailboxes.new.entries ≡ spec.with_name (string_bytes name) (rows_in mailboxes.old.entries)) }
    ensures unchanged { OnErr result (rows_in mailboxes.new.entries ≡ rows_in mailboxes.old.entries) }
{
    if mailboxes.contains_key(name.as_str()) {
        return Ok(());
    }
    mailboxes.insert(name, MailCounts::unset())?;
    Ok(())
}

impl ToldCounts {
    /// These mailboxes, each once, in order, none of them told of any class.
    pub fn new(alloc: Global, names: &[Text]) -> Result<ToldCounts, NoMemory>
        ensures are { IfOk result (AreUntold names.now) }
        ensures order { IfOk result (λ told. told ≡ spec.untold names.now) }
    {
        let mut mailboxes = IndexMap::with_capacity(alloc, names.len())?;
        for name in names {
            let name = String::from_str(alloc, name.as_str())?;
            add(&mut mailboxes, name)?;
        }
        Ok(ToldCounts { mailboxes })
    }

    /// How many there are.
    pub fn len(&self) -> usize
        ensures { result ≡ length self.now }
    {
        self.mailboxes.len()
    }

    /// The place of the mailbox with this name, from 0.
    pub fn place(&self, name: &str) -> Option<usize>
        ensures place { result ≡ spec.place name.now self.now }
        ensures within { IfSome result (λ n. n < length self.now) }
    {
        position(&self.mailboxes, name)
    }

    /// The place behind the mailbox with this name.
    pub fn behind(&self, name: &str) -> Option<usize>
        ensures { result ≡ option_map (λ n. n + 1) (spec.place name.now self.now) }
    {
        let place = self.place(name)?;
        if place < self.len() {
            Some(place + 1)
        } else {
            None
        }
    }

    /// The mailbox at this place, and what it was told.
    pub fn get(&self, place: usize) -> Option<(&str, MailCounts)>
        ensures { option_map (λ row. (row.0.now, row.1)) result ≡ slice_get self.now place }
    {
        let (name, counts) = self.mailboxes.get_index(place)?;
        Some((name.as_str(), *counts))
    }

    /// The mailbox with this name is one of them from now on, behind the others, and was told of no class, unless it is one already.
    pub fn add(&mut self, alloc: Global, name: &str) -> Result<(), NoMemory>
        ensures added { OnOk result (self.new ≡ spec.with_name name.now self.old) }
        ensures unchanged { OnErr result (self.new ≡ self.old) }
    {
        let name = String::from_str(alloc, name)?;
        add(&mut self.mailboxes, name)
    }

    /// A mailbox was told these counts of one class. A mailbox that isn't here changes nothing.
    pub fn tell(&mut self, change: &MailChange)
        ensures { self.new ≡ spec.told change.now self.old }
    {
        note(&mut self.mailboxes, change);
    }
}
