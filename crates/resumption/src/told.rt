//! What the packages of a worker were told, as its journal keeps it.
//!
//! A mailbox that was never told anything is another than one that was told of no messages: its content names no class. So what stands there of a
//! mailbox that a worker holds is a count that nobody has, until it is told another.
ghost use Rattle.std.specs.Prelude.{◌≡◌, ◌++◌, ◌∷◌, [], map, string_bytes, IfOk, OnOk, SomeIff};
ghost use Rattle.arguments.specs.Wanted.{Gives};
ghost use Rattle.package.specs.Values.{IsMailChange};
ghost use Rattle.resumption.specs.Told as spec;

use arguments::{Wanted, boxes_left};
use indexmap::IndexSet;
use journal::Told;
use notifier_model::row::Row;
use package::{Change, Class, MailChange, Package, Progress};
use sip_text::{NoMemory, Values};
use std::alloc::Global;

/// Of so many old messages of a class, each of which is urgent, nobody tells.
const NOBODY_HAS: u32 = u32::MAX;

/// What says that this mailbox is held, and nothing else.
fn mark(alloc: Global, name: &str) -> Result<Option<MailChange>, NoMemory>
    ensures { IfOk result (λ m. SomeIff m (IsMailChange (spec.mark name.now)) (spec.mark name.now)) }
{
    let name = String::from_str(alloc, name)?;
    Ok(MailChange::new(name, Class::Text, 0, NOBODY_HAS, 0, NOBODY_HAS))
}

/// Whether this says only that its mailbox is held.
fn is_mark(entry: &MailChange) -> bool
    ensures { result ≡ spec.is_mark entry.now }
{
    let counts = entry.counts();
    matches!(entry.class(), Class::Text)
        && counts.new_count == 0
        && counts.old_count == NOBODY_HAS
        && counts.urgent_old == NOBODY_HAS
}

/// Adds what says that this mailbox is held.
fn add_mark(alloc: Global, entries: &mut Vec<MailChange>, name: &str) -> Result<(), NoMemory>
    ensures { OnOk result (entries.new.items ≡ entries.old.items ++ spec.marks (name.now ∷ [])) }
{
    let Some(entry) = mark(alloc, name)? else {
        return Ok(());
    };
    entries.push(entry)?;
    Ok(())
}

/// What says that these mailboxes are held.
fn marks(alloc: Global, names: &[String]) -> Result<Vec<MailChange>, NoMemory>
    ensures { IfOk result (λ entries. entries.items ≡ spec.marks (map string_bytes names.now)) }
{
    let mut entries = Vec::new(alloc);
    for name in names {
        add_mark(alloc, &mut entries, name.as_str())?;
    }
    Ok(entries)
}

/// These names as a set.
fn name_set(alloc: Global, names: &[String]) -> Result<IndexSet<String>, NoMemory>
    ensures { IfOk result (λ set. map string_bytes set.keys ≡ spec.each_once (map string_bytes names.now)) }
{
    let mut set = IndexSet::new(alloc);
    for name in names {
        set.insert(String::from_str(alloc, name.as_str())?)?;
    }
    Ok(set)
}

/// Adds new counts, if they are of one of these mailboxes.
fn add_held(
    alloc: Global,
    entries: &mut Vec<MailChange>,
    held: &IndexSet<String>,
    mail: &MailChange,
) -> Result<(), NoMemory>
    ensures { OnOk result (entries.new.items ≡ entries.old.items ++ spec.told_of (map string_bytes held.now.keys) (Change.Mail mail.now)) }
{
    if held.contains(mail.mailbox()) {
        entries.push(mail.copy(alloc)?)?;
        return Ok(());
    }
    Ok(())
}

/// Adds what a change tells of one of these mailboxes.
fn add_told(
    alloc: Global,
    entries: &mut Vec<MailChange>,
    held: &IndexSet<String>,
    change: &Change,
) -> Result<(), NoMemory>
    ensures { OnOk result (entries.new.items ≡ entries.old.items ++ spec.told_of (map string_bytes held.now.keys) change.now) }
{
    match change {
        Change::Mail(mail) => add_held(alloc, entries, held, mail),
        Change::Begin(_) | Change::Step(_) | Change::Forget(_) => Ok(()),
    }
}

/// What a worker was told that holds these mailboxes and begins with these changes of them.
pub fn told_with(alloc: Global, names: &[String], changes: &[Change]) -> Result<Told, NoMemory>
    ensures { IfOk result (λ told. told ≡ spec.told_with (map string_bytes names.now) changes.now) }
{
    let held = name_set(alloc, names)?;
    let mut mail = marks(alloc, names)?;
    for change in changes {
        add_told(alloc, &mut mail, &held, change)?;
    }
    Ok(Told {
        events: 0,
        mails: 0,
        mail: Values::new(mail),
        progress: Values::new(Vec::new(alloc)),
    })
}

/// The mailboxes that these entries name, as a set.
fn named(alloc: Global, entries: &[MailChange]) -> Result<IndexSet<String>, NoMemory>
    ensures { IfOk result (λ set. map string_bytes set.keys ≡ spec.held_names entries.now) }
{
    let mut set = IndexSet::new(alloc);
    for entry in entries {
        set.insert(String::from_str(alloc, entry.mailbox())?)?;
    }
    Ok(set)
}

/// The mailboxes that a worker holds, each once, in the order in which they come first.
pub fn held_names(alloc: Global, told: &Told) -> Result<Vec<String>, NoMemory>
    ensures { IfOk result (λ names. map string_bytes names.items ≡ spec.held_names told.now.mail) }
{
    let mut names = Vec::new(alloc);
    for name in named(alloc, told.mail.as_slice())? {
        names.push(name)?;
    }
    Ok(names)
}

/// Adds what an entry tells of a mailbox.
fn add_mail(alloc: Global, changes: &mut Vec<Change>, entry: &MailChange) -> Result<(), NoMemory>
    ensures { OnOk result (changes.new.items ≡ changes.old.items ++ spec.mails (entry.now ∷ [])) }
{
    if !is_mark(entry) {
        changes.push(Change::Mail(entry.copy(alloc)?))?;
    }
    Ok(())
}

/// Adds what was told of mailboxes, of each class the last.
pub fn add_mails(alloc: Global, changes: &mut Vec<Change>, told: &Told) -> Result<(), NoMemory>
    ensures { OnOk result (changes.new.items ≡ changes.old.items ++ spec.mails told.now.mail) }
{
    let entries = told.mail.as_slice();
    for entry in entries {
        add_mail(alloc, changes, entry)?;
    }
    Ok(())
}

/// Adds the beginning of a transfer that is watched by this row, if it watches one.
fn add_begin(alloc: Global, changes: &mut Vec<Change>, row: &Row) -> Result<(), NoMemory>
    ensures { OnOk result (changes.new.items ≡ changes.old.items ++ spec.begins (row.now ∷ [])) }
{
    let sub = &row.sub;
    if sub.want().event.package() == "refer" {
        let tag = sub.usage().local_tag.copy(alloc)?;
        changes.push(Change::Begin(tag))?;
    }
    Ok(())
}

/// Adds the beginnings of the transfers that these rows watch.
fn add_begins(alloc: Global, changes: &mut Vec<Change>, rows: &[Row]) -> Result<(), NoMemory>
    ensures { OnOk result (changes.new.items ≡ changes.old.items ++ spec.begins rows.now) }
{
    for row in rows {
        add_begin(alloc, changes, row)?;
    }
    Ok(())
}

/// Adds the tag of the transfer that is watched by this row, if it watches one.
fn add_tag(alloc: Global, tags: &mut Vec<String>, row: &Row) -> Result<(), NoMemory>
    ensures { OnOk result (map string_bytes tags.new.items ≡ map string_bytes tags.old.items ++ spec.tags (row.now ∷ [])) }
{
    let sub = &row.sub;
    if sub.want().event.package() == "refer" {
        let tag = String::from_str(alloc, sub.usage().local_tag.as_str())?;
        tags.push(tag)?;
    }
    Ok(())
}

/// The tags of the transfers that these rows watch.
fn transfer_tags(alloc: Global, rows: &[Row]) -> Result<Vec<String>, NoMemory>
    ensures { IfOk result (λ tags. map string_bytes tags.items ≡ spec.tags rows.now) }
{
    let mut tags = Vec::new(alloc);
    for row in rows {
        add_tag(alloc, &mut tags, row)?;
    }
    Ok(tags)
}

/// Adds a step, if its transfer has one of these tags.
fn add_watched(
    alloc: Global,
    steps: &mut Vec<Progress>,
    tags: &IndexSet<String>,
    step: &Progress,
) -> Result<(), NoMemory>
    ensures { OnOk result (steps.new.items ≡ steps.old.items ++ spec.steps_of (map string_bytes tags.now.keys) (step.now ∷ [])) }
{
    if tags.contains(step.tag()) {
        steps.push(step.copy(alloc)?)?;
        return Ok(());
    }
    Ok(())
}

/// Copies of those of these steps whose transfers are watched by these rows.
pub(crate) fn watched(
    alloc: Global,
    rows: &[Row],
    steps: &[Progress],
) -> Result<Vec<Progress>, NoMemory>
    ensures { IfOk result (λ left. left.items ≡ spec.watched rows.now steps.now) }
{
    let tags = transfer_tags(alloc, rows)?;
    let held = name_set(alloc, tags.as_slice())?;
    let mut left = Vec::new(alloc);
    for step in steps {
        add_watched(alloc, &mut left, &held, step)?;
    }
    Ok(left)
}

/// Adds these steps of transfers.
fn add_steps(alloc: Global, changes: &mut Vec<Change>, steps: &[Progress]) -> Result<(), NoMemory>
    ensures { OnOk result (changes.new.items ≡ changes.old.items ++ map (λ p. Change.Step p) steps.now) }
{
    for step in steps {
        changes.push(Change::Step(step.copy(alloc)?))?;
    }
    Ok(())
}

/// What was told of the transfers that these rows watch: that each began, and then its last step.
pub fn transfer_changes(alloc: Global, rows: &[Row], told: &Told) -> Result<Vec<Change>, NoMemory>
    ensures { IfOk result (λ changes. changes.items ≡ spec.transfers rows.now told.now.progress) }
{
    let mut changes = Vec::new(alloc);
    add_begins(alloc, &mut changes, rows)?;
    add_steps(alloc, &mut changes, told.progress.as_slice())?;
    Ok(changes)
}

/// The packages of a worker with these mailboxes: with what was told of these, and of the transfers that these rows watch.
pub(crate) fn boxes_told<P, M>(
    alloc: Global,
    names: Vec<String>,
    from: (&Told, &[Row]),
    no_refer: bool,
    make: &M,
) -> Result<Vec<P>, NoMemory>
where
    P: Package,
    M: Fn(Wanted) -> Result<P, NoMemory>,
    requires callable { M.IsAlwaysCallable make.now }
    requires gives { Gives P.seen (M.post make.now) }
    ensures { IfOk result (λ boxes. map P.seen boxes.items
        ≡ spec.boxes_told no_refer (map string_bytes names.items) from.entry.0.now from.entry.1.now) }
{
    let (told, rows) = from;
    let mut mails = Vec::new(alloc);
    add_mails(alloc, &mut mails, told)?;
    let steps = transfer_changes(alloc, rows, told)?;
    boxes_left(
        alloc,
        names,
        (mails.as_slice(), steps.as_slice()),
        no_refer,
        make,
    )
}
