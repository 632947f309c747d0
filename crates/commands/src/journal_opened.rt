//! The folder of a journal that is a service's own: what stands there is read, and so are the mailboxes of which lines told there.
ghost use Rattle.std.specs.Prelude.{◌≡◌, ◌++◌, Some, map, option_map, IfOk, IfErr, OnOk};
ghost use Rattle.std.specs.List.{flat_map};
ghost use Rattle.commands.specs.Refused.{IsOfJournal};
ghost use Rattle.commands.specs.Runs as spec;

use crate::error::ServeError;
use crate::help::VERSION;
use crate::journal_folder::{Access, Folder, take_folder};
use crate::names::in_former_order;
use journal::{Account, Header};
use notifier::Event;
use package::{Change, MailChange};
use plans::Plan;
use resumption::{Found, Reading, add_mails, read_files};
use sip_text::{NoMemory, Text};
use std::alloc::Global;
use std::fs::File;
use std::rt::Files;

/// The folder of a journal, and what stands there.
#[derive(Drop)]
pub(crate) struct Opened {
    pub(crate) folder: Folder,
    /// The numbers of its files, the greatest first.
    pub(crate) numbers: Vec<u64>,
    /// The newest file that says something: its number, and what it says.
    pub(crate) found: Option<(u64, Found)>,
}

/// Reads the file with this number, with the one before, if there is one. Where it can't be read, what was handled last may stand there.
pub(crate) fn read_file<R>(
    rt: &R,
    folder: &Folder,
    number: u64,
    before: Option<u64>,
) -> Result<Reading, NoMemory>
where
    R: Files<File = File> + AllocGlobal,
{
    let alloc = rt.alloc();
    let Some(newer) = folder.bytes(rt, number)? else {
        return Ok(Reading::Nothing { is_torn: true });
    };
    let older = match before {
        Some(number) => folder.bytes(rt, number)?.unwrap_or(Vec::new(alloc)),
        None => Vec::new(alloc),
    };
    read_files(alloc, VERSION, newer.as_slice(), older.as_slice())
}

/// Reads the newest file that says something, with the one before. Where a newer one is torn, what was written last may be lost.
fn look<R>(rt: &R, folder: &Folder, numbers: &[u64]) -> Result<Option<(u64, Found)>, NoMemory>
where
    R: Files<File = File> + AllocGlobal,
{
    let mut is_lost = false;
    for at in 0..numbers.len() {
        match read_file(rt, folder, numbers[at], numbers.get(at + 1).copied())? {
            Reading::Found(mut found) => {
                found.is_torn = found.is_torn || is_lost;
                return Ok(Some((numbers[at], found)));
            }
            Reading::Nothing { is_torn } => is_lost = is_lost || is_torn,
        }
    }
    Ok(None)
}

/// The folder at this path, for this service alone: the one that it held till now, if it did. None where it can't be written.
fn own_folder<R>(rt: &R, path: &Text, held: Option<Folder>) -> Result<Option<Folder>, ServeError>
where
    R: Files<File = File> + AllocGlobal,
    ensures refused { IfErr result (IsOfJournal (Some path.now)) }
{
    if let Some(folder) = held {
        return Ok(Some(folder));
    }
    match take_folder(rt, path)? {
        Access::Ours(folder) => Ok(Some(folder)),
        Access::Theirs => Err(ServeError::JournalInUse(path.copy(rt.alloc())?)),
        Access::Refused => Ok(None),
    }
}

/// Has the folder that the plan names for this service alone, and reads what stands there: the one that it held till now, if it did. None
/// where the plan names none, or where it can't be written.
pub(crate) fn open_journal<R>(
    rt: &R,
    plan: &Plan,
    held: Option<Folder>,
) -> Result<Option<Opened>, ServeError>
where
    R: Files<File = File> + AllocGlobal + Clone + Drop,
    ensures refused { IfErr result (IsOfJournal plan.now.journal) }
{
    let Some(path) = &plan.journal else {
        return Ok(None);
    };
    let Some(folder) = own_folder(rt, path, held)? else {
        return Ok(None);
    };
    let numbers = folder.numbers(rt)?;
    let found = look(rt, &folder, numbers.as_slice())?;
    Ok(Some(Opened {
        folder,
        numbers,
        found,
    }))
}

/// The folder, which the service holds on to.
pub(crate) fn held_folder(opened: Option<Opened>) -> Option<Folder>
    ensures { result ≡ option_map (λ o. o.folder) opened }
{
    let Opened { folder, .. } = opened?;
    Some(folder)
}

/// What the journal begins with that is gone on from, if one is.
pub(crate) fn found_header(opened: &Option<Opened>) -> Option<&Header>
    ensures { option_map (λ h. h.now) result ≡ spec.header_found opened.now }
{
    match opened {
        Some(opened) => match &opened.found {
            Some((_, found)) => Some(&found.generation.header),
            None => None,
        },
        None => None,
    }
}

/// What the journal tells of each worker that is gone on from, if one is.
fn found_accounts(opened: &Option<Opened>) -> &[Account]
    ensures { result.now ≡ spec.journal_accounts opened.now }
{
    match opened {
        Some(opened) => match &opened.found {
            Some((_, found)) => found.generation.accounts.as_slice(),
            None => &[],
        },
        None => &[],
    }
}

/// Adds the name of the mailbox that this change is of, if it is of one.
fn add_name(alloc: Global, names: &mut Vec<Text>, change: &Change) -> Result<(), NoMemory>
    ensures { OnOk result (names.new.items ≡ names.old.items ++ spec.mailbox_named change.now) }
{
    match change {
        Change::Mail(change) => {
            names.push(Text::of(alloc, change.mailbox())?)?;
            Ok(())
        }
        Change::Begin(_) | Change::Step(_) | Change::Forget(_) => Ok(()),
    }
}

/// Adds the names of the mailboxes that these changes are of.
fn add_names(alloc: Global, names: &mut Vec<Text>, changes: &[Change]) -> Result<(), NoMemory>
    ensures { OnOk result (names.new.items ≡ names.old.items ++ flat_map spec.mailbox_named changes.now) }
{
    for change in changes {
        add_name(alloc, names, change)?;
    }
    Ok(())
}

/// Adds the change of a mailbox that this event tells of, if it tells of one.
fn add_mail(alloc: Global, changes: &mut Vec<Change>, event: &Event) -> Result<(), NoMemory>
    ensures { OnOk result (changes.new.items ≡ changes.old.items ++ spec.mail_told event.now) }
{
    match event {
        Event::Mail(change) => {
            changes.push(Change::Mail(change.copy(alloc)?))?;
            Ok(())
        }
        Event::Request(..) | Event::Reply(_) | Event::Progress(_) | Event::Tick(_) | Event::Shut =>
            Ok(()),
    }
}

/// Adds the changes of mailboxes among these events.
fn add_handled(alloc: Global, changes: &mut Vec<Change>, events: &[Event]) -> Result<(), NoMemory>
    ensures { OnOk result (changes.new.items ≡ changes.old.items ++ flat_map spec.mail_told events.now) }
{
    for event in events {
        add_mail(alloc, changes, event)?;
    }
    Ok(())
}

/// Adds these changes of mailboxes.
fn add_lines(alloc: Global, changes: &mut Vec<Change>, lines: &[MailChange]) -> Result<(), NoMemory>
    ensures { OnOk result (changes.new.items ≡ changes.old.items ++ map (λ m. Change.Mail m) lines.now) }
{
    for change in lines {
        changes.push(Change::Mail(change.copy(alloc)?))?;
    }
    Ok(())
}

/// What lines told a worker since its book: what it handled, and behind that what waits for it.
pub(crate) fn told_since(alloc: Global, account: &Account) -> Result<Vec<Change>, NoMemory>
    ensures { IfOk result (λ changes. changes.items ≡ spec.told_since account.now) }
{
    let mut changes = Vec::new(alloc);
    add_handled(alloc, &mut changes, account.events.as_slice())?;
    add_lines(alloc, &mut changes, account.lines.as_slice())?;
    Ok(changes)
}

/// Adds the names of the mailboxes of which lines told this worker: also those that it doesn't hold, and one as often as it was told.
fn add_told(alloc: Global, names: &mut Vec<Text>, account: &Account) -> Result<(), NoMemory>
    ensures { OnOk result (names.new.items ≡ names.old.items ++ spec.account_names account.now) }
{
    let mut changes = Vec::new(alloc);
    add_mails(alloc, &mut changes, &account.book.told)?;
    changes.append(&mut told_since(alloc, account)?)?;
    add_names(alloc, names, changes.as_slice())
}

/// The mailboxes of which lines told, as it stands in these accounts of a journal: also those that no worker had yet, and one as often as it was told.
fn names_told(alloc: Global, accounts: &[Account]) -> Result<Vec<Text>, NoMemory>
    ensures names { IfOk result (λ names. names.items ≡ spec.names_told accounts.now) }
{
    let mut names = Vec::new(alloc);
    for account in accounts {
        add_told(alloc, &mut names, account)?;
    }
    Ok(names)
}

/// These names, in the order of the run before, if there was one.
fn in_order(
    alloc: Global,
    former: Option<Vec<Text>>,
    names: Vec<Text>,
) -> Result<Vec<Text>, NoMemory>
    ensures { IfOk result (λ ordered. ordered.items ≡ spec.in_order (option_map (λ f. f.items) former) names.items) }
{
    match former {
        Some(former) => in_former_order(alloc, former, names),
        None => Ok(names),
    }
}

/// The mailboxes of which lines told, as it stands in the folder of a journal, where the plan has lines make mailboxes, in the order of the run
/// before, if there was one. One that lines told nothing of is there only as long as the words name it.
pub(crate) fn told_mailboxes(
    alloc: Global,
    plan: &Plan,
    opened: &Option<Opened>,
    former: Option<Vec<Text>>,
) -> Result<Vec<Text>, NoMemory>
    ensures names { IfOk result (λ names. names.items ≡ spec.told_mailboxes plan.now opened.now (option_map (λ f. f.items) former)) }
{
    if plan.choices.any_mailbox {
        let names = names_told(alloc, found_accounts(opened))?;
        in_order(alloc, former, names)
    } else {
        Ok(Vec::new(alloc))
    }
}
