//! Changes and packages as the lines of a table write them.
use crate::packages::table::{meant, number_of};
use message_summary::Mailboxes;
use package::{Change, Class, ClosingCell, Counts, MailChange, Progress};
use sip_text::{NoMemory, Text};
use std::alloc::Global;
use std::sync::Arc;

/// The class of this name.
fn class_of(name: &str) -> Option<Class> {
    match name {
        "voice" => Some(Class::Voice),
        "fax" => Some(Class::Fax),
        "pager" => Some(Class::Pager),
        "multimedia" => Some(Class::Multimedia),
        "text" => Some(Class::Text),
        _ => None,
    }
}

/// A class and its new, old, urgent new and urgent old messages.
fn counts_of(text: &str) -> Option<(Class, Counts)> {
    let mut words = text.split(' ');
    let class = class_of(words.next()?)?;
    let counts = Counts {
        new_count: number_of(words.next()?)?,
        old_count: number_of(words.next()?)?,
        urgent_new: number_of(words.next()?)?,
        urgent_old: number_of(words.next()?)?,
    };
    Some((class, counts))
}

/// The change of a line `mail MAILBOX CLASS NEW OLD URGENT-NEW URGENT-OLD`.
fn mail_of(alloc: Global, text: &str) -> Result<Option<Change>, NoMemory> {
    let (mailbox, counts) = text.split_once(' ').unwrap_or((text, ""));
    let Some((class, counts)) = counts_of(counts) else {
        return Ok(None);
    };
    let mail = MailChange::new(
        meant(alloc, mailbox)?,
        class,
        counts.new_count,
        counts.old_count,
        counts.urgent_new,
        counts.urgent_old,
    );
    Ok(mail.map(Change::Mail))
}

/// The change of a line `step TAG CODE REASON`. The reason may be empty.
fn step_of(alloc: Global, text: &str) -> Result<Option<Change>, NoMemory> {
    let (tag, status) = text.split_once(' ').unwrap_or((text, ""));
    let (code, reason) = status.split_once(' ').unwrap_or((status, ""));
    let Ok(code) = code.parse::<u16>() else {
        return Ok(None);
    };
    let tag = meant(alloc, tag)?;
    let reason = meant(alloc, reason)?;
    Ok(Progress::new(tag, code, reason).map(Change::Step))
}

/// The change that a line tells by this word and the text behind it. None where it tells none, or one that is refused.
pub(crate) fn change_of(alloc: Global, word: &str, text: &str) -> Result<Option<Change>, NoMemory> {
    match word {
        "mail" => mail_of(alloc, text),
        "begin" => Ok(Some(Change::Begin(Text::of(alloc, text)?))),
        "step" => step_of(alloc, text),
        "forget" => Ok(Some(Change::Forget(Text::of(alloc, text)?))),
        _ => Ok(None),
    }
}

/// A package of these mailboxes, with a space between their names.
pub(crate) fn mailboxes(
    alloc: Global,
    names: &str,
    cell: Arc<ClosingCell>,
) -> Result<Mailboxes, NoMemory> {
    let mut owned = Vec::new(alloc);
    for name in names.split(' ') {
        owned.push(String::from_str(alloc, name)?)?;
    }
    Mailboxes::new(alloc, owned, cell)
}
