//! A set of mailboxes as an event package, with the bodies of NOTIFYs on them (RFC 3842 section 5.2).
ghost use Rattle.std.specs.Prelude.{◌≡◌, ◌++◌, IfOk, IsOk, OnErr, OnOk, IsSome, IsTrue, codes, decimal, string_bytes};
ghost use Rattle.indexmap.specs.IndexMap.{get_by_text};
ghost use Rattle.package.specs.Content.{finite_maps, OfMail, contents_of, held, with_held, mail_package};
ghost use Rattle.package.specs.Changes as spec;
ghost use Rattle.package.specs.Changes.{mail_at, change_of, is_forget};
ghost use Rattle.package.specs.Closings.{counted, new_ending};
ghost use Rattle.message_summary.specs.Mailboxes.{mail_type, first_contents, new_mailboxes};
ghost use Rattle.package.specs.Bodies as bodies;
ghost use Rattle.package.specs.Bodies.{class_line, mail_body};

use indexmap::IndexMap;
use itoa::Buffer;
use package::{Change, ClosingCell, Counts, Ending, MailChange, MailCounts, Outcome, Package};
use sip_text::NoMemory;
use std::alloc::Global;
use std::sync::Arc;

/// Mailboxes with the counts of their messages: the package `message-summary`.
pub struct Mailboxes {
    mailboxes: IndexMap<String, MailCounts>,
    ending: Ending,
}

impl Mailboxes {
    /// Holds each name once, with no class set. Its Closing goes to this cell.
    pub fn new(
        alloc: Global,
        names: Vec<String>,
        cell: Arc<ClosingCell>,
    ) -> Result<Mailboxes, NoMemory>
        ensures seen { IfOk result (λ m. ⟦<Mailboxes as Package>⟧.seen m ≡ new_mailboxes names.items) }
        ensures ending { IfOk result (λ m. m.ending ≡ new_ending mail_package cell.value) }
    {
        let ending = Ending::new(alloc, "message-summary", cell)?;
        let mailboxes = unset_mailboxes(alloc, names)?;
        Ok(Mailboxes { mailboxes, ending })
    }

    /// Takes in a mail change, and counts it if it changes something.
    fn take_in(&mut self, mail: &MailChange) -> Outcome
        ensures change { let before = contents_of OfMail self.old.mailboxes.entries in
            (result, contents_of OfMail self.new.mailboxes.entries)
            ≡ mail_at finite_maps before mail.now (held before mail.now.mailbox) }
        ensures counted { self.new.ending ≡ counted result self.old.ending }
    {
        let outcome = set_counts(&mut self.mailboxes, mail);
        self.ending.count(outcome);
        outcome
    }
}

/// Each name once, with no class set.
fn unset_mailboxes(
    alloc: Global,
    names: Vec<String>,
) -> Result<IndexMap<String, MailCounts>, NoMemory>
    ensures { IfOk result (λ m. contents_of OfMail m.entries ≡ first_contents names.items) }
{
    let mut mailboxes = IndexMap::new(alloc);
    for name in names {
        mailboxes.insert(name, MailCounts::unset())?;
    }
    Ok(mailboxes)
}

/// Whether these are the counts that a class has.
fn has_counts(set: Option<Counts>, counts: Counts) -> bool
    ensures { result ≡ spec.same_counts set (Some counts) }
{
    set == Some(counts)
}

/// Puts new counts in the place of those of a mailbox that is held.
fn replace(mailboxes: &mut IndexMap<String, MailCounts>, name: &str, counts: MailCounts)
    requires { IsSome (get_by_text mailboxes.old name.now) }
    ensures { contents_of OfMail mailboxes.new.entries
        ≡ with_held (contents_of OfMail mailboxes.old.entries) name.now (OfMail counts) }
{
    if let Some(place) = mailboxes.get_mut(name) {
        *place = counts;
    }
}

/// Sets the counts of one class in one mailbox.
fn set_counts(mailboxes: &mut IndexMap<String, MailCounts>, mail: &MailChange) -> Outcome
    ensures { let before = contents_of OfMail mailboxes.old.entries in
        (result, contents_of OfMail mailboxes.new.entries)
        ≡ mail_at finite_maps before mail.now (held before mail.now.mailbox) }
{
    let name = mail.mailbox();
    let Some(found) = mailboxes.get(name).copied() else {
        return Outcome::Unknown;
    };
    if has_counts(found.of(mail.class()), mail.counts()) {
        return Outcome::Same;
    }
    let mut next = found;
    next.set(mail.class(), mail.counts());
    replace(mailboxes, name, next);
    Outcome::Changed
}

/// How many bytes a body has room for at first: more than most have, so that it grows once.
const ROOM: usize = 128;

fn is_waiting(counts: Option<Counts>) -> bool
    ensures { result ≡ bodies.is_waiting counts }
{
    match counts {
        Some(counts) => counts.new_count > 0,
        None => false,
    }
}

/// Whether some class has a new message.
fn has_waiting(mailbox: &MailCounts) -> bool
    ensures { result ≡ bodies.waiting mailbox.now }
{
    is_waiting(mailbox.voice)
        || is_waiting(mailbox.fax)
        || is_waiting(mailbox.pager)
        || is_waiting(mailbox.multimedia)
        || is_waiting(mailbox.text)
}

/// Writes a number in digits.
fn write_number(out: &mut String, number: u32) -> Result<(), NoMemory>
    ensures { OnOk result (string_bytes out.new ≡ string_bytes out.old ++ decimal number) }
{
    let mut buffer = Buffer::new();
    out.push_str(buffer.format(number))?;
    Ok(())
}

/// Writes how many messages are new, and how many are old.
fn write_pair(out: &mut String, new: u32, old: u32) -> Result<(), NoMemory>
    ensures { OnOk result (string_bytes out.new ≡ string_bytes out.old ++ decimal new ++ codes "/" ++ decimal old) }
{
    write_number(out, new)?;
    out.push_str("/")?;
    write_number(out, old)
}

/// Writes the counts of a class: new and old messages, and of these the urgent ones.
fn write_counts(out: &mut String, counts: Counts) -> Result<(), NoMemory>
    ensures { OnOk result (string_bytes out.new ≡ string_bytes out.old ++ decimal counts.new_count ++ codes "/" ++ decimal counts.old_count
        ++ codes " (" ++ decimal counts.urgent_new ++ codes "/" ++ decimal counts.urgent_old ++ codes ")") }
{
    write_pair(out, counts.new_count, counts.old_count)?;
    out.push_str(" (")?;
    write_pair(out, counts.urgent_new, counts.urgent_old)?;
    out.push_str(")")?;
    Ok(())
}

/// Writes the line of a class, if it was ever set.
fn write_class(out: &mut String, label: &str, counts: Option<Counts>) -> Result<(), NoMemory>
    ensures { OnOk result (string_bytes out.new ≡ string_bytes out.old ++ class_line label.now counts) }
{
    if let Some(counts) = counts {
        out.push_str(label)?;
        out.push_str("-Message: ")?;
        write_counts(out, counts)?;
        out.push_str("\r\n")?;
    }
    Ok(())
}

/// The text that tells the whole mailbox.
fn write_body(alloc: Global, mailbox: &MailCounts) -> Result<String, NoMemory>
    ensures { IfOk result (λ text. string_bytes text ≡ mail_body mailbox.now) }
{
    let mut out = String::with_capacity(alloc, ROOM)?;
    if has_waiting(mailbox) {
        out.push_str("Messages-Waiting: yes\r\n")?;
    } else {
        out.push_str("Messages-Waiting: no\r\n")?;
    }
    write_class(&mut out, "Voice", mailbox.voice)?;
    write_class(&mut out, "Fax", mailbox.fax)?;
    write_class(&mut out, "Pager", mailbox.pager)?;
    write_class(&mut out, "Multimedia", mailbox.multimedia)?;
    write_class(&mut out, "Text", mailbox.text)?;
    Ok(out)
}

impl Package for Mailboxes {
    ghost seen = { λ m. record { name = mail_package; content_type = mail_type; contents = contents_of OfMail m.mailboxes.entries } };

    fn event(&self) -> &str {
        "message-summary"
    }

    fn content_type(&self) -> &str {
        "application/simple-message-summary"
    }

    fn holds(&self, resource: &str) -> bool {
        self.mailboxes.contains_key(resource)
    }

    fn change(&mut self, _alloc: Global, change: &Change) -> Result<Outcome, NoMemory>
        ensures ok { IfOk result (λ outcome. (outcome, ⟦<Mailboxes as Package>⟧.seen self.new)
            ≡ change_of (⟦<Mailboxes as Package>⟧.seen self.old) change.now) }
        ensures err { OnErr result (⟦<Mailboxes as Package>⟧.seen self.new ≡ ⟦<Mailboxes as Package>⟧.seen self.old) }
        ensures forget { IsTrue (is_forget change.now) → IsOk result }
        ensures counted { IfOk result (λ outcome. self.new.ending ≡ counted outcome self.old.ending) }
    {
        match change {
            Change::Mail(mail) => Ok(self.take_in(mail)),
            _ => Ok(Outcome::Unknown),
        }
    }

    fn body(&self, alloc: Global, resource: &str) -> Result<Option<Vec<u8>>, NoMemory> {
        match self.mailboxes.get(resource) {
            None => Ok(None),
            Some(mailbox) => Ok(Some(write_body(alloc, mailbox)?.into_bytes())),
        }
    }

    /// No mailbox is ever over.
    fn is_over(&self, _resource: &str) -> bool {
        false
    }
}

/// Offers the Closing. It takes no memory.
impl Drop for Mailboxes {
    fn drop(self) {
        let Mailboxes { mailboxes, ending } = self;
        let _taken = ending.offer(mailboxes.len() as u64);
    }
}
