//! Changes of a mailbox and steps of a transfer, written and read.
ghost use Rattle.std.specs.Prelude.{◌≡◌};
ghost use Rattle.snapshots.specs.Changes.{letter, class_with, class_text, class_at, IsClass, counts_text, counts_at, AreCounts, mail_text, mail_of, mail_at, IsMail, progress_text, progress_of, progress_at, IsStep};

use crate::form::{Form, put_bytes};
use package::{Class, Counts, MailChange, Progress};
use sip_text::{NoMemory, Text};
use std::alloc::Global;

/// The letter of a class.
fn letter(class: Class) -> u8
    ensures { result ≡ letter class }
{
    match class {
        Class::Voice => b'v',
        Class::Fax => b'f',
        Class::Pager => b'p',
        Class::Multimedia => b'm',
        Class::Text => b't',
    }
}

/// The class with this letter.
fn class_with(letter: u8) -> Option<Class>
    ensures { result ≡ class_with letter }
{
    if letter == b'v' {
        return Some(Class::Voice);
    }
    if letter == b'f' {
        return Some(Class::Fax);
    }
    if letter == b'p' {
        return Some(Class::Pager);
    }
    if letter == b'm' {
        return Some(Class::Multimedia);
    }
    if letter == b't' {
        return Some(Class::Text);
    }
    None
}

impl Form for Class {
    ghost text = { class_text };

    ghost at = { class_at };

    ghost Fits = { IsClass };

    fn fits(&self) {}

    fn put(&self, _alloc: Global, out: &mut Vec<u8>) -> Result<(), NoMemory> {
        out.push(letter(*self))?;
        Ok(())
    }

    #[tactic(auto, unfolding(crate::specs::Changes::class_at))]
    fn cut(_alloc: Global, bytes: &[u8]) -> Result<Option<(Class, &[u8])>, NoMemory> {
        let Some((letter, rest)) = bytes.split_first() else {
            return Ok(None);
        };
        let Some(class) = class_with(*letter) else {
            return Ok(None);
        };
        Ok(Some((class, rest)))
    }
}

impl Form for Counts {
    ghost text = { counts_text };

    ghost at = { counts_at };

    ghost Fits = { AreCounts };

    fn fits(&self) {
        self.new_count.fits();
        self.old_count.fits();
        self.urgent_new.fits();
        self.urgent_old.fits();
    }

    fn put(&self, alloc: Global, out: &mut Vec<u8>) -> Result<(), NoMemory> {
        self.new_count.put(alloc, out)?;
        self.old_count.put(alloc, out)?;
        self.urgent_new.put(alloc, out)?;
        self.urgent_old.put(alloc, out)?;
        Ok(())
    }

    #[tactic(auto, unfolding(crate::specs::Changes::counts_at))]
    fn cut(alloc: Global, bytes: &[u8]) -> Result<Option<(Counts, &[u8])>, NoMemory> {
        let Some((parts, rest)) = <(u32, (u32, (u32, u32)))>::cut(alloc, bytes)? else {
            return Ok(None);
        };
        let (new_count, (old_count, (urgent_new, urgent_old))) = parts;
        let counts = Counts {
            new_count,
            old_count,
            urgent_new,
            urgent_old,
        };
        Ok(Some((counts, rest)))
    }
}

/// The change of these parts, where there is one.
fn made_mail(mailbox: Text, class: Class, counts: Counts) -> Option<MailChange>
    ensures { result ≡ mail_of (mailbox, (class, counts)) }
{
    let name = mailbox.into_string();
    MailChange::new(
        name,
        class,
        counts.new_count,
        counts.old_count,
        counts.urgent_new,
        counts.urgent_old,
    )
}

impl Form for MailChange {
    ghost text = { mail_text };

    ghost at = { mail_at };

    ghost Fits = { IsMail };

    fn fits(&self) {
        let mailbox = self.mailbox();
        let _length = mailbox.len();
        self.counts().fits();
    }

    fn put(&self, alloc: Global, out: &mut Vec<u8>) -> Result<(), NoMemory> {
        put_bytes(self.mailbox().as_bytes(), out)?;
        self.class().put(alloc, out)?;
        self.counts().put(alloc, out)
    }

    #[tactic(auto, unfolding(crate::specs::Changes::mail_at))]
    fn cut(alloc: Global, bytes: &[u8]) -> Result<Option<(MailChange, &[u8])>, NoMemory> {
        let Some((parts, rest)) = <(Text, (Class, Counts))>::cut(alloc, bytes)? else {
            return Ok(None);
        };
        let (mailbox, (class, counts)) = parts;
        let Some(change) = made_mail(mailbox, class, counts) else {
            return Ok(None);
        };
        Ok(Some((change, rest)))
    }
}

/// The step of these parts, where there is one.
fn made_progress(tag: Text, code: u16, reason: Text) -> Option<Progress>
    ensures { result ≡ progress_of (tag, (code, reason)) }
{
    let name = tag.into_string();
    let phrase = reason.into_string();
    Progress::new(name, code, phrase)
}

impl Form for Progress {
    ghost text = { progress_text };

    ghost at = { progress_at };

    ghost Fits = { IsStep };

    fn fits(&self) {
        let tag = self.tag();
        let _length = tag.len();
        let reason = self.reason();
        let _length = reason.len();
    }

    fn put(&self, alloc: Global, out: &mut Vec<u8>) -> Result<(), NoMemory> {
        put_bytes(self.tag().as_bytes(), out)?;
        self.code().put(alloc, out)?;
        put_bytes(self.reason().as_bytes(), out)
    }

    #[tactic(auto, unfolding(crate::specs::Changes::progress_at))]
    fn cut(alloc: Global, bytes: &[u8]) -> Result<Option<(Progress, &[u8])>, NoMemory> {
        let Some((parts, rest)) = <(Text, (u16, Text))>::cut(alloc, bytes)? else {
            return Ok(None);
        };
        let (tag, (code, reason)) = parts;
        let Some(progress) = made_progress(tag, code, reason) else {
            return Ok(None);
        };
        Ok(Some((progress, rest)))
    }
}
