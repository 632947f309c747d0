//! The words of a line.
ghost use Rattle.std.specs.Prelude.{◌≡◌, string_bytes, codes, Ok, Some};
ghost use Rattle.sip_text.specs.Bytes.{Finds};
ghost use Rattle.scripts.specs.Reading.{Gives, class_of, count_at, counts_of, mail_words, mail_at, progress_words, progress_at, named_at, order_of, control_of};
ghost use Rattle.scripts.specs.Lines as spec;
ghost use Rattle.scripts.specs.Changes.{mail_of, progress_of};
ghost use Rattle.scripts.specs.Views.{mail_seen, progress_seen};

use crate::error::ScriptError;
use crate::script::Control;
use package::{Change, Class, Counts, MailChange, Progress};
use sip_text::{count_of, cut_at, plain_number, short_of, text_of};
use std::alloc::Global;

#[tactic(auto, unfolding(crate::specs::Reading::class_of))]
fn class_named(word: &[u8]) -> Option<Class>
    ensures { Finds (λ x. x) result (class_of word.now) }
{
    if word == b"voice".as_slice() {
        Some(Class::Voice)
    } else if word == b"fax".as_slice() {
        Some(Class::Fax)
    } else if word == b"pager".as_slice() {
        Some(Class::Pager)
    } else if word == b"multimedia".as_slice() {
        Some(Class::Multimedia)
    } else if word == b"text".as_slice() {
        Some(Class::Text)
    } else {
        None
    }
}

/// A count before a space, and what stands behind that.
#[tactic(auto, unfolding(crate::specs::Reading::count_at))]
fn cut_count(text: &[u8]) -> Option<(u32, &[u8])>
    ensures { Finds (λ x. (x.0, x.1.now)) result (count_at text.now) }
{
    let (word, rest) = cut_at(b' ', text)?;
    Some((count_of(word)?, rest))
}

#[tactic(auto, unfolding(crate::specs::Reading::counts_of))]
fn four_counts(text: &[u8]) -> Option<Counts>
    ensures { Finds (λ x. x) result (counts_of text.now) }
{
    let (new_count, rest) = cut_count(text)?;
    let (old_count, rest) = cut_count(rest)?;
    let (urgent_new, rest) = cut_count(rest)?;
    let urgent_old = count_of(rest)?;
    Some(Counts {
        new_count,
        old_count,
        urgent_new,
        urgent_old,
    })
}

/// The words of a MAIL line behind the first.
#[derive(Clone, Copy)]
struct MailWords<'a> {
    mailbox: &'a str,
    class: Class,
    counts: Counts,
}

#[tactic(auto, unfolding(crate::specs::Reading::mail_words))]
fn mail_words(text: &[u8]) -> Option<MailWords<'_>>
    ensures { Finds mail_seen result (mail_words text.now) }
{
    let (word, rest) = cut_at(b' ', text)?;
    let mailbox = text_of(word)?;
    let (word, rest) = cut_at(b' ', rest)?;
    let class = class_named(word)?;
    let counts = four_counts(rest)?;
    Some(MailWords {
        mailbox,
        class,
        counts,
    })
}

/// The words of a PROGRESS line behind the first.
#[derive(Clone, Copy)]
struct ProgressWords<'a> {
    tag: &'a str,
    code: u16,
    reason: &'a str,
}

#[tactic(auto, unfolding(crate::specs::Reading::progress_words))]
fn progress_words(text: &[u8]) -> Option<ProgressWords<'_>>
    ensures { Finds progress_seen result (progress_words text.now) }
{
    let (word, rest) = cut_at(b' ', text)?;
    let tag = text_of(word)?;
    let (word, rest) = cut_at(b' ', rest)?;
    let code = short_of(word)?;
    let reason = text_of(rest)?;
    Some(ProgressWords { tag, code, reason })
}

/// The change of these values, where a mail change may have them.
fn mail_change(mailbox: String, class: Class, counts: Counts) -> Option<MailChange>
    ensures { result ≡ mail_of (record { mailbox = string_bytes mailbox; class = class; counts = counts }) }
{
    MailChange::new(
        mailbox,
        class,
        counts.new_count,
        counts.old_count,
        counts.urgent_new,
        counts.urgent_old,
    )
}

#[tactic(auto, unfolding(crate::specs::Reading::mail_at))]
fn mail_line(alloc: Global, text: &[u8]) -> Result<MailChange, ScriptError>
    ensures { Gives (λ x. x) result (mail_at text.now) }
{
    let Some(words) = mail_words(text) else {
        return Err(ScriptError::BadScript);
    };
    let mailbox = String::from_str(alloc, words.mailbox)?;
    mail_change(mailbox, words.class, words.counts).ok_or(ScriptError::BadScript)
}

/// The progress of these values, where one may have them.
fn progress_change(tag: String, code: u16, reason: String) -> Option<Progress>
    ensures { result ≡ progress_of (record { tag = string_bytes tag; code = code; reason = string_bytes reason }) }
{
    Progress::new(tag, code, reason)
}

#[tactic(auto, unfolding(crate::specs::Reading::progress_at))]
fn progress_line(alloc: Global, text: &[u8]) -> Result<Progress, ScriptError>
    ensures { Gives (λ x. x) result (progress_at text.now) }
{
    let Some(words) = progress_words(text) else {
        return Err(ScriptError::BadScript);
    };
    let tag = String::from_str(alloc, words.tag)?;
    let reason = String::from_str(alloc, words.reason)?;
    progress_change(tag, words.code, reason).ok_or(ScriptError::BadScript)
}

/// The line of this first word and this rest.
#[tactic(auto, unfolding(crate::specs::Reading::named_at))]
pub fn line_named(alloc: Global, name: &[u8], rest: &[u8]) -> Result<Control, ScriptError>
    ensures { Gives (λ x. x) result (named_at name.now rest.now) }
{
    if name == b"MAIL".as_slice() {
        Ok(Control::Change(Change::Mail(mail_line(alloc, rest)?)))
    } else if name == b"PROGRESS".as_slice() {
        Ok(Control::Change(Change::Step(progress_line(alloc, rest)?)))
    } else if name == b"TICK".as_slice() {
        plain_number(rest)
            .map(Control::Tick)
            .ok_or(ScriptError::BadScript)
    } else {
        Err(ScriptError::BadScript)
    }
}

/// The line without the LF at its end. None where one stands before its end.
#[tactic(auto, unfolding(crate::specs::Lines::bare_line))]
pub fn bare_line(bytes: &[u8]) -> Option<&[u8]>
    ensures { Finds (λ x. x.now) result (spec.bare_line bytes.now) }
{
    match cut_at(b'\n', bytes) {
        Some((line, [])) => Some(line),
        Some(_) => None,
        None => Some(bytes),
    }
}

/// A control line without its LF. A CLOSE needs no memory.
#[tactic(auto, unfolding(crate::specs::Reading::order_of))]
fn bare_control(alloc: Global, line: &[u8]) -> Result<Control, ScriptError>
    ensures read { Gives (λ x. x) result (order_of line.now) }
    ensures close { line.now ≡ codes "CLOSE" → result ≡ Ok Control.Close }
{
    if line == b"CLOSE".as_slice() {
        return Ok(Control::Close);
    }
    let Some((name, rest)) = cut_at(b' ', line) else {
        return Err(ScriptError::BadScript);
    };
    line_named(alloc, name, rest)
}

#[tactic(auto, unfolding(crate::specs::Reading::control_of))]
pub fn control_line(alloc: Global, bytes: &[u8]) -> Result<Control, ScriptError>
    ensures read { Gives (λ x. x) result (control_of bytes.now) }
    ensures close { spec.bare_line bytes.now ≡ Some (codes "CLOSE") → result ≡ Ok Control.Close }
{
    let Some(line) = bare_line(bytes) else {
        return Err(ScriptError::BadScript);
    };
    bare_control(alloc, line)
}
