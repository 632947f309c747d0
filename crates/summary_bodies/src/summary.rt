//! Summaries of messages.
ghost use Rattle.std.specs.Prelude.{◌≡◌, ◌≤◌, option_map};
ghost use Rattle.summary_bodies.specs.Summaries as spec;
ghost use Rattle.summary_bodies.specs.Views.{Says, seen};

use crate::class::{Context, context_named};
use crate::error::SummaryError;
use crate::numbers::counts_of;
use package::{Counts, MailCounts};
use sip_read::{header_of, line_at};
use sip_text::{Class, word_of};

/// So many summary lines a body has at most: one for each class.
const LINES: u32 = 6;

/// What a voicemail system tells of a mailbox (RFC 3842 section 5.2). It is all of it: a class that isn't named has no messages.
#[derive(Clone, Copy, Debug)]
pub struct Summary<'a> {
    /// Whether messages wait. The counts aren't compared with it.
    pub is_waiting: bool,
    /// The URI of the mailbox, where the body names one.
    pub account: Option<&'a str>,
    /// The counts of each class that the body names.
    pub counts: MailCounts,
}

/// A line's name and its value.
type Named<'a> = (&'a [u8], &'a [u8]);

/// The name and the value of the line at the front, and what follows the line.
fn field_at(text: &[u8]) -> Result<(Named<'_>, &[u8]), SummaryError>
    ensures { Says (λ x. ((x.0.0.now, x.0.1.now), x.1.now)) result (spec.field_at text.now) }
{
    let Some((line, rest)) = line_at(text) else {
        return Err(SummaryError::BadLine);
    };
    match header_of(line) {
        Some(field) => Ok((field, rest)),
        None => Err(SummaryError::BadLine),
    }
}

/// Whether nothing more is told: here is the end, or an empty line.
fn is_end(text: &[u8]) -> bool
    ensures { result ≡ spec.is_end text.now }
{
    matches!(text, [] | [b'\r', b'\n', ..])
}

/// What a status line with this name and this value says.
fn status_of(name: &[u8], value: &[u8]) -> Result<bool, SummaryError>
    ensures { result ≡ spec.status_of name.now value.now }
{
    if !name.eq_ignore_ascii_case(b"messages-waiting") {
        Err(SummaryError::NoStatus)
    } else if value.eq_ignore_ascii_case(b"yes") {
        Ok(true)
    } else if value.eq_ignore_ascii_case(b"no") {
        Ok(false)
    } else {
        Err(SummaryError::BadStatus)
    }
}

/// What the status line at the front says, and what follows it.
#[tactic(auto, unfolding(crate::specs::Summaries::status_at))]
fn status_at(text: &[u8]) -> Result<(bool, &[u8]), SummaryError>
    ensures { Says (λ x. (x.0, x.1.now)) result (spec.status_at text.now) }
{
    let ((name, value), rest) = field_at(text)?;
    let is_waiting = status_of(name, value)?;
    Ok((is_waiting, rest))
}

/// The account, where the line at the front names one, and what follows it.
fn account_at(text: &[u8]) -> Result<(Option<&str>, &[u8]), SummaryError>
    ensures { Says (λ x. (option_map (λ a. a.now) x.0, x.1.now)) result (spec.account_at text.now) }
{
    match field_at(text) {
        Ok(((name, value), rest)) if name.eq_ignore_ascii_case(b"message-account") => {
            match word_of(Class::Uri, value) {
                Some(uri) => Ok((Some(uri), rest)),
                None => Err(SummaryError::BadAccount),
            }
        }
        _ => Ok((None, text)),
    }
}

/// The counts with those of this class too.
fn with_context(
    context: Context,
    read: Counts,
    counts: MailCounts,
) -> Result<MailCounts, SummaryError>
    ensures { result ≡ spec.with_context context read counts }
{
    let Context::Kept(class) = context else {
        return Ok(counts);
    };
    if counts.of(class).is_some() {
        return Err(SummaryError::Twice);
    }
    let mut counts = counts;
    counts.set(class, read);
    Ok(counts)
}

/// The counts with those of a line with this name and this value too.
fn with_named(name: &[u8], value: &[u8], counts: MailCounts) -> Result<MailCounts, SummaryError>
    ensures { result ≡ spec.with_named (spec.context_of name.now) value.now counts }
{
    let Some(context) = context_named(name) else {
        return Err(SummaryError::UnknownClass);
    };
    let read = counts_of(value)?;
    with_context(context, read, counts)
}

/// The counts once the line at the front was read behind these, and what follows the line.
#[tactic(auto, unfolding(crate::specs::Summaries::line_after))]
fn line_after(text: &[u8], counts: MailCounts) -> Result<(MailCounts, &[u8]), SummaryError>
    ensures { Says (λ x. (x.0, x.1.now)) result (spec.line_after text.now counts) }
{
    let ((name, value), rest) = field_at(text)?;
    let counts = with_named(name, value, counts)?;
    Ok((counts, rest))
}

/// The counts once all summary lines were read behind these, of which there are so many at most. It calls itself as often at most.
#[tactic(auto, using(crate::proofs::Lines::lines_end, crate::proofs::Lines::lines_none, crate::proofs::Lines::lines_bad, crate::proofs::Lines::lines_more))]
fn lines_after(left: u32, text: &[u8], counts: MailCounts) -> Result<MailCounts, SummaryError>
    ensures { result ≡ spec.lines_after left text.now counts }
{
    if is_end(text) {
        return Ok(counts);
    }
    if left == 0 {
        return Err(SummaryError::Twice);
    }
    let (counts, rest) = line_after(text, counts)?;
    lines_after(left - 1, rest, counts)
}

/// Whether no class has counts.
fn counts_none(counts: &MailCounts) -> bool
    ensures { result ≡ spec.counts_none counts.now }
{
    counts.voice.is_none()
        && counts.fax.is_none()
        && counts.pager.is_none()
        && counts.multimedia.is_none()
        && counts.text.is_none()
}

/// Reads a body of `application/simple-message-summary`. It takes no memory.
#[tactic(auto, unfolding(crate::specs::Summaries::told_in))]
pub fn read_summary(body: &[u8]) -> Result<Summary<'_>, SummaryError>
    ensures { Says seen result (spec.told_in body.now) }
{
    let (is_waiting, rest) = status_at(body)?;
    let (account, rest) = account_at(rest)?;
    let counts = lines_after(LINES, rest, MailCounts::unset())?;
    if is_waiting && counts_none(&counts) {
        return Err(SummaryError::Uncounted);
    }
    Ok(Summary {
        is_waiting,
        account,
        counts,
    })
}
