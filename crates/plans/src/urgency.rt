//! Lines that would be MAIL lines, if not more were urgent than there are.
ghost use Rattle.std.specs.Prelude.{◌≡◌, ◌<◌, ◌⊎◌, ◌↔◌, ℕ, List, ◌++◌, codes, IsTrue, IfOk, IfSome, Some, MatchOption};
ghost use Rattle.plans.specs.State.{HasNoSpace, EndsInCounts, IsCalm, IsTooUrgent};
ghost use Rattle.package.specs.Values.{MailChange};

use package::{Change, Counts, MailChange};
use scripts::{Control, ScriptError, parse_control};
use sip_text::{NoMemory, count_of};
use std::alloc::Global;

/// What stands before the last space, and what behind it.
fn cut_last(text: &[u8]) -> Option<(&[u8], &[u8])>
    ensures { MatchOption result (HasNoSpace text.now)
        (λ halves. (text.now ≡ halves.0.now ++ (codes " " ++ halves.1.now)) × HasNoSpace halves.1.now) }
{
    let place = text.iter().rposition(|byte| *byte == b' ')?;
    Some((&text[..place], &text[place + 1..]))
}

/// A line whose last two words are counts.
#[derive(Clone, Copy)]
struct LastCounts<'a> {
    /// What stands before them.
    front: &'a [u8],
    urgent_new: u32,
    urgent_old: u32,
}

/// The line with its last two words, where these are counts.
fn last_counts(line: &[u8]) -> Option<LastCounts<'_>>
    ensures { MatchOption result ((front : List ℕ) (new old : ℕ) → ¬ (EndsInCounts line.now front new old))
        (λ last. EndsInCounts line.now last.front.now last.urgent_new last.urgent_old) }
{
    let (rest, urgent_old) = cut_last(line)?;
    let (front, urgent_new) = cut_last(rest)?;
    Some(LastCounts {
        front,
        urgent_new: count_of(urgent_new)?,
        urgent_old: count_of(urgent_old)?,
    })
}

/// Whether more messages of a kind are urgent than there are.
fn exceeds(urgent_new: u32, urgent_old: u32, counts: Counts) -> bool
    ensures { IsTrue result ↔ ((counts.new_count < urgent_new) ⊎ (counts.old_count < urgent_old)) }
{
    urgent_new > counts.new_count || urgent_old > counts.old_count
}

/// The mail, where none of it is urgent.
fn calm(mail: MailChange) -> Option<MailChange>
    ensures { MatchOption result (¬ ((mail.counts.urgent_new ≡ 0) × (mail.counts.urgent_old ≡ 0)))
        (λ calm. (calm ≡ mail) × (mail.counts.urgent_new ≡ 0) × (mail.counts.urgent_old ≡ 0)) }
{
    if mail.urgent_new() == 0 && mail.urgent_old() == 0 {
        Some(mail)
    } else {
        None
    }
}

/// What the MAIL line tells that begins so and has two zeros behind it, if it is one: none of it is urgent.
fn calm_mail(alloc: Global, front: &[u8]) -> Result<Option<MailChange>, NoMemory>
    ensures found { IfOk result (λ found. IfSome found (IsCalm front.now)) }
    ensures only { IfOk result (λ found. (mail : MailChange) → IsCalm front.now mail → found ≡ Some mail) }
{
    let mut line = Vec::new(alloc);
    line.extend_from_slice(front)?;
    line.extend_from_slice(b" 0 0")?;
    match parse_control(alloc, line.as_slice()) {
        Ok(Control::Change(Change::Mail(mail))) => Ok(calm(mail)),
        Ok(Control::Change(_) | Control::Tick(_) | Control::Close) => Ok(None),
        Err(ScriptError::NoMemory) => Err(NoMemory),
        Err(ScriptError::BadScript) => Ok(None),
        Err(ScriptError::Device) => Ok(None),
    }
}

/// Whether a line has the form of a MAIL line, but more are urgent than there are.
pub fn is_too_urgent(alloc: Global, line: &str) -> Result<bool, NoMemory>
    ensures { IfOk result (λ is. IsTrue is ↔ IsTooUrgent line.now) }
{
    let Some(last) = last_counts(line.as_bytes()) else {
        return Ok(false);
    };
    let Some(mail) = calm_mail(alloc, last.front)? else {
        return Ok(false);
    };
    Ok(exceeds(last.urgent_new, last.urgent_old, mail.counts()))
}
