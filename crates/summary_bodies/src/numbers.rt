//! How a line counts messages.
ghost use Rattle.std.specs.Prelude.{◌≡◌, ◌≤◌, ◌^◌};
ghost use Rattle.sip_text.specs.Bytes.{Finds};
ghost use Rattle.summary_bodies.specs.Numbers as spec;

use crate::error::SummaryError;
use package::Counts;
use sip_text::{Class, after_byte, capped_number, skip_spaces, span_at};

/// The greatest count.
const MOST: u64 = 4294967295;

/// A number at the front, and what follows it. One of 2^32 and more counts as 2^32.
#[tactic(auto, unfolding(crate::specs::Numbers::count_at))]
fn count_at(text: &[u8]) -> Option<(u64, &[u8])>
    ensures { Finds (λ x. (x.0, x.1.now)) result (spec.count_at text.now) }
{
    let (digits, rest) = span_at(Class::Digit, text)?;
    Some((capped_number(digits), rest))
}

/// Two numbers with a slash between them at the front, and what follows them.
#[tactic(auto, unfolding(crate::specs::Numbers::pair_at))]
fn pair_at(text: &[u8]) -> Option<((u64, u64), &[u8])>
    ensures { Finds (λ x. (x.0, x.1.now)) result (spec.pair_at text.now) }
{
    let (first, rest) = count_at(text)?;
    let rest = after_byte(b'/', skip_spaces(rest))?;
    let (second, rest) = count_at(skip_spaces(rest))?;
    Some(((first, second), rest))
}

/// The urgent ones, where the whole text is two numbers in parentheses.
#[tactic(auto, unfolding(crate::specs::Numbers::urgent_in))]
fn urgent_in(text: &[u8]) -> Option<(u64, u64)>
    ensures { Finds (λ x. x) result (spec.urgent_in text.now) }
{
    let rest = after_byte(b'(', text)?;
    let (pair, rest) = pair_at(skip_spaces(rest))?;
    let end = after_byte(b')', skip_spaces(rest))?;
    if end.is_empty() { Some(pair) } else { None }
}

/// The urgent ones: none, where the text is empty.
fn urgent_of(text: &[u8]) -> Option<(u64, u64)>
    ensures { Finds (λ x. x) result (spec.urgent_of text.now) }
{
    if text.is_empty() {
        Some((0, 0))
    } else {
        urgent_in(text)
    }
}

/// The numbers that the whole text is: new and old ones, and how many of each are urgent.
#[tactic(auto, unfolding(crate::specs::Numbers::numbers_of))]
fn numbers_of(text: &[u8]) -> Option<((u64, u64), (u64, u64))>
    ensures { Finds (λ x. x) result (spec.numbers_of text.now) }
{
    let (total, rest) = pair_at(text)?;
    let urgent = urgent_of(skip_spaces(rest))?;
    Some((total, urgent))
}

/// The counts of these numbers.
fn counts_with(total: (u64, u64), urgent: (u64, u64)) -> Result<Counts, SummaryError>
    ensures { result ≡ spec.counts_with total urgent }
{
    let (new_count, old_count) = total;
    let (urgent_new, urgent_old) = urgent;
    if new_count > MOST || old_count > MOST {
        return Err(SummaryError::TooLarge);
    }
    if urgent_new > new_count || urgent_old > old_count {
        return Err(SummaryError::MoreUrgent);
    }
    Ok(Counts {
        new_count: new_count as u32,
        old_count: old_count as u32,
        urgent_new: urgent_new as u32,
        urgent_old: urgent_old as u32,
    })
}

/// The counts that the value of a line tells.
pub(crate) fn counts_of(value: &[u8]) -> Result<Counts, SummaryError>
    ensures { result ≡ spec.counts_of value.now }
{
    match numbers_of(value) {
        Some((total, urgent)) => counts_with(total, urgent),
        None => Err(SummaryError::BadCounts),
    }
}
