//! Numbers from one to another, each in as many digits: `1000-1999`.
ghost use Rattle.std.specs.Prelude.{◌≡◌, ℕ, List, ◌<◌, ◌≤◌, ◌^◌, ◌↔◌, ◌++◌, length, IsTrue, IfSome, IfNone, IfOk, OnOk, string_bytes};
ghost use Rattle.arguments.specs.NumberRanges.{numeral, numerals, AreHalves, IsNumeral, IsNumberRange, LooksLikeRange, IsFair};
ghost use Rattle.arguments.specs.NumberRanges as spec;
ghost use Rattle.std.specs.Char.{is_ascii_digit};
ghost use Rattle.std.specs.List.{list_all};

use sip_text::{NoMemory, Text, cut_at};
use std::alloc::Global;

/// How many digits a number has at most.
const MOST_DIGITS: usize = 18;

/// How many numbers a range has at most.
const MOST_NUMBERS: u64 = 1_000_000;

/// The numbers from the first to the last, each in so many digits.
#[derive(Clone, Copy)]
pub(crate) struct NumberRange {
    pub(crate) width: usize,
    pub(crate) first: u64,
    pub(crate) last: u64,
    ghost last_fits: { last < 10 ^ 18 },
}

/// The number that these digits say, of which there are 1 to 18.
fn parse_number(digits: &[u8]) -> Option<u64>
    requires some { 1 ≤ length digits.now }
    requires few { length digits.now ≤ 18 }
    ensures found { IfSome result (IsNumeral digits.now (length digits.now)) }
    ensures none { IfNone result ((width n : ℕ) → ¬ (IsNumeral digits.now width n)) }
{
    let mut number = 0u64;
    for digit in digits {
        if !digit.is_ascii_digit() {
            return None;
        }
        number = number * 10 + u64::from(*digit - b'0');
    }
    Some(number)
}

/// The two halves of a text with `-` in its middle.
fn halves(text: &[u8]) -> Option<(&[u8], &[u8])>
    ensures found { IfSome result (λ h. AreHalves text.now h.0.now h.1.now) }
    ensures none { IfNone result ((front back : List ℕ) → ¬ (AreHalves text.now front back)) }
{
    let (front, rest) = text.split_at(text.len() / 2);
    match rest {
        [b'-', back @ ..] if back.len() == front.len() => Some((front, back)),
        _ => None,
    }
}

/// The range that a text says, if it says one.
pub(crate) fn parse_range(text: &[u8]) -> Option<NumberRange>
    ensures found { IfSome result (λ r. IsNumberRange text.now r.width r.first r.last) }
    ensures none { IfNone result ((width first last : ℕ) → ¬ (IsNumberRange text.now width first last)) }
{
    let (front, back) = halves(text)?;
    let width = front.len();
    if width == 0 || width > MOST_DIGITS {
        return None;
    }
    let first = parse_number(front)?;
    let last = parse_number(back)?;
    Some(NumberRange { width, first, last })
}

fn all_digits(text: &[u8]) -> bool
    ensures { result ≡ list_all is_ascii_digit text.now }
{
    text.iter().all(|byte| byte.is_ascii_digit())
}

/// Whether it is one digit or more.
fn are_digits(text: &[u8]) -> bool
    ensures { result ≡ spec.are_digits text.now }
{
    !text.is_empty() && all_digits(text)
}

/// Whether a text looks like a range: digits before a `-` and digits behind it, however many.
pub(crate) fn looks_like_range(text: &[u8]) -> bool
    ensures { IsTrue result ↔ LooksLikeRange text.now }
{
    match cut_at(b'-', text) {
        Some((front, back)) => are_digits(front) && are_digits(back),
        None => false,
    }
}

/// Puts the last digits of the number, so many, behind a text.
fn push_digits(text: &mut String, width: usize, number: u64) -> Result<(), NoMemory>
    ensures { OnOk result (string_bytes text.new ≡ string_bytes text.old ++ numeral width number) }
{
    if width == 0 {
        return Ok(());
    }
    push_digits(text, width - 1, number / 10)?;
    text.push(char::from(b'0' + (number % 10) as u8))?;
    Ok(())
}

impl NumberRange {
    /// Whether it names one number or more, and not too many.
    pub(crate) fn is_fair(self) -> bool
        ensures { IsTrue result ↔ IsFair self.first self.last }
    {
        self.first <= self.last && self.last - self.first < MOST_NUMBERS
    }

    /// The numbers, each as a text.
    pub(crate) fn numerals(self, alloc: Global) -> Result<Vec<Text>, NoMemory>
        requires { self.first ≤ self.last }
        ensures { IfOk result (λ texts. texts.items ≡ numerals self.width self.first self.last) }
    {
        let mut texts = Vec::new(alloc);
        for number in self.first..self.last + 1 {
            let mut text = String::new(alloc);
            push_digits(&mut text, self.width, number)?;
            texts.push(Text::new(text))?;
        }
        Ok(texts)
    }
}
