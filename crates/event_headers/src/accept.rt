//! Accept (RFC 3261 section 20.1).
ghost use Rattle.std.specs.Prelude.{◌≡◌, ◌≤◌, ◌++◌, List, length, map, string_bytes, Result, IfOk, OnOk, OnErr};
ghost use Rattle.std.specs.List.{position_or_len};
ghost use Rattle.event_headers.specs.declared.error.HeaderError.{HeaderError};
ghost use Rattle.event_headers.specs.Headers.{IsAccept, RangesFit, Says, IsSaid, Answers};
ghost use Rattle.event_headers.specs.Values as values;
ghost use Rattle.event_headers.specs.Written.{range_text, next_ranges, accept_text};
ghost use Rattle.event_headers.specs.Covering.{is_slash, ends_type, bare_type, type_of, subtype_of, is_matched, covers};
ghost use Rattle.sip_text.specs.Bytes.{Finds, Gives};
ghost use Rattle.event_headers.specs.HeaderReading.{pair_at, ranges_of, accept_of, ranges_fit, outcome};
ghost use Rattle.event_headers.specs.HeaderViews.{range_seen};

use crate::append::append_text;
use crate::error::HeaderError;
use crate::values::Range;
use crate::written_range::WrittenRange;
use sip_text::{
    Class, Element, NoMemory, Text, Values, after_byte, elements_of, skip_spaces, some_of, trim,
    word_at,
};
use std::alloc::Global;

/// A range at the front without its parameters, and the rest.
#[tactic(auto, unfolding(crate::specs::HeaderReading::pair_at))]
fn pair_at(text: &[u8]) -> Option<(WrittenRange<'_>, &[u8])>
    ensures { Finds (λ x. (range_seen x.0, x.1.now)) result (pair_at text.now) }
{
    let (main, rest) = word_at(Class::Token, text)?;
    let rest = after_byte(b'/', skip_spaces(rest))?;
    let (sub, rest) = word_at(Class::Token, skip_spaces(rest))?;
    Some((WrittenRange { main, sub }, rest))
}

/// The range with texts of its own, in small letters.
fn small_range(alloc: Global, written: WrittenRange<'_>) -> Result<Range, NoMemory>
    ensures { IfOk result (λ r. r ≡ range_seen written.entry) }
{
    let main = Text::small(alloc, written.main)?;
    let sub = Text::small(alloc, written.sub)?;
    Ok(Range::of(main, sub))
}

impl<'a> Element<'a> for Range {
    ghost use Rattle.event_headers.specs.Values as values;

    ghost Seen = { values.Range };

    ghost use Rattle.event_headers.specs.HeaderReading.{range_at};

    ghost seen = { λ r. r };

    ghost found = { range_at };

    #[tactic(auto, unfolding(crate::specs::HeaderReading::range_at))]
    fn at(alloc: Global, text: &'a [u8]) -> Result<Option<(Self, &'a [u8])>, NoMemory> {
        let Some((written, rest)) = pair_at(text) else {
            return Ok(None);
        };
        let Some((_, rest)) = some_of(alloc, rest)? else {
            return Ok(None);
        };
        let range = small_range(alloc, written)?;
        Ok(Some((range, rest)))
    }
}

/// The ranges that the whole text is.
fn ranges_of(alloc: Global, text: &[u8]) -> Result<Option<Vec<Range>>, NoMemory>
    ensures { Gives (λ v. v.items) result (ranges_of text.now) }
{
    if text.is_empty() {
        return Ok(Some(Vec::new(alloc)));
    }
    elements_of::<Range>(alloc, text)
}

/// What the text says as an Accept value.
fn accept(alloc: Global, text: &[u8]) -> Result<Values<Range>, HeaderError>
    ensures { Answers result (outcome ranges_fit (accept_of text.now)) }
{
    match ranges_of(alloc, trim(text))? {
        Some(ranges) => Ok(Values::new(ranges)),
        None => Err(HeaderError::Grammar),
    }
}

/// Reads the value of an Accept header. Outer SP and HT are allowed; parameters are dropped. The empty value has no range.
pub fn read_accept(alloc: Global, text: &[u8]) -> Result<Values<Range>, HeaderError>
    // What is answered is what the text says, unless a growth was refused.
    ensures found { IsSaid IsAccept RangesFit text.now result }
    // What the text says is answered, unless a growth was refused.
    ensures only { (said : Result (List values.Range) HeaderError)
        → Says IsAccept RangesFit text.now said → Answers result said }
{
    accept(alloc, text)
}

/// Appends `main/sub`.
fn append_range(range: &Range, out: &mut String) -> Result<(), NoMemory>
    ensures { OnOk result (string_bytes out.new ≡ string_bytes out.old ++ range_text range.now) }
{
    let main = range.main();
    let sub = range.sub();
    write!(out, "{main}/{sub}")?;
    Ok(())
}

/// Appends ranges, each behind a comma and SP.
fn append_next_ranges(ranges: &[Range], out: &mut String) -> Result<(), NoMemory>
    ensures { OnOk result (string_bytes out.new ≡ string_bytes out.old ++ next_ranges ranges.now) }
{
    for range in ranges {
        out.push_str(", ")?;
        append_range(range, out)?;
    }
    Ok(())
}

/// Appends ranges with comma and SP between them.
fn append_accept(ranges: &[Range], out: &mut String) -> Result<(), NoMemory>
    ensures { OnOk result (string_bytes out.new ≡ string_bytes out.old ++ accept_text ranges.now) }
{
    if let [first, others @ ..] = ranges {
        append_range(first, out)?;
        append_next_ranges(others, out)?;
    }
    Ok(())
}

/// Appends the written form of an Accept value: `main/sub`, joined by comma and SP. After an error the bytes are as they were.
pub fn write_accept(alloc: Global, ranges: &[Range], out: &mut Vec<u8>) -> Result<(), NoMemory>
    ensures ok { OnOk result (out.new.items ≡ out.old.items ++ accept_text ranges.now) }
    ensures err { OnErr result (out.new.items ≡ out.old.items) }
{
    let mut text = String::new(alloc);
    append_accept(ranges, &mut text)?;
    append_text(text.as_str(), out)?;
    Ok(())
}

/// How long the content type is without its parameters.
fn bare_len(content_type: &[u8]) -> usize
    ensures value { result ≡ position_or_len ends_type content_type.now }
    ensures bound { result ≤ length content_type.now }
{
    content_type
        .iter()
        .take_while(|byte| !matches!(**byte, b';' | b' ' | b'\t'))
        .count()
}

/// The content type without its parameters.
fn bare_type(content_type: &[u8]) -> &[u8]
    ensures { result.now ≡ bare_type content_type.now }
{
    content_type.split_at(bare_len(content_type)).0
}

/// How long the type before the slash is.
fn type_len(bare: &[u8]) -> usize
    ensures value { result ≡ position_or_len is_slash bare.now }
    ensures bound { result ≤ length bare.now }
{
    bare.iter().take_while(|byte| **byte != b'/').count()
}

/// The type that stands before the slash.
fn type_of(bare: &[u8]) -> &[u8]
    ensures { result.now ≡ type_of bare.now }
{
    bare.split_at(type_len(bare)).0
}

/// The subtype that stands behind the slash.
fn subtype_of(bare: &[u8]) -> &[u8]
    ensures { result.now ≡ subtype_of bare.now }
{
    match bare.split_at(type_len(bare)).1 {
        [_slash, sub @ ..] => sub,
        _ => &[],
    }
}

/// Whether a part of a range is `*` or this part of a content type, up to case.
fn is_matched(part: &str, by: &[u8]) -> bool
    ensures { result ≡ is_matched part.now by.now }
{
    part == "*" || part.as_bytes().eq_ignore_ascii_case(by)
}

/// Whether the range covers the content type: its main is `*` or equals the type, and its sub is `*` or equals the subtype. Case and the
/// parameters of the content type are ignored.
pub fn covers(range: &Range, content_type: &str) -> bool
    ensures { result ≡ covers range.now content_type.now }
{
    let bare = bare_type(content_type.as_bytes());
    is_matched(range.main(), type_of(bare)) && is_matched(range.sub(), subtype_of(bare))
}
