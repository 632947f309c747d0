//! Values of headers. A line of `data/headers` has what is tried, a value (with backslashes as in [`crate::messages::tables`]), and what is
//! wanted: what the value says and how it is written again, or why it is refused. `numbered`, `active` and `ended` are made by a
//! call in place of being read. For `covers` the value is a range, a blank and a media type: whether the range covers it. For
//! `package`, `id`, `word` and `reason` it is a text: whether it may be that part of a value.

use crate::messages::look::as_text;
use event_headers::{
    EventValue, HeaderError, Range, StateValue, covers, read_accept, read_event, read_expires,
    read_state, write_accept, write_event, write_expires, write_state,
};
use sip_text::NoMemory;
use std::alloc::Global;

/// Appends these texts.
fn add_all(out: &mut String, parts: &[&str]) -> Result<(), NoMemory> {
    for part in parts {
        out.push_str(part)?;
    }
    Ok(())
}

/// Appends what an event says, and how a copy of it is written.
fn add_event(
    alloc: Global,
    event: &EventValue,
    says: &mut String,
    out: &mut Vec<u8>,
) -> Result<(), NoMemory> {
    let id = event.id().unwrap_or("");
    add_all(
        says,
        &["package ", event.package(), ", id ", id, ", written "],
    )?;
    write_event(alloc, &event.copy(alloc)?, out)
}

/// Appends what a state says, and how it is written.
fn add_state(
    alloc: Global,
    state: &StateValue,
    says: &mut String,
    out: &mut Vec<u8>,
) -> Result<(), NoMemory> {
    let expires = match state.expires() {
        Some(seconds) => format!(in alloc; ", expires {seconds}, written ")?,
        None => String::from_str(alloc, ", no expires, written ")?,
    };
    add_all(says, &["word ", state.word(), expires.as_str()])?;
    write_state(alloc, state, out)
}

/// Appends how many ranges there are, and how they are written.
fn add_ranges(
    alloc: Global,
    ranges: &[Range],
    says: &mut String,
    out: &mut Vec<u8>,
) -> Result<(), NoMemory> {
    let count = format!(in alloc; "{} ranges, written ", ranges.len())?;
    says.push_str(count.as_str())?;
    write_accept(alloc, ranges, out)
}

/// Appends how many seconds there are, and how they are written.
fn add_seconds(
    alloc: Global,
    seconds: u32,
    says: &mut String,
    out: &mut Vec<u8>,
) -> Result<(), NoMemory> {
    let count = format!(in alloc; "{seconds} seconds, written ")?;
    says.push_str(count.as_str())?;
    write_expires(alloc, seconds, out)
}

/// Whether the range before the blank covers the type behind it.
fn covered(alloc: Global, text: &str) -> Result<&'static str, NoMemory> {
    let (range, content_type) = text.split_once(' ').unwrap_or((text, ""));
    let (main, sub) = range.split_once('/').unwrap_or((range, ""));
    let main = String::from_str(alloc, main)?;
    let sub = String::from_str(alloc, sub)?;
    match &Range::new(main, sub) {
        Some(range) if covers(range, content_type) => Ok("true"),
        Some(_) => Ok("false"),
        None => Ok("no range"),
    }
}

/// Whether a text may be this part of a value, beside another text where the value has two.
fn is_part(part: &str, text: String, other: String) -> bool {
    match part {
        "package" => EventValue::new(text, None).is_some(),
        "id" => EventValue::new(other, Some(text)).is_some(),
        "word" => StateValue::new(text, Some(5), None, None).is_some(),
        _ => StateValue::new(other, None, Some(text), None).is_some(),
    }
}

/// Whether a text may be this part of a value: tokens may, where an id has a package and a reason a word before it.
fn may_be(alloc: Global, part: &str, text: &str) -> Result<&'static str, NoMemory> {
    let text = String::from_str(alloc, text)?;
    let other = String::from_str(alloc, "refer")?;
    Ok(if is_part(part, text, other) {
        "true"
    } else {
        "false"
    })
}

/// The state of an example: with an expiry, or with a reason and a time to try again.
fn made_state(alloc: Global, is_active: bool) -> Result<StateValue, NoMemory> {
    if is_active {
        return StateValue::worded(alloc, "active", Some(5), None, None);
    }
    StateValue::worded(alloc, "terminated", None, Some("noresource"), Some(7))
}

/// Appends what a value that is made, and not read, says, and how it is written.
fn add_made(
    alloc: Global,
    tried: &str,
    text: &str,
    says: &mut String,
    out: &mut Vec<u8>,
) -> Result<(), NoMemory> {
    match tried {
        "numbered" => match &EventValue::numbered(alloc, "refer", 93) {
            Ok(event) => add_event(alloc, event, says, out),
            Err(short) => Err(*short),
        },
        "active" | "ended" => match &made_state(alloc, tried == "active") {
            Ok(state) => add_state(alloc, state, says, out),
            Err(short) => Err(*short),
        },
        "covers" => Ok(says.push_str(covered(alloc, text)?)?),
        part => Ok(says.push_str(may_be(alloc, part, text)?)?),
    }
}

/// Appends what a value says, and how it is written. Where it is refused, or memory is short, nothing is written.
pub(crate) fn add_value(
    alloc: Global,
    tried: &str,
    value: &[u8],
    says: &mut String,
    out: &mut Vec<u8>,
) -> Result<(), HeaderError> {
    let added = match tried {
        "event" => match &read_event(alloc, value) {
            Ok(event) => add_event(alloc, event, says, out),
            Err(error) => return Err(*error),
        },
        "state" => match &read_state(alloc, value) {
            Ok(state) => add_state(alloc, state, says, out),
            Err(error) => return Err(*error),
        },
        "accept" => match &read_accept(alloc, value) {
            Ok(ranges) => add_ranges(alloc, ranges.as_slice(), says, out),
            Err(error) => return Err(*error),
        },
        "expires" => add_seconds(alloc, read_expires(value)?, says, out),
        _ => add_made(alloc, tried, as_text(value), says, out),
    };
    Ok(added?)
}

/// What is told of a value.
pub(crate) fn value_told(alloc: Global, tried: &str, value: &[u8]) -> Result<String, NoMemory> {
    let mut told = String::new(alloc);
    let mut out = Vec::new(alloc);
    match add_value(alloc, tried, value, &mut told, &mut out) {
        Ok(()) => told.push_str(as_text(out.as_slice()))?,
        Err(HeaderError::Grammar) => told.push_str("refused: grammar")?,
        Err(HeaderError::TooLarge) => told.push_str("refused: too large")?,
        Err(HeaderError::NoMemory) => return Err(NoMemory),
    }
    Ok(told)
}
