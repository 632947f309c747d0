//! Event (RFC 6665 section 8.2.1).
ghost use Rattle.std.specs.Prelude.{◌≡◌, ◌++◌, string_bytes, Result, OnOk, OnErr};
ghost use Rattle.event_headers.specs.declared.error.HeaderError.{HeaderError};
ghost use Rattle.sip_text.specs.Bytes.{Gives};
ghost use Rattle.event_headers.specs.Headers.{IsEvent, EventFits, Says, IsSaid, Answers};
ghost use Rattle.event_headers.specs.HeaderReading.{event_of, event_fits, outcome};
ghost use Rattle.event_headers.specs.HeaderViews.{event_seen};
ghost use Rattle.event_headers.specs.Values as values;
ghost use Rattle.event_headers.specs.Written.{event_text};

use crate::append::{append_parameter, append_text};
use crate::error::HeaderError;
use crate::values::EventValue;
use sip_text::{Class, NoMemory, Text, some_copy, token_with, word_named};
use std::alloc::Global;

/// An Event value as it stands in the text.
#[derive(Clone, Copy)]
pub struct WrittenEvent<'a> {
    pub package: &'a str,
    pub id: Option<&'a str>,
}

/// The Event value that the whole text is.
#[tactic(auto, unfolding(crate::specs::HeaderReading::event_of))]
fn event_of(alloc: Global, text: &[u8]) -> Result<Option<WrittenEvent<'_>>, NoMemory>
    ensures { Gives event_seen result (event_of text.now) }
{
    let Some((package, parameters)) = token_with(alloc, text)? else {
        return Ok(None);
    };
    let Some(id) = word_named(Class::Token, b"id", parameters.as_slice()) else {
        return Ok(None);
    };
    Ok(Some(WrittenEvent { package, id }))
}

/// What the text says as an Event value.
fn event(alloc: Global, text: &[u8]) -> Result<EventValue, HeaderError>
    ensures { Answers result (outcome event_fits (event_of text.now)) }
{
    let Some(written) = event_of(alloc, text)? else {
        return Err(HeaderError::Grammar);
    };
    let package = Text::of(alloc, written.package)?;
    let id = some_copy(alloc, written.id)?;
    Ok(EventValue::of(package, id))
}

/// Reads the value of an Event header. Outer SP and HT are allowed; parameters other than `id` are dropped.
pub fn read_event(alloc: Global, text: &[u8]) -> Result<EventValue, HeaderError>
    // What is answered is what the text says, unless a growth was refused.
    ensures found { IsSaid IsEvent EventFits text.now result }
    // What the text says is answered, unless a growth was refused.
    ensures only { (said : Result values.EventValue HeaderError)
        → Says IsEvent EventFits text.now said → Answers result said }
{
    event(alloc, text)
}

/// Appends the written form of an Event value: `package` or `package;id=x`. After an error a part of it may stand there.
fn append_event(event: &EventValue, out: &mut String) -> Result<(), NoMemory>
    ensures { OnOk result (string_bytes out.new ≡ string_bytes out.old ++ event_text event.now) }
{
    out.push_str(event.package())?;
    append_parameter("id", event.id(), out)?;
    Ok(())
}

/// Appends the written form of an Event value. After an error the bytes are as they were.
pub fn write_event(alloc: Global, event: &EventValue, out: &mut Vec<u8>) -> Result<(), NoMemory>
    ensures ok { OnOk result (out.new.items ≡ out.old.items ++ event_text event.now) }
    ensures err { OnErr result (out.new.items ≡ out.old.items) }
{
    let mut text = String::new(alloc);
    append_event(event, &mut text)?;
    append_text(text.as_str(), out)?;
    Ok(())
}
