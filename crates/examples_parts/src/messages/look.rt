//! A datagram is read, looked at in one way, and what was read is let go in one place.

use crate::messages::fields::{fields_of, summary_of};
use crate::messages::written::{Example, written_for};
use sip_read::{Message, ReadError, read};
use sip_text::NoMemory;
use std::alloc::Global;
use std::io;

/// What is told of a datagram.
#[derive(Clone, Copy)]
pub(crate) enum Look {
    /// One line.
    Summary,
    /// All its fields.
    Fields,
    /// What is written to a request; of anything else all its fields.
    Written(Example),
}

/// What is told of what was read.
fn told_of(
    alloc: Global,
    read: &Result<Message, ReadError>,
    look: Look,
) -> Result<String, NoMemory> {
    match (look, read) {
        (Look::Written(example), Ok(Message::Request(request))) => {
            written_for(alloc, example, request)
        }
        (Look::Summary, _) => Ok(summary_of(alloc, read)?),
        _ => Ok(fields_of(alloc, read)?),
    }
}

/// What is told of a datagram.
pub(crate) fn look_at(alloc: Global, datagram: &[u8], look: Look) -> Result<String, NoMemory> {
    let read = read(alloc, datagram);
    let told = told_of(alloc, &read, look);
    drop(read);
    told
}

/// Whether these fields are told of a datagram.
pub(crate) fn has_fields(alloc: Global, datagram: &[u8], fields: &str) -> Result<bool, NoMemory> {
    let told = look_at(alloc, datagram, Look::Fields)?;
    Ok(told.as_str() == fields)
}

/// Written bytes as a text.
pub(crate) fn as_text(bytes: &[u8]) -> &str {
    str::from_utf8(bytes).unwrap_or("no text")
}

/// A program ends where memory is short.
pub(crate) fn no_memory(_short: NoMemory) -> io::Error {
    io::Error::from(io::ErrorKind::OutOfMemory)
}
