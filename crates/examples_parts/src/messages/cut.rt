//! Datagrams that end too early, or are too long.

use crate::messages::look::{has_fields, no_memory};
use sip_text::NoMemory;
use std::alloc::Global;
use std::rt::Files;
use std::{fs, io};

/// How many bytes a message has, and up to how many of them a front of it has no first line, and no empty line. The body of a
/// longer front is short.
type Lengths = (usize, usize, usize);

/// Whether each front, shorter than the message, is read as wanted.
fn are_refused(alloc: Global, lengths: Lengths, message: &[u8]) -> Result<bool, NoMemory> {
    let (whole, no_first_line, no_empty_line) = lengths;
    for length in 0..message.len() {
        let wanted = if length <= no_first_line {
            "error 1: not SIP\n"
        } else if length <= no_empty_line {
            "error 2: bad header line\n"
        } else {
            "error 5: short body\n"
        };
        if !has_fields(alloc, message.split_at(length).0, wanted)? {
            return Ok(false);
        }
    }
    Ok(message.len() == whole)
}

/// Whether a message with 65,535 bytes has these fields, and with one more is too long.
fn is_bounded(alloc: Global, message: &[u8], fields: &str) -> Result<bool, NoMemory> {
    let mut bytes = Vec::from_slice(alloc, message)?;
    bytes.resize(65536, b'x')?;
    let (longest, _) = bytes.split_at(bytes.len().min(65535));
    Ok(
        has_fields(alloc, longest, fields)?
            && has_fields(alloc, bytes.as_slice(), "error 6: too long\n")?,
    )
}

/// Messages that are cut off.
const CUT: [(&str, Lengths); 3] = [
    ("subscribe.dat", (284, 38, 283)),
    ("answer.dat", (254, 15, 253)),
    ("notify.dat", (439, 40, 416)),
];

/// Tells whether a message that was cut off is refused.
fn tell_cut(
    rt: &(impl Files + Print + AllocGlobal),
    name: &str,
    lengths: Lengths,
) -> io::Result<()> {
    let message = fs::read(rt, name)?;
    let is_so = are_refused(rt.alloc(), lengths, message.as_slice()).map_err(no_memory)?;
    println!(rt; "{name}, cut off: {is_so}")
}

/// Tells whether a datagram has at most 65,535 bytes.
fn tell_longest(rt: &(impl Files + Print + AllocGlobal)) -> io::Result<()> {
    let message = fs::read(rt, "subscribe.dat")?;
    let fields = fs::read_to_string(rt, "subscribe.read")?;
    let is_so = is_bounded(rt.alloc(), message.as_slice(), fields.as_str()).map_err(no_memory)?;
    println!(rt; "65535 bytes are read, 65536 are not: {is_so}")
}

/// Tells of three messages cut off, and of one too long.
pub(crate) fn tell_all(rt: &(impl Files + Print + AllocGlobal)) -> io::Result<()> {
    for (name, lengths) in CUT {
        tell_cut(rt, name, lengths)?;
    }
    tell_longest(rt)
}
