//! Worked examples of messages, byte for byte: what this profile's reader says of a datagram, how header values are read and
//! written, and the answers and NOTIFYs that are written. Of each example a line says whether it went as it should.
//!
//! - `data/table` has a line for each message of RFC 4475, the torture tests of SIP, each whole as a datagram: the name that the
//!   RFC gives it, the section, what it is read as, and why. They were written down from memory of the RFC, and not compared
//!   with its archive of files; the table was written by its sections and `docs/protocol.md`, not by the program. Of the RFC's 49
//!   messages one is left out, the multipart body of section 3.1.1.11 with its signature: a body is bytes here, whatever stands in it.
//! - `data/errors`, `data/lines` and `data/torture` have a line for each short datagram, and `data/vias` for each answer to one:
//!   [`tables`] says how they are written.
//! - `data/headers` has a line for each value of a header: [`headers`].
//! - Whole messages with all their fields, and the answers and NOTIFYs, are datagrams in `data` and calls in [`whole`].
//! - [`refused`] is for runs in which a growth is refused (`rt try --fail-alloc N`).
//!
//! Begin with `data/lines` and [`tables`].

mod cut;
mod fields;
mod headers;
mod look;
mod refused;
mod tables;
mod values;
mod whole;
mod written;

use std::io;
use std::rt::Files;

/// Tells of every example.
pub(crate) fn tell_all(rt: &(impl Files + Print + AllocGlobal)) -> io::Result<()> {
    refused::tell_all(rt)?;
    values::tell_all(rt)?;
    tables::tell_all(rt)?;
    whole::tell_all(rt)?;
    cut::tell_all(rt)
}
