//! Text that somebody else wrote, as it stands in a line for people: in the log, in WATCHERS, on a terminal.
//!
//! A stranger writes whatever a header or a datagram takes: line feeds, controls that move a cursor (C0, U+009B), ends of lines that aren't
//! ASCII (U+0085, U+2028), marks that turn a text around (U+202E), a thousand blanks. So what is shown of it is printable ASCII
//! (RFC 20) alone: each other octet, and the backslash, stands there as a backslash, `x` and two hex digits. Behind the first 64 octets
//! stand three dots, where there are more.
//!
//! [`Shown`] is such a text, and its `Display` what is shown. It needs no memory. Begin with `specs/Shown`; [`laws`] says what that comes to.
#![tactic(auto)]

pub mod laws;
mod shown;

pub use shown::{Manner, Shown};
