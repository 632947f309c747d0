//! The lines of a service's log, each in two forms: the plain one, for people, and one JSON object (RFC 8259) a line, for machines.
//!
//! A [`Record`] says what a line tells, and has a variant for each kind of line. Its `Display` is the plain form, behind `notifyd: `. Its
//! other form, [`Record::line`], has the members `time` and `what`, `level` where something is wrong, and those of its variant. A reader
//! goes by `what` alone, and takes members that it doesn't know.
//!
//! Whatever a stranger wrote, a line is one line, and a JSON reader finds the members of this record in it and no others. A line has 4,096
//! octets at most, so that lines of several threads don't mix in a pipe (PIPE_BUF). Texts of strangers are printable ASCII in
//! both forms, the first 64 octets of each, and so are those of the operator or the system, the first 256 (crate `shown_text`).
//!
//! What it isn't: whether there is room on standard error is its caller's, and no contract says that a line is written. Begin with
//! `specs/Objects`: the members of each record; then `specs/Plain`: its plain text.
#![tactic(auto)]

mod beginning;
mod ending;
mod form;
mod moments;
mod not_taken;
mod object;
mod outage;
mod place;
mod record;
mod request;
mod trouble;

pub use beginning::{Beginning, Course};
pub use ending::{Count, Ending};
pub use form::{Form, milliseconds, tell};
pub use moments::utc;
pub use not_taken::{Dialog, NotTaken};
pub use outage::Outage;
pub use record::{LOST, Record};
pub use request::Request;
pub use sip_text::{Addr, NoMemory};
pub use trouble::Trouble;
