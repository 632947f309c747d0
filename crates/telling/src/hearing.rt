//! What is said to a line.
ghost use Rattle.std.specs.Prelude.{◌≡◌, take};
ghost use Rattle.telling.specs.Hearing as spec;

use control_lines::{ControlAnswer, TellOutcome};

/// What came of a line that was asked.
#[derive(Clone, Copy, Debug, PartialEq, Eq)]
pub enum Heard {
    /// `ok`: the service did it.
    Done,
    /// Another answer than these.
    Refused,
    /// `closed`: the service takes no more.
    Closed,
    /// `out of memory`: the service may do it later.
    Full,
    /// Nobody answered, five times.
    Silent,
    /// The socket failed.
    Fault,
}

/// What an answer says that isn't `ok`.
fn refusal(answer: &[u8]) -> Heard
    ensures { result ≡ spec.refusal answer.now }
{
    if answer == ControlAnswer::Closed.text().as_bytes() {
        Heard::Closed
    } else if answer == ControlAnswer::NoMemory.text().as_bytes() {
        Heard::Full
    } else {
        Heard::Refused
    }
}

/// So many octets at the beginning of the room, or all.
pub(crate) fn front(room: &[u8], length: usize) -> &[u8]
    ensures { result.now ≡ take length room.now }
{
    &room[..length.min(room.len())]
}

/// What came of a line, whose answer stands at the beginning of the room.
pub(crate) fn said(outcome: TellOutcome, room: &[u8]) -> Heard
    ensures { result ≡ spec.said outcome room.now }
{
    match outcome {
        TellOutcome::Done(_) => Heard::Done,
        TellOutcome::Refused(length) => refusal(front(room, length)),
        TellOutcome::Silent => Heard::Silent,
        TellOutcome::Fault => Heard::Fault,
    }
}
