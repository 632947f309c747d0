//! How `notifyd tell` asks.
ghost use Rattle.std.specs.Prelude.{◌≡◌, ◌≤◌, ℕ, List, [], ◌∷◌, length, Option, None, Ok, Some};
ghost use Rattle.transport.specs.Devices.{one_more};
ghost use Rattle.transport.specs.Wires.{Grows};
ghost use Rattle.control_lines.specs.Asking.{status_of, came_in, Turn, ComesOf};

use crate::answer::is_yes;
use std::sync::Wait;
use thiserror::Error;

/// How often a line is sent at most.
pub const TRIES: u32 = 5;

/// A line could not be sent, or an answer not be received. What the device said is not told.
#[derive(Clone, Copy, Debug, PartialEq, Eq, Error)]
#[error("the socket failed")]
pub struct SpeakerFault;

/// Who sends a line and waits a while for an answer. It counts how often it has asked, and may tell which lines, and what came
/// of each; one over a socket tells the count alone.
pub trait Speaker {
    /// How often it has asked. It stays at 2^64 - 1 once there.
    ghost asked: { Self → ℕ };

    /// The lines that it has asked, in order, and what came of each, where it tells them.
    ghost turns: { Self → Option (List Turn) } = { λ _. None };

    /// Sends the line, waits a while, and puts the answer at the beginning of the room, of which it tells the length. None
    /// where none came in time.
    fn ask<R: Wait>(
        &mut self,
        rt: &R,
        line: &[u8],
        room: &mut [u8],
    ) -> Result<Option<usize>, SpeakerFault>
        ensures within { (n : ℕ) → result ≡ Ok (Some n) → n ≤ length room.new }
        ensures asked { asked self.new ≡ one_more (asked self.old) }
        ensures turn { Grows (turns self.old) (turns self.new) ((line.now, came_in result room.new) ∷ []) };
}

/// What came of a line.
#[derive(Clone, Copy, Debug, PartialEq, Eq)]
pub enum TellOutcome {
    /// The answer, of so many bytes, says that all went well.
    Done(usize),
    /// The answer, of so many bytes, says something else.
    Refused(usize),
    /// Nobody answered.
    Silent,
    /// The socket failed.
    Fault,
}

impl TellOutcome {
    /// The exit status of `notifyd tell`.
    pub fn status(self) -> u8
        ensures { result ≡ status_of self }
    {
        match self {
            TellOutcome::Done(_) => 0,
            TellOutcome::Refused(_) => 1,
            TellOutcome::Silent | TellOutcome::Fault => 3,
        }
    }
}

/// Asks this line until an answer comes, five times at most. The answer stands at the beginning of the room.
pub fn tell_line<R: Wait, S: Speaker>(
    rt: &R,
    speaker: &mut S,
    line: &[u8],
    room: &mut [u8],
) -> TellOutcome
    ensures { ComesOf line.now result
        (record { asked = S.asked speaker.old; turns = S.turns speaker.old })
        (record { asked = S.asked speaker.new; turns = S.turns speaker.new }) room.new }
{
    for _try in 0..TRIES {
        match speaker.ask(rt, line, room) {
            Ok(Some(length)) if is_yes(&room[..length]) => return TellOutcome::Done(length),
            Ok(Some(length)) => return TellOutcome::Refused(length),
            Ok(None) => {}
            Err(_) => return TellOutcome::Fault,
        }
    }
    TellOutcome::Silent
}
