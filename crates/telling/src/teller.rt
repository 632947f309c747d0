//! Who asks lines.
ghost use Rattle.std.specs.Prelude.{◌≡◌, IfOk, OnErr};
ghost use Rattle.telling.specs.Hearing as spec;
ghost use Rattle.telling.specs.Hearing.{Hears, seen};
ghost use Rattle.telling.specs.Taken.{IsTaken};

use crate::end::Fate;
use crate::hearing::{Heard, front, said};
use crate::speaker::LineSpeaker;
use control_lines::{TellOutcome, tell_line};
use sip_text::NoMemory;
use std::alloc::Global;
use std::net::Net;
use std::random::RandomSource;
use std::rt::Clock;
use std::sync::Wait;
use std::thread;
use std::time::Duration;

/// The room for an answer: one to a MAIL or PROGRESS line is a few words.
const ROOM: usize = 512;

/// How many milliseconds a service that is out of memory is left alone.
const PAUSE: u64 = 200;

/// Why a line was not asked.
#[derive(Clone, Copy, Debug, PartialEq, Eq)]
enum Unasked {
    /// There is no socket for it.
    NoSocket,
    /// An allocation failed: out of memory.
    NoMemory,
}

impl From<NoMemory> for Unasked {
    fn from(_refused: NoMemory) -> Unasked {
        Unasked::NoMemory
    }
}

/// Who asks lines by a speaker, each behind a token of its own.
#[derive(Drop)]
pub struct Teller<S> {
    pub speaker: S,
    /// The number of the next token. None: the system gave no randomness, so lines are asked without one.
    pub token: Option<u64>,
    room: [u8; ROOM],
    /// The length of the last answer, which stands at the beginning of the room.
    length: usize,
    alloc: Global,
}

/// The line behind this token.
fn tokened(alloc: Global, token: Option<u64>, line: &[u8]) -> Result<Vec<u8>, NoMemory>
    ensures { IfOk result (λ octets. octets.items ≡ spec.tokened token line.now) }
{
    let mut octets = Vec::new(alloc);
    if let Some(number) = token {
        let digits = hex::encode(alloc, number.to_be_bytes())?;
        octets.extend_from_slice(b"@")?;
        octets.extend_from_slice(digits.as_bytes())?;
        octets.extend_from_slice(b" ")?;
    }
    octets.extend_from_slice(line)?;
    Ok(octets)
}

/// The token behind this one.
fn next_token(token: Option<u64>) -> Option<u64>
    ensures { result ≡ spec.next_token token }
{
    token.map(|number| number.wrapping_add(1))
}

/// The first token: eight random octets, where the system gives them.
fn first_token<R: RandomSource>(rt: &R) -> Option<u64> {
    let mut octets = [0; 8];
    match rt.fill_bytes(&mut octets) {
        Ok(()) => Some(u64::from_be_bytes(octets)),
        Err(_) => None,
    }
}

impl<S: LineSpeaker> Teller<S> {
    /// One who asks by this speaker.
    pub fn new<R: RandomSource + AllocGlobal>(rt: &R, speaker: S) -> Teller<S>
        ensures { result.speaker ≡ speaker }
    {
        Teller {
            speaker,
            token: first_token(rt),
            room: [0; ROOM],
            length: 0,
            alloc: rt.alloc(),
        }
    }

    /// The last answer.
    pub(crate) fn answer(&self) -> &[u8] {
        front(&self.room, self.length)
    }

    /// Asks a line behind the next token, until an answer comes, five times at most.
    fn ask<R: Wait + Net>(&mut self, rt: &R, line: &[u8]) -> Result<Heard, Unasked>
        ensures heard { IfOk result (λ came. Hears line.now came (seen S.asked S.turns self.old) (seen S.asked S.turns self.new)) }
        ensures unasked { OnErr result (seen S.asked S.turns self.new ≡ seen S.asked S.turns self.old) }
    {
        let octets = tokened(self.alloc, self.token, line)?;
        if self.speaker.turn_over(rt).is_err() {
            return Err(Unasked::NoSocket);
        }
        let outcome = tell_line(rt, &mut self.speaker, octets.as_slice(), &mut self.room);
        self.token = next_token(self.token);
        if let TellOutcome::Done(length) | TellOutcome::Refused(length) = outcome {
            self.length = length;
        }
        Ok(said(outcome, &self.room))
    }

    /// Asks a line, and while the service is out of memory again, a fifth of a second later.
    #[tactic(auto, using(crate::proofs::Tellings::not_yet, crate::proofs::Tellings::once_more, crate::proofs::Tellings::at_last, crate::proofs::Tellings::given_up))]
    pub(crate) fn tell<R: Wait + Net + Clock + Eprint>(&mut self, rt: &R, line: &[u8]) -> Fate
        ensures { IsTaken line.now result (seen S.asked S.turns self.old) (seen S.asked S.turns self.new) }
    {
        let pause = Duration::from_millis(PAUSE);
        for _ in rt.forever() {
            match self.ask(rt, line) {
                Ok(Heard::Full) => {}
                Ok(came) => return Fate::Asked(came),
                Err(Unasked::NoSocket) => return Fate::NoSocket,
                Err(Unasked::NoMemory) => return Fate::NoMemory,
            }
            thread::sleep(rt, pause);
        }
        unreachable!()
    }
}
