//! The lines of an input, one behind the other.
ghost use Rattle.std.specs.Prelude.{◌≡◌, IfOk, OnErr, List, ℕ, MatchOption};
ghost use Rattle.std.specs.Io.KnownBytes.{IsAtEnd};
ghost use Rattle.telling.specs.Input.{Holds, IsCutOff};
ghost use Rattle.telling.specs.Hearing.{seen};
ghost use Rattle.telling.specs.Taken.{Entry, Takes, TakesNext, TellsLines, telling_seen};

use crate::end::{Fate, LinesEnd};
use crate::hearing::Heard;
use crate::input::{InputLine, ReadFault};
use crate::kinds::{LineKind, line_kind};
use crate::speaker::LineSpeaker;
use crate::tally::Tally;
use crate::teller::Teller;
use std::io::Read;
use std::net::Net;
use std::rt::Clock;
use std::sync::Wait;

/// The lines of an input, who tells them, and what is said of it on standard error.
#[derive(Drop)]
pub struct Telling<B, S> {
    pub reader: B,
    pub teller: Teller<S>,
    /// Whether PROGRESS lines are asked, too.
    pub takes_progress: bool,
    line: InputLine,
    tally: Tally,
}

/// Why a line was refused, if it was: it is none that is asked, or the service answered so.
fn reason<'a>(untold: &'a [u8], answer: &'a [u8], fate: Fate) -> &'a [u8] {
    match fate {
        Fate::Untold => untold,
        _ => answer,
    }
}

impl<B: Read, S: LineSpeaker> Telling<B, S> {
    /// The lines of this reader.
    pub fn new<R: AllocGlobal>(
        rt: &R,
        reader: B,
        teller: Teller<S>,
        takes_progress: bool,
        tally: Tally,
    ) -> Telling<B, S>
        ensures reader { result.reader ≡ reader }
        ensures teller { result.teller ≡ teller }
        ensures takes_progress { result.takes_progress ≡ takes_progress }
    {
        Telling {
            reader,
            teller,
            takes_progress,
            line: InputLine::new(rt.alloc()),
            tally,
        }
    }

    /// What becomes of the line that was read.
    fn take<R: Wait + Net + Clock + Eprint + AllocGlobal>(&mut self, rt: &R) -> Fate
        ensures taken { (line : List ℕ) → Holds line self.old.line.octets.items self.old.line.is_cut
            → Takes self.old.takes_progress line result
            (seen S.asked S.turns self.old.teller) (seen S.asked S.turns self.new.teller) }
        ensures reader { self.new.reader ≡ self.old.reader }
        ensures takes_progress { self.new.takes_progress ≡ self.old.takes_progress }
    {
        match line_kind(rt.alloc(), &self.line, self.takes_progress) {
            Ok(LineKind::Blank) => Fate::Blank,
            Ok(LineKind::Untold) => Fate::Untold,
            Ok(LineKind::Told) => self.teller.tell(rt, self.line.octets.as_slice()),
            Err(_) => Fate::NoMemory,
        }
    }

    /// Counts the line that was read, and says why it was refused, if it was.
    fn note<R: Clock + Eprint + AllocGlobal>(&mut self, rt: &R, fate: Fate)
        ensures reader { self.new.reader ≡ self.old.reader }
        ensures teller { self.new.teller ≡ self.old.teller }
        ensures takes_progress { self.new.takes_progress ≡ self.old.takes_progress }
    {
        let untold = self.line.untold(self.takes_progress);
        let why = reason(untold.as_bytes(), self.teller.answer(), fate);
        self.tally.note(rt, &self.line, why, fate);
    }

    /// Reads the next line, and answers what became of it. None at the end of the input.
    fn tell_next<R: Wait + Net + Clock + Eprint + AllocGlobal>(
        &mut self,
        rt: &R,
    ) -> Result<Option<Fate>, ReadFault>
        ensures next { IfOk result (λ came. MatchOption came
            (IsAtEnd (B.remaining self.old.reader) × (self.new.teller ≡ self.old.teller))
            (λ fate. (line : List ℕ) × TakesNext self.old.takes_progress (record { line = line; fate = fate })
            (telling_seen B.remaining S.asked S.turns self.old)
            (telling_seen B.remaining S.asked S.turns self.new))) }
        ensures unread { OnErr result (self.new.teller ≡ self.old.teller) }
        ensures takes_progress { self.new.takes_progress ≡ self.old.takes_progress }
    {
        if !self.line.read(&mut self.reader)? {
            return Ok(None);
        }
        let fate = self.take(rt);
        self.note(rt, fate);
        Ok(Some(fate))
    }

    /// Takes line after line, until one ends the run or the input ends.
    #[tactic(auto, using(crate::proofs::Runs::nothing_yet, crate::proofs::Runs::one_more, crate::proofs::Runs::ended_by, crate::proofs::Runs::done_here, crate::proofs::Runs::refused_here, crate::proofs::Runs::unread_here, crate::proofs::Runs::no_memory_here))]
    fn tell_each<R: Wait + Net + Clock + Eprint + AllocGlobal>(&mut self, rt: &R) -> LinesEnd
        ensures { TellsLines self.old.takes_progress
            (telling_seen B.remaining S.asked S.turns self.old)
            (telling_seen B.remaining S.asked S.turns self.new) result }
    {
        let mut is_refused = false;
        for _line in 0..u64::MAX {
            match self.tell_next(rt) {
                Ok(Some(fate)) => {
                    if let Some(end) = fate.end() {
                        return end;
                    }
                    is_refused = fate.is_refused_or(is_refused);
                }
                Ok(None) if is_refused => return LinesEnd::Refused,
                Ok(None) => return LinesEnd::Done,
                Err(ReadFault::Device) => return LinesEnd::Unread,
                Err(ReadFault::NoMemory) => return LinesEnd::NoMemory,
            }
        }
        LinesEnd::Unread
    }

    /// Asks the lines of the input that are to be asked, each once the one before it was answered, and says on standard error which were
    /// refused and why. A refused line doesn't end it; the service's end, silence, a fault and want of memory do.
    pub fn tell_lines<R: Wait + Net + Clock + Eprint + AllocGlobal>(&mut self, rt: &R) -> LinesEnd
        ensures told { TellsLines self.old.takes_progress
            (telling_seen B.remaining S.asked S.turns self.old)
            (telling_seen B.remaining S.asked S.turns self.new) result }
    {
        let end = self.tell_each(rt);
        self.tally.close(rt, end)
    }
}
