//! What is said on standard error of the lines of an input.

ghost use Rattle.std.specs.Prelude.{◌≡◌};

use crate::end::{Fate, LinesEnd};
use crate::hearing::Heard;
use crate::input::InputLine;
use shown_text::Shown;
use std::rt::Clock;
use std::time::{Duration, Instant};

/// What is counted of the lines of an input, and whether it is told.
#[derive(Drop)]
pub struct Tally {
    /// Whether it is told each second how many were done.
    tells: bool,
    /// When that was told last, or the run began.
    told: Option<Instant>,
    /// Lines that were read.
    read: u64,
    /// Lines that the service did.
    done: u64,
    /// Lines that were refused.
    refused: u64,
}

/// Says this of a line, and what stands there.
fn say_refused<R: Eprint>(rt: &R, number: u64, why: &[u8], line: &InputLine) {
    let why = Shown::words(why);
    let line = Shown::words(line.octets.as_slice());
    let _ = eprintln!(rt; "notifyd: line {number}: {why}: {line}");
}

impl Tally {
    /// Nothing was read yet.
    pub fn new<R: Clock>(rt: &R, tells: bool) -> Tally {
        Tally {
            tells,
            told: Instant::now(rt).ok(),
            read: 0,
            done: 0,
            refused: 0,
        }
    }

    /// Tells how many were done.
    fn tell<R: Eprint>(&self, rt: &R) {
        let Tally { done, refused, .. } = self;
        let _ = eprintln!(rt; "notifyd: {done} done, {refused} refused");
    }

    /// Tells how many were done, where that is wanted and a second has passed since it was told.
    fn tell_now_and_then<R: Clock + Eprint>(&mut self, rt: &R) {
        if !self.tells {
            return;
        }
        let (Ok(now), Some(told)) = (Instant::now(rt), self.told) else {
            return;
        };
        if now.saturating_duration_since(told) >= Duration::from_secs(1) {
            self.told = Some(now);
            self.tell(rt);
        }
    }

    /// Counts a line, and says why it was refused, if it was.
    pub(crate) fn note<R: Clock + Eprint>(
        &mut self,
        rt: &R,
        line: &InputLine,
        why: &[u8],
        fate: Fate,
    ) {
        self.read = self.read.saturating_add(1);
        if fate == Fate::Asked(Heard::Done) {
            self.done = self.done.saturating_add(1);
        }
        if fate.is_refused() {
            self.refused = self.refused.saturating_add(1);
            say_refused(rt, self.read, why, line);
        }
        self.tell_now_and_then(rt);
    }

    /// Says how a run has ended, where it did so before its input, and how many lines were done, where that is wanted.
    pub fn close<R: Eprint>(&self, rt: &R, end: LinesEnd) -> LinesEnd
        ensures { result ≡ end }
    {
        if let Some(text) = end.text() {
            let read = self.read;
            let _ = match read {
                0 => eprintln!(rt; "notifyd: {text}"),
                _ => eprintln!(rt; "notifyd: {text} (line {read})"),
            };
        }
        if self.tells {
            self.tell(rt);
        }
        end
    }
}
