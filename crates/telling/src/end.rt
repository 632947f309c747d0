//! What becomes of a line, and how a run ends.
ghost use Rattle.std.specs.Prelude.{◌≡◌, ◌||◌};
ghost use Rattle.telling.specs.Taken as spec;

use crate::hearing::Heard;

/// What became of a line.
#[derive(Clone, Copy, Debug, PartialEq, Eq)]
pub enum Fate {
    /// It says nothing.
    Blank,
    /// It was refused, and not asked.
    Untold,
    /// It was asked, and this came of it.
    Asked(Heard),
    /// There was no socket to ask it by.
    NoSocket,
    /// There was no memory to ask it.
    NoMemory,
}

/// How a run ends.
#[derive(Clone, Copy, Debug, PartialEq, Eq)]
pub enum LinesEnd {
    /// The input has ended, and the service did each line.
    Done,
    /// The input has ended, and a line was refused.
    Refused,
    /// The service takes no more.
    Closed,
    /// Nobody answered.
    Silent,
    /// A socket failed.
    Fault,
    /// The input can't be read.
    Unread,
    /// An allocation failed: out of memory.
    NoMemory,
}

impl LinesEnd {
    /// The exit status of `notifyd tell -`.
    pub fn status(self) -> u8
        ensures { result ≡ spec.status_of self }
    {
        match self {
            LinesEnd::Done => 0,
            LinesEnd::Refused => 1,
            LinesEnd::Closed | LinesEnd::Silent | LinesEnd::Fault | LinesEnd::Unread => 3,
            LinesEnd::NoMemory => 4,
        }
    }

    /// What is told of it on standard error, if anything is.
    pub(crate) fn text(self) -> Option<&'static str> {
        match self {
            LinesEnd::Done | LinesEnd::Refused => None,
            LinesEnd::Closed => Some("closed"),
            LinesEnd::Silent => Some("nobody answered"),
            LinesEnd::Fault | LinesEnd::Unread => Some("device fault"),
            LinesEnd::NoMemory => Some("out of memory"),
        }
    }
}

impl Fate {
    /// Whether the line was refused, here or by the service.
    pub(crate) fn is_refused(self) -> bool
        ensures { result ≡ spec.is_refused self }
    {
        matches!(self, Fate::Untold | Fate::Asked(Heard::Refused))
    }

    /// Whether the line was refused, or one before it.
    pub(crate) fn is_refused_or(self, before: bool) -> bool
        ensures { result ≡ (before || spec.is_refused self) }
    {
        before || self.is_refused()
    }

    /// How the run ends with such a line, if it does.
    pub(crate) fn end(self) -> Option<LinesEnd>
        ensures { result ≡ spec.end_with self }
    {
        match self {
            Fate::Blank | Fate::Untold | Fate::Asked(Heard::Done | Heard::Refused | Heard::Full) =>
                { None }
            Fate::Asked(Heard::Closed) => Some(LinesEnd::Closed),
            Fate::Asked(Heard::Silent) => Some(LinesEnd::Silent),
            Fate::Asked(Heard::Fault) | Fate::NoSocket => Some(LinesEnd::Fault),
            Fate::NoMemory => Some(LinesEnd::NoMemory),
        }
    }
}
