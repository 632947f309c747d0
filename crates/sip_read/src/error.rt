//! Why a datagram is no message.
ghost use Rattle.std.specs.Prelude.{◌≡◌};
ghost use Rattle.sip_read.specs.declared.error.ReadError.TheVariants as errors;
ghost use Rattle.sip_read.specs.Errors.{error_number};

use sip_text::NoMemory;
use std::alloc::AllocFailed;
use std::fmt;
use thiserror::Error;

/// A header that each message has, or of which it has at most one line.
#[derive(Clone, Copy, Debug, PartialEq, Eq)]
pub enum HeaderName {
    Via,
    From,
    To,
    CallId,
    CSeq,
    ContentLength,
}

impl fmt::Display for HeaderName {
    fn fmt<W: fmt::Write>(&self, f: &mut fmt::Formatter<W>) -> fmt::Result {
        let name = match self {
            HeaderName::Via => "Via",
            HeaderName::From => "From",
            HeaderName::To => "To",
            HeaderName::CallId => "Call-ID",
            HeaderName::CSeq => "CSeq",
            HeaderName::ContentLength => "Content-Length",
        };
        write!(f, "{name}")
    }
}

/// Why a datagram is no message. They are looked for in the order TooLong, NotSip, BadLine, Twice, Missing, ShortBody; NoMemory comes as
/// soon as a growth is refused. Nothing is left of a datagram that was refused.
#[derive(Clone, Copy, Debug, PartialEq, Eq, Error)]
pub enum ReadError {
    /// The first line is no request line and no status line: another protocol, or a keep-alive.
    #[error("not SIP")]
    NotSip,
    /// The header section can't be cut into lines, or a value of Via, From, To, Call-ID, CSeq, Content-Length, Record-Route or Require
    /// isn't in the grammar of its header: a broken or hostile sender, or a datagram that was cut off before its empty line.
    #[error("bad header line")]
    BadLine,
    /// No line of a header that each message has.
    #[error("no line {0}")]
    Missing(HeaderName),
    /// Several lines of a header that may stand once.
    #[error("several lines {0}")]
    Twice(HeaderName),
    /// Fewer bytes of body than the Content-Length says: the datagram was cut off.
    #[error("short body")]
    ShortBody,
    /// More than 65,535 bytes, which no UDP datagram has.
    #[error("too long")]
    TooLong,
    /// A growth was refused.
    #[error("out of memory")]
    NoMemory,
}

impl ReadError {
    /// The number of the error in reports, 1 to 7.
    pub fn number(self) -> u32
        ensures { result ≡ error_number self }
    {
        match self {
            ReadError::NotSip => 1,
            ReadError::BadLine => 2,
            ReadError::Missing(_) => 3,
            ReadError::Twice(_) => 4,
            ReadError::ShortBody => 5,
            ReadError::TooLong => 6,
            ReadError::NoMemory => 7,
        }
    }
}

impl From<NoMemory> for ReadError {
    ghost from_gives = { λ _ e. e ≡ errors.NoMemory };

    fn from(_refused: NoMemory) -> ReadError {
        ReadError::NoMemory
    }
}

impl<T: Drop> From<AllocFailed<T>> for ReadError {
    ghost from_gives = { λ _ e. e ≡ errors.NoMemory };

    fn from(_refused: AllocFailed<T>) -> ReadError {
        ReadError::NoMemory
    }
}
