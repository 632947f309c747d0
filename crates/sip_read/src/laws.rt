//! Laws of reading, for the proofs of callers. They do nothing when they run.
ghost use Rattle.sip_read.specs.BadLines.{EachIsABadLine};
ghost use Rattle.sip_read.specs.Message.{IsExact};

/// Each datagram is exactly one message, or wrong in exactly one way.
pub fn one_reading()
    ensures { IsExact }
{}

/// A datagram is refused as [`BadLine`](crate::ReadError::BadLine) for each of the causes that `specs/BadLines` lists: no empty line,
/// a stray control character, a first line that continues none, a line without a name or that isn't UTF-8, and a value of Via, From,
/// To, Call-ID, CSeq, Content-Length, Record-Route or Require that isn't in its header's grammar.
pub fn each_is_a_bad_line()
    ensures { EachIsABadLine }
{}
