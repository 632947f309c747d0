//! Lines as they are read.
ghost use Rattle.std.specs.Prelude.{◌≡◌, [], ◌∷◌, ◌++◌, List, ℕ, true, false, IfOk, OnOk, MatchOption};
ghost use Rattle.std.specs.Io.KnownBytes.{Consumes, IsAtEnd};
ghost use Rattle.telling.specs.Input.{Holds, IsCutOff};

use sip_text::NoMemory;
use std::alloc::{AllocError, AllocFailed, Global};
use std::io;
use std::io::Read;

/// How many octets a line has at most that is asked: with the 18 of its token it is as long as a datagram of IPv4 may be, 65,507
/// (RFC 791 section 3.1, RFC 768).
pub const LONGEST: usize = 65_489;

/// Why no line could be read.
#[derive(Clone, Copy, Debug, PartialEq, Eq)]
pub enum ReadFault {
    /// A read failed.
    Device,
    /// An allocation failed: out of memory.
    NoMemory,
}

impl From<io::Error> for ReadFault {
    fn from(_fault: io::Error) -> ReadFault {
        ReadFault::Device
    }
}

impl From<AllocError> for ReadFault {
    fn from(_refused: AllocError) -> ReadFault {
        ReadFault::NoMemory
    }
}

impl<T: Drop> From<AllocFailed<T>> for ReadFault {
    fn from(_refused: AllocFailed<T>) -> ReadFault {
        ReadFault::NoMemory
    }
}

impl From<NoMemory> for ReadFault {
    fn from(_refused: NoMemory) -> ReadFault {
        ReadFault::NoMemory
    }
}

/// A line of an input, without its line feed: its octets, 65,489 at most, and whether there were more.
#[derive(Drop)]
pub struct InputLine {
    pub octets: Vec<u8>,
    pub is_cut: bool,
}

/// What a reader gives next, or None at its end.
fn next_octet<B: Read>(reader: &mut B) -> io::Result<Option<u8>>
    ensures { IfOk result (λ came. MatchOption came
        (Consumes (B.remaining reader.old) (B.remaining reader.new) [] × IsAtEnd (B.remaining reader.new))
        (λ octet. Consumes (B.remaining reader.old) (B.remaining reader.new) (octet ∷ []))) }
{
    let mut octets = [0; 1];
    if reader.read(&mut octets)? == 0 {
        Ok(None)
    } else {
        Ok(Some(octets[0]))
    }
}

impl InputLine {
    /// The empty line.
    pub fn new(alloc: Global) -> InputLine
        ensures { Holds [] result.octets.items result.is_cut }
    {
        InputLine {
            octets: Vec::new(alloc),
            is_cut: false,
        }
    }

    /// From now on the empty line.
    fn clear(&mut self)
        ensures { Holds [] self.new.octets.items self.new.is_cut }
    {
        self.octets.clear();
        self.is_cut = false;
    }

    /// Adds an octet, or notes that there is one more than are kept.
    fn add(&mut self, octet: u8) -> Result<(), ReadFault>
        ensures { (line : List ℕ) → Holds line self.old.octets.items self.old.is_cut
            → OnOk result (Holds (line ++ octet ∷ []) self.new.octets.items self.new.is_cut) }
    {
        if self.octets.len() < LONGEST {
            self.octets.push(octet)?;
        } else {
            self.is_cut = true;
        }
        Ok(())
    }

    /// Why it is not asked.
    pub(crate) fn untold(&self, takes_progress: bool) -> &'static str {
        if self.is_cut {
            "too long"
        } else if takes_progress {
            "no MAIL or PROGRESS line"
        } else {
            "no MAIL line"
        }
    }

    /// Reads the next line, and tells whether there is one. The last one may lack its line feed. After an error the reader has given
    /// a part of a line, or none.
    pub(crate) fn read<B: Read>(&mut self, reader: &mut B) -> Result<bool, ReadFault>
        ensures line { IfOk result (λ is. is ≡ true → (line : List ℕ)
            × IsCutOff (B.remaining reader.old) (B.remaining reader.new) line
            × Holds line self.new.octets.items self.new.is_cut) }
        ensures end { IfOk result (λ is. is ≡ false → IsAtEnd (B.remaining reader.old)) }
    {
        self.clear();
        for read in 0..u64::MAX {
            match next_octet(reader)? {
                Some(b'\n') => return Ok(true),
                Some(octet) => self.add(octet)?,
                None => return Ok(read > 0),
            }
        }
        Err(ReadFault::Device)
    }
}
