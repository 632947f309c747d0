//! A text, and what is shown of it.
ghost use Rattle.std.specs.Prelude.{◌≡◌, take, Some};
ghost use Rattle.shown_text.specs.Shown as spec;

use std::fmt;
use std::fmt::{Display, Formatter};

/// How many octets of a text of a stranger's are shown at most.
const STRANGERS: usize = 64;

/// How many of a text of the operator's or the system's: a path, the system's words on an error.
const OURS: usize = 256;

/// Which octets are shown as they are.
#[derive(Clone, Copy, Debug, PartialEq, Eq)]
pub enum Manner {
    /// As words of a line: printable ASCII, but no backslash.
    Words,
    /// As one word: of those no blank and no quote.
    Word,
}

/// Octets that somebody else wrote, as they are shown.
#[derive(Clone, Copy)]
pub struct Shown<'a> {
    octets: &'a [u8],
    manner: Manner,
    /// How many of them are shown at most.
    most: usize,
}

/// An octet of them.
#[derive(Clone, Copy)]
struct ShownOctet {
    octet: u8,
    manner: Manner,
}

/// Whether it is printable ASCII (RFC 20), but no backslash.
fn is_text(octet: u8) -> bool
    ensures { result ≡ spec.is_text octet }
{
    octet >= b' ' && octet <= b'~' && octet != b'\\'
}

/// Whether it is a blank or a quote.
fn is_blank_or_quote(octet: u8) -> bool
    ensures { result ≡ spec.is_blank_or_quote octet }
{
    octet == b' ' || octet == b'"' || octet == b'\''
}

impl Manner {
    /// Whether an octet is shown as it is.
    fn keeps(self, octet: u8) -> bool
        ensures { result ≡ spec.is_plain self octet }
    {
        match self {
            Manner::Words => is_text(octet),
            Manner::Word => is_text(octet) && !is_blank_or_quote(octet),
        }
    }
}

impl Display for ShownOctet {
    ghost output = { λ s. Some (spec.shown_octet s.manner s.octet) };

    fn fmt<W: fmt::Write>(&self, f: &mut Formatter<W>) -> fmt::Result {
        let octet = self.octet;
        if self.manner.keeps(octet) {
            return f.write_char(char::from(octet));
        }
        let high = octet / 16;
        let low = octet % 16;
        write!(f, "\\x{high:x}{low:x}")
    }
}

impl<'a> Shown<'a> {
    /// Words of a stranger's: their first 64 octets are shown.
    pub fn words(octets: &'a [u8]) -> Shown<'a>
        ensures { spec.text result ≡ spec.words octets.now }
    {
        Shown {
            octets,
            manner: Manner::Words,
            most: STRANGERS,
        }
    }

    /// One word of a stranger's, so that it looks like no other word and no other field: its first 64 octets are shown.
    pub fn word(octets: &'a [u8]) -> Shown<'a>
        ensures { spec.text result ≡ spec.word octets.now }
    {
        Shown {
            octets,
            manner: Manner::Word,
            most: STRANGERS,
        }
    }

    /// Words of the operator's or the system's, as a path: their first 256 octets are shown.
    pub fn passage(octets: &'a [u8]) -> Shown<'a>
        ensures { spec.text result ≡ spec.passage octets.now }
    {
        Shown {
            octets,
            manner: Manner::Words,
            most: OURS,
        }
    }

    /// Those that are shown.
    fn front(&self) -> &'a [u8]
        ensures { result.now ≡ take self.now.most self.now.octets.now }
    {
        &self.octets[..self.most.min(self.octets.len())]
    }

    /// What stands for all others.
    fn dots(&self) -> &'static str
        ensures { result.now ≡ spec.dots self.now.most self.now.octets.now }
    {
        if self.octets.len() > self.most {
            "..."
        } else {
            ""
        }
    }
}

impl Display for Shown<'_> {
    ghost output = { λ s. Some (spec.text s) };

    fn fmt<W: fmt::Write>(&self, f: &mut Formatter<W>) -> fmt::Result {
        let manner = self.manner;
        for octet in self.front() {
            let shown = ShownOctet {
                octet: *octet,
                manner,
            };
            write!(f, "{shown}")?;
        }
        f.write_str(self.dots())
    }
}
