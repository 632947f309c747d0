//! An address in a line.
ghost use Rattle.std.specs.Prelude.{Some};
ghost use Rattle.sip_text.specs.Addresses.{addr_text};

use sip_text::Addr;
use std::fmt;
use std::fmt::{Display, Formatter};

/// An address as it is written: dotted decimal, a colon and a port.
#[derive(Clone, Copy)]
pub(crate) struct Place(pub(crate) Addr);

impl Display for Place {
    ghost output = { λ p. Some (addr_text p.0) };

    fn fmt<W: fmt::Write>(&self, f: &mut Formatter<W>) -> fmt::Result {
        let [a, b, c, d] = self.0.ip;
        let port = self.0.port;
        write!(f, "{a}.{b}.{c}.{d}:{port}")
    }
}
