//! Datagrams.

use sip_text::{Addr, Octets};

/// A datagram, with the other end's address: where it came from, or where it goes.
#[derive(Debug, Drop)]
pub struct Datagram {
    pub peer: Addr,
    pub octets: Octets,
}
