//! What a script and a control line say.

use package::Change;
use sip_read::Addr;
use sip_text::Octets;

/// A block of a script.
#[derive(Debug, Drop)]
pub enum Block {
    /// A datagram, and the address that it came from.
    Sip(Addr, Octets),
    /// New counts in a mailbox, or how far a transfer has come.
    Change(Change),
    /// The time, in seconds.
    Tick(u64),
}

/// A line that controls a running server.
#[derive(Debug, Drop)]
pub enum Control {
    /// New counts in a mailbox, or how far a transfer has come.
    Change(Change),
    /// The time, in seconds.
    Tick(u64),
    /// The server takes no more.
    Close,
}
