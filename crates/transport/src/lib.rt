//! What bytes come and go by: wires of datagrams, readers and writers that count.
//!
//! A [`Wire`] gives datagrams and takes them, and counts its failures. What it tells beyond that is its own: a [`UdpWire`], over
//! a socket of the system, tells nothing of its datagrams, and a [`MemoryWire`], for tests, tells all that it gave and took.
//! Functions over any wire promise what they did by what a wire tells. A [`Source`] is a reader and a [`Sink`] a writer that
//! count their failures.
//!
//! An [`Ear`] is a wire that looks up while it waits, and tells why a receive failed.
//!
//! What it isn't: it reads no datagram, and promises no arrival. Begin with [`Wire`] and `specs/Wires`, then `specs/Devices`.
#![tactic(auto)]

mod datagram;
pub mod device;
mod ear;
mod memory;
mod udp;
mod wire;

pub use datagram::Datagram;
pub use device::{Sink, Source};
pub use ear::{Ear, ReceiveFault};
pub use memory::MemoryWire;
pub use udp::{UdpWire, system_addr};
pub use wire::{Wire, WireFault};
