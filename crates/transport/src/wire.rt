//! What datagrams come and go by.
ghost use Rattle.std.specs.Prelude.{◌≡◌, ◌≤◌, ℕ, List, [], length, Option, None, IfOk};
ghost use Rattle.transport.specs.Devices.{failures_after};
ghost use Rattle.transport.specs.declared.datagram.Datagram.{Datagram};
ghost use Rattle.transport.specs.Wires.{Grows, Gives, Takes};

use sip_text::Addr;
use std::sync::Wait;
use thiserror::Error;

/// A datagram was not received or not sent, or a socket was not bound. What the device said is not told.
#[derive(Clone, Copy, Debug, PartialEq, Eq, Error)]
#[error("the wire failed")]
pub struct WireFault;

/// What datagrams come and go by: a socket, or a list in memory. It counts its faults, and may tell which datagrams it gave
/// and which it took; a real one tells the count alone.
pub trait Wire {
    /// The datagrams that it has given, in order, where it tells them.
    ghost given: { Self → Option (List Datagram) } = { λ _. None };

    /// The datagrams that it has taken, in order, where it tells them.
    ghost taken: { Self → Option (List Datagram) } = { λ _. None };

    /// How many calls failed. It stays at 2^64 - 1 once there.
    ghost failures: { Self → ℕ };

    /// Waits for a datagram, and puts it at the beginning of these bytes: what doesn't fit there is lost. Answers its length
    /// there, and where it came from.
    fn recv<R: Wait>(&mut self, rt: &R, octets: &mut [u8]) -> Result<(usize, Addr), WireFault>
        ensures within { IfOk result (λ r. r.0 ≤ length octets.new) }
        ensures given { Gives (given self.old) (given self.new) octets.new result }
        ensures taken { Grows (taken self.old) (taken self.new) [] }
        ensures counted { failures self.new ≡ failures_after result (failures self.old) };

    /// Sends a datagram. That it was sent doesn't say that it arrives.
    fn send<R: Wait>(&mut self, rt: &R, to: Addr, octets: &[u8]) -> Result<(), WireFault>
        ensures given { Grows (given self.old) (given self.new) [] }
        ensures taken { Takes (taken self.old) (taken self.new) to octets.now result }
        ensures counted { failures self.new ≡ failures_after result (failures self.old) };

    /// The number of the system's error at the last send that failed, for a log. None where the wire knows none: no contract says
    /// what a system tells.
    fn send_error(&self) -> Option<u32> {
        None
    }
}
