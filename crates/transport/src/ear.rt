//! Wires that look up while they wait.
ghost use Rattle.std.specs.Prelude.{◌≡◌, ◌≤◌, [], length, Option, None, IfOk, IfSome, option_map};
ghost use Rattle.std.specs.Int.{w32, cast_unsigned};
ghost use Rattle.std.specs.IoError.{raw_os_error};
ghost use Rattle.sip_text.specs.declared.address.Addr.{Addr};
ghost use Rattle.transport.specs.Devices.{failures_after};
ghost use Rattle.transport.specs.Ears.{GivesInTime, Misses, is_lost, misses_after};
ghost use Rattle.transport.specs.Wires.{Grows};

use crate::wire::Wire;
use sip_text::Addr;
use std::error::Error;
use std::fmt::{Display, Formatter};
use std::sync::Wait;
use std::{fmt, io};

/// The number of EBADF: the descriptor is closed.
const CLOSED: u32 = 9;

/// The number of ENOTSOCK: the descriptor is another file's.
const NO_SOCKET: u32 = 88;

/// Why a receive failed, as the system tells it.
#[derive(Clone, Copy, Debug, PartialEq, Eq)]
pub struct ReceiveFault {
    /// The number of the system's error. None where the cause is not the system's.
    pub number: Option<u32>,
}

impl From<io::Error> for ReceiveFault {
    ghost from_gives = { λ error fault. fault.number ≡ option_map (cast_unsigned w32) (raw_os_error error) };

    fn from(error: io::Error) -> ReceiveFault {
        ReceiveFault {
            number: error.raw_os_error().map(i32::cast_unsigned),
        }
    }
}

impl ReceiveFault {
    /// Whether the descriptor is no socket any more (EBADF, ENOTSOCK): no later receive can succeed.
    pub fn is_lost(&self) -> bool
        ensures { result ≡ is_lost self.now }
    {
        matches!(self.number, Some(CLOSED | NO_SOCKET))
    }
}

/// The system's words, with the number behind them.
impl Display for ReceiveFault {
    fn fmt<W: fmt::Write>(&self, f: &mut Formatter<W>) -> fmt::Result {
        match self.number {
            Some(number) => write!(f, "{}", io::Error::from_raw_os_error(number.cast_signed())),
            None => write!(f, "nothing was received"),
        }
    }
}

impl Error for ReceiveFault {}

/// A wire that looks up while it waits for a datagram: so who listens by it sees what else is so. It knows how many of its last
/// receives failed.
pub trait Ear: Wire {
    /// How its receives in time failed.
    ghost misses: { Self → Misses };

    /// Where it listens, if that is at a socket.
    ghost at: { Self → Option Addr } = { λ _. None };

    /// Where it listens. None: not at a socket.
    fn place(&self) -> Option<Addr>
        ensures { result ≡ at self.now };

    /// How many of its last receives in time failed, one after the other. It stays at 2^64 - 1 once there.
    fn row(&self) -> u64
        ensures { result ≡ (misses self.now).row };

    /// Waits a second at most for a datagram, and puts it at the beginning of these bytes: what doesn't fit there is lost. Answers
    /// its length there, and where it came from, or None where nothing came yet. A [`ReceiveFault`] may pass, unless the descriptor
    /// is lost.
    fn recv_in_time<R: Wait>(
        &mut self,
        rt: &R,
        octets: &mut [u8],
    ) -> Result<Option<(usize, Addr)>, ReceiveFault>
        ensures within { IfOk result (λ came. IfSome came (λ r. r.0 ≤ length octets.new)) }
        ensures given { GivesInTime (Self.given self.old) (Self.given self.new) octets.new result }
        ensures taken { Grows (Self.taken self.old) (Self.taken self.new) [] }
        ensures counted { Self.failures self.new ≡ failures_after result (Self.failures self.old) }
        ensures missed { misses self.new ≡ misses_after result (misses self.old) };
}
