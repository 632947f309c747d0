//! The sockets of a service.
ghost use Rattle.std.specs.Prelude.{◌≡◌, ◌↔◌, true, IsTrue, IfOk, IfErr, IfSome};
ghost use Rattle.std.specs.IoError.{error_kind, raw_os_error};
ghost use Rattle.transport.specs.Ears.{no_misses};
ghost use Rattle.transport.specs.Sockets.{misses};
ghost use Rattle.arguments.specs.declared.choices.Choices.{Choices};
ghost use Rattle.commands.specs.declared.error.ServeError.TheVariants as error;
ghost use Rattle.commands.specs.Refused.{IsTooMany, IsNoSocket, IsOther};
ghost use Rattle.commands.specs.Serving.{AreAlike, AreOpen, IsAt};

use crate::error::ServeError;
use crate::logging::say_room;
use arguments::{AddressFlag, Choices};
use sip_text::Addr;
use std::io;
use std::io::ErrorKind;
use std::net::{Net, UdpSocket};
use std::rt::Clock;
use std::sync::Wait;
use transport::{UdpWire, system_addr};

/// The sockets of a service, open: each of two addresses has a wire that receives and one that sends, and that of SIP one for refusals.
#[derive(Drop)]
pub(crate) struct Sockets {
    pub(crate) sip: UdpWire,
    pub(crate) refusals: UdpWire,
    pub(crate) outgoing: UdpWire,
    pub(crate) lines: UdpWire,
    pub(crate) replies: UdpWire,
}

/// Sockets that stand by for the next run of a service: further wires over those that were chosen so.
#[derive(Drop)]
pub(crate) struct Standby {
    pub(crate) choices: Choices,
    pub(crate) sockets: Sockets,
}

/// Whether the system says that the program, or all of them, have too many files open.
fn is_too_many(fault: &io::Error) -> bool
    ensures { IsTrue result ↔ IsTooMany (raw_os_error fault.now) }
{
    matches!(fault.raw_os_error(), Some(23 | 24))
}

/// Why there is no socket where an option says, by what the system said.
fn socket_refusal(which: AddressFlag, fault: &io::Error) -> ServeError
    ensures too_many { IsTooMany (raw_os_error fault.now) → result ≡ error.Descriptors }
    ensures in_use { ¬ (IsTooMany (raw_os_error fault.now)) → error_kind fault.now ≡ ErrorKind.AddrInUse
        → result ≡ error.Address which }
    ensures not_here { ¬ (IsTooMany (raw_os_error fault.now)) → error_kind fault.now ≡ ErrorKind.AddrNotAvailable
        → result ≡ error.NotHere which }
    ensures denied { ¬ (IsTooMany (raw_os_error fault.now)) → error_kind fault.now ≡ ErrorKind.PermissionDenied
        → result ≡ error.Denied which }
    ensures none { IsNoSocket which result }
{
    let kind = fault.kind();
    if is_too_many(fault) {
        ServeError::Descriptors
    } else if kind == ErrorKind::AddrInUse {
        ServeError::Address(which)
    } else if kind == ErrorKind::AddrNotAvailable {
        ServeError::NotHere(which)
    } else if kind == ErrorKind::PermissionDenied {
        ServeError::Denied(which)
    } else {
        ServeError::System
    }
}

/// Asks the system once more for two descriptors of a socket where an option says, to learn why it gave none.
fn why_none<R: Wait + Net>(rt: &R, which: AddressFlag, addr: Addr) -> ServeError
    ensures { IsNoSocket which result }
{
    let socket = match UdpSocket::bind(rt, system_addr(addr)) {
        Ok(socket) => socket,
        Err(fault) => return socket_refusal(which, &fault),
    };
    match socket.try_clone() {
        Ok(_) => ServeError::System,
        Err(fault) => socket_refusal(which, &fault),
    }
}

/// Two wires over a socket at this address, which an option named.
pub(crate) fn bind<R: Wait + Net>(
    rt: &R,
    which: AddressFlag,
    addr: Addr,
) -> Result<(UdpWire, UdpWire), ServeError>
    ensures at { IfOk result (λ r. IsAt addr r.0.local) }
    ensures same { IfOk result (λ r. r.1.local ≡ r.0.local) }
    ensures misses { IfOk result (λ r. misses r.0 ≡ no_misses) }
    ensures refused { IfErr result (IsNoSocket which) }
{
    match UdpWire::bind_addr(rt, addr) {
        Ok(wires) => Ok(wires),
        Err(_) => Err(why_none(rt, which, addr)),
    }
}

/// A further wire over the socket of this one. The system says no cause where there is none.
fn further(wire: &UdpWire) -> Result<UdpWire, ServeError>
    ensures same { IfOk result (λ w. w.local ≡ wire.now.local) }
    ensures misses { IfOk result (λ w. misses w ≡ no_misses) }
    ensures refused { IfErr result IsOther }
{
    match wire.further() {
        Ok(further) => Ok(further),
        Err(_) => Err(ServeError::System),
    }
}

/// Has the receives by this wire look up as they wait, and asks for room for as many octets that wait as are chosen. Less is told on standard
/// error.
fn prepare<R: Clock + Eprint + AllocGlobal>(
    rt: &R,
    wire: &UdpWire,
    which: AddressFlag,
    choices: &Choices,
) -> Result<(), ServeError>
    ensures refused { IfErr result IsOther }
{
    if wire.limit_waits().is_err() {
        return Err(ServeError::System);
    }
    let room = choices.numbers.receive_buffer;
    if let Ok(got) = wire.ask_for_room(room) {
        say_room(rt, choices.log_json, which, room, got);
    }
    Ok(())
}

/// Opens the sockets.
#[tactic(auto, using(crate::proofs::Refused::no_socket_is))]
pub(crate) fn open<R>(rt: &R, choices: &Choices) -> Result<Sockets, ServeError>
where
    R: Wait + Net + Clock + Eprint + AllocGlobal,
    ensures opened { IfOk result (AreOpen choices.now) }
    ensures refused { IfErr result IsOther }
{
    let (sip, outgoing) = bind(rt, AddressFlag::Listen, choices.listen)?;
    let refusals = further(&sip)?;
    let (lines, replies) = bind(rt, AddressFlag::Control, choices.control)?;
    prepare(rt, &sip, AddressFlag::Listen, choices)?;
    prepare(rt, &lines, AddressFlag::Control, choices)?;
    Ok(Sockets {
        sip,
        refusals,
        outgoing,
        lines,
        replies,
    })
}

impl Sockets {
    /// Further wires over the same sockets, none of which has failed yet.
    pub(crate) fn again(&self) -> Result<Sockets, ServeError>
        ensures opened { IfOk result (λ s. (choices : Choices) → AreOpen choices self.now → AreOpen choices s) }
        ensures refused { IfErr result IsOther }
    {
        Ok(Sockets {
            sip: further(&self.sip)?,
            refusals: further(&self.refusals)?,
            outgoing: further(&self.outgoing)?,
            lines: further(&self.lines)?,
            replies: further(&self.replies)?,
        })
    }
}

impl Standby {
    /// Further wires over these sockets, of a service that chose so.
    pub(crate) fn of(choices: &Choices, sockets: &Sockets) -> Result<Standby, ServeError>
        requires open { AreOpen choices.now sockets.now }
        ensures open { IfOk result (λ s. AreOpen s.choices s.sockets) }
        ensures refused { IfErr result IsOther }
    {
        Ok(Standby {
            choices: *choices,
            sockets: sockets.again()?,
        })
    }

    /// Whether these choices name the same addresses.
    fn is_at(&self, choices: &Choices) -> bool
        ensures { IsTrue result ↔ AreAlike self.now.choices choices.now }
    {
        self.choices.listen == choices.listen && self.choices.control == choices.control
    }
}

/// The sockets that stand by, where these choices name their addresses, and else new ones.
#[tactic(auto, using(crate::proofs::Carried::open_alike))]
pub(crate) fn find<R>(
    rt: &R,
    choices: &Choices,
    standby: Option<Standby>,
) -> Result<Sockets, ServeError>
where
    R: Wait + Net + Clock + Eprint + AllocGlobal,
    requires open { IfSome standby (λ s. AreOpen s.choices s.sockets) }
    ensures opened { IfOk result (AreOpen choices.now) }
    ensures stands { IfSome standby (λ s. AreAlike s.choices choices.now → IfOk result (λ sockets. sockets ≡ s.sockets)) }
    ensures refused { IfErr result IsOther }
{
    let Some(standby) = standby else {
        return open(rt, choices);
    };
    if standby.is_at(choices) {
        Ok(standby.sockets)
    } else {
        open(rt, choices)
    }
}
