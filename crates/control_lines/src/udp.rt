//! A speaker over a UDP socket.
ghost use Rattle.std.specs.Prelude.{◌≡◌, ◌≤◌, ℕ, length, Ok, Some, IfOk};

use crate::asking::{Speaker, SpeakerFault};
use sip_text::Addr;
use std::io;
use std::io::ErrorKind;
use std::net::{Net, UdpSocket};
use std::sync::Wait;
use std::time::Duration;
use transport::system_addr;

/// How long is waited for an answer, in milliseconds.
const PATIENCE: u64 = 200;

/// The same where files are read before it, and desks go on from them.
const LONG_PATIENCE: u64 = 6000;

/// A speaker over a UDP socket (IPv4) that hears one service alone.
#[derive(Drop)]
pub struct UdpSpeaker {
    socket: UdpSocket,
    /// Where that service is.
    service: Addr,
    asked: u64,
}

impl From<io::Error> for SpeakerFault {
    fn from(_error: io::Error) -> SpeakerFault {
        SpeakerFault
    }
}

impl UdpSpeaker {
    /// A speaker for the service whose control lines come in at this address. It has asked nothing yet.
    pub fn to<R: Wait + Net>(rt: &R, service: Addr) -> Result<UdpSpeaker, SpeakerFault>
        ensures service { IfOk result (λ s. s.service ≡ service) }
        ensures unasked { IfOk result (λ s. s.asked ≡ 0) }
    {
        UdpSpeaker::waiting(rt, service, PATIENCE)
    }

    /// The same, for a RELOAD: it waits longer for each answer, since the service begins anew before it.
    pub fn to_reload<R: Wait + Net>(rt: &R, service: Addr) -> Result<UdpSpeaker, SpeakerFault>
        ensures service { IfOk result (λ s. s.service ≡ service) }
        ensures unasked { IfOk result (λ s. s.asked ≡ 0) }
    {
        UdpSpeaker::waiting(rt, service, LONG_PATIENCE)
    }

    /// From now on it waits as long for each answer: the service may be beginning anew.
    pub fn wait_longer(&self) -> Result<(), SpeakerFault> {
        let patience = Duration::from_millis(LONG_PATIENCE);
        self.socket.set_read_timeout(Some(patience))?;
        Ok(())
    }

    /// One that waits for each answer for so many milliseconds.
    fn waiting<R: Wait + Net>(
        rt: &R,
        service: Addr,
        patience: u64,
    ) -> Result<UdpSpeaker, SpeakerFault>
        ensures service { IfOk result (λ s. s.service ≡ service) }
        ensures unasked { IfOk result (λ s. s.asked ≡ 0) }
    {
        let any = Addr {
            ip: [0; 4],
            port: 0,
        };
        let socket = UdpSocket::bind(rt, system_addr(any))?;
        socket.connect(system_addr(service))?;
        socket.set_read_timeout(Some(Duration::from_millis(patience)))?;
        Ok(UdpSpeaker {
            socket,
            service,
            asked: 0,
        })
    }
}

/// Whether this says that nobody is there, or nobody answered in time. A wait with a limit is interrupted where the program was
/// stopped and goes on: the time is over then as well.
fn is_silence(kind: ErrorKind) -> bool {
    matches!(
        kind,
        ErrorKind::WouldBlock
            | ErrorKind::TimedOut
            | ErrorKind::Interrupted
            | ErrorKind::ConnectionRefused
    )
}

/// Sends a line and waits for an answer.
fn exchange(socket: &UdpSocket, line: &[u8], room: &mut [u8]) -> Result<Option<usize>, SpeakerFault>
    ensures { (n : ℕ) → result ≡ Ok (Some n) → n ≤ length room.new }
{
    match socket.send(line) {
        Ok(_) => {}
        Err(error) if is_silence(error.kind()) => return Ok(None),
        Err(_) => return Err(SpeakerFault),
    }
    match socket.recv(room) {
        Ok(length) => Ok(Some(length)),
        Err(error) if is_silence(error.kind()) => Ok(None),
        Err(_) => Err(SpeakerFault),
    }
}

impl Speaker for UdpSpeaker {
    ghost asked = { λ s. s.asked };

    fn ask<R: Wait>(
        &mut self,
        _rt: &R,
        line: &[u8],
        room: &mut [u8],
    ) -> Result<Option<usize>, SpeakerFault> {
        self.asked = self.asked.saturating_add(1);
        exchange(&self.socket, line, room)
    }
}
