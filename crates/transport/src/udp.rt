//! Sockets as wires.
ghost use Rattle.std.specs.Prelude.{◌≡◌, ◌≤◌, IfOk, Some};
ghost use Rattle.std.specs.Net.Addr.{IsV4And, ipv4_octets};
ghost use Rattle.std.specs.Net.Socket.{socket_ip, socket_port};
ghost use Rattle.transport.specs.Sockets.{loopback, IsNew, IsFurther, failed, missed};
ghost use Rattle.transport.specs.Ears.{is_lost};

use crate::ear::{Ear, ReceiveFault};
use crate::wire::{Wire, WireFault};
use libc::net as c;
use sip_text::Addr;
use std::io;
use std::io::ErrorKind;
use std::net::{IpAddr, Ipv4Addr, Net, SocketAddr, UdpSocket};
use std::os::fd::AsRawFd;
use std::sync::Wait;
use std::time::Duration;

/// For how long a receive in time waits, in milliseconds: so a service that closes is seen to within a quarter of a second.
const WAIT: u64 = 250;

/// A UDP socket (IPv4) as a wire. It tells how often it failed, and nothing of its datagrams. A receive in time drops those that come from
/// port 0. The socket is closed once its wires are dropped.
#[derive(Drop)]
pub struct UdpWire {
    socket: UdpSocket,
    local: Addr,
    failures: u64,
    // how many of the last receives in time failed, one after the other, and how many did so at most
    row: u64,
    most: u64,
    // whether a receive in time ever failed since the descriptor is no socket any more
    is_lost: bool,
    // the number of the system's error at the last send that failed
    send_error: Option<u32>,
}

/// This address as the system's: one of IPv4, with the same octets and port.
pub fn system_addr(addr: Addr) -> SocketAddr
    ensures ip { IsV4And (socket_ip result) (λ ip. ipv4_octets ip ≡ addr.ip) }
    ensures port { socket_port result ≡ addr.port }
{
    SocketAddr::new(IpAddr::V4(Ipv4Addr::from_octets(addr.ip)), addr.port)
}

/// The system's address as one of IPv4. A socket of IPv4 has no other.
fn ipv4_addr(addr: SocketAddr) -> Result<Addr, WireFault>
    ensures ip { IfOk result (λ own. IsV4And (socket_ip addr) (λ ip. ipv4_octets ip ≡ own.ip)) }
    ensures port { IfOk result (λ own. own.port ≡ socket_port addr) }
{
    match addr.ip() {
        IpAddr::V4(ip) => Ok(Addr {
            ip: ip.octets(),
            port: addr.port(),
        }),
        IpAddr::V6(_) => Err(WireFault),
    }
}

impl From<io::Error> for WireFault {
    fn from(_error: io::Error) -> WireFault {
        WireFault
    }
}

impl UdpWire {
    /// Two wires over one socket on 127.0.0.1, one to receive and one to send. Port 0 lets the machine choose a port. A
    /// [`WireFault`] where the port is taken or may not be had, or memory runs out.
    pub fn bind<R: Wait + Net>(rt: &R, port: u16) -> Result<(UdpWire, UdpWire), WireFault>
        ensures { IfOk result (λ r. IsNew (loopback port) r.0 r.1) }
    {
        UdpWire::bind_addr(
            rt,
            Addr {
                ip: [127, 0, 0, 1],
                port,
            },
        )
    }

    /// The same on any address of this machine. 0.0.0.0 is all of them.
    pub fn bind_addr<R: Wait + Net>(rt: &R, addr: Addr) -> Result<(UdpWire, UdpWire), WireFault>
        ensures { IfOk result (λ r. IsNew addr r.0 r.1) }
    {
        let socket = UdpSocket::bind(rt, system_addr(addr))?;
        let other = socket.try_clone()?;
        let local = if addr.port == 0 {
            Addr {
                ip: addr.ip,
                port: socket.local_addr()?.port(),
            }
        } else {
            addr
        };
        let first = UdpWire {
            socket,
            local,
            failures: 0,
            row: 0,
            most: 0,
            is_lost: false,
            send_error: None,
        };
        let second = UdpWire {
            socket: other,
            local,
            failures: 0,
            row: 0,
            most: 0,
            is_lost: false,
            send_error: None,
        };
        Ok((first, second))
    }

    /// A further wire over its socket. A [`WireFault`] where the system has no descriptor left for it.
    pub fn further(&self) -> Result<UdpWire, WireFault>
        ensures { IfOk result (IsFurther self.now) }
    {
        let socket = self.socket.try_clone()?;
        Ok(UdpWire {
            socket,
            local: self.local,
            failures: 0,
            row: 0,
            most: 0,
            is_lost: false,
            send_error: None,
        })
    }

    /// The address that its socket is bound to.
    pub fn local(&self) -> Addr
        ensures { result ≡ self.now.local }
    {
        self.local
    }

    /// Has each receive of its socket wait for a quarter of a second at most: [`Ear::recv_in_time`] then gives nothing yet, and
    /// [`Wire::recv`] fails.
    pub fn limit_waits(&self) -> Result<(), WireFault> {
        self.socket
            .set_read_timeout(Some(Duration::from_millis(WAIT)))?;
        Ok(())
    }

    /// Asks for room for so many bytes of datagrams that came and wait to be received. Answers for how many the system gives room,
    /// which may be less. Linux counts its own bookkeeping in, and so gives and tells twice what is asked for.
    pub fn ask_for_room(&self, bytes: u32) -> Result<u32, WireFault>
        ensures { IfOk result (λ got. got ≤ bytes) }
    {
        let descriptor = self.socket.as_raw_fd();
        let mut value = [0; 16];
        value[..4].copy_from_slice(&bytes.to_ne_bytes());
        if unsafe { c::setsockopt(descriptor, c::SOL_SOCKET, c::SO_RCVBUF, &value, 4) } != 0 {
            return Err(WireFault);
        }
        let mut length = 4;
        let told = unsafe {
            c::getsockopt(
                descriptor,
                c::SOL_SOCKET,
                c::SO_RCVBUF,
                &mut value,
                &mut length,
            )
        };
        if told != 0 {
            return Err(WireFault);
        }
        let [first, second, third, fourth, ..] = value;
        Ok((u32::from_ne_bytes([first, second, third, fourth]) / 2).min(bytes))
    }

    /// Counts a receive in time that failed so.
    fn miss(&mut self, fault: ReceiveFault) -> ReceiveFault
        ensures missed { self.new ≡ missed (is_lost fault) self.old }
        ensures fault { result ≡ fault }
    {
        let _ = self.fail();
        self.row = self.row.saturating_add(1);
        self.most = self.most.max(self.row);
        self.is_lost = self.is_lost || fault.is_lost();
        fault
    }

    /// Counts a failure.
    fn fail(&mut self) -> WireFault
        ensures { self.new ≡ failed self.old }
    {
        self.failures = self.failures.saturating_add(1);
        WireFault
    }
}

impl Wire for UdpWire {
    ghost failures = { λ w. w.failures };

    fn recv<R: Wait>(&mut self, _rt: &R, octets: &mut [u8]) -> Result<(usize, Addr), WireFault> {
        let Ok((length, source)) = self.socket.recv_from(octets) else {
            return Err(self.fail());
        };
        match ipv4_addr(source) {
            Ok(source) => Ok((length, source)),
            Err(_) => Err(self.fail()),
        }
    }

    fn send<R: Wait>(&mut self, _rt: &R, to: Addr, octets: &[u8]) -> Result<(), WireFault> {
        match self.socket.send_to(octets, system_addr(to)) {
            Ok(length) if length == octets.len() => Ok(()),
            Ok(_) => Err(self.fail()),
            Err(error) => {
                self.send_error = error.raw_os_error().map(i32::cast_unsigned);
                Err(self.fail())
            }
        }
    }

    fn send_error(&self) -> Option<u32> {
        self.send_error
    }
}

impl Ear for UdpWire {
    ghost misses = { λ w. record { row = w.row; most = w.most; lost = w.is_lost } };

    ghost at = { λ w. Some w.local };

    fn place(&self) -> Option<Addr> {
        Some(self.local)
    }

    fn row(&self) -> u64 {
        self.row
    }

    fn recv_in_time<R: Wait>(
        &mut self,
        _rt: &R,
        octets: &mut [u8],
    ) -> Result<Option<(usize, Addr)>, ReceiveFault> {
        match self.socket.recv_from(octets) {
            Ok((length, source)) => match ipv4_addr(source) {
                Ok(source) => {
                    self.row = 0;
                    // Nobody can be answered at port 0 (RFC 768).
                    if source.port == 0 {
                        return Ok(None);
                    }
                    Ok(Some((length, source)))
                }
                Err(_) => Err(self.miss(ReceiveFault { number: None })),
            },
            Err(error) if error.kind() == ErrorKind::WouldBlock => {
                self.row = 0;
                Ok(None)
            }
            Err(error) => Err(self.miss(ReceiveFault::from(error))),
        }
    }
}
