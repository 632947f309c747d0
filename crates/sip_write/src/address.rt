//! Addresses as texts.
ghost use Rattle.std.specs.Prelude.{◌≡◌, ◌+◌, ◌≤◌, ◌++◌, length, drop, decimal, codes};
ghost use Rattle.sip_text.specs.Addresses.{ip_text, addr_text};
ghost use Rattle.sip_write.specs.Pages.{Puts};

use crate::page::Page;
use itoa::write_digits;
use sip_read::Addr;

/// The most characters that an IPv4 address has.
pub const IP_LEN: usize = 15;

/// Writes a dot and the octet, so that they end at `end`, and returns where they start.
fn write_dotted(octet: u8, room: &mut [u8], end: usize) -> usize
    requires { (4 ≤ end) × (end ≤ length room.old) }
    ensures written { drop result room.new ≡ codes "." ++ (decimal octet ++ drop end room.old) }
    ensures start { end ≤ result + 4 }
    ensures before { result ≤ end }
{
    let digits = write_digits(u64::from(octet), room, end);
    room[digits - 1] = b'.';
    digits - 1
}

/// Writes an IPv4 address, `a.b.c.d`, so that it ends at `end`, and returns where it starts.
fn write_ip(ip: [u8; 4], room: &mut [u8; IP_LEN]) -> usize
    ensures written { drop result room.new ≡ ip_text ip }
    ensures bound { result ≤ 15 }
{
    let [a, b, c, d] = ip;
    let last = write_dotted(d, room, IP_LEN);
    let third = write_dotted(c, room, last);
    let second = write_dotted(b, room, third);
    write_digits(u64::from(a), room, second)
}

/// An IPv4 address: `a.b.c.d`.
pub fn ip_in<'a>(ip: [u8; 4], room: &'a mut [u8; IP_LEN]) -> &'a [u8]
    ensures { result.now ≡ ip_text ip }
{
    let start = write_ip(ip, room);
    &room[start..]
}

impl Page {
    /// Puts an IPv4 address: `a.b.c.d`.
    pub fn put_ip(&mut self, ip: [u8; 4])
        ensures { Puts self.old (ip_text ip) self.new }
    {
        let mut room = [0; IP_LEN];
        self.put_bytes(ip_in(ip, &mut room));
    }

    /// Puts `a.b.c.d:port`.
    pub fn put_addr(&mut self, addr: &Addr)
        ensures { Puts self.old (addr_text addr.now) self.new }
    {
        self.put_ip(addr.ip);
        self.put(":");
        self.put_number(u64::from(addr.port));
    }
}
