//! Ranges of addresses.
ghost use Rattle.std.specs.Prelude.{◌≡◌};
ghost use Rattle.sip_text.specs.Bytes.{Finds};
ghost use Rattle.admission.specs.Networks as spec;

use sip_text::{byte_of, cut_at};

/// The IPv4 addresses whose first bits are these: `a.b.c.d/length`.
#[derive(Clone, Copy, Debug, PartialEq, Eq)]
pub struct Network {
    pub ip: [u8; 4],
    /// How many bits of an address decide. None decides at 0, and all do from 32 on.
    pub length: u8,
}

/// An IPv4 address as a number, whose first octet has the highest bits.
pub(crate) fn number(ip: [u8; 4]) -> u32
    ensures { result ≡ spec.number ip }
{
    u32::from_be_bytes(ip)
}

/// An octet of an address before a dot, and what stands behind that.
#[tactic(auto, unfolding(sip_text::specs::Reading::octet_at))]
fn cut_octet(text: &[u8]) -> Option<(u8, &[u8])>
    ensures { Finds (λ x. (x.0, x.1.now)) result (spec.octet_at text.now) }
{
    let (word, rest) = cut_at(b'.', text)?;
    Some((byte_of(word)?, rest))
}

/// An IPv4 address in dotted decimal.
#[tactic(auto, unfolding(sip_text::specs::Reading::ip_of))]
fn address(text: &[u8]) -> Option<[u8; 4]>
    ensures { Finds (λ x. x) result (spec.ip_of text.now) }
{
    let (first, rest) = cut_octet(text)?;
    let (second, rest) = cut_octet(rest)?;
    let (third, rest) = cut_octet(rest)?;
    let fourth = byte_of(rest)?;
    Some([first, second, third, fourth])
}

impl Network {
    /// The network whose text this is: an address in dotted decimal, a slash and a number of bits, at most 32, each number without leading
    /// zeros.
    #[tactic(auto, unfolding(crate::specs::Networks::network))]
    pub fn of(text: &[u8]) -> Option<Network>
        ensures { Finds (λ x. x) result (spec.network text.now) }
    {
        let (host, rest) = cut_at(b'/', text)?;
        let ip = address(host)?;
        let length = byte_of(rest)?;
        if length > 32 {
            return None;
        }
        Some(Network { ip, length })
    }

    /// Whether the address is one of it.
    pub fn contains(&self, ip: [u8; 4]) -> bool
        ensures { result ≡ spec.contains self.now ip }
    {
        let others = 1u64 << 32u8.saturating_sub(self.length);
        u64::from(number(ip)) / others == u64::from(number(self.ip)) / others
    }
}
