//! Frames: bytes behind their length and their checksum.
ghost use Rattle.std.specs.Prelude.{◌≡◌, ◌<◌, ◌≤◌, ◌++◌, length, MatchOption, OnOk, OnErr};
ghost use Rattle.std.specs.Int.{w32, to_be_bytes};
ghost use Rattle.journal.specs.Frames.{frame, IsPayload, HasNoFrame};

use crate::sum::checksum;
use sip_text::NoMemory;

/// How many bytes a frame holds at most: a book of 65,536 subscriptions has some 15 million.
pub const LONGEST: usize = 1_073_741_824;

/// A number of four bytes at the front, the highest first, and the rest.
fn number_at(bytes: &[u8]) -> Option<(u32, &[u8])>
    ensures { MatchOption result (length bytes.now < 4) (λ r. bytes.now ≡ to_be_bytes w32 r.0 ++ r.1.now) }
{
    let [a, b, c, d, rest @ ..] = bytes else {
        return None;
    };
    Some((u32::from_be_bytes([*a, *b, *c, *d]), rest))
}

/// A payload in a whole frame at the front, and the rest.
#[tactic(auto, unfolding(crate::specs::Frames::frame))]
pub(crate) fn first_payload(bytes: &[u8]) -> Option<(&[u8], &[u8])>
    ensures { MatchOption result (HasNoFrame bytes.now)
        (λ r. (length r.0.now ≤ LONGEST) × (bytes.now ≡ frame r.0.now ++ r.1.now)) }
{
    let (length, rest) = number_at(bytes)?;
    let (sum, rest) = number_at(rest)?;
    let length = length as usize;
    if length > LONGEST || length > rest.len() {
        return None;
    }
    let (payload, rest) = rest.split_at(length);
    if checksum(payload) == sum {
        Some((payload, rest))
    } else {
        None
    }
}

/// Puts a payload in a frame behind these bytes. Where memory is wanting they are as they were.
#[tactic(auto, unfolding(crate::specs::Frames::frame))]
pub(crate) fn put_frame(payload: &[u8], out: &mut Vec<u8>) -> Result<(), NoMemory>
    requires short { IsPayload payload.now }
    ensures put { OnOk result (out.new.items ≡ out.old.items ++ frame payload.now) }
    ensures unchanged { OnErr result (out.new.items ≡ out.old.items) }
{
    out.reserve(payload.len() + 8)?;
    let length = (payload.len() as u32).to_be_bytes();
    let sum = checksum(payload).to_be_bytes();
    let Ok(()) = out.extend_from_slice(&length) else {
        unreachable!()
    };
    let Ok(()) = out.extend_from_slice(&sum) else {
        unreachable!()
    };
    let Ok(()) = out.extend_from_slice(payload) else {
        unreachable!()
    };
    Ok(())
}
