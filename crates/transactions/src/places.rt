//! From the name of a transaction to the head of the ring in which it lies.

ghost use Rattle.std.specs.Prelude.{◌≡◌, ◌<◌, ◌+◌, ◌^◌};
ghost use Rattle.transactions.specs.Places as seen;

/// What a digest begins with (FNV-1a of 64 bits).
pub const BASIS: u64 = 0xcbf2_9ce4_8422_2325;

/// What each step multiplies by (FNV-1a of 64 bits).
pub const PRIME: u64 = 0x0100_0000_01b3;

fn stirred(sum: u64, more: u64) -> u64
    ensures { result ≡ seen.stirred sum more }
{
    (sum ^ more).wrapping_mul(PRIME)
}

/// A digest of a text, that goes on from another one.
#[tactic(auto, unfolding(crate::specs::Places::digest))]
fn digest(start: u64, text: &str) -> u64
    ensures { result ≡ seen.digest start text.now }
{
    let mut sum = start;
    for byte in text.as_bytes() {
        sum = stirred(sum, u64::from(*byte));
    }
    sum
}

/// The head of a digest, where the heads follow so many places. A quarter as many are used: so few lie near one another in memory, and a
/// ring has four at a time where all places are taken.
fn head(places: usize, digest: u64) -> usize
    requires fits { places + places + 1 < 2 ^ 64 }
    ensures { result ≡ seen.head places digest }
{
    places + (digest % (places as u64 / 4 + 1)) as usize
}

/// The head of the ring for a tag and a number.
#[tactic(auto, unfolding(crate::specs::Places::name_head))]
pub fn name_head(places: usize, tag: &str, number: u32) -> usize
    requires fits { places + places + 1 < 2 ^ 64 }
    ensures { result ≡ seen.name_head places tag.now number }
{
    head(places, digest(stirred(BASIS, u64::from(number)), tag))
}

/// The head of the ring for a tag.
#[tactic(auto, unfolding(crate::specs::Places::tag_head))]
pub fn tag_head(places: usize, tag: &str) -> usize
    requires fits { places + places + 1 < 2 ^ 64 }
    ensures { result ≡ seen.tag_head places tag.now }
{
    head(places, digest(BASIS, tag))
}
