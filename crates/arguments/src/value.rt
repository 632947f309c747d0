//! What one word says: a number, or a seed.
ghost use Rattle.arguments.specs.Values as spec;
ghost use Rattle.sip_text.specs.Bytes.{Finds};
ghost use Rattle.sip_text.specs.Reading.{plain_up_to};

use hex::FromHex;
use sip_text::plain_number;

/// 32 bytes from 64 hex digits of either case.
#[tactic(auto, unfolding(crate::specs::Values::seed_bytes))]
pub(crate) fn seed_bytes(digits: &str) -> Option<[u8; 32]>
    ensures { Finds (λ x. x) result (spec.seed_bytes digits.now) }
{
    match <[u8; 32] as FromHex>::from_hex(digits) {
        Ok(seed) => Some(seed),
        Err(_) => None,
    }
}

/// A number in decimal without leading zeros, up to the most.
#[tactic(auto, unfolding(sip_text::specs::Reading::plain_up_to))]
fn up_to(most: u32, word: &[u8]) -> Option<u32>
    ensures { Finds (λ x. x) result (plain_up_to most word.now) }
{
    let number = plain_number(word)?;
    if number <= u64::from(most) {
        Some(number as u32)
    } else {
        None
    }
}

/// The same from the least to the most.
#[tactic(auto, unfolding(crate::specs::Values::between))]
pub(crate) fn between(least: u32, most: u32, word: &[u8]) -> Option<u32>
    ensures { Finds (λ x. x) result (spec.between least most word.now) }
{
    let number = up_to(most, word)?;
    if number < least { None } else { Some(number) }
}
