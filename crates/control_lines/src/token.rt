//! The token of a line, by which a repeat of it is told from news.
ghost use Rattle.std.specs.Prelude.{◌≡◌};
ghost use Rattle.sip_text.specs.Bytes.{Finds};
ghost use Rattle.control_lines.specs.Tokens as spec;

use hex::FromHex;
use sip_text::cut_at;

/// The token that stands before a line: whoever sends the line again sends the same token, and for another line another one.
#[derive(Clone, Copy, Debug, PartialEq, Eq, Hash, Drop)]
pub struct Token {
    pub number: u64,
}

/// The token of eight bytes.
#[tactic(auto, unfolding(crate::specs::Tokens::number))]
fn big_endian(value: [u8; 8]) -> Token
    ensures { result.number ≡ spec.number value }
{
    Token {
        number: u64::from_be_bytes(value),
    }
}

/// The token of these sixteen hex digits.
#[tactic(auto, unfolding(crate::specs::Tokens::token_of))]
fn hex_token(digits: &[u8]) -> Option<Token>
    ensures { Finds (λ x. x) result (spec.token_of digits.now) }
{
    match <[u8; 8] as FromHex>::from_hex(digits) {
        Ok(value) => Some(big_endian(value)),
        Err(_) => None,
    }
}

/// The token that stands before a line, and the line.
#[tactic(auto, unfolding(crate::specs::Tokens::token_in))]
fn front_token(octets: &[u8]) -> Option<(Token, &[u8])>
    ensures { Finds (λ x. (x.0, x.1.now)) result (spec.token_in octets.now) }
{
    let [b'@', rest @ ..] = octets else {
        return None;
    };
    let (digits, line) = cut_at(b' ', rest)?;
    Some((hex_token(digits)?, line))
}

/// The token before a line, if one stands there, and the line.
pub fn cut_token(octets: &[u8]) -> (Option<Token>, &[u8])
    ensures token { result.0 ≡ spec.token octets.now }
    ensures line { result.1.now ≡ spec.line octets.now }
{
    match front_token(octets) {
        Some((token, line)) => (Some(token), line),
        None => (None, octets),
    }
}
