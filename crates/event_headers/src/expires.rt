//! Expires (RFC 3261 section 20.19).
ghost use Rattle.std.specs.Prelude.{◌≡◌, ◌++◌, ℕ, string_bytes, Result, OnOk, OnErr};
ghost use Rattle.event_headers.specs.declared.error.HeaderError.{HeaderError};
ghost use Rattle.event_headers.specs.Headers.{IsExpires, Fits, Says};
ghost use Rattle.event_headers.specs.HeaderReading.{expires_of, expires_fits, outcome};
ghost use Rattle.event_headers.specs.Written.{expires_text};

use crate::append::append_text;
use crate::error::HeaderError;
use sip_text::{NoMemory, digits_of, seconds_of};
use std::alloc::Global;

/// What the text says as an Expires value.
#[tactic(auto, unfolding(crate::specs::HeaderReading::expires_of))]
fn expires(text: &[u8]) -> Result<u32, HeaderError>
    ensures { result ≡ outcome expires_fits (expires_of text.now) }
{
    let Some(digits) = digits_of(text) else {
        return Err(HeaderError::Grammar);
    };
    match seconds_of(digits) {
        Some(seconds) => Ok(seconds),
        None => Err(HeaderError::TooLarge),
    }
}

/// Reads the value of an Expires header, in seconds. Outer SP and HT are allowed. It takes no memory.
pub fn read_expires(text: &[u8]) -> Result<u32, HeaderError>
    // What is answered is what the text says.
    ensures found { Says IsExpires Fits text.now result }
    // Nothing else is.
    ensures only { (said : Result ℕ HeaderError) → Says IsExpires Fits text.now said → result ≡ said }
{
    expires(text)
}

/// Appends seconds: digits without leading zeros.
fn append_expires(seconds: u32, out: &mut String) -> Result<(), NoMemory>
    ensures { OnOk result (string_bytes out.new ≡ string_bytes out.old ++ expires_text seconds) }
{
    write!(out, "{seconds}")?;
    Ok(())
}

/// Appends the written form of an Expires value. After an error the bytes are as they were.
pub fn write_expires(alloc: Global, seconds: u32, out: &mut Vec<u8>) -> Result<(), NoMemory>
    ensures ok { OnOk result (out.new.items ≡ out.old.items ++ expires_text seconds) }
    ensures err { OnErr result (out.new.items ≡ out.old.items) }
{
    let mut text = String::new(alloc);
    append_expires(seconds, &mut text)?;
    append_text(text.as_str(), out)?;
    Ok(())
}
