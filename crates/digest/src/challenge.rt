//! The value of `WWW-Authenticate`.
ghost use Rattle.std.specs.Prelude.{◌≡◌, ◌++◌, OnOk, IfOk, string_bytes};
ghost use Rattle.digest.specs.Challenges as spec;
ghost use Rattle.digest.specs.Challenges.{quoted, escaped};

use crate::algorithm::Algorithm;
use sip_text::{NoMemory, Text};
use std::alloc::Global;

/// Appends the character as it stands between quotes.
fn append_character(character: char, out: &mut String) -> Result<(), NoMemory>
    ensures { OnOk result (string_bytes out.new ≡ string_bytes out.old ++ spec.character character) }
{
    if matches!(character, '"' | '\\') {
        out.push('\\')?;
    }
    out.push(character)?;
    Ok(())
}

/// Appends the text as it stands between quotes.
fn append_escaped(text: &str, out: &mut String) -> Result<(), NoMemory>
    ensures { OnOk result (string_bytes out.new ≡ string_bytes out.old ++ escaped text.now) }
{
    for character in text.chars() {
        append_character(character, out)?;
    }
    Ok(())
}

/// A text between quotes.
fn quoted(alloc: Global, text: &str) -> Result<String, NoMemory>
    ensures { IfOk result (λ s. string_bytes s ≡ quoted text.now) }
{
    let mut out = String::from_str(alloc, "\"")?;
    append_escaped(text, &mut out)?;
    out.push('"')?;
    Ok(out)
}

/// A challenge: the value of one `WWW-Authenticate` header (RFC 7616 section 3.3). `stale` says that the client's nonce was ours but old. Its
/// error is want of memory.
pub fn challenge(
    alloc: Global,
    realm: &str,
    nonce: &str,
    algorithm: Algorithm,
    stale: bool,
) -> Result<Text, NoMemory>
    ensures { IfOk result (λ t. t ≡ spec.challenge realm.now nonce.now algorithm stale) }
{
    let realm = quoted(alloc, realm)?;
    let nonce = quoted(alloc, nonce)?;
    let name = algorithm.name();
    let end = if stale { ", stale=true" } else { "" };
    let value = format!(in alloc;
        "Digest realm={realm}, nonce={nonce}, qop=\"auth\", algorithm={name}{end}"
    )?;
    Ok(Text::new(value))
}
