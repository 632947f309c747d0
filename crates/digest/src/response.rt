//! The response of a client that knows the password (RFC 7616 section 3.4.1).
ghost use Rattle.std.specs.Prelude.{◌≡◌, ◌++◌, ◌∷◌, OnOk, IfOk, string_bytes};
ghost use Rattle.digest.specs.Responses as spec;
ghost use Rattle.digest.specs.Responses.{joined, protection_texts, target_hash};

use crate::algorithm::Algorithm;
use crate::credentials::{Credentials, Protection};
use sip_text::{NoMemory, Text};
use std::alloc::Global;

/// Appends a colon and this text.
fn append(text: &mut String, part: &str) -> Result<(), NoMemory>
    ensures { OnOk result (string_bytes text.new ≡ string_bytes text.old ++ 58 ∷ part.now) }
{
    text.push_str(":")?;
    text.push_str(part)?;
    Ok(())
}

/// Appends what stands between the nonce and H(A2), each text behind a colon.
fn append_protection(text: &mut String, protection: &Protection) -> Result<(), NoMemory>
    ensures { OnOk result (string_bytes text.new ≡ joined (string_bytes text.old) (protection_texts protection.now)) }
{
    if let Protection::Auth(count, client_nonce) = protection {
        append(text, count.as_str())?;
        append(text, client_nonce.as_str())?;
        append(text, "auth")?;
    }
    Ok(())
}

/// H(A2): the hash of the method and the digest-uri.
fn target_hash(
    alloc: Global,
    algorithm: Algorithm,
    method: &str,
    uri: &str,
) -> Result<Text, NoMemory>
    ensures { IfOk result (λ t. t ≡ target_hash algorithm method.now uri.now) }
{
    let mut target = String::from_str(alloc, method)?;
    append(&mut target, uri)?;
    algorithm.hexed(alloc, target.as_str())
}

/// The response that a client owes who knows the password, to these credentials' nonce and over their digest-uri. `secret` is H(A1), the hash
/// of `username:realm:password` in hex digits. Its error is want of memory.
pub fn response(
    alloc: Global,
    algorithm: Algorithm,
    secret: &str,
    credentials: &Credentials,
    method: &str,
) -> Result<Text, NoMemory>
    ensures { IfOk result (λ t. t ≡ spec.response algorithm secret.now credentials.now method.now) }
{
    let target = target_hash(alloc, algorithm, method, credentials.uri.as_str())?;
    let mut whole = String::from_str(alloc, secret)?;
    append(&mut whole, credentials.nonce.as_str())?;
    append_protection(&mut whole, &credentials.protection)?;
    append(&mut whole, target.as_str())?;
    algorithm.hexed(alloc, whole.as_str())
}
