//! What a request shows of who asks.
ghost use Rattle.std.specs.Prelude.{◌≡◌, find, count_by, IfOk};
ghost use Rattle.sip_text.specs.Bytes.{Finds, Gives};
ghost use Rattle.admission.specs.Authorization as spec;

use crate::lines::header_lines;
use digest::realm;
use sip_read::{header_of, line_at};
use sip_text::{NoMemory, Octets, Text, text_of};
use std::alloc::Global;

/// Whether a header line is one of Authorization. Names ignore case.
fn is_authorization(line: &[u8]) -> bool
    ensures { result ≡ spec.is_authorization line.now }
{
    match header_of(line) {
        Some((name, _)) => name.eq_ignore_ascii_case(b"authorization"),
        None => false,
    }
}

/// The first of these header lines that is one of Authorization.
fn first_authorization(lines: &[Octets]) -> Option<&Octets>
    ensures { Finds (λ x. x.now) result (find spec.is_authorization lines.now) }
{
    for line in lines {
        if is_authorization(line.as_slice()) {
            return Some(line);
        }
    }
    None
}

/// How many of these header lines are ones of Authorization.
fn count_authorizations(lines: &[Octets]) -> usize
    ensures { result ≡ count_by spec.is_authorization lines.now }
{
    lines
        .iter()
        .filter(|line| is_authorization(line.as_slice()))
        .count()
}

/// Whether a header line is one of Authorization that names this realm.
fn is_of_realm(alloc: Global, own: &str, line: &[u8]) -> Result<bool, NoMemory>
    ensures { IfOk result (λ is. is ≡ spec.is_of_realm own.now line.now) }
{
    let Some((_, value)) = header_of(line) else {
        return Ok(false);
    };
    if !is_authorization(line) {
        return Ok(false);
    }
    match realm(alloc, value)? {
        Some(named) => Ok(named.is(own)),
        None => Ok(false),
    }
}

/// The first of these header lines that is one of Authorization and names this realm.
fn first_of_realm<'a>(
    alloc: Global,
    own: &str,
    lines: &'a [Octets],
) -> Result<Option<&'a Octets>, NoMemory>
    ensures { IfOk result (λ found. Finds (λ x. x.now) found (find (spec.is_of_realm own.now) lines.now)) }
{
    for line in lines {
        let is_ours = is_of_realm(alloc, own, line.as_slice())?;
        if is_ours {
            return Ok(Some(line));
        }
    }
    Ok(None)
}

/// The header line of Authorization that counts: of several the first that names our realm, if one does, and else the first (RFC 3261 section
/// 22.3).
fn own_line<'a>(
    alloc: Global,
    own: &Option<Text>,
    lines: &'a [Octets],
) -> Result<Option<&'a Octets>, NoMemory>
    ensures { IfOk result (λ found. Finds (λ x. x.now) found (spec.own_line own.now lines.now)) }
{
    let first = first_authorization(lines);
    let Some(own) = own else {
        return Ok(first);
    };
    if count_authorizations(lines) <= 1 {
        return Ok(first);
    }
    match first_of_realm(alloc, own.as_str(), lines)? {
        Some(line) => Ok(Some(line)),
        None => Ok(first),
    }
}

/// The value of the Authorization line of a message that counts, where this is our realm.
#[tactic(auto, unfolding(crate::specs::Authorization::authorization))]
pub(crate) fn authorization(
    alloc: Global,
    own: &Option<Text>,
    octets: &[u8],
) -> Result<Option<Text>, NoMemory>
    ensures { Gives (λ t. t) result (spec.authorization own.now octets.now) }
{
    let Some((_, section)) = line_at(octets) else {
        return Ok(None);
    };
    let Some((lines, _)) = header_lines(alloc, section)? else {
        return Ok(None);
    };
    let Some(line) = own_line(alloc, own, &lines)? else {
        return Ok(None);
    };
    let Some((_, value)) = header_of(line.as_slice()) else {
        return Ok(None);
    };
    match text_of(value) {
        Some(text) => Ok(Some(Text::of(alloc, text)?)),
        None => Ok(None),
    }
}
