//! What is known of a subscription with a NOTIFY of it.
ghost use Rattle.std.specs.Prelude.{◌≡◌, ◌<◌, ◌^◌, IfOk};
ghost use Rattle.sip_text.specs.Bytes.{Finds};
ghost use Rattle.watchers.specs.Notifies as spec;

use crate::counts::source;
use crate::row::Watcher;
use sip_text::{Addr, Class, NoMemory, Text, cut_at, quoted_at, some_copy, split_front, word_of};
use std::alloc::Global;

/// How many bytes of a URI or a mailbox are told at most: so each row has its bound. `-` is told of a longer one.
pub const LONGEST: usize = 256;

/// What stands behind the display name at the front, if that is quoted.
#[tactic(auto, unfolding(crate::specs::Notifies::unquoted))]
fn unquoted(party: &[u8]) -> Option<&[u8]>
    ensures { Finds (λ x. x.now) result (spec.unquoted party.now) }
{
    match party {
        [b'"', ..] => Some(quoted_at(party)?.1),
        _ => Some(party),
    }
}

/// The URI of a From or a To.
#[tactic(auto, unfolding(crate::specs::Notifies::uri))]
fn uri(party: &[u8]) -> Option<&[u8]>
    ensures { Finds (λ x. x.now) result (spec.uri party.now) }
{
    let rest = unquoted(party)?;
    let Some((_, inner)) = cut_at(b'<', rest) else {
        return Some(split_front(Class::Bare, rest).0);
    };
    let (uri, _) = cut_at(b'>', inner)?;
    Some(uri)
}

/// The bytes as a word of a row.
pub(crate) fn word(bytes: &[u8]) -> &str
    ensures { result.now ≡ spec.word bytes.now }
{
    if bytes.len() > LONGEST {
        return "-";
    }
    match word_of(Class::Uri, bytes) {
        Some(word) => word,
        None => "-",
    }
}

/// What is known of a subscription with a NOTIFY of it.
#[derive(Clone, Copy)]
pub struct Known<'a> {
    /// Who watches: the subscriber's address, as its From has it (RFC 3261 section 20.20).
    pub watcher: &'a str,
    /// Its Contact: the remote target of the dialog (RFC 3261 section 12.1.1).
    pub contact: &'a str,
    /// The Call-ID of its dialog (RFC 3261 section 12).
    pub call_id: &'a str,
    /// The user whose password it showed, where that is known.
    pub user: Option<&'a str>,
    /// What is watched: a mailbox, or the tag of a transfer.
    pub resource: &'a str,
    /// How many seconds are left of it, unless it is refreshed.
    pub seconds: u32,
}

/// Who watches: the URI of its address.
fn watcher(party: &[u8]) -> &str
    ensures { result.now ≡ spec.watcher party.now }
{
    match uri(party) {
        Some(uri) => word(uri),
        None => "-",
    }
}

/// The moment at which the subscription ends unless it is refreshed, where its NOTIFY went out at this one.
pub fn until(now: u64, seconds: u32) -> u64
    requires in_range { now < 2 ^ 63 }
    ensures { result ≡ spec.until now seconds }
{
    now + 1000 * u64::from(seconds)
}

/// The row that begins with the NOTIFY with this number, which went out at this moment to this address.
pub fn first_row(
    alloc: Global,
    now: u64,
    number: u32,
    to: Addr,
    known: Known<'_>,
) -> Result<Watcher, NoMemory>
    requires in_range { now < 2 ^ 63 }
    ensures { IfOk result (λ w. w ≡ spec.first_row now number to (spec.known_seen known.entry)) }
{
    Ok(Watcher {
        watcher: Text::of(alloc, watcher(known.watcher.as_bytes()))?,
        contact: Text::of(alloc, word(known.contact.as_bytes()))?,
        call_id: Text::of(alloc, known.call_id)?,
        user: some_copy(alloc, known.user)?,
        mailbox: Text::of(alloc, word(known.resource.as_bytes()))?,
        source: source(to),
        to,
        sent: number,
        answered: 0,
        code: 0,
        since: now,
        until: until(now, known.seconds),
    })
}
