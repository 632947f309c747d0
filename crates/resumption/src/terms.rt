//! Under what the desks of a program work, as its journal says it. The same events are handled in the same way under the same terms alone.

ghost use Rattle.std.specs.Prelude.{◌≡◌, ◌↔◌, IsTrue};
ghost use Rattle.resumption.specs.Terms.{AreSameTimes, AreSameCounts};

use notifier_model::Limits;
use sip_text::{NoMemory, Text, plain_number};
use std::alloc::Global;
use std::str::SplitWhitespace;

/// Under what desks work.
#[derive(Clone, Copy)]
pub struct Terms {
    pub limits: Limits,
    /// Whether the package `refer` is left out.
    pub no_refer: bool,
}

/// Whether these limits of times, and of numbers of NOTIFYs, are the same.
fn are_same_times(one: &Limits, other: &Limits) -> bool
    ensures { IsTrue result ↔ AreSameTimes one.now other.now }
{
    one.min_time() == other.min_time()
        && one.max_time() == other.max_time()
        && one.default_time() == other.default_time()
        && one.refer_time() == other.refer_time()
        && one.max_cseq() == other.max_cseq()
}

/// Whether these limits of what a worker keeps are the same.
fn are_same_counts(one: &Limits, other: &Limits) -> bool
    ensures { IsTrue result ↔ AreSameCounts one.now other.now }
{
    one.table() == other.table()
        && one.serials() == other.serials()
        && one.kept() == other.kept()
        && one.inbox() == other.inbox()
        && one.outbox() == other.outbox()
}

/// A number of four bytes at the front of these words.
fn next_number(words: &mut SplitWhitespace<'_>) -> Option<u32> {
    let number = plain_number(words.next()?.as_bytes())?;
    u32::try_from(number).ok()
}

/// The limits that the next ten words are.
fn next_limits(words: &mut SplitWhitespace<'_>) -> Option<Limits> {
    let min_time = next_number(words)?;
    let max_time = next_number(words)?;
    let default_time = next_number(words)?;
    let refer_time = next_number(words)?;
    let max_cseq = next_number(words)?;
    let table = next_number(words)?;
    let serials = next_number(words)?;
    let kept = next_number(words)?;
    let inbox = next_number(words)?;
    let outbox = next_number(words)?;
    Limits::new(
        min_time,
        max_time,
        default_time,
        refer_time,
        max_cseq,
        table,
        serials,
        kept,
        inbox,
        outbox,
    )
}

/// The terms that these words are, if they are some.
fn next_terms(rest: &str) -> Option<Terms> {
    let mut words = rest.split_whitespace();
    let limits = next_limits(&mut words)?;
    let without = next_number(&mut words)?;
    Some(Terms {
        limits,
        no_refer: without == 1,
    })
}

impl Terms {
    /// Whether these are the same: then the same events are handled in the same way.
    pub fn is(&self, other: &Terms) -> bool
        ensures { IsTrue result ↔ (self.now ≡ other.now) }
    {
        self.no_refer == other.no_refer
            && are_same_times(&self.limits, &other.limits)
            && are_same_counts(&self.limits, &other.limits)
    }

    /// As a journal's header has them, behind the version of the program.
    pub fn text(&self, alloc: Global, version: &str) -> Result<Text, NoMemory> {
        let limits = &self.limits;
        let (min, max) = (limits.min_time(), limits.max_time());
        let (default, refer) = (limits.default_time(), limits.refer_time());
        let (cseq, table) = (limits.max_cseq(), limits.table());
        let (serials, kept) = (limits.serials(), limits.kept());
        let (inbox, outbox) = (limits.inbox(), limits.outbox());
        let without: u32 = if self.no_refer { 1 } else { 0 };
        let text = format!(in alloc;
            "{version} {min} {max} {default} {refer} {cseq} {table} {serials} {kept} {inbox} {outbox} {without}"
        )?;
        Ok(Text::new(text))
    }

    /// Those of a header, if a program of this version wrote it so.
    pub fn of(alloc: Global, version: &str, text: &str) -> Result<Option<Terms>, NoMemory> {
        let Some(rest) = text.strip_prefix(version) else {
            return Ok(None);
        };
        let Some(terms) = next_terms(rest) else {
            return Ok(None);
        };
        if terms.text(alloc, version)?.is(text) {
            Ok(Some(terms))
        } else {
            Ok(None)
        }
    }
}
