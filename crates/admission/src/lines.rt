//! All header lines of a message, each in one piece (RFC 3261 section 7.3.1).
ghost use Rattle.std.specs.Prelude.{◌≡◌, IfOk};
ghost use Rattle.sip_text.specs.Bytes.{Gives};
ghost use Rattle.sip_read.specs.LinesComputed.{lines_of};
ghost use Rattle.sip_read.specs.LineViews.{line_seen};

use sip_read::{Line, line_at, unfolded_of};
use sip_text::{NoMemory, Octets};
use std::alloc::Global;

/// The octets of a line.
fn copied(alloc: Global, line: Line<'_>) -> Result<Octets, NoMemory>
    ensures { IfOk result (λ octets. octets ≡ line_seen line.entry) }
{
    Ok(Octets::new(Vec::from_slice(alloc, line.as_slice())?))
}

/// The header lines up to an empty line, each in one piece, and what follows that.
pub(crate) fn header_lines(
    alloc: Global,
    text: &[u8],
) -> Result<Option<(Vec<Octets>, &[u8])>, NoMemory>
    ensures { Gives (λ x. (x.0.items, x.1.now)) result (lines_of text.now) }
{
    let mut lines = Vec::new(alloc);
    let mut rest = text;
    loop {
        let Some((first, after)) = line_at(rest) else {
            return Ok(None);
        };
        if first.is_empty() {
            return Ok(Some((lines, after)));
        }
        let Some((line, next)) = unfolded_of(alloc, first, after)? else {
            return Ok(None);
        };
        let line = copied(alloc, line)?;
        lines.push(line)?;
        rest = next;
    }
}
