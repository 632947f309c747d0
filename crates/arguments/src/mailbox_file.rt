//! A file that names mailboxes, by a name or a range of numbers a line.
ghost use Rattle.std.specs.Prelude.{◌↔◌, IsTrue, IfOk, IfErr};
ghost use Rattle.std.specs.List.{All};
ghost use Rattle.arguments.specs.NumberRanges.{IsNumberRange};
ghost use Rattle.arguments.specs.Settings.{IsMailbox};
ghost use Rattle.arguments.specs.MailboxFile.{IsBlank, IsRange, IsUnfair, Names, IsNoLine};

use crate::error::OptionsError;
use crate::number_range::{NumberRange, looks_like_range, parse_range};
use crate::setting::is_mailbox;
use sip_text::Text;
use std::alloc::Global;

/// Whether a line names nothing: an empty one, or a comment.
pub fn is_blank(line: &str) -> bool
    ensures { IsTrue result ↔ IsBlank line.now }
{
    matches!(line.as_bytes(), [] | [b'#', ..])
}

/// The mailboxes of a range that a line says.
fn range_names(alloc: Global, line: &str, range: NumberRange) -> Result<Vec<Text>, OptionsError>
    requires { IsNumberRange line.now range.width range.first range.last }
    ensures names { IfOk result (λ names. IsRange line.now names.items) }
    ensures wrong { IfErr result (IsNoLine line.now) }
{
    if !range.is_fair() {
        return Err(OptionsError::NoRange(Text::of(alloc, line)?));
    }
    Ok(range.numerals(alloc)?)
}

/// The mailboxes that a line names, without its line feed, in order: a range, as `1000-1999`, each number from the first to the last
/// in as many digits. An empty line and a comment, which begins with `#`, name none. An error where the line can't name a mailbox, or
/// looks like a range and is none: where its last number is below its first, or it has more than a million numbers, or the two
/// haven't as many digits, 18 at most.
pub fn line_mailboxes(alloc: Global, line: &str) -> Result<Vec<Text>, OptionsError>
    ensures names { IfOk result (λ names. Names line.now names.items) }
    ensures mailboxes { IfOk result (λ names. All IsMailbox names.items) }
    ensures wrong { IfErr result (IsNoLine line.now) }
{
    if is_blank(line) {
        return Ok(Vec::new(alloc));
    }
    let bytes = line.as_bytes();
    if let Some(range) = parse_range(bytes) {
        return range_names(alloc, line, range);
    }
    let name = Text::of(alloc, line)?;
    if looks_like_range(bytes) {
        return Err(OptionsError::NoRange(name));
    }
    if !is_mailbox(line) {
        return Err(OptionsError::NoMailbox(name));
    }
    let mut names = Vec::new(alloc);
    names.push(name)?;
    Ok(names)
}
