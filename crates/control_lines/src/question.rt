//! What a control line asks to be told.
ghost use Rattle.std.specs.Prelude.{◌≡◌, ℕ, List, IsOk, Some};
ghost use Rattle.scripts.specs.Lines as lines;
ghost use Rattle.sip_text.specs.Bytes.{Gives};
ghost use Rattle.control_lines.specs.Questions as spec;

use scripts::bare_line;
use sip_text::{NoMemory, Text, cut_at, plain_number, text_of};
use std::alloc::Global;

/// What a control line asks to be told. It changes nothing.
#[derive(Debug, Drop)]
pub enum Question {
    /// The counters.
    Status,
    /// What this mailbox was last told, and which worker has it.
    Show(Text),
    /// What each mailbox was last told, or each behind the one with this name.
    Dump(Option<Text>),
    /// Who watches this mailbox, or any, from this place in the list on.
    Watchers(Option<Text>, u64),
}

/// Who watches the mailbox that this word names, or any where it is `*`, from this place on.
#[tactic(auto, unfolding(crate::specs::Questions::watched))]
fn watched(alloc: Global, word: &[u8], from: u64) -> Result<Option<Question>, NoMemory>
    ensures { Gives (λ x. x) result (spec.watched word.now from) }
{
    if word == b"*".as_slice() {
        return Ok(Some(Question::Watchers(None, from)));
    }
    let Some(name) = text_of(word) else {
        return Ok(None);
    };
    let mailbox = Text::of(alloc, name)?;
    Ok(Some(Question::Watchers(Some(mailbox), from)))
}

/// What stands behind `WATCHERS`.
#[tactic(auto, unfolding(crate::specs::Questions::watchers_behind))]
fn watchers_behind(alloc: Global, rest: &[u8]) -> Result<Option<Question>, NoMemory>
    ensures { Gives (λ x. x) result (spec.watchers_behind rest.now) }
{
    let Some((word, number)) = cut_at(b' ', rest) else {
        return watched(alloc, rest, 0);
    };
    let Some(from) = plain_number(number) else {
        return Ok(None);
    };
    watched(alloc, word, from)
}

/// The question of this first word and of what stands behind it.
#[tactic(auto, unfolding(crate::specs::Questions::named))]
fn named(alloc: Global, name: &[u8], rest: &[u8]) -> Result<Option<Question>, NoMemory>
    ensures { Gives (λ x. x) result (spec.named name.now rest.now) }
{
    if name == b"WATCHERS".as_slice() {
        return watchers_behind(alloc, rest);
    }
    let Some(mailbox) = text_of(rest) else {
        return Ok(None);
    };
    if name == b"SHOW".as_slice() {
        return Ok(Some(Question::Show(Text::of(alloc, mailbox)?)));
    }
    if name == b"DUMP".as_slice() {
        return Ok(Some(Question::Dump(Some(Text::of(alloc, mailbox)?))));
    }
    Ok(None)
}

/// The question that a line without its LF asks, if it asks one. One word needs no memory.
#[tactic(auto, unfolding(crate::specs::Questions::question_of))]
fn whole_question(alloc: Global, line: &[u8]) -> Result<Option<Question>, NoMemory>
    ensures read { Gives (λ x. x) result (spec.question_of line.now) }
    ensures alone { spec.IsOneWord line.now → IsOk result }
{
    if line == b"STATUS".as_slice() {
        return Ok(Some(Question::Status));
    }
    if line == b"DUMP".as_slice() {
        return Ok(Some(Question::Dump(None)));
    }
    if line == b"WATCHERS".as_slice() {
        return Ok(Some(Question::Watchers(None, 0)));
    }
    let Some((name, rest)) = cut_at(b' ', line) else {
        return Ok(None);
    };
    named(alloc, name, rest)
}

/// The question that these bytes ask, with a LF at the end or without.
#[tactic(auto, unfolding(crate::specs::Questions::question_in))]
pub(crate) fn parse_question(alloc: Global, octets: &[u8]) -> Result<Option<Question>, NoMemory>
    ensures read { Gives (λ x. x) result (spec.question_in octets.now) }
    ensures alone { (line : List ℕ) → lines.bare_line octets.now ≡ Some line → spec.IsOneWord line → IsOk result }
{
    match bare_line(octets) {
        Some(line) => whole_question(alloc, line),
        None => Ok(None),
    }
}
