//! Subscription-State (RFC 6665 section 8.2.3).
ghost use Rattle.std.specs.Prelude.{◌≡◌, ◌++◌, option_map, string_bytes, Result, IfOk, OnOk, OnErr};
ghost use Rattle.std.specs.Str.{str_to_ascii_lowercase};
ghost use Rattle.sip_text.specs.Grammar.{number_of};
ghost use Rattle.event_headers.specs.Headers.{IsState, StateFits, Says, IsSaid, Answers};
ghost use Rattle.event_headers.specs.Values as values;
ghost use Rattle.event_headers.specs.Written.{state_text};
ghost use Rattle.event_headers.specs.declared.error.HeaderError.{HeaderError};
ghost use Rattle.sip_text.specs.Bytes.{Finds, Gives};
ghost use Rattle.sip_text.specs.Views.{views};
ghost use Rattle.event_headers.specs.HeaderReading.{state_of, state_with, state_fits, kept_seconds, outcome};
ghost use Rattle.event_headers.specs.HeaderViews.{state_seen};

use crate::append::{append_parameter, append_seconds, append_text};
use crate::error::HeaderError;
use crate::values::StateValue;
use sip_text::{Class, NoMemory, Parameter, Text, seconds_of, token_with, word_named};
use std::alloc::Global;

/// A Subscription-State value as it stands in the text.
#[derive(Clone, Copy)]
pub struct WrittenState<'a> {
    pub word: &'a str,
    /// Digits.
    pub expires: Option<&'a str>,
    pub reason: Option<&'a str>,
    /// Digits.
    pub retry_after: Option<&'a str>,
}

/// The state of this word and these parameters.
#[tactic(auto, unfolding(crate::specs::HeaderReading::state_with))]
fn written_state<'a>(word: &'a str, parameters: &[Parameter<'a>]) -> Option<WrittenState<'a>>
    ensures { Finds state_seen result (state_with word.now (views parameters.now)) }
{
    let expires = word_named(Class::Digit, b"expires", parameters)?;
    let reason = word_named(Class::Token, b"reason", parameters)?;
    let retry_after = word_named(Class::Digit, b"retry-after", parameters)?;
    Some(WrittenState {
        word,
        expires,
        reason,
        retry_after,
    })
}

/// The Subscription-State value that the whole text is.
#[tactic(auto, unfolding(crate::specs::HeaderReading::state_of))]
fn state_of(alloc: Global, text: &[u8]) -> Result<Option<WrittenState<'_>>, NoMemory>
    ensures { Gives state_seen result (state_of text.now) }
{
    let Some((word, parameters)) = token_with(alloc, text)? else {
        return Ok(None);
    };
    Ok(written_state(word, parameters.as_slice()))
}

/// The seconds that the digits stand for, where there are digits. `None` where they exceed 4294967295.
fn kept_seconds(digits: Option<&str>) -> Option<Option<u32>>
    ensures { result ≡ kept_seconds (option_map (λ d. number_of d.now) digits.entry) }
{
    match digits {
        Some(digits) => Some(Some(seconds_of(digits.as_bytes())?)),
        None => Some(None),
    }
}

/// A copy of the text in small letters, where there is one.
fn some_small_copy(alloc: Global, text: Option<&str>) -> Result<Option<Text>, NoMemory>
    ensures { IfOk result (λ o. o ≡ option_map (λ t. str_to_ascii_lowercase t.now) text.entry) }
{
    match text {
        Some(text) => Ok(Some(Text::small(alloc, text)?)),
        None => Ok(None),
    }
}

/// What the text says as a Subscription-State value.
fn state(alloc: Global, text: &[u8]) -> Result<StateValue, HeaderError>
    ensures { Answers result (outcome state_fits (state_of text.now)) }
{
    let Some(written) = state_of(alloc, text)? else {
        return Err(HeaderError::Grammar);
    };
    let Some(expires) = kept_seconds(written.expires) else {
        return Err(HeaderError::TooLarge);
    };
    let Some(retry_after) = kept_seconds(written.retry_after) else {
        return Err(HeaderError::TooLarge);
    };
    let word = Text::small(alloc, written.word)?;
    let reason = some_small_copy(alloc, written.reason)?;
    Ok(StateValue::of(word, expires, reason, retry_after))
}

/// Reads the value of a Subscription-State header. Outer SP and HT are allowed; parameters other than `expires`, `reason` and
/// `retry-after` are dropped.
pub fn read_state(alloc: Global, text: &[u8]) -> Result<StateValue, HeaderError>
    // What is answered is what the text says, unless a growth was refused.
    ensures found { IsSaid IsState StateFits text.now result }
    // What the text says is answered, unless a growth was refused.
    ensures only { (said : Result values.StateValue HeaderError)
        → Says IsState StateFits text.now said → Answers result said }
{
    state(alloc, text)
}

/// Appends the written form of a Subscription-State value: the word, then `;expires=n`, `;reason=x`, `;retry-after=n` as far as present. After
/// an error a part of it may stand there.
fn append_state(state: &StateValue, out: &mut String) -> Result<(), NoMemory>
    ensures { OnOk result (string_bytes out.new ≡ string_bytes out.old ++ state_text state.now) }
{
    out.push_str(state.word())?;
    append_seconds("expires", state.expires(), out)?;
    append_parameter("reason", state.reason(), out)?;
    append_seconds("retry-after", state.retry_after(), out)?;
    Ok(())
}

/// Appends the written form of a Subscription-State value. After an error the bytes are as they were.
pub fn write_state(alloc: Global, state: &StateValue, out: &mut Vec<u8>) -> Result<(), NoMemory>
    ensures ok { OnOk result (out.new.items ≡ out.old.items ++ state_text state.now) }
    ensures err { OnErr result (out.new.items ≡ out.old.items) }
{
    let mut text = String::new(alloc);
    append_state(state, &mut text)?;
    append_text(text.as_str(), out)?;
    Ok(())
}
