//! What the event headers say, as values.
ghost use Rattle.std.specs.Prelude.{◌≡◌, Some, decimal, option_map, string_bytes, IfOk, IfSome, IsSome, IsTrue, ◌↔◌};
ghost use Rattle.sip_text.specs.Grammar.{IsToken, IsSmallToken};
ghost use Rattle.event_headers.specs.Headers.{IsEventValue, IsStateValue, IsRangeValue};
ghost use Rattle.sip_text.specs.Tokens.{is_token, is_small_token};
ghost use Rattle.event_headers.specs.Values as values;

use sip_text::{Class, NoMemory, Text, all_in, some_copy};
use std::alloc::Global;
use std::marker::Model;

/// Whether the text is a token.
fn is_token(text: &str) -> bool
    ensures { IsTrue result ↔ IsToken text.now }
{
    !text.is_empty() && all_in(Class::Token, text.as_bytes())
}

/// Whether the text is a token without a capital letter.
fn is_small_token(text: &str) -> bool
    ensures { IsTrue result ↔ IsSmallToken text.now }
{
    is_token(text) && all_in(Class::Small, text.as_bytes())
}

/// The text of this string, where there is one.
fn some_text(text: Option<String>) -> Option<Text>
    ensures { result ≡ option_map string_bytes text }
{
    match text {
        Some(text) => Some(Text::new(text)),
        None => None,
    }
}

fn borrowed(text: &Option<Text>) -> Option<&str>
    ensures { option_map (λ t. t.now) result ≡ text.now }
{
    match text {
        Some(text) => Some(text.as_str()),
        None => None,
    }
}

/// An Event value (RFC 6665 section 8.2.1): the event package, and the `id` that tells apart the subscriptions of one dialog. Both are
/// tokens.
#[derive(Debug, Drop)]
pub struct EventValue {
    package: Text,
    id: Option<Text>,
}

impl Model for EventValue {
    ghost use Rattle.event_headers.specs.Headers.{IsEventValue};
    ghost use Rattle.event_headers.specs.Values as values;

    ghost Value = { values.EventValue };

    ghost view = { λ e. record { «package» = e.package; id = e.id } };

    ghost invariant = { λ e. IsEventValue (record { «package» = e.package; id = e.id }) };
}

impl EventValue {
    /// The value of this package and id. It takes no memory, and is `None` where one of them isn't a token.
    pub fn new(package: String, id: Option<String>) -> Option<EventValue>
        ensures value { IfSome result
            (λ e. e ≡ record { «package» = string_bytes «package»; id = option_map string_bytes id }) }
        ensures when { IsSome result
            ↔ IsEventValue (record { «package» = string_bytes «package»; id = option_map string_bytes id }) }
    {
        if !is_token(package.as_str()) {
            return None;
        }
        if let Some(id) = &id
            && !is_token(id.as_str())
        {
            return None;
        }
        Some(EventValue {
            package: Text::new(package),
            id: some_text(id),
        })
    }

    /// The value of these tokens.
    pub(crate) fn of(package: Text, id: Option<Text>) -> EventValue
        requires { IsEventValue (record { «package» = «package»; id = id }) }
        ensures { result ≡ record { «package» = «package»; id = id } }
    {
        EventValue { package, id }
    }

    /// The value of this package, a token, and of a number as the id, as the subscription that a REFER makes has (RFC 3515 section 2.4.6).
    pub fn numbered(alloc: Global, package: &str, id: u32) -> Result<EventValue, NoMemory>
        requires { IsTrue (is_token «package».now) }
        ensures { IfOk result (λ e. e ≡ record { «package» = «package».now; id = Some (decimal id) }) }
    {
        let id = format!(in alloc; "{id}")?;
        let package = Text::of(alloc, package)?;
        Ok(EventValue {
            package,
            id: Some(Text::new(id)),
        })
    }

    /// Another value with the same package and id.
    pub fn copy(&self, alloc: Global) -> Result<EventValue, NoMemory>
        ensures { IfOk result (λ e. e ≡ self.now) }
    {
        let package = self.package.copy(alloc)?;
        let id = some_copy(alloc, self.id())?;
        Ok(EventValue { package, id })
    }

    /// Tells a proof that both are tokens. It does nothing.
    pub fn are_tokens(&self)
        ensures { IsEventValue self.now }
    {
        let _ = &self.package;
    }

    /// The event package.
    pub fn package(&self) -> &str
        ensures { result.now ≡ self.now.package }
    {
        self.package.as_str()
    }

    /// The id, where there is one.
    pub fn id(&self) -> Option<&str>
        ensures { option_map (λ t. t.now) result ≡ self.now.id }
    {
        borrowed(&self.id)
    }
}

/// A Subscription-State value (RFC 6665 section 8.2.3). Times are seconds; the word and the reason are tokens in small letters.
#[derive(Debug, Drop)]
pub struct StateValue {
    word: Text,
    expires: Option<u32>,
    reason: Option<Text>,
    retry_after: Option<u32>,
}

impl Model for StateValue {
    ghost use Rattle.event_headers.specs.Headers.{IsStateValue};
    ghost use Rattle.event_headers.specs.Values as values;

    ghost Value = { values.StateValue };

    ghost view = { λ s. record { word = s.word; expires = s.expires; reason = s.reason; retry_after = s.retry_after } };

    ghost invariant = { λ s. IsStateValue (record { word = s.word; expires = s.expires; reason = s.reason; retry_after = s.retry_after }) };
}

impl StateValue {
    /// The value of these parts. It takes no memory, and is `None` where the word or the reason isn't a token, or has a capital letter.
    pub fn new(
        word: String,
        expires: Option<u32>,
        reason: Option<String>,
        retry_after: Option<u32>,
    ) -> Option<StateValue>
        ensures value { IfSome result (λ s. s ≡ record {
          word = string_bytes word;
          expires = expires;
          reason = option_map string_bytes reason;
          retry_after = retry_after;
        }) }
        ensures when { IsSome result ↔ IsStateValue (record {
          word = string_bytes word;
          expires = expires;
          reason = option_map string_bytes reason;
          retry_after = retry_after;
        }) }
    {
        if !is_small_token(word.as_str()) {
            return None;
        }
        if let Some(reason) = &reason
            && !is_small_token(reason.as_str())
        {
            return None;
        }
        Some(StateValue {
            word: Text::new(word),
            expires,
            reason: some_text(reason),
            retry_after,
        })
    }

    /// The value of these tokens in small letters, and seconds.
    pub(crate) fn of(
        word: Text,
        expires: Option<u32>,
        reason: Option<Text>,
        retry_after: Option<u32>,
    ) -> StateValue
        requires { IsStateValue
            (record { word = word; expires = expires; reason = reason; retry_after = retry_after }) }
        ensures { result ≡ record { word = word; expires = expires; reason = reason; retry_after = retry_after } }
    {
        StateValue {
            word,
            expires,
            reason,
            retry_after,
        }
    }

    /// The value of copies of these words, which are tokens in small letters, and of these times.
    pub fn worded(
        alloc: Global,
        word: &str,
        expires: Option<u32>,
        reason: Option<&str>,
        retry_after: Option<u32>,
    ) -> Result<StateValue, NoMemory>
        requires word { IsTrue (is_small_token word.now) }
        requires reason { IfSome reason (λ r. IsTrue (is_small_token r.now)) }
        ensures { IfOk result (λ s. s ≡ record {
          word = word.now;
          expires = expires;
          reason = option_map (λ r. r.now) reason.entry;
          retry_after = retry_after;
        }) }
    {
        let word = Text::of(alloc, word)?;
        let reason = some_copy(alloc, reason)?;
        Ok(StateValue {
            word,
            expires,
            reason,
            retry_after,
        })
    }

    /// The state of the subscription, in small letters.
    pub fn word(&self) -> &str
        ensures { result.now ≡ self.now.word }
    {
        self.word.as_str()
    }

    /// How long the subscription lasts, in seconds.
    pub fn expires(&self) -> Option<u32>
        ensures { result ≡ self.now.expires }
    {
        self.expires
    }

    /// Why it ended, in small letters.
    pub fn reason(&self) -> Option<&str>
        ensures { option_map (λ t. t.now) result ≡ self.now.reason }
    {
        borrowed(&self.reason)
    }

    /// After how many seconds to subscribe again.
    pub fn retry_after(&self) -> Option<u32>
        ensures { result ≡ self.now.retry_after }
    {
        self.retry_after
    }
}

/// A range of Accept (RFC 3261 section 20.1), in small letters. `*` stands for any type or subtype.
#[derive(Debug, Drop)]
pub struct Range {
    main: Text,
    sub: Text,
}

impl Model for Range {
    ghost use Rattle.event_headers.specs.Headers.{IsRangeValue};
    ghost use Rattle.event_headers.specs.Values as values;

    ghost Value = { values.Range };

    ghost view = { λ r. record { main = r.main; sub = r.sub } };

    ghost invariant = { λ r. IsRangeValue (record { main = r.main; sub = r.sub }) };
}

impl Range {
    /// The range of these two. It takes no memory, and is `None` where one of them isn't a token, or has a capital letter.
    pub fn new(main: String, sub: String) -> Option<Range>
        ensures value { IfSome result (λ r. r ≡ record { main = string_bytes main; sub = string_bytes sub }) }
        ensures when { IsSome result ↔ IsRangeValue (record { main = string_bytes main; sub = string_bytes sub }) }
    {
        if !is_small_token(main.as_str()) || !is_small_token(sub.as_str()) {
            return None;
        }
        Some(Range {
            main: Text::new(main),
            sub: Text::new(sub),
        })
    }

    /// The range of these tokens in small letters.
    pub(crate) fn of(main: Text, sub: Text) -> Range
        requires { IsRangeValue (record { main = main; sub = sub }) }
        ensures { result ≡ record { main = main; sub = sub } }
    {
        Range { main, sub }
    }

    /// The type, or `*`.
    pub fn main(&self) -> &str
        ensures { result.now ≡ self.now.main }
    {
        self.main.as_str()
    }

    /// The subtype, or `*`.
    pub fn sub(&self) -> &str
        ensures { result.now ≡ self.now.sub }
    {
        self.sub.as_str()
    }
}
