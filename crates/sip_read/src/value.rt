//! Values of headers. Those of the event headers are read as far as a message keeps them: None where a value isn't in its grammar, or a number
//! in it is too large.
ghost use Rattle.std.specs.Prelude.{◌≡◌, IfOk, Some, ◌-◌, option_map, ◌<◌};
ghost use Rattle.sip_read.specs.FieldsComputed.{KeptOf, event_kept, expires_kept};
ghost use Rattle.sip_read.specs.MessageComputed.{accept_field};
ghost use Rattle.sip_read.specs.ReferSub.{truth_of};
ghost use Rattle.sip_read.specs.ValuesComputed.{refer_sub_of, call_id_of, sequence_of};
ghost use Rattle.sip_text.specs.Bytes.{Finds, Gives};
ghost use Rattle.sip_text.specs.Views.{view};
ghost use Rattle.sip_read.specs.ViasComputed.{taken, slashed_at, version_at, protocol_at, marks_with, marks_at, some_text_of, hop_at};
ghost use Rattle.sip_read.specs.Views.{hop, marks};
ghost use Rattle.sip_read.specs.AddressesComputed.{has_scheme, angle_at, bare_at, after_display, bracketed_at, address_at, party_of, contact_of};
ghost use Rattle.sip_read.specs.LineAnswers.{Takes};
ghost use Rattle.std.specs.List.{list_all};
ghost use Rattle.sip_read.specs.Calls.{is_visible};
ghost use Rattle.sip_read.specs.ItemsComputed.{route_at};

use crate::error::ReadError;
use crate::message::Party;
use event_headers::{EventValue, HeaderError, Range, read_accept, read_event, read_expires};
use sip_text::{
    Class, Field, NoMemory, Parameter, Text, Values, after_byte, are_parameters, begins,
    capped_number, parameter_at, quoted_at, skip_spaces, some_copy, some_of, span_at, split_front,
    text_of, token_with, word_among, word_at, word_of,
};
use std::alloc::Global;

/// The value, or None where the text says none.
fn kept<T: Drop>(answer: Result<T, HeaderError>) -> Result<Option<T>, NoMemory>
    ensures { KeptOf answer result }
{
    match answer {
        Ok(value) => Ok(Some(value)),
        Err(HeaderError::Grammar) | Err(HeaderError::TooLarge) => Ok(None),
        Err(HeaderError::NoMemory) => Err(NoMemory),
    }
}

pub fn event_of(alloc: Global, value: &[u8]) -> Result<Option<EventValue>, NoMemory>
    ensures { IfOk result (λ o. o ≡ event_kept value.now) }
{
    kept(read_event(alloc, value))
}

pub fn expires_of(value: &[u8]) -> Result<Option<u32>, NoMemory>
    ensures { IfOk result (λ o. o ≡ expires_kept value.now) }
{
    kept(read_expires(value))
}

/// The truth that a word tells. Case is ignored.
fn truth_of(word: &str) -> Option<bool>
    ensures { result ≡ truth_of word.now }
{
    if word.eq_ignore_ascii_case("true") {
        Some(true)
    } else if word.eq_ignore_ascii_case("false") {
        Some(false)
    } else {
        None
    }
}

#[tactic(auto, unfolding(crate::specs::ValuesComputed::refer_sub_of))]
pub fn refer_sub_of(alloc: Global, value: &[u8]) -> Result<Option<bool>, NoMemory>
    ensures { IfOk result (λ o. o ≡ refer_sub_of value.now) }
{
    let Some((word, _)) = token_with(alloc, value)? else {
        return Ok(None);
    };
    Ok(truth_of(word))
}

/// What all Accept lines say, joined with commas.
pub fn accept_of(alloc: Global, joined: &[u8]) -> Result<Field<Values<Range>>, NoMemory>
    ensures { IfOk result (λ f. f ≡ accept_field (Some joined.now)) }
{
    match kept(read_accept(alloc, joined))? {
        Some(ranges) => Ok(Field::Value(ranges)),
        None => Ok(Field::Bad),
    }
}

/// A Via value, as it stands in the line.
#[derive(Clone, Copy)]
pub struct Hop<'a> {
    pub text: &'a str,
    pub sent_by: &'a str,
    pub branch: Option<&'a str>,
    pub bare_rport: bool,
}

/// The text without the rest that stands at its end.
pub fn before<'a>(text: &'a [u8], rest: &[u8]) -> &'a [u8]
    ensures { result.now ≡ taken text.now rest.now }
{
    text.split_at(text.len().saturating_sub(rest.len())).0
}

/// What follows this word, a slash, and the spaces around it.
#[tactic(auto, unfolding(crate::specs::ViasComputed::slashed_at))]
fn slashed_at<'a>(word: &[u8], text: &'a [u8]) -> Option<&'a [u8]>
    ensures { Finds (λ x. x.now) result (slashed_at word.now text.now) }
{
    let (name, rest) = span_at(Class::Token, text)?;
    let rest = after_byte(b'/', skip_spaces(rest))?;
    if name.eq_ignore_ascii_case(word) {
        Some(skip_spaces(rest))
    } else {
        None
    }
}

/// What follows the name and the version of SIP, and the spaces around the slashes. Almost all write none: that is looked at first.
#[tactic(auto, unfolding(crate::specs::ViasComputed::slashed_at, crate::specs::ViasComputed::version_at))]
fn version_at(text: &[u8]) -> Option<&[u8]>
    ensures { Finds (λ x. x.now) result (version_at text.now) }
{
    if let Some(rest) = text.strip_prefix(b"SIP/2.0/") {
        return Some(skip_spaces(rest));
    }
    let rest = slashed_at(b"SIP", text)?;
    slashed_at(b"2.0", rest)
}

/// What follows the protocol.
#[tactic(auto, unfolding(crate::specs::ViasComputed::protocol_at))]
fn protocol_at(text: &[u8]) -> Option<&[u8]>
    ensures { Finds (λ x. x.now) result (protocol_at text.now) }
{
    let rest = version_at(text)?;
    let (_, rest) = span_at(Class::Token, rest)?;
    let (_, rest) = span_at(Class::Space, rest)?;
    Some(rest)
}

/// The parameters of a Via that decide.
#[derive(Clone, Copy)]
struct Marks<'a> {
    /// The first `branch`.
    branch: Option<Parameter<'a>>,
    /// Whether a parameter `rport` stands there without a value.
    bare_rport: bool,
}

impl<'a> Marks<'a> {
    /// These and a further parameter.
    fn with(self, parameter: Parameter<'a>) -> Marks<'a>
        ensures { marks result ≡ marks_with (marks self.entry) (view parameter.entry) }
    {
        let is_branch = self.branch.is_none() && parameter.has_name(b"branch");
        Marks {
            branch: if is_branch {
                Some(parameter)
            } else {
                self.branch
            },
            bare_rport: self.bare_rport
                || parameter.has_name(b"rport") && parameter.value.is_none(),
        }
    }
}

/// What the parameters at the front mark, and the rest.
#[tactic(auto, unfolding(crate::specs::ViasComputed::marks_at))]
fn marks_at(text: &[u8]) -> Option<(Marks<'_>, &[u8])>
    ensures { Finds (λ x. (marks x.0, x.1.now)) result (marks_at text.now) }
{
    let mut marks = Marks {
        branch: None,
        bare_rport: false,
    };
    let mut rest = text;
    while begins(b';', skip_spaces(rest)) {
        let (parameter, after) = parameter_at(rest)?;
        marks = marks.with(parameter);
        rest = after;
    }
    Some((marks, rest))
}

/// The text of a branch, where it has a value.
fn branch_text(bytes: Option<&[u8]>) -> Option<Option<&str>>
    ensures { Finds (λ o. option_map (λ t. t.now) o) result (some_text_of (option_map (λ t. t.now) bytes.entry)) }
{
    match bytes {
        None => Some(None),
        Some(bytes) => Some(Some(text_of(bytes)?)),
    }
}

/// A Via value at the front, and the rest.
#[tactic(auto, unfolding(crate::specs::ViasComputed::hop_at))]
pub fn hop_at(text: &[u8]) -> Option<(Hop<'_>, &[u8])>
    ensures { Finds (λ x. (hop x.0, x.1.now)) result (hop_at text.now) }
{
    let rest = protocol_at(text)?;
    let (sent_by, rest) = word_at(Class::Host, rest)?;
    let (marks, rest) = marks_at(rest)?;
    let branch = branch_text(marks.branch.and_then(|it| it.value))?;
    let text = text_of(before(text, rest))?;
    Some((
        Hop {
            text,
            sent_by,
            branch,
            bare_rport: marks.bare_rport,
        },
        rest,
    ))
}

/// Whether it begins with a scheme and a colon, and goes on.
fn has_scheme(uri: &[u8]) -> bool
    ensures { result ≡ has_scheme uri.now }
{
    match uri {
        [first, others @ ..] if first.is_ascii_alphabetic() => {
            let (_, rest) = split_front(Class::Scheme, others);
            matches!(rest, [b':', _, ..])
        }
        _ => false,
    }
}

/// The uri up to the closing bracket, and what follows that.
#[tactic(auto, unfolding(crate::specs::AddressesComputed::angle_at))]
fn angle_at(inner: &[u8]) -> Option<(&[u8], &[u8])>
    ensures { Finds (λ x. (x.0.now, x.1.now)) result (angle_at inner.now) }
{
    let (uri, rest) = span_at(Class::Uri, inner)?;
    let after = after_byte(b'>', rest)?;
    has_scheme(uri).then_some((uri, after))
}

/// The uri without brackets at the front, and the rest.
#[tactic(auto, unfolding(crate::specs::AddressesComputed::bare_at))]
fn bare_at(text: &[u8]) -> Option<(&[u8], &[u8])>
    ensures { Finds (λ x. (x.0.now, x.1.now)) result (bare_at text.now) }
{
    let (uri, rest) = span_at(Class::Bare, text)?;
    has_scheme(uri).then_some((uri, rest))
}

/// What follows the display name at the front, which may be empty.
#[tactic(auto, unfolding(crate::specs::AddressesComputed::after_display))]
fn after_display(text: &[u8]) -> Option<&[u8]>
    ensures { Finds (λ x. x.now) result (after_display text.now) }
{
    match text {
        [b'"', ..] => Some(quoted_at(text)?.1),
        _ => Some(split_front(Class::Display, text).1),
    }
}

/// The uri in the angle brackets at the front, behind a display name, and what follows the brackets.
#[tactic(auto, unfolding(crate::specs::AddressesComputed::bracketed_at))]
pub fn bracketed_at(text: &[u8]) -> Option<(&[u8], &[u8])>
    ensures { Finds (λ x. (x.0.now, x.1.now)) result (bracketed_at text.now) }
{
    let rest = after_display(text)?;
    let inner = after_byte(b'<', skip_spaces(rest))?;
    angle_at(inner)
}

/// The uri of the address at the front, and what follows the address.
#[tactic(auto, unfolding(crate::specs::AddressesComputed::address_at))]
fn address_at(text: &[u8]) -> Option<(&[u8], &[u8])>
    ensures { Finds (λ x. (x.0.now, x.1.now)) result (address_at text.now) }
{
    let inner = after_display(text).and_then(|rest| after_byte(b'<', skip_spaces(rest)));
    match inner {
        Some(inner) => angle_at(inner),
        None => bare_at(text),
    }
}

/// The From or To that the value is.
#[tactic(auto, unfolding(crate::specs::AddressesComputed::party_of, sip_text::specs::Reading::word_among))]
pub fn party_of(alloc: Global, value: &[u8]) -> Result<Party, ReadError>
    ensures { Takes (λ p. p) result (party_of value.now) }
{
    let (_, rest) = address_at(value).ok_or(ReadError::BadLine)?;
    let tag = word_among(Class::Token, b"tag", rest).ok_or(ReadError::BadLine)?;
    let text = text_of(value).ok_or(ReadError::BadLine)?;
    let text = Text::of(alloc, text)?;
    let tag = some_copy(alloc, tag)?;
    Ok(Party { text, tag })
}

/// The uri of the one address that the value is.
#[tactic(auto, using(crate::proofs::Parties::contact_is, crate::proofs::Parties::no_contact), unfolding(crate::specs::AddressesComputed::contact_of))]
pub fn contact_of(alloc: Global, value: &[u8]) -> Result<Option<Text>, NoMemory>
    ensures { IfOk result (λ o. o ≡ contact_of value.now) }
{
    let Some((uri, rest)) = address_at(value) else {
        return Ok(None);
    };
    if are_parameters(rest) {
        some_copy(alloc, text_of(uri))
    } else {
        Ok(None)
    }
}

fn all_visible(text: &[u8]) -> bool
    ensures { result ≡ list_all is_visible text.now }
{
    text.iter().all(|byte| matches!(*byte, b'!'..=b'~'))
}

/// The Call-ID that the value is: one or more bytes from `!` to `~`.
#[tactic(auto, unfolding(crate::specs::ValuesComputed::call_id_of))]
pub fn call_id_of(alloc: Global, value: &[u8]) -> Result<Text, ReadError>
    ensures { Takes (λ t. t) result (call_id_of value.now) }
{
    if value.is_empty() || !all_visible(value) {
        return Err(ReadError::BadLine);
    }
    let text = text_of(value).ok_or(ReadError::BadLine)?;
    Ok(Text::of(alloc, text)?)
}

/// The number, below 2^31, and the method of a CSeq.
#[derive(Drop)]
pub struct Sequence {
    pub number: u32,
    pub method: Text,
}

/// The CSeq that the value is.
#[tactic(auto, unfolding(crate::specs::ValuesComputed::sequence_of))]
pub fn sequence_of(alloc: Global, value: &[u8]) -> Result<Sequence, ReadError>
    ensures { Takes (λ s. s) result (sequence_of value.now) }
{
    let (digits, rest) = span_at(Class::Digit, value).ok_or(ReadError::BadLine)?;
    let (_, rest) = span_at(Class::Space, rest).ok_or(ReadError::BadLine)?;
    let method = word_of(Class::Token, rest).ok_or(ReadError::BadLine)?;
    let number = capped_number(digits);
    if number >= 1 << 31 {
        return Err(ReadError::BadLine);
    }
    let method = Text::of(alloc, method)?;
    Ok(Sequence {
        number: number as u32,
        method,
    })
}

/// A header whose lines are lists, and bad where one value is.
#[derive(Clone, Copy)]
pub enum Listed {
    Via,
    Require,
    RecordRoute,
}
/// An address in angle brackets with its parameters at the front, and the rest.
#[tactic(auto, unfolding(crate::specs::ItemsComputed::route_at))]
pub fn route_at(alloc: Global, text: &[u8]) -> Result<Option<(&str, &[u8])>, NoMemory>
    ensures { Gives (λ x. (x.0.now, x.1.now)) result (route_at text.now) }
{
    let Some((_, rest)) = bracketed_at(text) else {
        return Ok(None);
    };
    let Some((_, rest)) = some_of(alloc, rest)? else {
        return Ok(None);
    };
    match text_of(before(text, rest)) {
        Some(route) => Ok(Some((route, rest))),
        None => Ok(None),
    }
}
