//! One parameter of `Authorization`, as it stands in the text.
ghost use Rattle.std.specs.Prelude.{◌≡◌, ◌≤◌, length, map, find, count_by, false, IfOk, IfSome};
ghost use Rattle.sip_text.specs.Bytes.{Finds, Gives};
ghost use Rattle.sip_text.specs.Reading.{value_at};
ghost use Rattle.digest.specs.Params as spec;
ghost use Rattle.digest.specs.Params.{is_named, unescaped, value_bytes, value_text};
ghost use Rattle.digest.specs.Views.{seen};
ghost use Rattle.digest.specs.Reading.{auth_param_at};

use crate::directive::Directive;
use sip_text::{
    Class, Element, NoMemory, Text, after_byte, quoted_at, skip_spaces, span_at, text_of,
};
use std::alloc::Global;

/// A parameter of `Authorization`, as it stands in the text.
#[derive(Clone, Copy)]
pub(crate) struct AuthParam<'a> {
    pub name: &'a [u8],
    /// With its quotes, where it is quoted.
    pub value: &'a [u8],
}

impl AuthParam<'_> {
    /// Whether it is this one. Names ignore case.
    pub fn is_named(&self, directive: Directive) -> bool
        ensures { result ≡ is_named directive (seen self.now) }
    {
        self.name.eq_ignore_ascii_case(directive.name().as_bytes())
    }
}

/// A value at the front, with its quotes where it is quoted, and the rest.
#[tactic(auto, unfolding(sip_text::specs::Reading::value_at))]
fn value_at(text: &[u8]) -> Option<(&[u8], &[u8])>
    ensures { Finds (λ x. (x.0.now, x.1.now)) result (value_at text.now) }
{
    match text {
        [b'"', ..] => quoted_at(text),
        _ => span_at(Class::Value, text),
    }
}

/// A parameter at the front, and the rest.
#[tactic(auto, unfolding(crate::specs::Reading::auth_param_at))]
fn auth_param_at(text: &[u8]) -> Option<(AuthParam<'_>, &[u8])>
    ensures { Finds (λ x. (seen x.0, x.1.now)) result (auth_param_at text.now) }
{
    let (name, rest) = span_at(Class::Token, text)?;
    let rest = after_byte(b'=', skip_spaces(rest))?;
    let (value, rest) = value_at(skip_spaces(rest))?;
    Some((AuthParam { name, value }, rest))
}

impl<'a> Element<'a> for AuthParam<'a> {
    ghost use Rattle.digest.specs.Params.{AuthParam};

    ghost Seen = { AuthParam };

    ghost use Rattle.digest.specs.Views.{seen};
    ghost use Rattle.digest.specs.Reading.{auth_param_at};

    ghost seen = { seen };

    ghost found = { auth_param_at };

    fn at(_alloc: Global, text: &'a [u8]) -> Result<Option<(Self, &'a [u8])>, NoMemory> {
        Ok(auth_param_at(text))
    }
}

/// How many of the parameters are this one.
pub(crate) fn count_named(directive: Directive, params: &[AuthParam<'_>]) -> usize
    ensures { result ≡ count_by (λ p. is_named directive (seen p)) params.now }
{
    params.iter().filter(|p| p.is_named(directive)).count()
}

/// The first of the parameters that is this one.
pub(crate) fn first_named<'a>(
    directive: Directive,
    params: &[AuthParam<'a>],
) -> Option<AuthParam<'a>>
    ensures { result ≡ find (λ p. is_named directive (seen p)) params.now }
{
    params.iter().copied().find(|p| p.is_named(directive))
}

/// What a quoted text says, up to its closing quote: a backslash is dropped and takes the next byte along.
fn unescaped(alloc: Global, inside: &[u8]) -> Result<Vec<u8>, NoMemory>
    ensures { IfOk result (λ v. v.items ≡ unescaped false inside.now) }
{
    let mut bytes = Vec::new(alloc);
    let mut escaped = false;
    for byte in inside {
        if escaped {
            bytes.push(*byte)?;
            escaped = false;
        } else if *byte == b'"' {
            return Ok(bytes);
        } else if *byte == b'\\' {
            escaped = true;
        } else {
            bytes.push(*byte)?;
        }
    }
    Ok(bytes)
}

/// What a value says, without its quotes and backslashes.
fn value_bytes(alloc: Global, value: &[u8]) -> Result<Vec<u8>, NoMemory>
    ensures { IfOk result (λ v. v.items ≡ value_bytes value.now) }
{
    match value {
        [b'"', inside @ ..] => unescaped(alloc, inside),
        _ => Ok(Vec::from_slice(alloc, value)?),
    }
}

/// What a value says, as a text, if it is UTF-8.
pub(crate) fn value_text(alloc: Global, value: &[u8]) -> Result<Option<Text>, NoMemory>
    ensures { Gives (λ t. t) result (value_text value.now) }
{
    let bytes = value_bytes(alloc, value)?;
    match text_of(&bytes) {
        Some(text) => Ok(Some(Text::of(alloc, text)?)),
        None => Ok(None),
    }
}
