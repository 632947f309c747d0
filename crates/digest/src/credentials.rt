//! What a client says in `Authorization`.
ghost use Rattle.std.specs.Prelude.{◌≡◌, List, option_map};
ghost use Rattle.sip_text.specs.Bytes.{Finds, Gives};
ghost use Rattle.digest.specs.Credentials as spec;
ghost use Rattle.digest.specs.Credentials.{algorithm_named, protection_said, Reads, Says};
ghost use Rattle.digest.specs.Grammar.{HasParams};
ghost use Rattle.digest.specs.Params.{AuthParam as ParamSeen};
ghost use Rattle.digest.specs.Reading.{after_scheme, realm_among, realm_said};
ghost use Rattle.digest.specs.Views.{all_seen};

use crate::algorithm::Algorithm;
use crate::directive::Directive;
use crate::error::CredentialsError;
use crate::param::{AuthParam, count_named, first_named, value_text};
use sip_text::{Class, NoMemory, Text, elements_of, span_at};
use std::alloc::Global;

/// What a response is made over besides the password, the nonce and the target.
#[derive(Debug, Drop)]
pub enum Protection {
    /// Without `qop`, as RFC 2069 had it.
    Old,
    /// `qop=auth`, with `nc`, how many requests the client sent with this nonce, in 8 hex digits, and `cnonce`, a text of the client's own.
    Auth(Text, Text),
}

/// What a client says in `Authorization` to show that it knows a password. Texts stand here without their quotes and backslashes.
#[derive(Debug, Drop)]
pub struct Credentials {
    pub username: Text,
    pub realm: Text,
    pub nonce: Text,
    /// The digest-uri.
    pub uri: Text,
    pub response: Text,
    /// None: one that isn't known here. MD5 where none is named.
    pub algorithm: Option<Algorithm>,
    /// It is read and used for nothing, since no challenge has one.
    pub opaque: Option<Text>,
    pub protection: Protection,
}

/// What stands behind the scheme and spaces, if the scheme is Digest.
#[tactic(auto, unfolding(crate::specs::Reading::after_scheme))]
fn after_scheme(text: &[u8]) -> Option<&[u8]>
    ensures { Finds (λ x. x.now) result (after_scheme text.now) }
{
    let (scheme, rest) = span_at(Class::Token, text)?;
    let (_, list) = span_at(Class::Space, rest)?;
    if scheme.eq_ignore_ascii_case(b"Digest") {
        Some(list)
    } else {
        None
    }
}

/// What the one parameter of this name says, if there is one.
#[tactic(auto, using(sip_text::proofs::OverViews::over_views), unfolding(crate::specs::Credentials::optional))]
fn optional(
    alloc: Global,
    directive: Directive,
    params: &[AuthParam<'_>],
) -> Result<Option<Text>, CredentialsError>
    ensures { Reads (λ o. o) result (spec.optional directive (all_seen params.now)) }
{
    if count_named(directive, params) > 1 {
        return Err(CredentialsError::Twice(directive));
    }
    let Some(param) = first_named(directive, params) else {
        return Ok(None);
    };
    match value_text(alloc, param.value)? {
        Some(text) => Ok(Some(text)),
        None => Err(CredentialsError::Bad(directive)),
    }
}

/// What the first parameter `realm` says, if there is one.
#[tactic(auto, using(sip_text::proofs::OverViews::over_views))]
fn realm_among(alloc: Global, params: &[AuthParam<'_>]) -> Result<Option<Text>, NoMemory>
    ensures { Gives (λ t. t) result (realm_among (all_seen params.now)) }
{
    let Some(param) = first_named(Directive::Realm, params) else {
        return Ok(None);
    };
    match value_text(alloc, param.value)? {
        Some(realm) => Ok(Some(realm)),
        None => Ok(None),
    }
}

/// The realm that the value of an `Authorization` header names, if it names one: what its first parameter `realm` says. Its error is want of
/// memory.
#[tactic(auto, unfolding(crate::specs::Reading::realm_said))]
pub fn realm(alloc: Global, value: &[u8]) -> Result<Option<Text>, NoMemory>
    ensures { Gives (λ t. t) result (realm_said value.now) }
{
    let Some(list) = after_scheme(value) else {
        return Ok(None);
    };
    let Some(params) = elements_of::<AuthParam>(alloc, list)? else {
        return Ok(None);
    };
    match realm_among(alloc, &params)? {
        Some(realm) => Ok(Some(realm)),
        None => Ok(None),
    }
}

/// The text of a parameter that is needed.
fn required(directive: Directive, text: Option<Text>) -> Result<Text, CredentialsError>
    ensures { result ≡ spec.required directive text }
{
    text.ok_or(CredentialsError::Missing(directive))
}

/// What the one parameter of this name says.
#[tactic(auto, unfolding(crate::specs::Credentials::needed))]
fn needed(
    alloc: Global,
    directive: Directive,
    params: &[AuthParam<'_>],
) -> Result<Text, CredentialsError>
    ensures { Reads (λ t. t) result (spec.needed directive (all_seen params.now)) }
{
    let text = optional(alloc, directive, params)?;
    required(directive, text)
}

/// The algorithm that is named: MD5 where none is, and none where an unknown one is.
fn algorithm_named(text: Option<&Text>) -> Option<Algorithm>
    ensures { result ≡ algorithm_named (option_map (λ t. t.now) text.entry) }
{
    let Some(text) = text else {
        return Some(Algorithm::Md5);
    };
    if text.as_str().eq_ignore_ascii_case("MD5") {
        Some(Algorithm::Md5)
    } else if text.as_str().eq_ignore_ascii_case("SHA-256") {
        Some(Algorithm::Sha256)
    } else {
        None
    }
}

/// Whether each byte is a hex digit, of either case.
fn is_hex(text: &str) -> bool
    ensures { result ≡ spec.is_hex text.now }
{
    text.bytes().all(|byte| matches!(byte, b'0'..=b'9' | b'a'..=b'f' | b'A'..=b'F'))
}

/// Whether it is 8 hex digits.
fn is_count(text: &str) -> bool
    ensures { result ≡ spec.is_count text.now }
{
    text.len() == 8 && is_hex(text)
}

/// What `qop`, `nc` and `cnonce` say together.
#[tactic(auto, unfolding(crate::specs::Credentials::protection_said))]
fn protection_said(
    qop: Option<Text>,
    nc: Option<Text>,
    cnonce: Option<Text>,
) -> Result<Protection, CredentialsError>
    ensures { result ≡ protection_said qop nc cnonce }
{
    let Some(qop) = qop else {
        return Ok(Protection::Old);
    };
    if !qop.as_str().eq_ignore_ascii_case("auth") {
        return Err(CredentialsError::Bad(Directive::Qop));
    }
    let count = required(Directive::Nc, nc)?;
    let client_nonce = required(Directive::Cnonce, cnonce)?;
    if is_count(count.as_str()) {
        Ok(Protection::Auth(count, client_nonce))
    } else {
        Err(CredentialsError::Bad(Directive::Nc))
    }
}

/// What the parameters say.
#[tactic(auto, unfolding(crate::specs::Credentials::credentials_said))]
fn credentials_said(
    alloc: Global,
    params: &[AuthParam<'_>],
) -> Result<Credentials, CredentialsError>
    ensures { Reads (λ c. c) result (spec.credentials_said (all_seen params.now)) }
{
    let username = needed(alloc, Directive::Username, params)?;
    let realm = needed(alloc, Directive::Realm, params)?;
    let nonce = needed(alloc, Directive::Nonce, params)?;
    let uri = needed(alloc, Directive::Uri, params)?;
    let response = needed(alloc, Directive::Response, params)?;
    let algorithm = optional(alloc, Directive::Algorithm, params)?;
    let opaque = optional(alloc, Directive::Opaque, params)?;
    let qop = optional(alloc, Directive::Qop, params)?;
    let nc = optional(alloc, Directive::Nc, params)?;
    let cnonce = optional(alloc, Directive::Cnonce, params)?;
    let protection = protection_said(qop, nc, cnonce)?;
    Ok(Credentials {
        username,
        realm,
        nonce,
        uri,
        response,
        algorithm: algorithm_named(algorithm.as_ref()),
        opaque,
        protection,
    })
}

impl Credentials {
    /// Reads the value of an `Authorization` header, without spaces around it. Parameters may stand in any order, and unknown ones are skipped.
    pub fn read(alloc: Global, value: &str) -> Result<Credentials, CredentialsError>
        // What is answered is what the value says, unless memory runs out.
        ensures said { Says value.now result }
        // What the value says is answered, unless memory runs out.
        ensures only { (params : List ParamSeen) → HasParams value.now params → Reads (λ c. c) result (spec.credentials_said params) }
    {
        let Some(list) = after_scheme(value.as_bytes()) else {
            return Err(CredentialsError::OtherScheme);
        };
        let Some(params) = elements_of::<AuthParam>(alloc, list)? else {
            return Err(CredentialsError::Malformed);
        };
        credentials_said(alloc, &params)
    }
}
