//! Parts of a Request-URI (RFC 3261 section 19.1).
#![tactic(auto, unfolding(crate::specs::Requests::is_sip_uri, crate::specs::Requests::user_part))]

ghost use Rattle.std.specs.Prelude.{◌≡◌};
ghost use Rattle.std.specs.List.{before_first};
ghost use Rattle.notifier_model.specs.Requests as spec;

/// Whether its scheme is `sip`, whose case is ignored.
pub fn is_sip_uri(uri: &str) -> bool
    ensures { result ≡ spec.is_sip_uri uri.now }
{
    match uri.split_once(':') {
        Some((scheme, _)) => scheme.eq_ignore_ascii_case("sip"),
        None => false,
    }
}

/// What stands in a text before the first colon, or all of it.
fn before_colon(text: &str) -> &str
    ensures { result.now ≡ before_first spec.is_colon text.now }
{
    match text.split_once(':') {
        Some((before, _)) => before,
        None => text,
    }
}

/// What stands between its first colon and the next `@`, without a password. It is empty where either is missing.
pub fn user_part(uri: &str) -> &str
    ensures { result.now ≡ spec.user_part uri.now }
{
    let Some((_, rest)) = uri.split_once(':') else {
        return "";
    };
    match rest.split_once('@') {
        Some((user, _)) => before_colon(user),
        None => "",
    }
}
