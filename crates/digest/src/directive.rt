//! The parameters of `Authorization` that are known.
ghost use Rattle.std.specs.Prelude.{◌≡◌};
ghost use Rattle.digest.specs.Directives as spec;
ghost use Rattle.digest.specs.Directives.{directive_text};

use std::fmt;
use std::fmt::{Display, Formatter};

/// A parameter of `Authorization` that is known (RFC 7616 section 3.4).
#[derive(Clone, Copy, Debug, PartialEq, Eq, Drop)]
pub enum Directive {
    Username,
    Realm,
    Nonce,
    Uri,
    Response,
    Algorithm,
    Opaque,
    /// The quality of protection.
    Qop,
    /// How many requests the client sent with this nonce.
    Nc,
    /// The client's own nonce.
    Cnonce,
}

impl Directive {
    /// Its name, in small letters.
    pub fn name(self) -> &'static str
        ensures { result.now ≡ directive_text self }
    {
        match self {
            Directive::Username => "username",
            Directive::Realm => "realm",
            Directive::Nonce => "nonce",
            Directive::Uri => "uri",
            Directive::Response => "response",
            Directive::Algorithm => "algorithm",
            Directive::Opaque => "opaque",
            Directive::Qop => "qop",
            Directive::Nc => "nc",
            Directive::Cnonce => "cnonce",
        }
    }

    /// Its number, from 1 in the order of the variants.
    pub fn number(self) -> u32
        ensures { result ≡ spec.directive_number self }
    {
        match self {
            Directive::Username => 1,
            Directive::Realm => 2,
            Directive::Nonce => 3,
            Directive::Uri => 4,
            Directive::Response => 5,
            Directive::Algorithm => 6,
            Directive::Opaque => 7,
            Directive::Qop => 8,
            Directive::Nc => 9,
            Directive::Cnonce => 10,
        }
    }
}

impl Display for Directive {
    fn fmt<W: fmt::Write>(&self, f: &mut Formatter<W>) -> fmt::Result {
        f.write_str(self.name())
    }
}
