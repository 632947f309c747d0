//! Why the value of `Authorization` is not read.
ghost use Rattle.std.specs.Prelude.{◌≡◌};
ghost use Rattle.digest.specs.declared.error.CredentialsError.TheVariants as error;
ghost use Rattle.digest.specs.Errors.{error_number};

use crate::directive::Directive;
use sip_text::NoMemory as NoRoom;
use std::alloc::{AllocError, AllocFailed};
use thiserror::Error;

/// Why the value of `Authorization` is not read.
#[derive(Clone, Copy, Debug, PartialEq, Eq, Error)]
pub enum CredentialsError {
    /// A growth was refused.
    #[error("out of memory")]
    NoMemory,
    /// The scheme isn't `Digest`.
    #[error("not of the scheme Digest")]
    OtherScheme,
    /// No list of parameters stands behind the scheme.
    #[error("not a list of parameters")]
    Malformed,
    /// The parameter stands twice.
    #[error("{0} stands twice")]
    Twice(Directive),
    /// The parameter is needed and isn't there.
    #[error("{0} is missing")]
    Missing(Directive),
    /// The parameter has a value that it can't have: no UTF-8, a `qop` that isn't `auth`, an `nc` that isn't 8 hex digits.
    #[error("a bad value of {0}")]
    Bad(Directive),
}

impl CredentialsError {
    /// The number of the error: 1 NoMemory, 2 OtherScheme, 3 Malformed; 100 Twice, 200 Missing and 300 Bad, plus the parameter's number.
    pub fn number(self) -> u32
        ensures { result ≡ error_number self }
    {
        match self {
            CredentialsError::NoMemory => 1,
            CredentialsError::OtherScheme => 2,
            CredentialsError::Malformed => 3,
            CredentialsError::Twice(directive) => 100 + directive.number(),
            CredentialsError::Missing(directive) => 200 + directive.number(),
            CredentialsError::Bad(directive) => 300 + directive.number(),
        }
    }
}

impl From<NoRoom> for CredentialsError {
    ghost from_gives = { λ _ e. e ≡ error.NoMemory };

    fn from(_refused: NoRoom) -> CredentialsError {
        CredentialsError::NoMemory
    }
}

impl From<AllocError> for CredentialsError {
    ghost from_gives = { λ _ e. e ≡ error.NoMemory };

    fn from(_refused: AllocError) -> CredentialsError {
        CredentialsError::NoMemory
    }
}

impl<T: Drop> From<AllocFailed<T>> for CredentialsError {
    ghost from_gives = { λ _ e. e ≡ error.NoMemory };

    fn from(_refused: AllocFailed<T>) -> CredentialsError {
        CredentialsError::NoMemory
    }
}
