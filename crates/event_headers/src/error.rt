//! Why a call on headers is refused.

ghost use Rattle.std.specs.Prelude.{◌≡◌};
ghost use Rattle.event_headers.specs.Codes.{header_number};
ghost use Rattle.event_headers.specs.declared.error.HeaderError.TheVariants as errors;

use sip_text::NoMemory;
use std::alloc::{AllocError, AllocFailed};
use thiserror::Error;

/// Why the value of a header isn't read.
#[derive(Clone, Copy, Debug, PartialEq, Eq, Error)]
pub enum HeaderError {
    /// The text isn't in the header's grammar: a foreign or broken peer, or another header's value.
    #[error("not in the header's grammar")]
    Grammar,
    /// It is in the grammar, and a number that is kept exceeds 4294967295.
    #[error("a number exceeds 4294967295")]
    TooLarge,
    /// A growth was refused.
    #[error("out of memory")]
    NoMemory,
}

impl HeaderError {
    /// The number of the refusal: 1 Grammar, 2 TooLarge, 3 NoMemory.
    pub fn number(self) -> u32
        ensures { result ≡ header_number self }
    {
        match self {
            HeaderError::Grammar => 1,
            HeaderError::TooLarge => 2,
            HeaderError::NoMemory => 3,
        }
    }
}

impl From<NoMemory> for HeaderError {
    ghost from_gives = { λ _ e. e ≡ errors.NoMemory };

    fn from(_refused: NoMemory) -> HeaderError {
        HeaderError::NoMemory
    }
}

impl From<AllocError> for HeaderError {
    ghost from_gives = { λ _ e. e ≡ errors.NoMemory };

    fn from(_refused: AllocError) -> HeaderError {
        HeaderError::NoMemory
    }
}

impl<T: Drop> From<AllocFailed<T>> for HeaderError {
    ghost from_gives = { λ _ e. e ≡ errors.NoMemory };

    fn from(_refused: AllocFailed<T>) -> HeaderError {
        HeaderError::NoMemory
    }
}
