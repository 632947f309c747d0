//! Why words could not be read.
ghost use Rattle.std.specs.Prelude.{◌≡◌};
ghost use Rattle.arguments.specs.declared.error.OptionsError.TheVariants.{NoMemory};

use crate::flag::Flag;
use sip_text::{NoMemory as NoRoom, Text};
use std::alloc::{AllocError, AllocFailed};
use thiserror::Error;

/// Why the words of `notifyd serve` could not be read. The text names what is wrong, and of an option with a value the right form.
#[derive(Debug, Drop, Error)]
pub enum OptionsError {
    /// The last word is an option that needs a value.
    #[error("a value is missing: {0}")]
    Missing(Flag),
    /// The value of the option isn't in its form.
    #[error("a bad value: {0}")]
    Bad(Flag),
    /// A word with `-` in front that is no option.
    #[error("no such option: {word} (notifyd serve --help lists them)", word = .0.as_str())]
    Unknown(Text),
    /// A word that can't name a mailbox.
    #[error("no name of a mailbox: {word} (one or more characters, none of them a space, `@` or `:`)", word = .0.as_str())]
    NoMailbox(Text),
    /// A line of a file that looks like a range, but isn't one, or names no numbers or more than a million.
    #[error("no range of mailboxes: {word} (from a number up to one of as many digits, a million of them at most)", word = .0.as_str())]
    NoRange(Text),
    /// An allocation failed: out of memory.
    #[error("out of memory")]
    NoMemory,
}

impl From<NoRoom> for OptionsError {
    ghost from_gives = { λ _ e. e ≡ NoMemory };

    fn from(_refused: NoRoom) -> OptionsError {
        OptionsError::NoMemory
    }
}

impl From<AllocError> for OptionsError {
    ghost from_gives = { λ _ e. e ≡ NoMemory };

    fn from(_refused: AllocError) -> OptionsError {
        OptionsError::NoMemory
    }
}

impl<T: Drop> From<AllocFailed<T>> for OptionsError {
    ghost from_gives = { λ _ e. e ≡ NoMemory };

    fn from(_refused: AllocFailed<T>) -> OptionsError {
        OptionsError::NoMemory
    }
}
