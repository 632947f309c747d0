//! Why a script could not be run.
ghost use Rattle.std.specs.Prelude.{◌≡◌};
ghost use Rattle.scripts.specs.Errors.{number_of_error};
ghost use Rattle.scripts.specs.declared.error.ScriptError.TheVariants.{NoMemory};

use sip_text::NoMemory as NoRoom;
use std::alloc::{AllocError, AllocFailed};
use thiserror::Error;

/// Why a script could not be run.
#[derive(Clone, Copy, Debug, PartialEq, Eq, Error)]
pub enum ScriptError {
    /// The bytes are no script, or too many, or the line is none that may control a server: the author wrote it wrongly, or it was cut.
    #[error("bad script")]
    BadScript,
    /// A read, a write or a flush failed, or a write took no byte: a closed pipe, a full disk. Of a crew also: a thread was refused.
    #[error("device fault")]
    Device,
    /// An allocation failed: out of memory.
    #[error("out of memory")]
    NoMemory,
}

impl ScriptError {
    /// The number by which the error is known outside: 1 for a bad script, 2 for a device, 3 for out of memory.
    pub fn number(self) -> u8
        ensures { result ≡ number_of_error self }
    {
        match self {
            ScriptError::BadScript => 1,
            ScriptError::Device => 2,
            ScriptError::NoMemory => 3,
        }
    }
}

impl From<NoRoom> for ScriptError {
    ghost from_gives = { λ _ e. e ≡ NoMemory };

    fn from(_refused: NoRoom) -> ScriptError {
        ScriptError::NoMemory
    }
}

impl From<AllocError> for ScriptError {
    ghost from_gives = { λ _ e. e ≡ NoMemory };

    fn from(_refused: AllocError) -> ScriptError {
        ScriptError::NoMemory
    }
}

impl<T: Drop> From<AllocFailed<T>> for ScriptError {
    ghost from_gives = { λ _ e. e ≡ NoMemory };

    fn from(_refused: AllocFailed<T>) -> ScriptError {
        ScriptError::NoMemory
    }
}
