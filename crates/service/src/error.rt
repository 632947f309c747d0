//! Why a service doesn't run.
ghost use Rattle.std.specs.Prelude.{◌≡◌};
ghost use Rattle.service.specs.declared.error.RunError.TheVariants as error;
ghost use Rattle.service.specs.Refused.{of_go_on, of_start};

use crew::{GoOnError, StartError};
use sip_text::NoMemory;
use std::alloc::{AllocError, AllocFailed};
use thiserror::Error;

/// Why a service doesn't run.
#[derive(Clone, Copy, Debug, PartialEq, Eq, Error)]
pub enum RunError {
    /// The system refused a thread.
    #[error("the system refused a thread")]
    NoThread,
    /// A growth was refused: there is no memory.
    #[error("out of memory")]
    NoMemory,
    /// The number of the first desk that no worker can begin with: it is spent, or it is another worker's, or its limits give the outbox
    /// other room than those of the first desk.
    #[error("worker {0} can't go on")]
    BadDesk(u32),
}

impl From<NoMemory> for RunError {
    ghost from_gives = { λ _ e. e ≡ error.NoMemory };

    fn from(_refused: NoMemory) -> RunError {
        RunError::NoMemory
    }
}

impl From<AllocError> for RunError {
    ghost from_gives = { λ _ e. e ≡ error.NoMemory };

    fn from(_refused: AllocError) -> RunError {
        RunError::NoMemory
    }
}

impl<T: Drop> From<AllocFailed<T>> for RunError {
    ghost from_gives = { λ _ e. e ≡ error.NoMemory };

    fn from(_refused: AllocFailed<T>) -> RunError {
        RunError::NoMemory
    }
}

impl From<StartError> for RunError {
    ghost from_gives = { λ start e. e ≡ of_start start };

    fn from(error: StartError) -> RunError {
        match error {
            StartError::NoMemory => RunError::NoMemory,
            StartError::NoWorkers | StartError::NoPorts | StartError::NoThread => {
                RunError::NoThread
            }
        }
    }
}

impl From<GoOnError> for RunError {
    ghost from_gives = { λ refused e. e ≡ of_go_on refused };

    fn from(error: GoOnError) -> RunError {
        match error {
            GoOnError::BadDesk(worker) => RunError::BadDesk(worker),
            GoOnError::Start(error) => RunError::from(error),
        }
    }
}
