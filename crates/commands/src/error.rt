//! Why a service doesn't run.
ghost use Rattle.std.specs.Prelude.{◌≡◌};
ghost use Rattle.commands.specs.declared.error.ServeError.TheVariants as error;
ghost use Rattle.commands.specs.Refused.{of_halt, of_run, status_of};

use arguments::{AddressFlag, ExitStatus};
use plans::PlanError;
use resumption::Halt;
use service::RunError;
use sip_text::{NoMemory, Text};
use std::alloc::{AllocError, AllocFailed};
use thiserror::Error;

/// Why a service doesn't run, or has ended. The text is one line.
#[derive(Debug, Drop, Error)]
pub enum ServeError {
    /// The words and the files that they name ask for no service.
    #[error("{0}")]
    Plan(PlanError),
    /// Another service writes the journal in this folder.
    #[error("another service has this journal: {path}", path = .0.as_str())]
    JournalInUse(Text),
    /// The port of an option is in use.
    #[error("a port in use: {option}", option = .0.text())]
    Address(AddressFlag),
    /// The address of an option isn't this machine's.
    #[error("an address not of this machine: {option}", option = .0.text())]
    NotHere(AddressFlag),
    /// The user of the program may not listen at the address of an option, mostly since its port is below 1024.
    #[error("a port that this user may not listen at: {option}", option = .0.text())]
    Denied(AddressFlag),
    /// The program, or the system, has too many files open.
    #[error("too few file descriptors: raise the limit of open files (ulimit -n)")]
    Descriptors,
    /// The system gave no thread, no socket, no clock or no randomness.
    #[error("the system refused a thread, a socket, the clock or randomness")]
    System,
    /// A socket or the clock failed while the service ran, or its last lines could not be written.
    #[error("device fault")]
    Device,
    /// An allocation failed: out of memory.
    #[error("out of memory")]
    NoMemory,
}

impl ServeError {
    /// The exit status of the program: 1 where the words ask for no service, 4 where memory ran out, and else 3, also where
    /// an address is in another form.
    pub fn status(&self) -> u8
        ensures { result ≡ status_of self.now }
    {
        match self {
            ServeError::Plan(error) => error.status(),
            ServeError::NoMemory => ExitStatus::OutOfMemory.code(),
            ServeError::JournalInUse(_)
            | ServeError::Address(_)
            | ServeError::NotHere(_)
            | ServeError::Denied(_)
            | ServeError::Descriptors
            | ServeError::System
            | ServeError::Device => ExitStatus::DeviceFault.code(),
        }
    }
}

impl From<PlanError> for ServeError {
    ghost from_gives = { λ wrong e. e ≡ error.Plan wrong };

    fn from(error: PlanError) -> ServeError {
        ServeError::Plan(error)
    }
}

impl From<NoMemory> for ServeError {
    ghost from_gives = { λ _ e. e ≡ error.NoMemory };

    fn from(_refused: NoMemory) -> ServeError {
        ServeError::NoMemory
    }
}

impl From<AllocError> for ServeError {
    ghost from_gives = { λ _ e. e ≡ error.NoMemory };

    fn from(_refused: AllocError) -> ServeError {
        ServeError::NoMemory
    }
}

impl<T: Drop> From<AllocFailed<T>> for ServeError {
    ghost from_gives = { λ _ e. e ≡ error.NoMemory };

    fn from(_refused: AllocFailed<T>) -> ServeError {
        ServeError::NoMemory
    }
}

impl From<RunError> for ServeError {
    ghost from_gives = { λ run e. e ≡ of_run run };

    fn from(error: RunError) -> ServeError {
        match error {
            RunError::NoThread => ServeError::System,
            RunError::NoMemory => ServeError::NoMemory,
            RunError::BadDesk(_) => ServeError::System,
        }
    }
}

impl From<Halt> for ServeError {
    ghost from_gives = { λ halt e. e ≡ of_halt halt };

    fn from(halt: Halt) -> ServeError {
        match halt {
            Halt::NoMemory => ServeError::NoMemory,
            // A journal that tells of no such desks was put aside before.
            Halt::Unfit => ServeError::System,
        }
    }
}
