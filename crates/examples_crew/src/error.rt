//! Why a run tells nothing.

use crew::StartError;
use sip_text::NoMemory;
use std::alloc::{AllocError, AllocFailed};
use std::io;
use transport::WireFault;

/// Why a run tells nothing.
#[derive(Clone, Copy, Debug)]
pub(crate) enum RunError {
    Memory,
    /// The crew was not started.
    Start(StartError),
    NoThread,
    /// What was to be sent is no event.
    NoEvent,
    NoRun,
    /// A socket failed, nothing could be written, or there is no clock.
    Device,
}

impl From<AllocError> for RunError {
    fn from(_refused: AllocError) -> RunError {
        RunError::Memory
    }
}

impl<T: Drop> From<AllocFailed<T>> for RunError {
    fn from(_refused: AllocFailed<T>) -> RunError {
        RunError::Memory
    }
}

impl From<NoMemory> for RunError {
    fn from(_refused: NoMemory) -> RunError {
        RunError::Memory
    }
}

impl From<StartError> for RunError {
    fn from(error: StartError) -> RunError {
        RunError::Start(error)
    }
}

impl From<WireFault> for RunError {
    fn from(_fault: WireFault) -> RunError {
        RunError::Device
    }
}

impl From<io::Error> for RunError {
    fn from(_error: io::Error) -> RunError {
        RunError::Device
    }
}
