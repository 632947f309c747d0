//! Why calls of a crew and of its ports are refused.
ghost use Rattle.std.specs.Prelude.{◌≡◌};
ghost use Rattle.crew.specs.Numbers as numbers;

use notifier_model::Event;
use thiserror::Error;

/// Why a crew isn't started, in the order of looking. What was started has ended then, and the boxes are dropped.
#[derive(Clone, Copy, Debug, PartialEq, Eq, Error)]
pub enum StartError {
    /// There is no list of boxes, and so no worker.
    #[error("no workers")]
    NoWorkers,
    /// Nothing could be sent.
    #[error("no ports")]
    NoPorts,
    /// An allocation failed.
    #[error("out of memory")]
    NoMemory,
    /// A thread was refused, for whatever cause.
    #[error("no thread")]
    NoThread,
}

impl StartError {
    /// From 1 on, in their order.
    pub fn number(self) -> u8
        ensures { result ≡ numbers.of_start self }
    {
        match self {
            StartError::NoWorkers => 1,
            StartError::NoPorts => 2,
            StartError::NoMemory => 3,
            StartError::NoThread => 4,
        }
    }
}

/// Why a crew doesn't go on. What was started has ended then, and the desks are dropped.
#[derive(Clone, Copy, Debug, PartialEq, Eq, Error)]
pub enum GoOnError {
    /// The number of the first desk that no worker can begin with: it is spent, or it is another worker's, or its limits give the outbox
    /// other room than those of the first desk. Desks are looked at before any memory is asked for.
    #[error("worker {0} can't go on")]
    BadDesk(u32),
    /// The crew isn't started.
    #[error("{0}")]
    Start(StartError),
}

impl From<StartError> for GoOnError {
    ghost use Rattle.crew.specs.declared.errors.GoOnError.TheVariants as cause;

    ghost from_gives = { λ error e. e ≡ cause.Start error };

    fn from(error: StartError) -> GoOnError {
        GoOnError::Start(error)
    }
}

/// Why a port sends no event. It comes back. The port is as it was, but that it counts a worker that is gone.
#[derive(Debug, Drop, Error)]
pub enum SendError {
    /// The port was closed.
    #[error("the port is closed")]
    Closed(Event),
    /// The worker of this event is gone.
    #[error("the worker is gone")]
    Gone(Event),
}

impl SendError {
    /// 1 for Closed, 2 for Gone.
    pub fn number(&self) -> u8
        ensures { result ≡ numbers.of_send self.now }
    {
        match self {
            SendError::Closed(_) => 1,
            SendError::Gone(_) => 2,
        }
    }
}

/// Why a port doesn't tell all workers the time, or the planned stop.
#[derive(Clone, Copy, Debug, PartialEq, Eq, Error)]
pub enum TickError {
    /// The port was closed, and is as it was.
    #[error("the port is closed")]
    Closed,
    /// A worker is gone, which the port counts. So many inboxes took it before, and no other did.
    #[error("the worker after {0} others is gone")]
    Gone(u32),
}

impl TickError {
    /// 1 for Closed, 2 for Gone.
    pub fn number(self) -> u8
        ensures { result ≡ numbers.of_tick self }
    {
        match self {
            TickError::Closed => 1,
            TickError::Gone(_) => 2,
        }
    }
}
