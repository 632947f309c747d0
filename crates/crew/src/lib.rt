//! The crew: worker threads between ports and one taker.
//!
//! A crew has 1 to 256 workers, each a thread with a desk of its own, and 1 to 256 ports. A [`Port`] sends each
//! event to the worker that is its home, and the time to all; the taker of the outbox gets what the workers post.
//! [`Crew::start`] starts it, with every list empty and every port open; [`Crew::join`] waits for the workers, and promises
//! of each what it handled and what it made, out of what the ports sent: `specs/Joined`.
//!
//! A worker takes what its ports sent, passes a [`Gate`] before each event, handles the event at its desk and posts the outs,
//! until each port has ended. It handles the events of its inbox in the order in which it took them, each once, and posts what
//! the one-thread notifier makes of them (`specs/Worked`). Where an allocation fails it handles nothing more, and takes and
//! drops what is still to come; where all ports went away before their end marks it ends as [`End::Abandoned`]. A [`Replay`] is
//! a desk with the list of the events that it handled, and a [`SharedDesk`] one behind a lock (`specs/Recorded`).
//!
//! What it isn't: it reads no bytes and opens no socket, and it promises no progress: that a call which waits comes back,
//! or that an out is ever taken. Begin with [`Crew::start`], [`Port::send`] and [`Crew::join`], then `specs/Ports`,
//! `specs/Started` and `specs/Joined`; [`laws`] says what follows for each subscription from the report of a joined crew.
#![tactic(auto)]

mod boxed;
mod end;
mod errors;
mod fitting;
mod gate;
mod hand;
mod joining;
mod launching;
pub mod laws;
mod port;
mod replay;
mod report;
mod seating;
mod shared;
mod start;
mod token;
mod working;

pub use end::{Done, End};
pub use errors::{GoOnError, SendError, StartError, TickError};
pub use gate::{Gate, Open};
pub use hand::count_up;
pub use launching::{Began, NewWorker, launch};
pub use notifier_model::homes::{home, key_hash};
pub use port::Port;
pub use replay::Replay;
pub use report::{Report, WorkerReport};
pub use seating::open_desks;
pub use shared::SharedDesk;
pub use start::Crew;
pub use token::{HasStanding, StandingToken};
