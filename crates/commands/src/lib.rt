//! The command `notifyd serve`: the server that an operator runs.
//!
//! [`serve`] reads the words behind it and the files that they name (the crate `plans`), binds the sockets, runs the crate `service` until a CLOSE, a
//! fault of a socket or of the clock, or a worker that is gone, writes what its workers did, and answers the exit status of the
//! program. At a RELOAD it reads the files again; where they are good the run ends, and the next one begins from the journal
//! (`specs/Reloading`). [`serve_words`] is one run up to its end, over any writer.
//!
//! What it isn't: what the threads of a service do is `service`'s, what the words ask for `plans`'s, and the other commands are those of
//! `asking` and `udp_command`. Of what is said on standard error no contract tells. Begin with [`serve_words`], then `plans/specs/Plans` and
//! `specs/Serving`. [`laws`] says what a run tells the watchers of its subscriptions.
#![tactic(auto)]

mod error;
mod feed;
mod help;
mod input;
mod journal_folder;
mod journal_new;
mod journal_opened;
mod journal_start;
pub mod laws;
mod logging;
mod names;
pub mod program;
mod prompt;
mod ready;
mod reloading;
mod sockets;

pub use error::ServeError;
pub use program::{Served, print_help, serve, serve_words};
pub use sip_text::NoMemory;
