//! A service: the threads that feed a crew for as long as it runs, and the one that sends what it posts.
//!
//! Three threads feed the ports of a crew: one with the SIP datagrams of a socket whose sources are heard ([`SipDesk`]), one with control
//! lines, each of which it answers ([`ControlDesk`]), one with the time (`tell_time`). The calling thread sends out what the
//! workers post (`send_outs`). [`run_crew`] starts all of them, and ends at CLOSE, a deaf socket, a fault of the clock, or a
//! worker that is gone.
//!
//! ```text
//!   SIP datagrams        control lines        the clock
//!        |                    |                   |
//!   hear_datagrams       ControlDesk          tell_time       a thread each, with a port each
//!        |      |             |                   |
//!  notes |      +------ ports of the crew --------+
//!  of    |                    |
//!  answers                 workers                            a thread each, of `crew`
//!        |                    |  outbox
//!        +---------------> send_outs                          the calling thread: wire, START lines
//! ```
//!
//! Where a journal is kept ([`Journal`], put into [`Shared`]) each worker writes there what it handled before it posts anything of it, and the
//! thread that takes lines writes a line before it answers `ok`. So a service that is killed can go on. No contract says what a file keeps.
//!
//! Where its files are to be read again ([`Rereader`]) and are good, its run ends as by such a kill: nobody is told of an end, and what was
//! not sent is in the journal. Whoever runs it begins the next run from there.
//!
//! Where users show passwords, the thread that hears notes who sent a request that may make a dialog, and the worker that makes it which
//! dialog that is: so a later request in it is its user's alone (`owners`).
//!
//! What it isn't: what the workers do is `notifier`'s, what a port sends `crew`'s, and what a datagram says `feeds`'s; the
//! counters of [`Shared`] are no part of any contract. Begin with [`run_crew`], then `specs/Ticks`, `specs/Listening`, `specs/Served`,
//! `specs/Admitted`, `specs/Taken` and `specs/Running`.
#![tactic(auto)]

mod asked;
mod barred;
mod begins;
mod changes;
mod clock;
mod complaints;
mod datagrams;
mod doubts;
mod drops;
mod error;
mod fates;
mod feeding;
mod journaling;
pub mod laws;
mod lines;
mod listening;
mod logging;
mod made;
mod newcomers;
mod not_taken;
mod operators;
mod outages;
mod outs;
mod owners;
mod post;
mod refusals;
mod reload;
mod reports;
mod request_log;
mod roll;
mod running;
mod sending;
mod shared;
mod shelf;
mod statuses;
mod tallies;
mod users;
mod volume;
mod window;

pub use begins::{Begins, Living};
pub use clock::Stopwatch;
pub use datagrams::SipDesk;
pub use error::RunError;
pub use journaling::{FILE_MODE, Journal, SETTLED, Syncing, Upkeep};
pub use lines::{ControlDesk, ControlPort, KeptAnswers};
pub use logging::has_room_soon;
pub use operators::Operators;
pub use outs::Exit;
pub use reload::{Caller, Rereader};
pub use running::{ServiceEnd, ServiceWork, run_crew};
pub use shared::{Counter, Shared};
pub use sip_text::NoMemory;
pub use transactions::Allowance;
pub use volume::Volume;
