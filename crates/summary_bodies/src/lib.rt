//! Reads the body of a NOTIFY of `message-summary` that comes in: what a voicemail system tells of a mailbox (RFC 3842 section 5.2).
//!
//! [`read_summary`] gives a [`Summary`], which borrows from the body, or a [`SummaryError`] that says what is wrong with it. It takes no
//! memory, and knows nothing of the NOTIFY around the body.
//!
//! What it isn't: what this server writes itself is `message_summary`'s. Begin with `specs/Summaries`: it says what a body tells, and
//! `specs/Numbers`: how a line counts messages.
#![tactic(auto)]

mod class;
mod error;
mod numbers;
mod summary;

pub use error::SummaryError;
pub use summary::{Summary, read_summary};
