//! The event package `message-summary` (RFC 3842): mailboxes and the counts of their messages.
//!
//! [`Mailboxes`] holds a fixed set of mailboxes. A mail change gives the counts of one class in one of them; a NOTIFY
//! tells the whole mailbox: whether new messages wait, then a line for each class that was ever set.
//!
//! It is a [`package::Package`] with that trait's contract: the exact outcome and the exact new map of each change, and
//! the exact text of each body. Begin with [`Mailboxes::new`]. When it is dropped it offers its Closing; that is shown
//! by tests.
#![tactic(auto)]

pub mod mailboxes;

pub use mailboxes::Mailboxes;
pub use sip_text::NoMemory;
