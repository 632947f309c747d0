//! How a desk goes on after a restart: from a saved book, over the events that its notifier had handled since, in the place and
//! with the boxes that it had.
//!
//! A run of a notifier is a fold: so the desk that goes on stands where the one stood that was stopped, and sends what that one
//! would have sent ([`laws::a_restart_goes_on`]). Answers and the words that start a transfer went out the first time, and are
//! not sent again. A NOTIFY may have been lost with the process that sent it: those that are unanswered are sent again, in the
//! same bytes, so that a subscriber takes each for a retransmission (RFC 3261 section 17.2.2).
//!
//! Where the end of what was handled may be lost, [`skip_ahead`] lets the numbers of NOTIFYs rise by so much that none is used
//! twice. Where a resource was taken away meanwhile, [`withdraw`] takes out those who watch it. [`Living::of_desk`] tells who watches.
//!
//! Begin with [`restart`], then `specs/Restarts`.
#![tactic(auto)]

pub mod ahead;
pub mod laws;
pub mod living;
pub mod replay;
pub mod withdrawal;

pub use ahead::skip_ahead;
pub use living::Living;
pub use replay::{Left, Restarted, restart};
pub use withdrawal::{Withdrawn, withdraw};
