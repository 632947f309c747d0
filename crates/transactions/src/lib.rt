//! Transactions: the NOTIFYs that were sent over UDP and aren't answered yet, and when each is sent again.
//!
//! Each is a non-INVITE client transaction (RFC 3261 section 17.1.2), with the timers E and F of that section:
//!
//! ```text
//!   keep (sent for the first time)
//!     |
//!     v
//!   +--------+  answer: provisional   +------------+
//!   | Trying |----------------------->| Proceeding |
//!   +--------+                        +------------+
//!     |  ^ | timer E: sent again,        |  ^ | timer E: sent again,
//!     |  +-+ then after twice as long,   |  +-+ then after T2
//!     |      at most T2                  |
//!     |                                  |
//!     +---- answer: final; timer F ------+---> gone
//!           answer: 481 to its tag
//! ```
//!
//! RFC 3261 has two more states, Completed and Terminated. They only take in an answer that comes again; here such an answer is
//! one to no open transaction, and changes nothing. A 481 says that the dialog or its usage is gone (RFC 6665 section 4.2.2), so
//! it ends all that have its tag.
//!
//! It sends nothing, reads no clock and starts no thread: its caller hands in the time, in milliseconds, and each NOTIFY that it
//! has sent, asks which is due, sends that, and says so. So a NOTIFY is sent again not before a timer of the RFC fires; how soon
//! behind it is up to the caller. First NOTIFYs of subscriptions take half of the room at most ([`Allowance::places`]). [`Transactions::new`] makes the room for all of it; no later call takes
//! memory. An answer is matched by tag and CSeq number, not by the branch of its Via.
//!
//! Begin with [`Transactions`], then `specs/Timers` and `specs/Machine`, which say what the calls make of the open transactions.
//! [`laws`] says what holds of whole runs.
#![tactic(auto)]

mod alarms;
mod allowance;
mod book;
pub mod laws;
mod open;
mod places;
mod rings;
mod steps;
mod transactions;
mod unkept;

pub use allowance::{Allowance, FIRST};
pub use open::{Open, Phase};
pub use sip_text::NoMemory;
pub use transactions::Transactions;
pub use unkept::Unkept;
