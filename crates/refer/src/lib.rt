//! The event package `refer` (RFC 3515): transfers and how far they have come.
//!
//! A transfer is named by the tag of the subscription that its REFER made. It begins with `100 Trying`, each progress
//! gives it a new status, and a final one (200 or above) stays. A NOTIFY tells it as a status line (RFC 3420).
//!
//! [`Transfers`] is a [`package::Package`] with that trait's contract: the exact outcome and the exact new map of each
//! change, and the exact text of each body. Begin with [`Transfers::new`]. When it is dropped it offers its Closing; that
//! is shown by tests.
#![tactic(auto)]

mod body;
mod status;
pub mod transfers;

pub use sip_text::NoMemory;
pub use transfers::Transfers;
