//! What the words behind `notifyd serve` ask for, with the files that they name: a [`Plan`], or why there is none.
//!
//! [`new_plan`] reads the words, the files of mailboxes, of changes and of passwords, and asks the system for randomness. The plan has what a
//! service is to be: limits, seed, workers, mailboxes, what is told of them first, and who is heard. [`next_plan`] reads them again while
//! the service runs. [`adopted`] and [`with_told`] add what a journal had. A [`PlanError`] has the exit status of the program.
//! [`is_too_urgent`] tells why a line is no MAIL line.
//!
//! What it isn't: what each word means is `arguments`'s. No socket and no thread is opened here, and no journal read: that is
//! `commands`'s. What stands in a file no contract tells. Begin with [`new_plan`], then `specs/Plans`, `specs/Heard` and `specs/Refused`.
#![tactic(auto)]

mod admitting;
mod error;
mod line_file;
mod mailboxes;
mod passwords;
pub mod plan;
mod ranged;
mod state;
mod urgency;

pub use error::{PlanError, StateFault};
pub use mailboxes::{copied_names, has_name};
pub use plan::{Plan, adopted, local_setup, most_mailboxes, new_plan, next_plan, with_told};
pub use ranged::Ranged;
pub use sip_text::NoMemory;
pub use urgency::is_too_urgent;
