//! The interface of event packages (RFC 6665 section 5).
//!
//! A package holds a content of each resource that it knows: the message counts of a mailbox (RFC 3842), or how far a transfer
//! has come (RFC 3515). [`Package`] is all that a notifier sees of it. It does no input or output and knows no time. Each
//! method promises exactly what it makes of the whole map of contents; [`laws`] says what many changes leave. A package that
//! is dropped leaves its [`Closing`] in the [`ClosingCell`] that it was made with, which tests show.
//!
//! Begin with [`Package`], [`Change`] and [`Outcome`], then `specs/Content` (what is held), `specs/Changes` (what a change makes
//! of it), `specs/Bodies` (the text of a NOTIFY), `specs/Boxes` (several packages in a row), `specs/Run` (after many changes).
#![tactic(auto)]

pub mod change;
pub mod closing;
pub mod counts;
pub mod interface;
pub mod laws;
pub mod mail_change;
pub mod progress;
pub mod texts;

pub use change::{Change, Outcome};
pub use closing::{Closing, ClosingCell, ClosingNote, Ending};
pub use counts::{Class, Counts, MailCounts};
pub use interface::Package;
pub use mail_change::MailChange;
pub use progress::Progress;
pub use sip_text::NoMemory;
