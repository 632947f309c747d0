//! The desk: one thread's notifier (RFC 6665), without input, output, threads or time of its own.
//!
//! A [`Desk`] is made of a [`Setup`], the number of its worker and its packages. Each [`Event`] that it handles gives the
//! [`Out`]s to be sent. It promises that they, and what it keeps, are those of the definition `step` of the crate
//! `notifier_model`, which reads as a table of cases; its `specs/Run` joins steps to whole runs, and [`laws`] says what is so
//! of whole runs. Where a growth is refused the event gives no outs and the desk is spent.
//!
//! Begin with [`Desk::handle`], then `notifier_model`.
#![tactic(auto)]

mod answer;
mod awaiting;
mod create;
pub mod desk;
mod farewell;
mod in_dialog;
mod incoming;
pub mod laws;
pub mod notice;
mod resume;
mod save;
mod standing;
mod store;
mod sweep;
mod tag;
pub mod whole_run;

pub use desk::{Desk, DeskError};
pub use notice::Teller;
pub use notifier_model::{Event, Limits, Out, Place, Refusal, Saved, Setup, user_part};
pub use resume::ResumeError;
pub use sip_text::NoMemory;
pub use whole_run::{handle_all, play, play_on};
