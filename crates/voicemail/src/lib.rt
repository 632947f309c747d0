//! Hears the NOTIFYs that a voicemail system sends outside any dialog, each with the counts of a mailbox (RFC 3842), and tells a service of
//! them by control lines.
//!
//! [`hear_request`] says what a request asks for: a [`Notice`] of a mailbox, a refusal, or nothing. A [`VoicemailDesk`] hears such requests by a
//! wire, tells the service each count that it doesn't show already, one MAIL line a class, and answers the request once all are told. So a
//! NOTIFY that is answered 200 is what `SHOW` tells from then on. A retransmission of it is answered by the same bytes and changes nothing, also
//! behind a newer NOTIFY: [`KeptAnswers`] has the last answers.
//!
//! What it isn't: how a body is read is `summary_bodies`'s, how a line is asked `control_lines`'s, and what the service makes of it
//! `service`'s. Begin with `specs/Notices`: what a request asks for, and `specs/Served`: what is told and answered.
#![tactic(auto)]

mod desk;
mod kept;
pub mod laws;
mod line;
mod notice;

pub use desk::{Clerk, VoicemailDesk};
pub use kept::KeptAnswers;
pub use notice::{Asked, Notice, hear_request};
