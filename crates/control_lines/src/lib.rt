//! What is said between a running service and who tells it what happened, one datagram each way.
//!
//! The service cuts the [`Token`] before a control line off with [`cut_token`], reads the line with [`hear_line`], and answers with
//! a [`ControlAnswer`] or with what the line asks. `notifyd tell` sends one with
//! [`tell_line`], again while nobody answers, and its exit status is that of the [`TellOutcome`].
//!
//! [`ToldCounts`] holds the service's mailboxes, in order, each with the counts that a MAIL line told last. It finds one by its name
//! in the same time however many there are, and tells the counts as MAIL lines, of one mailbox or of all, page by page.
//!
//! What it isn't: it changes nothing of a service, which is the crate `service`. Begin with `specs/Lines`: which bytes are
//! which line, `specs/Questions`: what may be asked, `specs/Asking`: how often is asked, and
//! `specs/Told`, `specs/Pages`: what is told of the counts, and `specs/Dumped`: what all pages tell together.
#![tactic(auto)]

mod answer;
mod asking;
mod kept;
pub mod laws;
mod line;
mod pages;
mod question;
mod token;
mod told;
mod udp;

pub use answer::{ControlAnswer, is_answer};
pub use asking::{Speaker, SpeakerFault, TRIES, TellOutcome, tell_line};
pub use kept::{AnsweredLine, AnsweredLines};
pub use line::{Asked, hear_line};
pub use pages::{dump_page, show_page, write_counts};
pub use question::Question;
pub use sip_text::NoMemory;
pub use token::{Token, cut_token};
pub use told::ToldCounts;
pub use udp::UdpSpeaker;
