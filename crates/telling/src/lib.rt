//! The control lines of an input, asked of a running service one behind the other: what `notifyd tell -` does.
//!
//! [`Telling`] reads a line, asks it of the service where it is a MAIL line (or, where that is wanted, a PROGRESS line), and reads the
//! next one once it is answered. So whoever writes the input waits for the service, and what is told of a mailbox keeps its order.
//! Each asking has a token of its own, by which the service tells repeats from news. How a run ends is a [`LinesEnd`].
//!
//! What it isn't: how one line is asked, and when again, is `control_lines`'s. It never sends a CLOSE or a question, whatever the
//! input says. Of what it says on standard error no contract tells; a line's text there is a [`shown_text::Shown`]. Begin with
//! `specs/Taken`: what becomes of each line, and how a run ends; then `specs/Input`, `specs/Kinds` and `specs/Hearing`.
#![tactic(auto)]

mod end;
mod hearing;
mod input;
mod kinds;
mod speaker;
mod tally;
mod teller;
mod telling;

pub use end::{Fate, LinesEnd};
pub use hearing::Heard;
pub use input::{InputLine, LONGEST, ReadFault};
pub use kinds::LineKind;
pub use sip_text::NoMemory;
pub use speaker::{LineSpeaker, UdpLineSpeaker};
pub use tally::Tally;
pub use teller::Teller;
pub use telling::Telling;
