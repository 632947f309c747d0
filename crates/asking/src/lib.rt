//! The command `notifyd tell`: it sends a control line to a service that runs, and prints the answer.
//!
//! [`tell`] reads the words behind it. It asks their line, and so each page that follows ([`ask_page`]), or tells the lines of standard input, one
//! behind the other (the crate `telling`). A [`Form`] is how an answer is printed. [`say_what_is_read`] warns who sits at a terminal.
//!
//! What it isn't: what a control line says, and when it is asked again, is `control_lines`'s. Of the answer that is printed, and of what
//! is said on standard error, no contract tells. Begin with [`tell`], then `specs/Telling`.
#![tactic(auto)]

mod answers;
mod asking;
mod input_telling;
mod terminal;

pub use answers::Form;
pub use asking::{Told, ask_line, ask_page, tell};
pub use sip_text::NoMemory;
pub use terminal::say_what_is_read;
