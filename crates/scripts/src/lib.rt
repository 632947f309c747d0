//! Scripts in, pages out, and control lines. It knows nothing of the notifier: only a reader, a writer and memory.
//!
//! [`read_script`] reads a script, [`parse_script`] cuts it into [`Block`]s (datagrams, changes, the time), [`Page`]
//! gathers what is to be printed, and [`write_page`] writes it. [`parse_control`] reads one line for a server that runs.
//!
//! Begin with [`Block`] and the grammar in `specs/Script`. Each block has one text, and a script is those texts joined: what is
//! answered is so, and what is so is answered, unless memory runs out; by [`one_reading`] no bytes are a script in two ways. A
//! [`ScriptError::Device`] comes only where a read, a write or a flush failed in that call; `transport` counts these.
#![tactic(auto)]

mod block;
pub mod error;
pub mod input;
mod line;
pub mod output;
pub mod page;
pub mod parse;
pub mod script;

pub use error::ScriptError;
pub use input::read_script;
pub use line::bare_line;
pub use output::write_page;
pub use page::Page;
pub use parse::{one_reading, parse_control, parse_script};
pub use script::{Block, Control};
pub use sip_text::NoMemory;
