//! The event headers of SIP: Event and Subscription-State (RFC 6665), Expires and Accept (RFC 3261), from bytes to values and back.
//!
//! Each reader accepts exactly the texts of its header's grammar (`specs/Headers`): a text says one value, or `Grammar`, or `TooLarge`, and the
//! reader answers just that, want of memory apart. Each writer appends the one text of a value (`specs/Written`), and what is written is read as
//! the same value (`laws`). A value's texts are tokens by its type, so no reader of a value asks again.
//!
//! Begin with [`EventValue`], [`StateValue`] and [`Range`], then [`read_event`] and [`write_event`]. The pieces of a header's value, which a reader
//! of whole messages shares, stand in `sip_text`, and so do the types of texts and lists; what the code computes of a header, as functions on
//! lists, is in `specs/HeaderReading`.
#![tactic(auto)]

mod accept;
mod append;
mod error;
mod event;
mod expires;
pub mod laws;
mod state;
mod values;
mod written_range;

pub use accept::{covers, read_accept, write_accept};
pub use error::HeaderError;
pub use event::{read_event, write_event};
pub use expires::{read_expires, write_expires};
pub use sip_text::{Field, NoMemory};
pub use state::{read_state, write_state};
pub use values::{EventValue, Range, StateValue};
