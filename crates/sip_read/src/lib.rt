//! Reads a datagram as a SIP message (RFC 3261 sections 7, 18 and 20), as far as a notifier of event subscriptions needs it.
//!
//! [`read`] gives a [`Message`], whose texts are its own, or a [`ReadError`] that says what is wrong with the datagram. It promises both ways: what is
//! answered is what the bytes are, and what the bytes are is answered, unless a growth is refused. Each datagram is exactly one message or
//! wrong in exactly one way (`laws::one_reading`).
//!
//! Begin with `specs/Message`: it says which bytes are which message, as a relation that names some way to cut the text, above
//! `FirstLine`, `Folding` (lines that are continued), `Items` (header lines), `Vias`, `Addresses` and `Calls`. The files named `..Computed` hold
//! the function on lists that stands between that relation and the code. The levels below the lines are those of `sip_text`,
//! and the headers Event, Expires and Accept those of `event_headers`.
//!
//! The code begins in `datagram`: the first line, and how lines are cut and named. `gathered` takes them in, and makes the message. Values are
//! read in `value`. A reader `.._at` reads at the front of a text and gives what follows, a reader
//! `.._of` a whole text ([`unfolded_of`] alone, named after what it makes, gives what follows too).
#![tactic(auto)]

mod datagram;
pub mod error;
mod gathered;
pub mod laws;
pub mod message;
mod value;

pub use datagram::{Line, header_of, line_at, read, unfolded_of};
pub use error::{HeaderName, ReadError};
pub use message::{Boxed, Head, Message, Party, Request, Response, Via};
pub use sip_text::Addr;
