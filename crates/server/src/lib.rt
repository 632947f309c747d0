//! The server of a SIP notifier that runs scripts.
//!
//! [`script_one`] reads a script, has one worker handle its events, and writes the page of what it sent; [`script_many`] does
//! it with several workers, each event going to its home. [`run`] is the program over any reader and writer: it looks at the
//! arguments and answers an [`ExitStatus`].
//!
//! Begin with `specs/Page`: it says, short enough to be read aloud, which page a script has, by the reader's relation for
//! its datagrams and the notifier's definition for its events. What is written is that page, or a front of it after a
//! failed write; only bytes that are no script, or too many, are a bad script; a device fault comes only where a read or a
//! write failed in that call, or a thread could not be started. `specs/Runs` says what is read and written, `specs/Call`
//! what the program starts from and how it ends. What a caller with wires of his own needs, as [`feed`] and [`emit`], can be
//! named here too.
#![tactic(auto)]

mod crew_work;
mod gathering;
mod hearing;
pub mod laws;
mod printing;
pub mod program;
pub mod script;
mod sending;
mod work;

pub use feeds::{EmitReport, FeedEnd, FeedReport, control, emit, feed};
pub use program::run;
pub use script::{script_many, script_one};
pub use scripts::ScriptError;
pub use transport::{UdpWire, Wire, WireFault};
