//! The command `notifyd udp`: a notifier at 127.0.0.1 for tests, which ends after so many datagrams and a CLOSE.
//!
//! [`udp::run`] binds two ports and starts a crew. It has two threads hear datagrams of SIP and control lines, sends what the workers post, and
//! writes a line for each worker at the end ([`worker_lines`]).
//!
//! What it isn't: the server that an operator runs is `commands`'s. What datagrams are to a crew, and what becomes of outs, `feeds` says.
//! Begin with [`udp::run`], then `specs/UdpCall`, `specs/UdpServing` and `specs/UdpEnds`.
#![tactic(auto)]

pub mod udp;
mod udp_listening;
mod udp_printing;
mod udp_serving;

pub use sip_text::NoMemory;
pub use udp_printing::worker_lines;
