//! The clock of a service, which leaves out what the service missed: its own outages, and what it stood still for.
//!
//! Somebody who sends NOTIFYs gives a phone 32 seconds to answer (RFC 3261 section 17.1.2.2, timer F). While nothing leaves this
//! machine, or this process stands still, that time is not the phone's. So the moments by which NOTIFYs are repeated and given up
//! come from this clock:
//!
//! - Between two readings no more than [`GAP`] counts: in the rest the process stood still.
//! - While sends fail, and none has succeeded since, it runs on to the moment at which the next NOTIFY is due to be sent again, and
//!   stands there. That NOTIFY is tried in real time, once a second, until a send succeeds.
//! - So much of all outages is left out at most as its limit says. What counts outside of an outage gives that back.
//!
//! It reads no clock and sends nothing: its caller hands in each reading, and says how far it may run.
//!
//! Begin with [`OutageClock`], then `specs/Moments`, which says which moment it gives for which readings. [`laws`] says what holds of
//! whole runs.
#![tactic(auto)]

mod clock;
pub mod laws;

pub use clock::{GAP, Look, OutageClock};
