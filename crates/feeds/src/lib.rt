//! What feeds the ports of a crew with what comes by a wire, and what sends out what workers post.
//!
//! [`feed`] reads SIP datagrams (RFC 3261 section 18) and sends each message to the worker that is its home; [`control`]
//! does the same with lines that tell what happened. They work over any [`Wire`], and promise of one that tells its
//! datagrams: each that came is sent or counted as unread, in order, but for a CLOSE and the last where a worker is gone, and
//! nothing else is sent. Other engines stand on the steps: [`hear`] and [`tell`] are for one datagram.
//!
//! [`emit`] takes the outs of an outbox until each worker has ended: it sends answers and NOTIFYs (RFC 3261 section 18) by a
//! wire, and writes a line for each transfer that may start (RFC 3515). It promises that each out that was taken is sent,
//! written or counted as failed, in order, and nothing else; and that an out counts as failed only where the wire or the
//! writer failed at it. [`next_out`] and [`put_out`] are steps of it. [`laws`] says what that is for a subscription of a joined crew.
//!
//! What it isn't: it starts no thread and no crew, and promises no progress. That a datagram arrives no contract can say.
//! Begin with [`feed`] and [`emit`], then `specs/Heard`, `specs/Fed` and `specs/Emitted`.
#![tactic(auto)]

mod feeding;
mod hearing;
pub mod laws;
mod sending;
mod writing;

pub use feeding::{
    FeedEnd, FeedReport, MOST_CONTROL_LINES, Told, control, feed, listen, send_event, tell,
};
pub use hearing::{Heard, Language, hear, hear_message, hear_sip};
pub use sending::{EmitReport, Fate, Idle, Next, emit, next_out, put_out};
pub use transport::{Datagram, MemoryWire, UdpWire, Wire, WireFault};
