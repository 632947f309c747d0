//! How a worker ends, and what it leaves.

use queues::inbox::Receiver;
use queues::outbox::PosterDone;

/// How a worker ended.
#[derive(Clone, Copy, Debug, PartialEq, Eq)]
pub enum End {
    /// Each port put its end mark, and all events were handled.
    Closed,
    /// An allocation failed after this many events. All their outs were posted, and no others. The later events were
    /// taken and dropped until each port had ended.
    NoMemory(u64),
    /// All ports went away, and one at least had not put its end mark. It tells whether an allocation failed before.
    Abandoned(bool),
}

/// What a worker leaves.
#[derive(Drop)]
pub struct Done {
    pub receiver: Receiver,
    pub poster: PosterDone,
    /// How many events it handled.
    pub handled: u64,
    /// How many outs it posted.
    pub made: u64,
    pub end: End,
}
