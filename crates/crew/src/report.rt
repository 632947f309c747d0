//! What is told of a crew that has ended.

use crate::end::End;
use queues::inbox::Receiver;

/// What one worker did.
pub struct WorkerReport {
    /// The seat that it received with, by which contracts know what it took.
    pub(crate) receiver: Receiver,
    /// How many events it handled.
    pub handled: u64,
    /// How many outs it posted.
    pub made: u64,
    pub end: End,
}

/// By hand, so that all that drops one calls this one function, and none proves the ways through each field.
impl Drop for WorkerReport {
    fn drop(self) {
        let WorkerReport {
            receiver: _,
            handled: _,
            made: _,
            end: _,
        } = self;
    }
}

/// What each worker did, in their order.
pub struct Report {
    pub workers: Vec<WorkerReport>,
}

/// By hand, as a [`WorkerReport`]'s.
impl Drop for Report {
    fn drop(self) {
        let Report { workers: _ } = self;
    }
}
