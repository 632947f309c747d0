//! Standard error, where a service says what happens. A line is written where there is room for it, and else dropped: so a pipe that nobody
//! reads keeps no thread waiting.

use libc::net as c;
use libc::types::pollfd;
use log_lines::{Form, milliseconds};
use std::rt::Clock;
use std::sync::atomic::{AtomicBool, AtomicU64, Ordering};

/// How many milliseconds room is waited for before a service begins and behind its end.
const PATIENCE: i32 = 1000;

/// It is no later than 1970: the time of day isn't known.
const UNKNOWN: u64 = 0;

/// In which form a log is written, and when its lines are. Whoever writes one reads no clock, so the time of day is that at which a thread
/// of the service read it last: one does at each SIP datagram, and ten times a second.
#[derive(Drop)]
pub(crate) struct Log {
    is_json: AtomicBool,
    /// In milliseconds since 1970 began, or UNKNOWN.
    read: AtomicU64,
}

impl Log {
    /// One for people.
    pub(crate) fn new() -> Log {
        Log {
            is_json: AtomicBool::new(false),
            read: AtomicU64::new(UNKNOWN),
        }
    }

    /// From now on it is for machines.
    pub(crate) fn be_json(&self) {
        self.is_json.store(true, Ordering::SeqCst);
    }

    /// Reads the time of day, where its lines have one.
    pub(crate) fn look<R: Clock>(&self, rt: &R) {
        if self.is_json.load(Ordering::SeqCst) {
            let read = milliseconds(rt).unwrap_or(UNKNOWN);
            self.read.store(read, Ordering::SeqCst);
        }
    }

    /// The form of a line that is written now.
    pub(crate) fn form(&self) -> Form {
        if !self.is_json.load(Ordering::SeqCst) {
            return Form::Plain;
        }
        match self.read.load(Ordering::SeqCst) {
            UNKNOWN => Form::Json(None),
            read => Form::Json(Some(read)),
        }
    }
}

/// Whether standard error takes a line at once, or fails at once, within so many milliseconds.
fn room_comes(milliseconds: i32) -> bool {
    let mut outputs = [pollfd {
        fd: libc::STDERR_FILENO,
        events: c::POLLOUT,
        revents: 0,
    }];
    c::poll(&mut outputs, milliseconds) > 0
}

/// Whether a line may be written on standard error without waiting. False where nobody reads, and the line is to be dropped.
pub(crate) fn has_room() -> bool {
    room_comes(0)
}

/// The same where no phone waits for this thread: before a service begins and behind its end. Waits for a second at most.
pub fn has_room_soon() -> bool {
    room_comes(PATIENCE)
}
