//! What the threads of a service count, of what comes in and of what goes out.

use crate::refusals::RefusalCounts;
use crate::statuses::Statuses;
use std::sync::atomic::{AtomicU32, AtomicU64};

/// No error of the system has this number.
pub(crate) const NO_ERROR: u32 = 0;

/// What is counted of what comes in, each by its name in STATUS.
#[derive(Drop)]
pub(crate) struct HeardCounts {
    pub(crate) datagrams: AtomicU64,
    /// By the number of the error, from 1.
    pub(crate) unread: [AtomicU64; 7],
    pub(crate) events: AtomicU64,
    pub(crate) failed_receives: AtomicU64,
    pub(crate) too_long: AtomicU64,
    pub(crate) foreign: AtomicU64,
    pub(crate) limited: AtomicU64,
    pub(crate) challenged: AtomicU64,
    pub(crate) wrong: AtomicU64,
    pub(crate) stale: AtomicU64,
    pub(crate) forbidden: AtomicU64,
    pub(crate) barred: AtomicU64,
    pub(crate) large: AtomicU64,
    pub(crate) per_source: AtomicU64,
    pub(crate) control_lines: AtomicU64,
    pub(crate) control_foreign: AtomicU64,
    pub(crate) bad_summaries: AtomicU64,
}

/// What is counted of what goes out, each by its name in STATUS.
#[derive(Drop)]
pub(crate) struct SentCounts {
    pub(crate) answers: AtomicU64,
    pub(crate) statuses: Statuses,
    pub(crate) notifies: AtomicU64,
    pub(crate) starts: AtomicU64,
    pub(crate) failed: AtomicU64,
    pub(crate) begun: AtomicU64,
    pub(crate) over: AtomicU64,
    pub(crate) repeats: AtomicU64,
    pub(crate) given_up: AtomicU64,
    pub(crate) once: AtomicU64,
    pub(crate) held: AtomicU64,
    pub(crate) held_dropped: AtomicU64,
    pub(crate) lost: AtomicU64,
    pub(crate) gone_by_481: AtomicU64,
    pub(crate) refusals: RefusalCounts,
    pub(crate) starts_dropped: AtomicU64,
    /// The number of the system's error at the last send that failed, or NO_ERROR.
    pub(crate) send_error: AtomicU32,
}

/// No datagram that couldn't be read, of any cause.
fn no_causes() -> [AtomicU64; 7] {
    [
        AtomicU64::new(0),
        AtomicU64::new(0),
        AtomicU64::new(0),
        AtomicU64::new(0),
        AtomicU64::new(0),
        AtomicU64::new(0),
        AtomicU64::new(0),
    ]
}

impl HeardCounts {
    /// Nothing yet.
    pub(crate) fn new() -> HeardCounts {
        HeardCounts {
            datagrams: AtomicU64::new(0),
            unread: no_causes(),
            events: AtomicU64::new(0),
            failed_receives: AtomicU64::new(0),
            too_long: AtomicU64::new(0),
            foreign: AtomicU64::new(0),
            limited: AtomicU64::new(0),
            challenged: AtomicU64::new(0),
            wrong: AtomicU64::new(0),
            stale: AtomicU64::new(0),
            forbidden: AtomicU64::new(0),
            barred: AtomicU64::new(0),
            large: AtomicU64::new(0),
            per_source: AtomicU64::new(0),
            control_lines: AtomicU64::new(0),
            control_foreign: AtomicU64::new(0),
            bad_summaries: AtomicU64::new(0),
        }
    }
}

impl SentCounts {
    /// Nothing yet.
    pub(crate) fn new() -> SentCounts {
        SentCounts {
            answers: AtomicU64::new(0),
            statuses: Statuses::new(),
            notifies: AtomicU64::new(0),
            starts: AtomicU64::new(0),
            failed: AtomicU64::new(0),
            begun: AtomicU64::new(0),
            over: AtomicU64::new(0),
            repeats: AtomicU64::new(0),
            given_up: AtomicU64::new(0),
            once: AtomicU64::new(0),
            held: AtomicU64::new(0),
            held_dropped: AtomicU64::new(0),
            lost: AtomicU64::new(0),
            gone_by_481: AtomicU64::new(0),
            refusals: RefusalCounts::new(),
            starts_dropped: AtomicU64::new(0),
            send_error: AtomicU32::new(NO_ERROR),
        }
    }
}
