//! The NOTIFYs that phones don't take, since nobody answers them or they are refused, as they are told on standard error.

use crate::logging::has_room;
use crate::shared::Shared;
use log_lines::{Dialog, NotTaken, Record, Trouble};
use sip_text::Addr;

/// How many milliseconds pass between two lines.
const MINUTE: u64 = 60_000;

/// A NOTIFY that wasn't taken.
#[derive(Clone, Copy)]
pub(crate) struct Loss<'a> {
    /// Where it was sent.
    pub(crate) to: Addr,
    /// With which status code it was refused. None: nobody answered it.
    pub(crate) code: Option<u16>,
    /// Its subscription.
    pub(crate) dialog: Dialog<'a>,
}

/// The NOTIFYs that nobody answered, or those that were refused. One is told at once where no line came within the last minute, all others
/// once that is over.
#[derive(Clone, Copy)]
pub(crate) struct Losses {
    /// How many were not told yet.
    count: u64,
    /// Where the last one was sent.
    last: Addr,
    /// With which status code it was refused.
    code: Option<u16>,
    /// When they were told, or for want of room not.
    told: Option<u64>,
}

impl Losses {
    /// None yet.
    pub(crate) fn new() -> Losses {
        Losses {
            count: 0,
            last: Addr {
                ip: [0, 0, 0, 0],
                port: 0,
            },
            code: None,
            told: None,
        }
    }

    /// Whether no line came within the last minute.
    fn is_time(&self, now: u64) -> bool {
        match self.told {
            Some(told) => now.saturating_sub(told) >= MINUTE,
            None => true,
        }
    }

    /// Says how many were not told yet, and of which subscription the last one was, where that is to be told.
    fn tell<R: Eprint>(&mut self, rt: &R, shared: &Shared, dialog: Option<Dialog<'_>>) {
        let not_taken = NotTaken {
            more: self.count,
            address: self.last,
            code: self.code,
            dialog,
        };
        shared.tell(rt, &Record::Trouble(Trouble::NotTaken(not_taken)));
        self.count = 0;
    }

    /// Counts one more at this moment. Says, where no line came within the last minute, how many there were, and which this one was.
    pub(crate) fn add<R: Eprint>(&mut self, rt: &R, shared: &Shared, now: u64, last: Loss<'_>) {
        self.count = self.count.saturating_add(1);
        self.last = last.to;
        self.code = last.code;
        if self.is_time(now) && has_room() {
            self.told = Some(now);
            self.tell(rt, shared, Some(last.dialog));
        }
    }

    /// Says how many were not told yet, where there are some, and where the last one was sent. Without room they are told later.
    pub(crate) fn tell_others<R: Eprint>(&mut self, rt: &R, shared: &Shared) {
        if self.count > 0 && has_room() {
            self.tell(rt, shared, None);
        }
    }

    /// Tells those that were not told yet, where no line came within the last minute.
    pub(crate) fn look<R: Eprint>(&mut self, rt: &R, shared: &Shared, now: u64) {
        if self.count > 0 && self.is_time(now) {
            self.told = Some(now);
            self.tell_others(rt, shared);
        }
    }
}
