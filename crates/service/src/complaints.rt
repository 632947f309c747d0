//! What goes wrong in a service, told on standard error once a minute and at the end.

use crate::logging::has_room;
use crate::shared::{COMPLAINTS, Shared};
use log_lines::{Record, Trouble};
use std::alloc::AllocError;
use std::io;

/// How many seconds pass between two looks at what goes wrong.
const MINUTE: u64 = 60;

/// What goes wrong, as it was told.
#[derive(Drop)]
pub(crate) struct Complaints {
    /// The second of the last look.
    looked: u64,
    /// How often each had happened when it was told last.
    told: [u64; COMPLAINTS],
    /// How much had not been sent when that was told last.
    unsent: u64,
    /// The same of the records of the journal that had not been written.
    unwritten: u64,
}

/// What was not done, and the number of the system's error at the last time, where it told one.
#[derive(Clone, Copy)]
struct Failure {
    counter: &'static str,
    text: &'static str,
    number: Option<u32>,
}

/// Says how often this happened, and the system's words at the last time, where it told any.
fn tell_last<R: Eprint>(rt: &R, shared: &Shared, more: u64, failure: Failure) {
    let Failure {
        counter,
        text,
        number,
    } = failure;
    let failed = Trouble::Failed {
        more,
        counter,
        text,
    };
    let Some(number) = number else {
        shared.tell(rt, &Record::Trouble(failed));
        return;
    };
    let error = io::Error::from_raw_os_error(number.cast_signed());
    let words: Result<String, AllocError> = format!(in shared.alloc(); "{error}");
    let trouble = match &words {
        Ok(cause) => Trouble::FailedSince {
            more,
            counter,
            text,
            cause: cause.as_str(),
        },
        Err(_) => failed,
    };
    shared.tell(rt, &Record::Trouble(trouble));
}

impl Complaints {
    /// Of a service that begins now.
    pub(crate) fn new() -> Complaints {
        Complaints {
            looked: 0,
            told: [0; COMPLAINTS],
            unsent: 0,
            unwritten: 0,
        }
    }

    /// Says on standard error once a minute what happened in it, and how often. Without room it is told a minute later.
    pub(crate) fn look<R: Eprint>(&mut self, rt: &R, shared: &Shared, now: u64) {
        if now.saturating_sub(self.looked) >= MINUTE {
            self.looked = now;
            self.tell(rt, shared);
        }
    }

    /// Says what happened that was not told yet, and how often.
    pub(crate) fn tell<R: Eprint>(&mut self, rt: &R, shared: &Shared) {
        for (told, (counter, text, count)) in self.told.iter_mut().zip(shared.complaints()) {
            let more = count.saturating_sub(*told);
            if more > 0 && has_room() {
                let trouble = Trouble::Counted {
                    more,
                    counter,
                    text,
                };
                shared.tell(rt, &Record::Trouble(trouble));
                *told = count;
            }
        }
        self.tell_unsent(rt, shared);
        self.tell_unwritten(rt, shared);
    }

    /// Says how much was not sent that was not told yet, and the system's words at the last send that failed.
    fn tell_unsent<R: Eprint>(&mut self, rt: &R, shared: &Shared) {
        let count = shared.unsent();
        let more = count.saturating_sub(self.unsent);
        if more == 0 || !has_room() {
            return;
        }
        self.unsent = count;
        let failure = Failure {
            counter: "failed",
            text: "datagrams or lines could not be sent",
            number: shared.send_error(),
        };
        tell_last(rt, shared, more, failure);
    }

    /// Says how many records were not written to the journal that was not told yet, and the system's words at the last of them.
    fn tell_unwritten<R: Eprint>(&mut self, rt: &R, shared: &Shared) {
        let count = shared.unwritten();
        let more = count.saturating_sub(self.unwritten);
        if more == 0 || !has_room() {
            return;
        }
        self.unwritten = count;
        let failure = Failure {
            counter: "journal_lost",
            text: "records were not written to the journal",
            number: shared.journal_error(),
        };
        tell_last(rt, shared, more, failure);
    }
}
