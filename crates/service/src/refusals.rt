//! The NOTIFYs that phones refuse (RFC 3261 section 21.3 to 21.6), counted by status code. A 481 is none of them: it ends its subscription.

use crate::not_taken::Loss;
use crate::post::Note;
use log_lines::Dialog;
use sip_text::NoMemory;
use std::alloc::Global;
use std::sync::atomic::{AtomicU64, Ordering};
use watchers::{Watcher, Watchers};

/// How many status codes are counted apart.
const KINDS: usize = 6;

/// Those that phones refuse a NOTIFY with (RFC 6665 section 8.3.2, RFC 3261 section 21.4 to 21.6). Any other counts with all others.
const CODES: [u16; KINDS] = [403, 404, 405, 489, 500, 603];

/// The least status of an answer by which a request isn't accepted (RFC 3261 section 7.2).
const REFUSED: u16 = 300;

/// How many NOTIFYs were refused with each status code.
#[derive(Drop)]
pub(crate) struct RefusalCounts {
    counts: [AtomicU64; KINDS],
    others: AtomicU64,
}

impl RefusalCounts {
    /// None yet.
    pub(crate) fn new() -> RefusalCounts {
        RefusalCounts {
            counts: [
                AtomicU64::new(0),
                AtomicU64::new(0),
                AtomicU64::new(0),
                AtomicU64::new(0),
                AtomicU64::new(0),
                AtomicU64::new(0),
            ],
            others: AtomicU64::new(0),
        }
    }

    /// Counts a NOTIFY that was refused with this status code.
    pub(crate) fn count(&self, code: u16) {
        for (known, counted) in CODES.iter().zip(self.counts.iter()) {
            if *known == code {
                counted.fetch_add(1, Ordering::SeqCst);
                return;
            }
        }
        self.others.fetch_add(1, Ordering::SeqCst);
    }

    /// Appends a line for each status code, and one for all others.
    pub(crate) fn add_lines(&self, alloc: Global, text: &mut String) -> Result<(), NoMemory> {
        for (code, counted) in CODES.iter().zip(self.counts.iter()) {
            let count = counted.load(Ordering::SeqCst);
            let line = format!(in alloc; "notifies_refused_{code} {count}\n")?;
            text.push_str(line.as_str())?;
        }
        let count = self.others.load(Ordering::SeqCst);
        let line = format!(in alloc; "notifies_refused_other {count}\n")?;
        text.push_str(line.as_str())?;
        Ok(())
    }
}

/// A NOTIFY that a phone refused.
#[derive(Clone, Copy)]
pub(crate) struct Refusal<'a> {
    /// The local tag of its dialog.
    tag: &'a str,
    /// What is known of its subscription.
    row: &'a Watcher,
    /// With which status code.
    pub(crate) code: u16,
}

impl<'a> Refusal<'a> {
    /// It as it is told.
    pub(crate) fn loss(self) -> Loss<'a> {
        let Refusal { tag, row, code } = self;
        Loss {
            to: row.to,
            code: Some(code),
            dialog: Dialog {
                mailbox: row.mailbox.as_str(),
                tag,
            },
        }
    }
}

/// The NOTIFY that this answer refuses, if it does. Each counts once, however often its answer comes.
pub(crate) fn refused<'a>(watchers: &'a Watchers, note: &'a Note) -> Option<Refusal<'a>> {
    let code = note.status;
    // Most often the NOTIFY is taken: so nobody looks for its row.
    if code < REFUSED {
        return None;
    }
    let tag = note.tag.as_str();
    let row = watchers.find(tag)?;
    if row.is_refused(note.number, code) {
        Some(Refusal { tag, row, code })
    } else {
        None
    }
}
