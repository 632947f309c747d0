//! The answers that were sent, counted by their status codes (RFC 3261 section 7.2).

use sip_text::NoMemory;
use std::alloc::Global;
use std::sync::atomic::{AtomicU64, Ordering};

/// How many there are.
const KINDS: usize = 14;

/// The status codes that a notifier answers with.
const CODES: [&str; KINDS] = [
    "200", "202", "400", "403", "404", "405", "406", "416", "420", "423", "481", "489", "500",
    "503",
];

/// How many answers were sent with each status code.
#[derive(Drop)]
pub(crate) struct Statuses {
    counts: [AtomicU64; KINDS],
}

impl Statuses {
    /// None yet.
    pub(crate) fn new() -> Statuses {
        Statuses {
            counts: [
                AtomicU64::new(0),
                AtomicU64::new(0),
                AtomicU64::new(0),
                AtomicU64::new(0),
                AtomicU64::new(0),
                AtomicU64::new(0),
                AtomicU64::new(0),
                AtomicU64::new(0),
                AtomicU64::new(0),
                AtomicU64::new(0),
                AtomicU64::new(0),
                AtomicU64::new(0),
                AtomicU64::new(0),
                AtomicU64::new(0),
            ],
        }
    }

    /// Counts an answer that was sent, by the status code that stands in it behind the version and a space.
    pub(crate) fn count(&self, answer: &[u8]) {
        let code = match answer {
            [_, _, _, _, _, _, _, b' ', rest @ ..] if rest.len() >= 3 => &rest[..3],
            _ => b"".as_slice(),
        };
        for (known, counted) in CODES.iter().zip(self.counts.iter()) {
            if known.as_bytes() == code {
                counted.fetch_add(1, Ordering::SeqCst);
            }
        }
    }

    /// How many answers were sent with this status code.
    pub(crate) fn sent(&self, code: &str) -> u64 {
        let mut sent = 0;
        for (known, counted) in CODES.iter().zip(self.counts.iter()) {
            if *known == code {
                sent = counted.load(Ordering::SeqCst);
            }
        }
        sent
    }

    /// Appends a line for each status code.
    pub(crate) fn add_lines(&self, alloc: Global, text: &mut String) -> Result<(), NoMemory> {
        for (code, counted) in CODES.iter().zip(self.counts.iter()) {
            let count = counted.load(Ordering::SeqCst);
            let line = format!(in alloc; "answers_{code} {count}\n")?;
            text.push_str(line.as_str())?;
        }
        Ok(())
    }
}
