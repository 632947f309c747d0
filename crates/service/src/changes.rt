//! Whether changes still come in: what feeds the service by control lines may be dead, and nothing else tells so.

use control_lines::ControlAnswer;
use sip_text::NoMemory;
use std::alloc::Global;
use std::sync::atomic::{AtomicU64, Ordering};

/// How many milliseconds a second has.
const SECOND: u64 = 1000;

/// How many control lines changed something, how many couldn't, and when the last one did.
#[derive(Drop)]
pub(crate) struct ChangeCounts {
    done: AtomicU64,
    unknown: AtomicU64,
    bad: AtomicU64,
    /// When the last line was answered `ok`, in milliseconds since the service began. 0: none was.
    last: AtomicU64,
}

impl ChangeCounts {
    /// None yet.
    pub(crate) fn new() -> ChangeCounts {
        ChangeCounts {
            done: AtomicU64::new(0),
            unknown: AtomicU64::new(0),
            bad: AtomicU64::new(0),
            last: AtomicU64::new(0),
        }
    }

    /// Counts a line that was answered so, when the service had been up for so many milliseconds. A line that is asked again with its token is
    /// counted once. `unknown mailbox` isn't counted here, since questions get it too: `count_unknown` counts changes that do.
    pub(crate) fn count(&self, answer: ControlAnswer, moment: u64) {
        let counted = match answer {
            ControlAnswer::Done => &self.done,
            ControlAnswer::BadLine => &self.bad,
            ControlAnswer::UnknownMailbox
            | ControlAnswer::Closed
            | ControlAnswer::NoMemory
            | ControlAnswer::Busy => return,
        };
        counted.fetch_add(1, Ordering::SeqCst);
        if matches!(answer, ControlAnswer::Done) {
            self.last.store(moment, Ordering::SeqCst);
        }
    }

    /// A change named a mailbox that the service neither has nor makes.
    pub(crate) fn count_unknown(&self) {
        self.unknown.fetch_add(1, Ordering::SeqCst);
    }

    /// Appends a line for each count, and how many seconds ago the last line was answered `ok`, where the service is up for so many
    /// milliseconds: since it began, if none was.
    pub(crate) fn add_lines(
        &self,
        alloc: Global,
        text: &mut String,
        moment: u64,
    ) -> Result<(), NoMemory> {
        let told = |counted: &AtomicU64| counted.load(Ordering::SeqCst);
        let named = [
            ("changes", told(&self.done)),
            ("unknown_mailboxes", told(&self.unknown)),
            ("bad_lines", told(&self.bad)),
            (
                "change_age",
                moment.saturating_sub(told(&self.last)) / SECOND,
            ),
        ];
        for (name, count) in named {
            let line = format!(in alloc; "{name} {count}\n")?;
            text.push_str(line.as_str())?;
        }
        Ok(())
    }
}
