//! What the taker gets, and what is told of it.

use crate::error::RunError;
use crate::page::Page;
use crew::{End, Report, WorkerReport};
use notifier_model::Out;
use std::alloc::Global;

/// How many subscriptions a worker may have.
const WATCHERS: usize = 100;

/// At the end of a NOTIFY so many bytes have the line that tells the voice messages.
const END: usize = 64;

/// What an out is.
#[derive(Clone, Copy)]
enum Kind {
    Answer,
    Start,
    Notify(Heard),
}

/// What a NOTIFY is for a subscription.
#[derive(Clone, Copy)]
struct Heard {
    /// The place of the subscription; none where its tag names none.
    place: usize,
    number: u32,
    is_last: bool,
    /// How many new voice messages it shows.
    voices: u32,
}

/// What stands after this name, in the first line that has it; nothing where none has.
fn value_of<'a>(bytes: &'a [u8], name: &str) -> &'a str {
    for line in str::from_utf8(bytes).unwrap_or("").lines() {
        if let Some(value) = line.strip_prefix(name) {
            return value;
        }
    }
    ""
}

/// How many new voice messages a NOTIFY shows.
fn voices_in(bytes: &[u8]) -> u32 {
    let end = bytes.split_at(bytes.len().saturating_sub(END)).1;
    match value_of(end, "Voice-Message: ").split_once('/') {
        Some((new_count, _)) => new_count.parse::<u32>().unwrap_or(0),
        None => 0,
    }
}

/// The serial in the local tag of a subscription, `w<worker>-<serial>-` and digits.
fn serial_in(tag: &str) -> Option<usize> {
    let (_, rest) = tag.split_once('-')?;
    let (serial, _) = rest.split_once('-')?;
    serial.parse::<usize>().ok()?.checked_sub(1)
}

fn kind_of(out: &Out) -> Kind {
    match out {
        Out::Answer { .. } => Kind::Answer,
        Out::Start { .. } => Kind::Start,
        Out::Notify {
            tag,
            number,
            terminated,
            bytes,
            ..
        } => Kind::Notify(Heard {
            place: serial_in(tag.as_str()).unwrap_or(WATCHERS),
            number: *number,
            is_last: *terminated,
            voices: voices_in(bytes.as_slice()),
        }),
    }
}

/// What was got of one subscription: the number of its last NOTIFY, 0 before the first, whether that one was terminated, and
/// how many new voice messages it shows.
#[derive(Clone, Copy)]
struct Watcher {
    number: u32,
    is_over: bool,
    voices: u32,
}

/// What was got of one worker.
#[derive(Drop)]
struct Told {
    answers: u32,
    notifies: u32,
    starts: u32,
    /// Whether the NOTIFYs of each subscription were numbered 1, 2, .. and none came after a terminated one.
    is_in_order: bool,
    /// The subscriptions, by serial from 1.
    watchers: Vec<Watcher>,
}

/// Nothing was got of a worker yet.
fn no_news(alloc: Global) -> Result<Told, RunError> {
    let mut watchers = Vec::new(alloc);
    for _ in 0..WATCHERS {
        watchers.push(Watcher {
            number: 0,
            is_over: false,
            voices: 0,
        })?;
    }
    Ok(Told {
        answers: 0,
        notifies: 0,
        starts: 0,
        is_in_order: true,
        watchers,
    })
}

impl Told {
    fn hear_notify(&mut self, heard: Heard) {
        self.notifies = self.notifies.saturating_add(1);
        let Some(watcher) = self.watchers.get_mut(heard.place) else {
            self.is_in_order = false;
            return;
        };
        if watcher.is_over || heard.number != watcher.number.saturating_add(1) {
            self.is_in_order = false;
        }
        *watcher = Watcher {
            number: heard.number,
            is_over: heard.is_last,
            voices: heard.voices,
        };
    }

    fn hear(&mut self, kind: Kind) {
        match kind {
            Kind::Answer => self.answers = self.answers.saturating_add(1),
            Kind::Start => self.starts = self.starts.saturating_add(1),
            Kind::Notify(heard) => self.hear_notify(heard),
        }
    }

    /// What was got of the worker, in words: last how many new voice messages the last NOTIFYs show, all together.
    fn show(&self, alloc: Global, page: &mut Page) {
        let mut is_over = false;
        let mut voices = 0u32;
        for watcher in self.watchers.iter() {
            is_over = is_over || watcher.is_over;
            voices = voices.saturating_add(watcher.voices);
        }
        page.tell(alloc, "; ", u64::from(self.answers));
        page.tell(alloc, " answers, ", u64::from(self.notifies));
        page.say(if self.is_in_order {
            " NOTIFYs in order"
        } else {
            " NOTIFYs out of order"
        });
        page.say(if is_over { ", over" } else { "" });
        page.tell(alloc, ", ", u64::from(self.starts));
        page.tell(alloc, " starts, ", u64::from(voices));
        page.say(" messages shown");
    }
}

/// How a worker ended, in words.
fn show_end(alloc: Global, end: End, page: &mut Page) {
    match end {
        End::Closed => page.say("closed"),
        End::NoMemory(events) => page.tell(alloc, "out of memory after ", events),
        End::Abandoned(false) => page.say("abandoned"),
        End::Abandoned(true) => page.say("abandoned, out of memory"),
    }
}

/// What a worker did, in words.
fn show_worker(alloc: Global, number: u64, worker: &WorkerReport, page: &mut Page) {
    page.tell(alloc, "worker ", number);
    page.tell(alloc, ": handled ", worker.handled);
    page.tell(alloc, ", made ", worker.made);
    page.say(", ");
    show_end(alloc, worker.end, page);
}

/// What was got of the workers of a crew.
#[derive(Drop)]
pub(crate) struct Gathered {
    /// By worker; of the others nothing is told.
    told: Vec<Told>,
    /// Whether each out is kept as a line.
    has_lines: bool,
    /// Of an answer its status, of a NOTIFY its number and its state.
    pub(crate) lines: Page,
    /// The local tag of the last NOTIFY.
    pub(crate) tag: Page,
}

impl Gathered {
    /// Nothing was got of so many workers, whose outs are kept as lines where this is asked for.
    pub(crate) fn nothing(
        alloc: Global,
        workers: usize,
        has_lines: bool,
    ) -> Result<Gathered, RunError> {
        let mut told = Vec::new(alloc);
        for _ in 0..workers {
            told.push(no_news(alloc)?)?;
        }
        Ok(Gathered {
            told,
            has_lines,
            lines: Page::new(alloc),
            tag: Page::new(alloc),
        })
    }

    /// Keeps the line of an out.
    fn keep(&mut self, alloc: Global, out: &Out) {
        match out {
            Out::Answer { bytes, .. } => {
                let status = value_of(bytes.as_slice(), "SIP/2.0 ");
                self.lines.say_all(&["answer ", status]);
            }
            Out::Notify {
                tag,
                number,
                bytes,
                ..
            } => {
                let state = value_of(bytes.as_slice(), "Subscription-State: ");
                self.lines.tell(alloc, "NOTIFY ", u64::from(*number));
                self.lines.say_all(&[" ", state]);
                self.tag = Page::new(alloc);
                self.tag.say(tag.as_str());
            }
            Out::Start { .. } => self.lines.say("START"),
        }
        self.lines.say("\n");
    }

    /// Gets an out of this worker.
    pub(crate) fn hear(&mut self, alloc: Global, worker: u32, out: &Out) {
        if let Some(told) = self.told.get_mut(worker as usize) {
            told.hear(kind_of(out));
        }
        if self.has_lines {
            self.keep(alloc, out);
        }
    }

    /// What each worker did, in a line each, with what was got of it where that is known.
    pub(crate) fn show(&self, alloc: Global, report: &Report, page: &mut Page) {
        let mut number = 0usize;
        for worker in report.workers.iter() {
            show_worker(alloc, number as u64, worker, page);
            if let Some(told) = self.told.get(number) {
                told.show(alloc, page);
            }
            page.say("\n");
            number = number.saturating_add(1);
        }
    }
}
