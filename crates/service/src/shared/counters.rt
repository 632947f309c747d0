//! What the threads of a service counted, and what an operator hears of it.

use crate::shared::{COMPLAINTS, Counter, Shared};
use crate::tallies::NO_ERROR;
use control_lines::ControlAnswer;
use notifier_model::Out;
use sip_read::ReadError;
use sip_text::{Addr, NoMemory};
use std::alloc::Global;
use std::sync::Wait;
use std::sync::atomic::{AtomicU64, Ordering};

/// The causes for which a datagram couldn't be read, by the number of the error, from 1.
const CAUSES: [&str; 7] = [
    "not_sip",
    "bad_header",
    "header_missing",
    "header_twice",
    "short_body",
    "too_long",
    "no_memory",
];

/// Appends what was counted by this name, on a line of its own.
fn add_line(
    alloc: Global,
    text: &mut String,
    name: &str,
    counted: &AtomicU64,
) -> Result<(), NoMemory> {
    let count = counted.load(Ordering::SeqCst);
    let line = format!(in alloc; "{name} {count}\n")?;
    text.push_str(line.as_str())?;
    Ok(())
}

/// Appends what was counted, behind a space.
fn add_word(alloc: Global, text: &mut String, counted: &AtomicU64) -> Result<(), NoMemory> {
    let count = counted.load(Ordering::SeqCst);
    let word = format!(in alloc; " {count}")?;
    text.push_str(word.as_str())?;
    Ok(())
}

impl Shared {
    /// A send failed, at which the system told this number, if it told one.
    pub(crate) fn note_send_error(&self, number: Option<u32>) {
        if let Some(number) = number {
            self.sent.send_error.store(number, Ordering::SeqCst);
        }
    }

    /// A NOTIFY with this number in its dialog was not sent, at which the system told this error, if it told one.
    pub(crate) fn note_unsent_notify(&self, number: u32, error: Option<u32>) {
        self.outages.note_failed(number, error);
        self.note_send_error(error);
    }

    /// This out was not sent, at which the system told this error, if it told one.
    pub(crate) fn note_unsent(&self, out: &Out, error: Option<u32>) {
        if let Out::Notify { number, .. } = out {
            self.outages.note_failed(*number, error);
        }
        self.note_send_error(error);
    }

    /// Counts what was not sent, at which the system told this number, if it told one.
    pub(crate) fn count_unsent(&self, number: Option<u32>) {
        self.count(Counter::Failed);
        self.note_send_error(number);
    }

    /// How much was not sent or written.
    pub(crate) fn unsent(&self) -> u64 {
        self.sent.failed.load(Ordering::SeqCst)
    }

    /// The number of the system's error at the last send that failed. None where it told none yet.
    pub(crate) fn send_error(&self) -> Option<u32> {
        match self.sent.send_error.load(Ordering::SeqCst) {
            NO_ERROR => None,
            number => Some(number),
        }
    }

    /// Counts a control line that was done and answered so. It reads no clock: a tenth of a second doesn't count.
    pub(crate) fn count_change(&self, answer: ControlAnswer) {
        self.changes.count(answer, self.read.load(Ordering::SeqCst));
    }

    /// Counts a change that named a mailbox which the service neither has nor makes.
    pub(crate) fn count_unknown_mailbox(&self) {
        self.changes.count_unknown();
    }

    /// Counts a datagram that couldn't be read for this reason.
    pub fn count_unread(&self, error: &ReadError) {
        let place = (error.number() as usize).saturating_sub(1);
        if let Some(counted) = self.heard.unread.get(place) {
            counted.fetch_add(1, Ordering::SeqCst);
        }
    }

    /// What an operator hears of once a minute and at the end: the name of its counter, what happened, and how often. What could not be
    /// sent is told apart.
    pub(crate) fn complaints(&self) -> [(&'static str, &'static str, u64); COMPLAINTS] {
        let told = |counted: &AtomicU64| counted.load(Ordering::SeqCst);
        let challenged = told(&self.heard.challenged).saturating_add(told(&self.heard.stale));
        let forbidden = told(&self.heard.forbidden).saturating_add(self.sent.statuses.sent("403"));
        let sent = |code: &str| self.sent.statuses.sent(code);
        [
            ("unread", "datagrams were no SIP messages", self.unread()),
            (
                "foreign",
                "datagrams came from none of the networks of --allow",
                told(&self.heard.foreign),
            ),
            (
                "limited",
                "datagrams were more than --rate",
                told(&self.heard.limited),
            ),
            (
                "too_long",
                "datagrams were longer than --max-datagram",
                told(&self.heard.too_long),
            ),
            ("challenged", "requests were answered 401", challenged),
            ("forbidden", "requests were answered 403", forbidden),
            (
                "barred",
                "passwords were more than --guesses",
                told(&self.heard.barred),
            ),
            (
                "large",
                "requests were more than --max-texts",
                told(&self.heard.large),
            ),
            (
                "per_source",
                "requests were more than --per-source",
                told(&self.heard.per_source),
            ),
            (
                "bad_summaries",
                "datagrams at --feed-listen told nothing",
                told(&self.heard.bad_summaries),
            ),
            ("answers_400", "requests were answered 400", sent("400")),
            ("answers_404", "requests were answered 404", sent("404")),
            ("answers_405", "requests were answered 405", sent("405")),
            ("answers_406", "requests were answered 406", sent("406")),
            ("answers_416", "requests were answered 416", sent("416")),
            ("answers_420", "requests were answered 420", sent("420")),
            ("answers_423", "requests were answered 423", sent("423")),
            ("answers_481", "requests were answered 481", sent("481")),
            ("answers_489", "requests were answered 489", sent("489")),
            ("answers_500", "requests were answered 500", sent("500")),
            ("answers_503", "requests were answered 503", sent("503")),
        ]
    }

    /// Whether a source whose user is barred is to be told on standard error at this moment, in milliseconds.
    pub(crate) fn is_barred_anew<R: Wait>(&self, rt: &R, source: Addr, moment: u64) -> bool {
        self.barred_lately.lock(rt).is_news(source.ip, moment)
    }

    /// Says on standard error once a minute what went wrong in it.
    pub(crate) fn complain<R: Wait + Eprint>(&self, rt: &R, now: u64) {
        self.complaints.lock(rt).look(rt, self, now);
    }

    /// Says on standard error what went wrong that was not told yet.
    pub(crate) fn complain_last<R: Wait + Eprint>(&self, rt: &R) {
        self.complaints.lock(rt).tell(rt, self);
    }

    /// Counts the NOTIFYs that nobody had answered when the service ended.
    pub(crate) fn count_lost(&self, count: usize) {
        self.sent.lost.fetch_add(count as u64, Ordering::SeqCst);
    }

    /// Counts NOTIFYs that waited, or were to wait, for the answer to another one, and are never sent.
    pub(crate) fn count_held_dropped(&self, count: usize) {
        self.sent
            .held_dropped
            .fetch_add(count as u64, Ordering::SeqCst);
    }

    /// Counts a NOTIFY that was refused with this status code.
    pub(crate) fn count_refusal(&self, code: u16) {
        self.sent.refusals.count(code);
    }

    /// How many NOTIFYs were given up.
    pub(crate) fn given_up(&self) -> u64 {
        self.sent.given_up.load(Ordering::SeqCst)
    }

    /// How many datagrams couldn't be read.
    pub fn unread(&self) -> u64 {
        let mut sum = 0u64;
        for counted in &self.heard.unread {
            sum = sum.saturating_add(counted.load(Ordering::SeqCst));
        }
        sum
    }

    /// Appends what is counted by a name.
    fn add_named(&self, alloc: Global, text: &mut String) -> Result<(), NoMemory> {
        let named = [
            ("datagrams", &self.heard.datagrams),
            ("events", &self.heard.events),
            ("answers", &self.sent.answers),
            ("notifies", &self.sent.notifies),
            ("starts", &self.sent.starts),
            ("failed", &self.sent.failed),
            ("begun", &self.sent.begun),
            ("over", &self.sent.over),
            ("repeats", &self.sent.repeats),
            ("given_up", &self.sent.given_up),
            ("once", &self.sent.once),
            ("lost", &self.sent.lost),
            ("gone_by_481", &self.sent.gone_by_481),
            ("failed_receives", &self.heard.failed_receives),
            ("too_long", &self.heard.too_long),
            ("foreign", &self.heard.foreign),
            ("limited", &self.heard.limited),
            ("challenged", &self.heard.challenged),
            ("wrong", &self.heard.wrong),
            ("stale", &self.heard.stale),
            ("forbidden", &self.heard.forbidden),
            ("barred", &self.heard.barred),
            ("large", &self.heard.large),
            ("control_lines", &self.heard.control_lines),
            ("workers", &self.workers),
            ("workers_ended", &self.workers_ended),
            ("control_foreign", &self.heard.control_foreign),
            ("bad_summaries", &self.heard.bad_summaries),
            ("starts_dropped", &self.sent.starts_dropped),
            ("per_source", &self.heard.per_source),
            ("journal_lost", &self.journal_lost),
            ("held", &self.sent.held),
            ("held_dropped", &self.sent.held_dropped),
        ];
        for (name, counted) in named {
            add_line(alloc, text, name, counted)?;
        }
        Ok(())
    }

    /// Appends the datagrams that couldn't be read, by the number of the error, from 1.
    fn add_unread(&self, alloc: Global, text: &mut String) -> Result<(), NoMemory> {
        text.push_str("unread")?;
        for counted in &self.heard.unread {
            add_word(alloc, text, counted)?;
        }
        text.push_str("\n")?;
        Ok(())
    }

    /// Appends the datagrams that couldn't be read, a line for each cause.
    fn add_causes(&self, alloc: Global, text: &mut String) -> Result<(), NoMemory> {
        for (cause, counted) in CAUSES.iter().zip(self.heard.unread.iter()) {
            let count = counted.load(Ordering::SeqCst);
            let line = format!(in alloc; "unread_{cause} {count}\n")?;
            text.push_str(line.as_str())?;
        }
        Ok(())
    }

    /// Appends what the system dropped until the last look, by the socket, where it told that.
    fn add_drops(&self, alloc: Global, text: &mut String) -> Result<(), NoMemory> {
        for drops in &self.drops {
            drops.add_line(alloc, text)?;
        }
        Ok(())
    }

    /// Appends how many bytes the current file of the journal has: 0 without one.
    fn add_journal(&self, alloc: Global, text: &mut String) -> Result<(), NoMemory> {
        match self.journal.get() {
            Some(journal) => add_line(alloc, text, "journal_bytes", journal.bytes()),
            None => add_line(alloc, text, "journal_bytes", &AtomicU64::new(0)),
        }
    }

    /// Appends how many seconds were not counted.
    fn add_outages(&self, alloc: Global, text: &mut String) -> Result<(), NoMemory> {
        let seconds = self.outages.seconds();
        let line = format!(in alloc; "outage_seconds {seconds}\n")?;
        text.push_str(line.as_str())?;
        Ok(())
    }

    /// The counters, each on a line of its own, behind the seconds that the service is up. The datagrams that couldn't be
    /// read are counted by the number of the error, from 1, on one line, and by cause, the answers and the NOTIFYs that were
    /// refused by status code. What the system dropped at each socket stands there where it tells that.
    pub fn lines(&self, alloc: Global, seconds: u64) -> Result<String, NoMemory> {
        let mut text = format!(in alloc; "up {seconds}\n")?;
        self.add_named(alloc, &mut text)?;
        self.add_unread(alloc, &mut text)?;
        add_line(alloc, &mut text, "live", &self.live)?;
        self.add_outages(alloc, &mut text)?;
        self.add_journal(alloc, &mut text)?;
        self.changes
            .add_lines(alloc, &mut text, self.read.load(Ordering::SeqCst))?;
        self.sent.statuses.add_lines(alloc, &mut text)?;
        self.sent.refusals.add_lines(alloc, &mut text)?;
        self.add_causes(alloc, &mut text)?;
        self.add_drops(alloc, &mut text)?;
        Ok(text)
    }
}
