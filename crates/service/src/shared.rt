//! What the threads of a service share: how far it is, what they counted, and the notes of answers to NOTIFYs. [`counters`] tells what was
//! counted, and [`next_run`] has what they ask of the journal, from which a next run goes on.
ghost use Rattle.std.specs.Prelude.{◌<◌, ◌^◌, IfSome};

mod counters;
mod next_run;

use crate::asked::Asked;
use crate::barred::Barred;
use crate::changes::ChangeCounts;
use crate::complaints::Complaints;
use crate::drops::{Drops, look_at_drops};
use crate::journaling::Journal;
use crate::logging::Log;
use crate::newcomers::{Newcomer, Newcomers};
use crate::outages::Outages;
use crate::owners::Owners;
use crate::post::{LostStarts, Notes};
use crate::reload::Reloads;
use crate::roll::RollCall;
use crate::tallies::{HeardCounts, SentCounts};
use crate::window::Window;
use log_lines::{Record, tell};
use outage_clock::Look;
use sip_read::Request;
use sip_text::{Addr, NoMemory};
use std::alloc::Global;
use std::rt::{Clock, Files};
use std::sync::atomic::{AtomicBool, AtomicU32, AtomicU64, Ordering};
use std::sync::{Mutex, OnceLock, Wait};
use std::time::Instant;
use watchers::Counts;

/// The last moment, in milliseconds: no service is up for so long.
pub(crate) const LAST_MOMENT: u64 = (1 << 63) - 1;

/// How many milliseconds a second has.
const SECOND: u64 = 1000;

/// At which sockets drops are counted.
const SOCKETS: usize = 3;

/// The places of these: where SIP datagrams, control lines and NOTIFYs of voicemail systems come in.
const SIP: usize = 0;

const CONTROL: usize = 1;

const FEED: usize = 2;

/// No worker has this number.
const NOBODY: u32 = u32::MAX;

/// How far a service is, what its threads have counted since it began, and the notes of answers to NOTIFYs.
#[derive(Drop)]
pub struct Shared {
    began: Instant,
    alloc: Global,
    /// What the system dropped, by the socket.
    drops: [Drops; SOCKETS],
    pub(crate) is_closing: AtomicBool,
    pub(crate) is_finished: AtomicBool,
    /// Whether the run ends since the next one is to begin.
    is_reloading: AtomicBool,
    pub(crate) reloads: Reloads,
    logs_requests: AtomicBool,
    /// The answers that weren't sent yet, where requests are logged.
    pub(crate) asked: Mutex<Asked>,
    log: Log,
    pub(crate) notes: Notes,
    pub(crate) lost_starts: LostStarts,
    pub(crate) window: Window,
    /// The clock by which NOTIFYs are sent again and given up, and subscriptions end.
    pub(crate) outages: Outages,
    /// What workers are asked, once there are some.
    pub(crate) roll: OnceLock<RollCall>,
    /// What is written of the workers, where that is kept.
    pub(crate) journal: OnceLock<Journal>,
    /// How many live subscriptions each source has, as the thread that sends told it last.
    sources: Mutex<Counts>,
    /// The requests for new ones that were let through lately, where each source may have so many only.
    newcomers: Mutex<Newcomers>,
    /// Who made which dialog, where users show passwords.
    pub(crate) owners: Mutex<Owners>,
    /// Whether any user did.
    pub(crate) has_owners: AtomicBool,
    complaints: Mutex<Complaints>,
    barred_lately: Mutex<Barred>,
    live: AtomicU64,
    /// For how many milliseconds it was up when a thread read the clock last: one does at each SIP datagram, and ten times a second.
    read: AtomicU64,
    heard: HeardCounts,
    pub(crate) sent: SentCounts,
    changes: ChangeCounts,
    workers: AtomicU64,
    workers_ended: AtomicU64,
    // the number of the first worker that ran out of memory, or NOBODY
    spent_worker: AtomicU32,
    journal_lost: AtomicU64,
}

/// Of how many things an operator hears once a minute and at the end.
pub(crate) const COMPLAINTS: usize = 21;

/// What is counted, each by one.
#[derive(Clone, Copy)]
pub enum Counter {
    /// A datagram came.
    Datagram,
    /// An event went to a worker.
    Event,
    /// An answer was sent.
    Answer,
    /// A NOTIFY was sent.
    Notify,
    /// A transfer was told to start.
    Start,
    /// An out, or an answer to a control line, was not sent or written.
    Failed,
    /// A NOTIFY was sent again.
    Repeat,
    /// A NOTIFY was given up: nobody answered it for 32 seconds.
    GivenUp,
    /// A NOTIFY is not sent again, since as many others wait for their answers as may.
    Once,
    /// A NOTIFY waits for the answer to another one of its dialog: its address has not answered yet.
    Held,
    /// A NOTIFY was answered by 481: its subscription is gone (RFC 6665 section 4.2.2).
    Gone,
    /// A receive failed.
    FailedReceive,
    /// A datagram was dropped since it was too long.
    TooLong,
    /// A datagram was dropped since its source is of none of the networks that are heard.
    Foreign,
    /// A datagram was dropped since its source sends too much.
    Limited,
    /// A request was challenged: it shows no credentials, or some that can't be read or are wrong (RFC 3261 section 22).
    Challenged,
    /// Of those one that shows credentials.
    Wrong,
    /// A request was challenged anew whose credentials are right, but to a nonce that is too old.
    Stale,
    /// A request was refused since its user may not have the mailbox, or another one made its dialog.
    Forbidden,
    /// A request was refused without a look at its password: too many wrong ones came from its source, or some from there and too many for
    /// its user.
    Barred,
    /// A request was refused since more would be kept of it than may be.
    Large,
    /// A control line came.
    ControlLine,
    /// A worker has ended.
    WorkerEnded,
    /// Of the control lines one from elsewhere than lines are heard from.
    ForeignLine,
    /// A datagram of a voicemail system told nothing: it came from elsewhere, was no request, or was refused.
    BadSummary,
    /// A START line was not written, and its transfer fails.
    StartDropped,
    /// A request was refused since its source has as many live subscriptions as it may.
    Crowded,
}

impl Shared {
    /// Of a service that begins now, and hears SIP datagrams at this address. An error where memory is wanting.
    pub fn new(alloc: Global, began: Instant, place: Addr) -> Result<Shared, NoMemory> {
        let notes = Notes::new(alloc)?;
        let lost_starts = LostStarts::new(alloc)?;
        let window = Window::new(alloc)?;
        let drops = [
            Drops::new("kernel_drops"),
            Drops::new("control_drops"),
            Drops::new("feed_drops"),
        ];
        drops[SIP].watch(alloc, place)?;
        Ok(Shared {
            began,
            alloc,
            drops,
            is_closing: AtomicBool::new(false),
            is_finished: AtomicBool::new(false),
            is_reloading: AtomicBool::new(false),
            reloads: Reloads::new(),
            logs_requests: AtomicBool::new(false),
            asked: Mutex::new(Asked::new(alloc)),
            log: Log::new(),
            notes,
            lost_starts,
            window,
            outages: Outages::new(),
            roll: OnceLock::new(),
            journal: OnceLock::new(),
            sources: Mutex::new(Counts::new(alloc)),
            newcomers: Mutex::new(Newcomers::new(alloc)),
            owners: Mutex::new(Owners::new(alloc)),
            has_owners: AtomicBool::new(false),
            complaints: Mutex::new(Complaints::new()),
            barred_lately: Mutex::new(Barred::new()),
            live: AtomicU64::new(0),
            read: AtomicU64::new(0),
            heard: HeardCounts::new(),
            sent: SentCounts::new(),
            changes: ChangeCounts::new(),
            workers: AtomicU64::new(0),
            workers_ended: AtomicU64::new(0),
            spent_worker: AtomicU32::new(NOBODY),
            journal_lost: AtomicU64::new(0),
        })
    }

    /// How many seconds the service is up. None where the clock can't be read.
    pub fn seconds<R: Clock>(&self, rt: &R) -> Option<u64> {
        let moment = self.moment(rt)?;
        Some(moment / SECOND)
    }

    /// How many milliseconds the service is up. None where the clock can't be read.
    pub(crate) fn moment<R: Clock>(&self, rt: &R) -> Option<u64>
        ensures in_range { IfSome result (λ moment. moment < 2 ^ 63) }
    {
        self.log.look(rt);
        match self.began.elapsed(rt) {
            Ok(passed) => {
                let seconds = passed.as_secs().saturating_mul(SECOND);
                let moment = seconds.saturating_add(u64::from(passed.subsec_millis()));
                self.read.store(moment, Ordering::SeqCst);
                Some(moment.min(LAST_MOMENT))
            }
            Err(_) => None,
        }
    }

    /// From now on, before the service runs, so many seconds are not counted at most in which each send fails. 0: each is.
    pub fn allow_outages(&self, seconds: u32) {
        self.outages.allow(seconds);
    }

    /// How many milliseconds the service is up, and the moment of its clock, which leaves out its outages and what it stood still for.
    /// None where the clock can't be read.
    pub(crate) fn look<R: Wait + Clock>(&self, rt: &R) -> Option<(u64, Look)> {
        let reading = self.moment(rt)?;
        Some((reading, self.outages.look(rt, reading)))
    }

    /// The next NOTIFY is due to be sent again at this moment, if one waits for its answer: so far the clock may run where each send fails.
    pub(crate) fn hold_clock<R: Wait>(&self, rt: &R, next: Option<u64>) {
        self.outages.hold(rt, next, self.is_closing());
    }

    /// Says on standard error which time isn't counted.
    pub(crate) fn tell_outages<R: Wait + Eprint>(&self, rt: &R) {
        self.outages.tell(rt, self);
    }

    /// Whether no more is taken.
    pub fn is_closing(&self) -> bool {
        self.is_closing.load(Ordering::SeqCst)
    }

    /// From now on no more is taken.
    pub fn close(&self) {
        self.is_closing.store(true, Ordering::SeqCst);
    }

    /// The number of the first worker that ran out of memory. None where each still handles what comes.
    pub fn spent_worker(&self) -> Option<u32> {
        match self.spent_worker.load(Ordering::SeqCst) {
            NOBODY => None,
            worker => Some(worker),
        }
    }

    /// The worker with this number ran out of memory, and so the service closes.
    pub(crate) fn close_without(&self, worker: u32) {
        let _ = self
            .spent_worker
            .compare_exchange(NOBODY, worker, Ordering::SeqCst, Ordering::SeqCst);
        self.close();
    }

    /// Whether all was sent out.
    pub fn is_finished(&self) -> bool {
        self.is_finished.load(Ordering::SeqCst)
    }

    /// All was sent out.
    pub fn finish(&self) {
        self.is_finished.store(true, Ordering::SeqCst);
    }

    /// From now on each request that is answered is told on standard error.
    pub fn log_requests(&self) {
        self.logs_requests.store(true, Ordering::SeqCst);
    }

    /// Whether it is.
    pub(crate) fn logs_requests(&self) -> bool {
        self.logs_requests.load(Ordering::SeqCst)
    }

    /// From now on each line on standard error is a JSON object.
    pub fn log_json<R: Clock>(&self, rt: &R) {
        self.log.be_json();
        self.log.look(rt);
    }

    /// Writes a line on standard error, in the form that the operator wants.
    pub fn tell<R: Eprint>(&self, rt: &R, record: &Record<'_>) {
        tell(rt, self.alloc, self.log.form(), record);
    }

    /// What memory is taken of.
    pub(crate) fn alloc(&self) -> Global {
        self.alloc
    }

    /// Counts one.
    pub fn count(&self, counter: Counter) {
        let counted = match counter {
            Counter::Datagram => &self.heard.datagrams,
            Counter::Event => &self.heard.events,
            Counter::Answer => &self.sent.answers,
            Counter::Notify => &self.sent.notifies,
            Counter::Start => &self.sent.starts,
            Counter::Failed => &self.sent.failed,
            Counter::Repeat => &self.sent.repeats,
            Counter::GivenUp => &self.sent.given_up,
            Counter::Once => &self.sent.once,
            Counter::Held => &self.sent.held,
            Counter::Gone => &self.sent.gone_by_481,
            Counter::FailedReceive => &self.heard.failed_receives,
            Counter::TooLong => &self.heard.too_long,
            Counter::Foreign => &self.heard.foreign,
            Counter::Limited => &self.heard.limited,
            Counter::Challenged => &self.heard.challenged,
            Counter::Wrong => &self.heard.wrong,
            Counter::Stale => &self.heard.stale,
            Counter::Forbidden => &self.heard.forbidden,
            Counter::Barred => &self.heard.barred,
            Counter::Large => &self.heard.large,
            Counter::ControlLine => &self.heard.control_lines,
            Counter::WorkerEnded => &self.workers_ended,
            Counter::ForeignLine => &self.heard.control_foreign,
            Counter::BadSummary => &self.heard.bad_summaries,
            Counter::StartDropped => &self.sent.starts_dropped,
            Counter::Crowded => &self.heard.per_source,
        };
        counted.fetch_add(1, Ordering::SeqCst);
    }

    /// The service has so many workers.
    pub(crate) fn set_workers(&self, count: u32) {
        self.workers.store(u64::from(count), Ordering::SeqCst);
    }

    /// From now on workers are asked so.
    pub(crate) fn set_roll(&self, roll: RollCall) {
        if let Err(other) = self.roll.try_set(roll) {
            drop(other);
        }
    }

    /// Asks the workers for the subscriptions with these local tags.
    pub(crate) fn call_roll<R: Wait>(&self, rt: &R, tags: Vec<String>) {
        if let Some(roll) = self.roll.get() {
            roll.ask(rt, self.alloc, tags);
        }
    }

    /// A worker has these no more.
    pub(crate) fn tell_gone<R: Wait>(&self, rt: &R, tags: Vec<String>) {
        if let Some(roll) = self.roll.get() {
            roll.tell_gone(rt, tags);
        }
    }

    /// Which ones a worker has no more, if one said so.
    pub(crate) fn hear_gone<R: Wait>(&self, rt: &R) -> Option<Vec<String>> {
        self.roll.get()?.gone(rt)
    }

    /// So many subscriptions live: each has a row.
    pub(crate) fn set_live(&self, count: usize) {
        let count = count as u64;
        // Most often as many as before: a look costs less than to write it.
        if self.live.load(Ordering::SeqCst) != count {
            self.live.store(count, Ordering::SeqCst);
        }
    }

    /// How many live subscriptions this source has, as the thread that sends told it last.
    pub(crate) fn live_from<R: Wait>(&self, rt: &R, source: u32) -> usize {
        self.sources.lock(rt).get(source)
    }

    /// This source has so many live subscriptions now. Where there is no memory for it, it has as many as before.
    pub(crate) fn set_live_from<R: Wait>(&self, rt: &R, source: u32, count: usize) {
        let _ = self.sources.lock(rt).set(source, count);
    }

    /// A request for a new subscription is let through.
    pub(crate) fn note_newcomer<R: Wait>(&self, rt: &R, newcomer: Newcomer<'_>) {
        let _ = self.newcomers.lock(rt).pass(newcomer);
    }

    /// Whether it was let through before, and comes again.
    pub(crate) fn is_again<R: Wait>(&self, rt: &R, newcomer: Newcomer<'_>) -> bool {
        self.newcomers.lock(rt).is_again(newcomer)
    }

    /// The user who made the dialog with this tag, as a number, where that is known.
    pub(crate) fn owner<R: Wait>(&self, rt: &R, tag: &str) -> Option<u32> {
        self.owners.lock(rt).user(tag)
    }

    /// A request outside a dialog is let through, which this user sent.
    pub(crate) fn note_user<R: Wait>(&self, rt: &R, request: &Request, user: u32) {
        self.has_owners.store(true, Ordering::SeqCst);
        let _ = self.owners.lock(rt).pass(request, user);
    }

    /// Counts the subscriptions that began, and those whose last NOTIFY was made, by the NOTIFY with this number.
    pub fn count_notice(&self, number: u32, is_terminated: bool) {
        if number == 1 && !is_terminated {
            self.sent.begun.fetch_add(1, Ordering::SeqCst);
        }
        if number > 1 && is_terminated {
            self.sent.over.fetch_add(1, Ordering::SeqCst);
        }
    }

    /// Control lines come in at this address.
    pub(crate) fn watch_control(&self, place: Addr) -> Result<(), NoMemory> {
        self.drops[CONTROL].watch(self.alloc, place)
    }

    /// NOTIFYs of voicemail systems come in at this address. Without memory nobody looks at what is dropped there.
    pub fn watch_feed(&self, place: Addr) {
        let _ = self.drops[FEED].watch(self.alloc, place);
    }

    /// Looks at what the system dropped before it could be heard. Where it doesn't tell that the last look counts.
    pub(crate) fn look_at_drops<R: Files>(&self, rt: &R) {
        look_at_drops(rt, self.alloc, &self.drops);
    }
}
