//! RELOAD: the files of a service are read again while it runs. Where they are good its run ends as by a kill that loses nothing, and the
//! next one goes on from the journal with what they say.
//!
//! The thread that takes lines asks for it, and waits a while. One that whoever runs the service has started reads the files and tells what
//! came of it (`Rereader`). So a service begins its next run only once its files are known to be good.
//!
//! Where MAIL lines make mailboxes the service itself asks for it, soon behind the first one: the desks of a run have the mailboxes with which
//! it began. The names stand in the journal alone.

ghost use Rattle.std.specs.Prelude.{◌≡◌, ℕ, true, is_some};
ghost use Rattle.service.specs.Naps.{reading_nap};
ghost use Rattle.service.specs.declared.reload.Reloading.TheVariants as reloading;

use crate::logging::has_room;
use crate::shared::Shared;
use control_lines::Token;
use crossbeam_utils::sync::{Parker, Unparker};
use log_lines::{Ending, Record};
use sip_text::{Addr, NoMemory};
use std::alloc::Global;
use std::rt::Clock;
use std::sync::atomic::{AtomicBool, AtomicU64, Ordering};
use std::sync::{Arc, Mutex, OnceLock, Wait};
use std::thread;
use std::time::Duration;

/// How often it is looked at most whether the files were read. Together that is shorter than the time for which other lines are asked.
const LOOKS: u32 = 200;

/// How many milliseconds pass between two looks.
const NAP: u64 = 2;

/// For how many milliseconds who reads sleeps at most. Whoever asks wakes it.
const SLEEP: u64 = 1000;

/// For how many milliseconds mailboxes that lines make are gathered before a next run begins that has them.
const GATHERING: u64 = 100;

/// How many milliseconds a run lasts at least that ends for mailboxes.
const SHORTEST: u64 = 1000;

/// How many times as long as its start a run lasts at least that ends for mailboxes: where starts take long, most of the time is left for phones.
const STARTS: u64 = 4;

/// How many milliseconds pass till it is tried again to end a run for mailboxes: files were bad, or the journal has too many of them.
const AGAIN: u64 = 5000;

/// No moment is so late.
const NEVER: u64 = u64::MAX;

/// Who sent a control line.
#[derive(Clone, Copy)]
pub struct Caller {
    /// The token before the line.
    pub token: Option<Token>,
    /// Where the line came from, and the answer goes.
    pub source: Addr,
}

/// What became of a RELOAD so far.
#[derive(Clone, Copy, PartialEq, Eq)]
pub(crate) enum Reloading {
    /// The files are still being read.
    Waits,
    /// It is refused.
    Refused,
    /// The files are good: the run ends.
    Begins,
}

/// What was asked last.
#[derive(Drop)]
struct Wish {
    /// Who asks. None: nobody, or the service itself, for mailboxes that lines made.
    caller: Option<Caller>,
    /// How many were asked before.
    number: u64,
    stage: Reloading,
    /// Why it is refused. None where there was no memory for it.
    why: Option<String>,
    /// The token of the line by which this run began.
    done: Option<Token>,
}

impl Wish {
    /// Nothing is asked.
    fn new() -> Wish {
        Wish {
            caller: None,
            number: 0,
            stage: Reloading::Waits,
            why: None,
            done: None,
        }
    }

    /// Whether a line with this token asked last.
    fn is_asked_by(&self, token: Option<Token>) -> bool {
        match self.caller {
            Some(caller) => token.is_some() && caller.token == token,
            None => false,
        }
    }

    /// Somebody asks. A line that came before, with the same token, asks for nothing new.
    fn ask(&mut self, caller: Caller) {
        if !self.is_asked_by(caller.token) {
            self.number = self.number.wrapping_add(1);
            self.stage = Reloading::Waits;
            self.why = None;
        }
        self.caller = Some(caller);
    }

    /// The line with this token is that by which this run began.
    fn begin_behind(&mut self, token: Option<Token>) {
        self.done = token;
    }

    /// Whether it is. A line without a token is never known again.
    fn is_behind(&self, token: Option<Token>) -> bool
        ensures known { result ≡ true → is_some token ≡ true }
    {
        token.is_some() && self.done == token
    }

    /// Why what was asked last is refused.
    fn reason(&self) -> Option<&str> {
        match &self.why {
            Some(why) => Some(why.as_str()),
            None => None,
        }
    }

    /// The number of what is to be read for, if something is.
    fn wanted(&self) -> Option<u64> {
        if self.caller.is_some() && self.stage == Reloading::Waits {
            Some(self.number)
        } else {
            None
        }
    }

    /// The service itself asks, for mailboxes that lines made. The number of what is to be read.
    fn ask_alone(&mut self) -> u64 {
        self.number = self.number.wrapping_add(1);
        self.stage = Reloading::Waits;
        self.caller = None;
        self.why = None;
        self.number
    }

    /// The number of what is to be read next: for who asks, or else for mailboxes, where these are due. Where files were good already the run
    /// ends, and whoever asked for that stays known: the next run answers.
    fn next(&mut self, is_due: bool) -> Option<u64>
        ensures good { self.old.stage ≡ reloading.Begins → self.new ≡ self.old }
    {
        if let Some(number) = self.wanted() {
            return Some(number);
        }
        if is_due && self.stage != Reloading::Begins {
            Some(self.ask_alone())
        } else {
            None
        }
    }

    /// The files are good, as was asked by this number. What is asked since is read for anew. Whether the service itself asked.
    fn accept(&mut self, number: u64) -> bool {
        if self.number != number {
            return false;
        }
        self.stage = Reloading::Begins;
        self.caller.is_none()
    }

    /// They are not, or can't be read again, and this is why. Whether the service itself asked.
    fn refuse(&mut self, number: u64, why: Option<String>) -> bool {
        if self.number != number {
            return false;
        }
        self.stage = Reloading::Refused;
        self.why = why;
        self.caller.is_none()
    }
}

/// For how many milliseconds who reads may sleep at this moment, where files are due at that one.
fn nap_until(due: u64, now: u64) -> u64
    ensures { result ≡ reading_nap due now }
{
    due.saturating_sub(now).clamp(NAP, SLEEP)
}

/// What was asked last, and who reads the files.
#[derive(Drop)]
pub(crate) struct Reloads {
    wish: Mutex<Wish>,
    /// What wakes the thread that reads, once there is one.
    reader: OnceLock<Unparker>,
    /// The moment at which files are read for mailboxes that lines made, or NEVER.
    due: AtomicU64,
    /// Whether those files are good.
    is_read: AtomicBool,
    /// The moment at which the start of this run was over, or NEVER before that.
    started: AtomicU64,
}

impl Reloads {
    /// Nothing is asked, and nobody reads.
    pub(crate) fn new() -> Reloads {
        Reloads {
            wish: Mutex::new(Wish::new()),
            reader: OnceLock::new(),
            due: AtomicU64::new(NEVER),
            is_read: AtomicBool::new(false),
            started: AtomicU64::new(NEVER),
        }
    }

    /// At this moment, in milliseconds, the start of this run was over, unless it was before.
    fn note_start(&self, now: u64) {
        if self.started.load(Ordering::SeqCst) == NEVER {
            self.started.store(now, Ordering::SeqCst);
        }
    }

    /// The moment until which this run lasts at least, where it ends for mailboxes.
    fn shortest(&self) -> u64 {
        let noted = self.started.load(Ordering::SeqCst);
        let started = if noted == NEVER { 0 } else { noted };
        started.saturating_add(SHORTEST.max(started.saturating_mul(STARTS)))
    }

    /// A line made a mailbox at this moment, in milliseconds: soon the files are read for it. Who comes meanwhile comes along.
    pub(crate) fn want_names(&self, now: u64) {
        if self.due.load(Ordering::SeqCst) == NEVER {
            let due = now.saturating_add(GATHERING).max(self.shortest());
            self.due.store(due, Ordering::SeqCst);
            self.wake();
        }
    }

    /// Whether the files are good that were read for mailboxes: the run is to end.
    pub(crate) fn has_names(&self) -> bool {
        self.is_read.load(Ordering::SeqCst)
    }

    /// Whether files are to be read for mailboxes at this moment. Should they be bad they are read again later.
    fn take_due(&self, now: u64) -> bool {
        let is_due = self.due.load(Ordering::SeqCst) <= now;
        if is_due {
            self.due.store(now.saturating_add(AGAIN), Ordering::SeqCst);
        }
        is_due
    }

    /// For how many milliseconds who reads may sleep at this moment.
    fn nap(&self, now: u64) -> u64
        // When they are due no contract can tell: another thread says so.
        ensures { (due : ℕ) × (result ≡ reading_nap due now) }
    {
        nap_until(self.due.load(Ordering::SeqCst), now)
    }

    /// From now on this wakes the thread that reads.
    fn set_reader(&self, reader: Unparker) {
        if let Err(other) = self.reader.try_set(reader) {
            drop(other);
        }
    }

    /// Wakes the thread that reads.
    pub(crate) fn wake(&self) {
        if let Some(reader) = self.reader.get() {
            reader.unpark();
        }
    }

    /// The line with this token is that by which this run began.
    pub(crate) fn begin_behind<R: Wait>(&self, rt: &R, token: Option<Token>) {
        self.wish.lock(rt).begin_behind(token);
    }

    /// Whether it is. A line without a token is never known again.
    pub(crate) fn is_behind<R: Wait>(&self, rt: &R, token: Option<Token>) -> bool
        ensures known { result ≡ true → is_some token ≡ true }
    {
        self.wish.lock(rt).is_behind(token)
    }

    /// Who asked last.
    pub(crate) fn caller<R: Wait>(&self, rt: &R) -> Option<Caller> {
        self.wish.lock(rt).caller
    }

    /// Refuses what is asked, since no next run could go on.
    pub(crate) fn refuse<R: Wait>(&self, rt: &R, caller: Caller, why: Option<String>) {
        let mut wish = self.wish.lock(rt);
        wish.ask(caller);
        let number = wish.number;
        let _ = wish.refuse(number, why);
    }

    /// How far it is.
    fn stage<R: Wait>(&self, rt: &R) -> Reloading {
        self.wish.lock(rt).stage
    }

    /// Asks who reads to read, and waits a while for what comes of it.
    pub(crate) fn ask<R: Wait + Clock>(&self, rt: &R, caller: Caller) -> Reloading {
        self.wish.lock(rt).ask(caller);
        // What was read before is not what this asks for.
        self.is_read.store(false, Ordering::SeqCst);
        self.wake();
        for _ in 0..LOOKS {
            match self.stage(rt) {
                Reloading::Waits => thread::sleep(rt, Duration::from_millis(NAP)),
                came => return came,
            }
        }
        Reloading::Waits
    }

    /// Why the last one is refused. None where there is no memory for it.
    pub(crate) fn why<R: Wait>(&self, rt: &R, alloc: Global) -> Option<String> {
        let wish = self.wish.lock(rt);
        match wish.reason() {
            Some(why) => String::from_str(alloc, why).ok(),
            None => None,
        }
    }
}

/// Who reads the files of a service again.
#[derive(Drop)]
pub struct Rereader {
    shared: Arc<Shared, Global>,
    parker: Parker,
}

impl Rereader {
    /// One for the service whose threads share this.
    pub fn new(alloc: Global, shared: &Arc<Shared, Global>) -> Result<Rereader, NoMemory> {
        let parker = Parker::new(alloc)?;
        let shared = Arc::try_clone(shared)?;
        shared.reloads.set_reader(parker.unparker().clone()?);
        Ok(Rereader { shared, parker })
    }

    /// Waits until the files are to be read, and answers the number of who asks. None once all was sent out.
    pub fn next<R: Wait + Clock>(&self, rt: &R) -> Option<u64> {
        for _ in rt.forever() {
            if self.shared.is_finished() {
                return None;
            }
            let now = self.shared.moment(rt).unwrap_or(0);
            self.shared.reloads.note_start(now);
            if let Some(number) = self.wanted(rt, now) {
                return Some(number);
            }
            let nap = self.shared.reloads.nap(now);
            self.parker.park_timeout(rt, Duration::from_millis(nap));
        }
        unreachable!()
    }

    /// The number of who asks, if somebody does at this moment: for mailboxes where the next run can go on from the journal.
    fn wanted<R: Wait>(&self, rt: &R, now: u64) -> Option<u64> {
        let reloads = &self.shared.reloads;
        let is_due = reloads.take_due(now) && self.shared.may_end_for_mailboxes(rt);
        reloads.wish.lock(rt).next(is_due)
    }

    /// The files that were read for who has this number are good.
    pub fn accept<R: Wait>(&self, rt: &R, number: u64) {
        let reloads = &self.shared.reloads;
        if reloads.wish.lock(rt).accept(number) {
            reloads.is_read.store(true, Ordering::SeqCst);
        }
    }

    /// Says on standard error why a start with these files would end, with this exit status.
    pub fn say_why<R: Eprint>(&self, rt: &R, status: u8, text: &str) {
        if has_room() {
            let ending = Ending::Refused {
                status: u64::from(status),
                text,
            };
            self.shared.tell(rt, &Record::Ending(ending));
        }
    }

    /// They are not, or memory ran out: why, if there is memory to say so. Whether nobody is told of that, since they were read for mailboxes
    /// that lines made.
    pub fn refuse<R: Wait>(&self, rt: &R, number: u64, why: Option<String>) -> bool {
        self.shared.reloads.wish.lock(rt).refuse(number, why)
    }
}
