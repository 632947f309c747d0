//! What the threads of a service ask of its journal, and the end of a run from which the next one goes on.
ghost use Rattle.std.specs.Prelude.{IfOk};
ghost use Rattle.service.specs.Made.{AreNames};

use crate::journaling::Journal;
use crate::reload::{Caller, Reloading};
use crate::shared::Shared;
use control_lines::Token;
use package::{Change, MailChange};
use sip_text::{NoMemory, Text};
use std::fs::File;
use std::rt::{Clock, Files};
use std::sync::Wait;
use std::sync::atomic::Ordering;

impl Shared {
    /// Whether the mailbox of a change can be made: what lines tell of it is in the journal, from which the next run has it. No further file of the
    /// journal is begun before that run, unless this one misses a record: then the further one has what those lines told, too.
    pub(crate) fn may_make<R: Wait>(&self, rt: &R, change: &Change) -> bool {
        match (self.journal.get(), change) {
            (Some(journal), Change::Mail(change)) => journal.hold(rt, change),
            _ => false,
        }
    }

    /// The mailboxes that lines made in this run, each once, in the order in which they did.
    pub fn made_mailboxes<R: Wait>(&self, rt: &R) -> Result<Vec<Text>, NoMemory>
        ensures { IfOk result (λ names. AreNames names.items) }
    {
        match self.journal.get() {
            Some(journal) => journal.made(rt),
            None => Ok(Vec::new(self.alloc)),
        }
    }

    /// Whether the next run may begin for mailboxes that were made: it goes on from a journal that misses nothing, and has not too many files.
    pub(crate) fn may_end_for_mailboxes<R: Wait>(&self, rt: &R) -> bool {
        match self.journal.get() {
            Some(journal) => journal.is_whole(rt) && journal.is_short(rt),
            None => false,
        }
    }

    /// A mailbox was made: lines know it, and the next run will tell phones of it. So that begins soon.
    pub(crate) fn await_mailbox<R: Clock>(&self, rt: &R) {
        self.reloads.want_names(self.moment(rt).unwrap_or(0));
    }

    /// Ends the run where mailboxes were made and the files of the next one are good, unless it ends anyway. Where the journal misses a record since
    /// those files were read, the run goes on until a further file has all.
    pub(crate) fn end_for_mailboxes<R: Wait>(&self, rt: &R) {
        if self.reloads.has_names() && !self.is_closing() && self.may_end_for_mailboxes(rt) {
            self.is_reloading.store(true, Ordering::SeqCst);
            self.close();
        }
    }

    /// Whether the run ends as by a kill that loses nothing, since the next one is to begin with files that were read again. Nobody is told
    /// of an end then, and no more NOTIFYs are sent: their events are in the journal, so the next run sends them.
    pub fn is_reloading(&self) -> bool {
        self.is_reloading.load(Ordering::SeqCst)
    }

    /// Who asked for the RELOAD by which the next run begins. That run answers it.
    pub fn reload_caller<R: Wait>(&self, rt: &R) -> Option<Caller> {
        self.reloads.caller(rt)
    }

    /// This run began by the RELOAD with this token: where that comes again it is answered again, and not done again.
    pub fn begin_behind<R: Wait>(&self, rt: &R, token: Option<Token>) {
        self.reloads.begin_behind(rt, token);
    }

    /// The run has ended: who reads files reads no more.
    pub fn finish_reading(&self) {
        self.finish();
        self.reloads.wake();
    }

    /// Why no next run could go on from the journal, behind the exit status that a start without it would have.
    fn lack<R: Wait>(&self, rt: &R) -> Option<&'static str> {
        match self.journal.get() {
            Some(journal) if journal.is_whole(rt) => None,
            Some(_) => Some("3 the journal misses records"),
            None => Some("1 no journal: RELOAD needs --journal <folder>"),
        }
    }

    /// Has the files read again for a RELOAD, and waits a while for it. Where they are good the run is to end.
    pub(crate) fn reload<R: Wait + Clock>(&self, rt: &R, caller: Caller) -> Reloading {
        if let Some(why) = self.lack(rt) {
            let why = String::from_str(self.alloc, why).ok();
            self.reloads.refuse(rt, caller, why);
            return Reloading::Refused;
        }
        let came = self.reloads.ask(rt, caller);
        if came == Reloading::Begins {
            self.is_reloading.store(true, Ordering::SeqCst);
        }
        came
    }

    /// From now on what the workers handle is written to this journal.
    pub fn keep_journal(&self, journal: Journal) {
        if let Err(other) = self.journal.try_set(journal) {
            drop(other);
        }
    }

    /// Whether that is written.
    pub(crate) fn has_journal(&self) -> bool {
        self.journal.get().is_some()
    }

    /// Counts records of the journal that were not written.
    pub fn count_unwritten(&self, lost: u64) {
        if lost > 0 {
            self.journal_lost.fetch_add(lost, Ordering::SeqCst);
        }
    }

    /// How many were not.
    pub(crate) fn unwritten(&self) -> u64 {
        self.journal_lost.load(Ordering::SeqCst)
    }

    /// The number of the system's error at the last of them. None where it told none yet.
    pub(crate) fn journal_error(&self) -> Option<u32> {
        self.journal.get()?.error()
    }

    /// Writes all records that wait, where a journal is kept: nothing more is handled.
    pub(crate) fn end_journal<R: Wait>(&self, rt: &R) {
        if let Some(journal) = self.journal.get() {
            self.count_unwritten(journal.write_all(rt));
        }
    }

    /// A control line that changes a mailbox of this worker is about to be answered `ok`: that is written, where a journal is kept.
    pub(crate) fn write_answered<R: Wait>(&self, rt: &R, worker: u32, change: &MailChange) {
        if let Some(journal) = self.journal.get() {
            self.count_unwritten(journal.answered(rt, worker, change));
        }
    }

    /// A control line that changes a mailbox is about to be answered `ok`, but it can't be read again for want of memory.
    pub(crate) fn lose_line<R: Wait>(&self, rt: &R) {
        if let Some(journal) = self.journal.get() {
            self.count_unwritten(journal.lose_count(rt));
        }
    }

    /// The tags of the transfers of which the book of this worker would tell, where that is wanted.
    pub(crate) fn told_transfers<R: Wait>(&self, rt: &R, worker: u32) -> Option<Vec<String>> {
        // Behind the planned stop nobody watches any: but the next run goes on from what stood before.
        if self.is_reloading() {
            return None;
        }
        self.journal.get()?.transfers(rt, worker)
    }

    /// The desk of this worker has no subscription with these tags: the journal tells no more of transfers that have them.
    pub(crate) fn forget_transfers<R: Wait>(&self, rt: &R, worker: u32, tags: &[String]) {
        if let Some(journal) = self.journal.get() {
            journal.forget(rt, worker, tags);
        }
    }

    /// The book of this worker after all that it handled, for the journal.
    pub(crate) fn write_book<R: Wait>(&self, rt: &R, worker: u32, written: &[u8]) {
        if let Some(journal) = self.journal.get() {
            self.count_unwritten(journal.book(rt, worker, written));
        }
    }

    /// Writes what waits for the journal, begins a next file of it where one is due, and removes one that is not needed any more. It is asked
    /// once a second.
    pub(crate) fn look_at_journal<R: Wait + Files<File = File>>(&self, rt: &R, now: u64) {
        if let Some(journal) = self.journal.get() {
            // Also the records of events without outs, which await no send: they wait a second at most.
            self.count_unwritten(journal.write_all(rt));
            journal.look(rt, now);
        }
    }

    /// Has the system bring the journal to the disk, where that is asked for and its time has come.
    pub(crate) fn sync_journal<R: Wait>(&self, rt: &R, now: u64) {
        if let Some(journal) = self.journal.get() {
            journal.sync(rt, now);
        }
    }
}
