//! The journal of a service: what each worker handled is written before anything of it is sent, and a line before it is answered `ok`.
//!
//! A worker hands over the record of an event before it posts what comes of it. The thread that sends writes all records that wait, at once,
//! before it sends what it took: so many events that come together cost one write.
//!
//! So a service that is killed goes on where it was: who reads the journal plays the events again. What is written is in the system's
//! hands then, which outlives the process. When it is brought to the disk, which outlives the machine, [`Syncing`] says.
ghost use Rattle.std.specs.Prelude.{IfOk};
ghost use Rattle.service.specs.Made.{AreNames};

use crate::made::Made;
use crate::shelf::{Chore, Limits, Loss, Shelf};
use crate::volume::Volume;
use indexmap::IndexSet;
use journal::Header;
use keeper::{Keeper, MadeBook, Unkept};
use notifier_model::Event;
use package::MailChange;
use sip_text::{NoMemory, Text};
use std::alloc::Global;
use std::fs::{File, OpenOptions};
use std::os::unix::fs::OpenOptionsExt;
use std::rt::Files;
use std::sync::atomic::{AtomicBool, AtomicU32, AtomicU64, Ordering};
use std::sync::{Mutex, Wait};
use std::{fs, io};

/// No error of the system has this number.
const NO_ERROR: u32 = 0;

/// For how many seconds a file is the current one at least, where it misses nothing: by then each NOTIFY that was unanswered at its begin is
/// answered or given up (RFC 3261 section 17.1.2.2), so the file before it may go.
pub const SETTLED: u64 = 40;

/// So many files are kept before the current one as a run ends for mailboxes that lines made: each such run begins one more, and none goes before
/// the current one is settled.
const MOST_OLDER: u64 = 16;

/// The permission bits of a file of a journal that is made: its user alone may read it, since it tells the seed, by which each tag can be
/// known.
pub const FILE_MODE: u32 = 0o600;

/// When what was written is brought to the disk.
#[derive(Clone, Copy)]
pub enum Syncing {
    /// When the system likes.
    Never,
    /// Every so many seconds, by a thread that delays no send.
    Each(u32),
    /// Behind each write, before anything is sent of it, and before a line is answered `ok`: each of these awaits the disk.
    Always,
}

/// How a journal is kept.
#[derive(Drop)]
pub struct Upkeep {
    /// Where its files are.
    pub folder: Text,
    /// Behind so many bytes a next file is begun.
    pub limit: u64,
    /// For how many seconds a file is the current one at least: [`SETTLED`], and fewer where one tries what happens between two files.
    pub age: u64,
    /// For how many seconds the file in which a service goes on was the current one before. 0: it is new.
    pub been: u64,
    /// The number of the oldest file that is there.
    pub oldest: u64,
    /// When what was written is brought to the disk.
    pub sync: Syncing,
}

/// The journal of a service that runs. All its threads share it.
#[derive(Drop)]
pub struct Journal {
    alloc: Global,
    header: Header,
    upkeep: Upkeep,
    shelf: Mutex<Shelf>,
    /// Of each worker whether its book is wanted.
    wanted: Vec<AtomicBool>,
    /// How many bytes the current file has.
    bytes: AtomicU64,
    /// Whether a record waits to be written of an event that has outs. One of an event without any waits for the next such: nothing of it leaves.
    waits: AtomicBool,
    /// The number of the system's error at the last record that wasn't written, or NO_ERROR.
    error: AtomicU32,
    /// The second of the last sync.
    synced: AtomicU64,
}

/// No book is wanted of so many workers.
fn no_books(alloc: Global, workers: u32) -> Result<Vec<AtomicBool>, NoMemory> {
    let mut wanted = Vec::new(alloc);
    for _ in 0..workers {
        wanted.push(AtomicBool::new(false))?;
    }
    Ok(wanted)
}

/// These tags as a set.
fn tag_set(alloc: Global, tags: &[String]) -> Result<IndexSet<String>, NoMemory> {
    let mut set = IndexSet::new(alloc);
    for tag in tags {
        set.insert(String::from_str(alloc, tag.as_str())?)?;
    }
    Ok(set)
}

impl Journal {
    /// One that goes on in this file. Each further one begins with this header, and holds a book of each of its workers. Nothing of the
    /// keeper waits to be written.
    pub fn new(
        alloc: Global,
        keeper: Keeper,
        header: Header,
        current: Volume,
        upkeep: Upkeep,
    ) -> Result<Journal, NoMemory> {
        let wanted = no_books(alloc, header.workers)?;
        let bytes = AtomicU64::new(current.length());
        let made = Made::new(alloc, header.workers)?;
        let shelf = Shelf::new(keeper, current, upkeep.been, upkeep.oldest, made);
        Ok(Journal {
            alloc,
            header,
            upkeep,
            shelf: Mutex::new(shelf),
            wanted,
            bytes,
            waits: AtomicBool::new(false),
            error: AtomicU32::new(NO_ERROR),
            synced: AtomicU64::new(0),
        })
    }

    /// How many bytes the current file has.
    pub(crate) fn bytes(&self) -> &AtomicU64 {
        &self.bytes
    }

    /// The number of the system's error at the last record that wasn't written. None where it told none yet.
    pub(crate) fn error(&self) -> Option<u32> {
        match self.error.load(Ordering::SeqCst) {
            NO_ERROR => None,
            number => Some(number),
        }
    }

    /// The system told this number where something was not written, if it told one.
    fn note_error(&self, number: Option<i32>) {
        if let Some(number) = number {
            self.error.store(number.cast_unsigned(), Ordering::SeqCst);
        }
    }

    /// Notes how the files stand. How many records were not written since the last time.
    fn note(&self, shelf: &mut Shelf) -> u64 {
        self.bytes.store(shelf.current().length(), Ordering::SeqCst);
        self.note_error(shelf.refusal());
        shelf.take_lost()
    }

    /// Has the system bring the current file to the disk. No lock is held meanwhile. Where it isn't the one that was written, it was begun
    /// since, and has all that was.
    fn sync_current<R: Wait>(&self, rt: &R) -> io::Result<()> {
        let handle = self.shelf.lock(rt).current().handle();
        match handle {
            Ok(file) => file.sync_data(),
            Err(error) => Err(error),
        }
    }

    /// Brings to the disk what was just written, where that comes before all else. How many records are lost by that.
    fn bring_to_disk<R: Wait>(&self, rt: &R) -> u64 {
        let Syncing::Always = self.upkeep.sync else {
            return 0;
        };
        let Err(error) = self.sync_current(rt) else {
            return 0;
        };
        let mut shelf = self.shelf.lock(rt);
        if shelf.is_behind() {
            return 0;
        }
        shelf.miss_sync(error.raw_os_error());
        self.note(&mut shelf)
    }

    /// Writes the records that wait. How many are lost.
    fn write<R: Wait>(&self, rt: &R) -> u64 {
        let mut shelf = self.shelf.lock(rt);
        self.waits.store(false, Ordering::SeqCst);
        let _ = shelf.flush();
        self.note(&mut shelf)
    }

    /// The record of a line is written. How many records are lost.
    fn write_answered<R: Wait>(&self, rt: &R, worker: u32, change: &MailChange) -> u64 {
        let mut shelf = self.shelf.lock(rt);
        let _ = shelf.answered(worker, change);
        self.note(&mut shelf)
    }

    /// A worker handled an event, and posts outs of it next, or has none: its record waits to be written. How many records are lost.
    pub(crate) fn handled<R: Wait>(
        &self,
        rt: &R,
        worker: u32,
        event: &Event,
        has_outs: bool,
    ) -> u64 {
        let mut shelf = self.shelf.lock(rt);
        let _ = shelf.handled(worker, event);
        if has_outs {
            self.waits.store(true, Ordering::SeqCst);
        }
        self.note(&mut shelf)
    }

    /// Writes the records that wait, where one of them is of an event with outs: what the workers posted may be sent behind that. How many
    /// are lost.
    pub(crate) fn flush<R: Wait>(&self, rt: &R) -> u64 {
        if self.waits.load(Ordering::SeqCst) {
            self.write_all(rt)
        } else {
            0
        }
    }

    /// Writes all records that wait. How many are lost.
    pub(crate) fn write_all<R: Wait>(&self, rt: &R) -> u64 {
        let lost = self.write(rt);
        lost.saturating_add(self.bring_to_disk(rt))
    }

    /// A control line that changes a mailbox of this worker is about to be answered `ok`: that is written. How many records are lost.
    pub(crate) fn answered<R: Wait>(&self, rt: &R, worker: u32, change: &MailChange) -> u64 {
        let lost = self.write_answered(rt, worker, change);
        lost.saturating_add(self.bring_to_disk(rt))
    }

    /// A control line is about to be answered `ok` that is unknown for want of memory. Nothing more is written then. How many records are lost.
    pub(crate) fn lose_count<R: Wait>(&self, rt: &R) -> u64 {
        let mut shelf = self.shelf.lock(rt);
        let _ = shelf.lose_count();
        self.note(&mut shelf)
    }

    /// Whether so few files are kept that one more may be, with which the next run begins.
    pub(crate) fn is_short<R: Wait>(&self, rt: &R) -> bool {
        self.shelf.lock(rt).older() < MOST_OLDER
    }

    /// A line is to make the mailbox of this change. From now on no further file is begun while the current one misses nothing, and one that
    /// is begun otherwise has what is told of the mailbox. False where the current one misses something, or one is being begun, or for want
    /// of memory.
    pub(crate) fn hold<R: Wait>(&self, rt: &R, change: &MailChange) -> bool {
        let mut shelf = self.shelf.lock(rt);
        shelf.is_whole() && shelf.hold(change)
    }

    /// The mailboxes that lines made, each once, in the order in which lines made them.
    pub(crate) fn made<R: Wait>(&self, rt: &R) -> Result<Vec<Text>, NoMemory>
        ensures { IfOk result (λ names. AreNames names.items) }
    {
        self.shelf.lock(rt).made().names()
    }

    /// Whether the current file misses nothing, so that a service may go on from it.
    pub(crate) fn is_whole<R: Wait>(&self, rt: &R) -> bool {
        self.shelf.lock(rt).is_whole()
    }

    /// Whether the book of this worker is wanted. It is asked behind each event, so it takes no lock.
    pub(crate) fn wants_book(&self, worker: u32) -> bool {
        match self.wanted.get(worker as usize) {
            Some(wanted) => wanted.load(Ordering::SeqCst),
            None => false,
        }
    }

    /// The tags of the transfers of which this worker's book would tell, where that is wanted. Its desk knows which of them nobody watches any
    /// more: those are told to `forget` before the book is made.
    pub(crate) fn transfers<R: Wait>(&self, rt: &R, worker: u32) -> Option<Vec<String>> {
        if !self.wants_book(worker) {
            return None;
        }
        let tags = self.shelf.lock(rt).transfers(worker).ok()?;
        if tags.is_empty() { None } else { Some(tags) }
    }

    /// The desk of this worker has no subscription with these tags: so its books tell nothing of these transfers. For want of memory they
    /// do until the next time.
    pub(crate) fn forget<R: Wait>(&self, rt: &R, worker: u32, tags: &[String]) {
        if let Ok(tags) = tag_set(self.alloc, tags) {
            self.shelf.lock(rt).forget(worker, &tags);
        }
    }

    /// The record of this worker's book, where the next file waits for it.
    fn made_book<R: Wait>(
        &self,
        rt: &R,
        worker: u32,
        written: &[u8],
    ) -> Option<Result<MadeBook, Unkept>> {
        let told = self.shelf.lock(rt).told(worker)?;
        match told {
            Ok(told) => Some(MadeBook::new(self.alloc, worker, told, written)),
            Err(error) => Some(Err(error)),
        }
    }

    /// The book of this worker after all that it handled. How many records are lost. All workers wait for the shelf, and a book is long: so its
    /// record is made between two locks. Nobody but the worker, who waits here, has it told anything meanwhile.
    pub(crate) fn book<R: Wait>(&self, rt: &R, worker: u32, written: &[u8]) -> u64 {
        if let Some(wanted) = self.wanted.get(worker as usize) {
            wanted.store(false, Ordering::SeqCst);
        }
        let Some(made) = self.made_book(rt, worker, written) else {
            return 0;
        };
        let mut shelf = self.shelf.lock(rt);
        shelf.book(worker, made);
        self.note(&mut shelf)
    }

    /// Opens the file with this number, in place of one that was begun and not kept.
    fn open<R: Files<File = File>>(&self, rt: &R, path: &str) -> io::Result<File> {
        let _ = fs::remove_file(rt, path);
        OpenOptions::new()
            .append(true)
            .create_new(true)
            .mode(FILE_MODE)
            .open(rt, path)
    }

    /// Begins the file with this number, and asks each worker for its book. Where it can't be it is tried again later.
    fn begin<R: Wait + Files<File = File>>(&self, rt: &R, number: u64, path: &str) {
        let file = match self.open(rt, path) {
            Ok(file) => file,
            Err(error) => {
                self.note_error(error.raw_os_error());
                return;
            }
        };
        let next = Volume::new(file, number, 0);
        let mut shelf = self.shelf.lock(rt);
        if !shelf.begin(next, &self.header) {
            return;
        }
        for wanted in &self.wanted {
            wanted.store(true, Ordering::SeqCst);
        }
    }

    /// What is to be done in this second.
    fn chore<R: Wait>(&self, rt: &R, now: u64) -> Chore {
        let limits = Limits {
            length: self.upkeep.limit,
            age: self.upkeep.age,
        };
        self.shelf.lock(rt).chore(now, limits)
    }

    /// The path of the file with this number.
    fn path(&self, number: u64) -> Result<String, NoMemory> {
        let folder = self.upkeep.folder.as_str();
        let path = format!(in self.alloc; "{folder}/journal.{number}")?;
        Ok(path)
    }

    /// Begins a next file where one is due, and removes one that is not needed any more. It is asked once a second.
    pub(crate) fn look<R: Wait + Files<File = File>>(&self, rt: &R, now: u64) {
        match self.chore(rt, now) {
            Chore::Nothing => {}
            Chore::Remove(number) => {
                if let Ok(path) = self.path(number) {
                    let _ = fs::remove_file(rt, path.as_str());
                }
            }
            Chore::Begin(number) => {
                if let Ok(path) = self.path(number) {
                    self.begin(rt, number, path.as_str());
                }
            }
        }
    }

    /// Has the system bring to the disk what was written, where the last time is long enough ago. No lock is held meanwhile. Where it can't
    /// that is tried again the next time: a process that is killed loses nothing by it.
    pub(crate) fn sync<R: Wait>(&self, rt: &R, now: u64) {
        let Syncing::Each(seconds) = self.upkeep.sync else {
            return;
        };
        if now.saturating_sub(self.synced.load(Ordering::SeqCst)) < u64::from(seconds) {
            return;
        }
        self.synced.store(now, Ordering::SeqCst);
        let _ = self.sync_current(rt);
    }
}
