//! What a service keeps of all its workers.
ghost use Rattle.std.specs.Prelude.{◌≡◌, ◌≤◌, ◌<◌, true, false, length, slice_get, replicate, is_some, map, string_bytes, Option, Some, None, option_map, IfOk, IfErr, OnOk, OnErr, Err};
ghost use Rattle.std.specs.List.{list_all};
ghost use Rattle.notifier_model.specs.declared.saved.Saved.{Saved};
ghost use Rattle.snapshots.specs.Books.{IsBook};
ghost use Rattle.journal.specs.Records.{written, book_record, IsRecord};
ghost use Rattle.journal.specs.declared.record.Record.TheVariants as entry;
ghost use Rattle.keeper.specs.Told as kept;
ghost use Rattle.keeper.specs.Keeping as spec;
ghost use Rattle.keeper.specs.Refusing.{WorkerFails, LookFails, PutFails, KeepFails, BookFails, BookingFails, HasNoPlace};
ghost use Rattle.keeper.specs.declared.error.Unkept.TheVariants as unkept;
ghost use Rattle.keeper.specs.Keeping.{first, after_handled, after_answered, after_passed, after_counted, after_forgetting, after_clock, after_begin, after_book, IsBookOf, IsOutdated, after_catching_up, turned, without_next, cleared, has_book, next_line};

use crate::error::Unkept;
use crate::kept::Kept;
use crate::made_book::MadeBook;
use crate::waiting::Waiting;
use indexmap::IndexSet;
use journal::{Clock, Header, Line, Record, Told, put_handled, put_line, put_record};
use notifier_model::Event;
use package::MailChange;
use sip_text::NoMemory;
use std::alloc::Global;
use std::marker::Model;

/// What a service with a journal keeps of all its workers, and the bytes that wait to be written. After an error all is as it was.
#[derive(Drop)]
pub struct Keeper {
    alloc: Global,
    workers: Vec<Kept>,
    waiting: Waiting,
    // while a next file is begun: of which workers it has the book
    booked: Option<Vec<bool>>,
}

impl Model for Keeper {
    ghost use Rattle.std.specs.Prelude.{option_map};
    ghost use Rattle.keeper.specs.Keeping as spec;

    ghost Value = { spec.State };

    ghost view = { λ k. record {
      workers = k.workers.items;
      current = k.waiting.current.items;
      next = k.waiting.next.items;
      booked = option_map (λ b. b.items) k.booked;
    } };
}

/// Whether the next file has the book of this worker.
fn has_book(booked: &Option<Vec<bool>>, worker: u32) -> bool
    ensures { result ≡ spec.has_book worker (option_map (λ b. b.items) booked.now) }
{
    match booked {
        Some(booked) => booked.get(worker as usize).copied().unwrap_or(false),
        None => false,
    }
}

/// Whether the books of all of them are there.
fn all_booked(booked: &[bool]) -> bool
    ensures { result ≡ list_all spec.itself booked.now }
{
    booked.iter().all(|is_there| *is_there)
}

/// As many workers, none of whose books is there.
fn none_booked(alloc: Global, workers: usize) -> Result<Vec<bool>, NoMemory>
    ensures { IfOk result (λ booked. booked.items ≡ replicate workers false) }
{
    let booked = vec![in alloc; false; workers]?;
    Ok(booked)
}

/// The same header once more.
fn copy_header(alloc: Global, header: &Header) -> Result<Header, NoMemory>
    ensures { IfOk result (λ h. h ≡ header.now) }
{
    Ok(Header {
        version: header.version.copy(alloc)?,
        workers: header.workers,
        seed: header.seed,
        listen: header.listen,
        contact: header.contact,
        boot: header.boot.copy(alloc)?,
    })
}

/// What is kept of the worker with this number.
fn find(workers: &[Kept], worker: u32) -> Result<&Kept, Unkept>
    ensures found { IfOk result (λ k. slice_get workers.now worker ≡ Some k.now) }
    ensures fails { IfErr result (λ e. (e ≡ unkept.NoSuchWorker) × (length workers.now ≤ worker)) }
{
    match workers.get(worker as usize) {
        Some(kept) => Ok(kept),
        None => Err(Unkept::NoSuchWorker),
    }
}

impl Keeper {
    /// Of each worker, by its number, what it was told so far. No line waits for one, and no next file is begun.
    pub fn new(alloc: Global, told: Vec<Told>) -> Result<Keeper, NoMemory>
        ensures { IfOk result (λ k. k ≡ first told.items) }
    {
        let mut workers = Vec::new(alloc);
        for told in told {
            workers.push(Kept::new(alloc, told)?)?;
        }
        Ok(Keeper {
            alloc,
            workers,
            waiting: Waiting::new(alloc),
            booked: None,
        })
    }

    /// A worker handled an event: its record stands in the current file, and in the next one behind the worker's book.
    pub fn handled(&mut self, worker: u32, event: &Event) -> Result<(), Unkept>
        ensures kept { OnOk result (self.new ≡ after_handled worker event.now self.old) }
        ensures is_worker { OnOk result (worker < length self.old.workers) }
        ensures readable { OnOk result (IsRecord (entry.Handled worker event.now)) }
        ensures unchanged { OnErr result (self.new ≡ self.old) }
        ensures fails { IfErr result (KeepFails (entry.Handled worker event.now) self.old.workers worker) }
    {
        let both = has_book(&self.booked, worker);
        let mut record = Vec::new(self.alloc);
        put_handled(self.alloc, worker, event, &mut record)?;
        self.waiting.reserve(record.len(), both)?;
        let Some(kept) = self.workers.get_mut(worker as usize) else {
            return Err(Unkept::NoSuchWorker);
        };
        kept.take(self.alloc, event)?;
        self.waiting.append(record.as_slice(), both);
        Ok(())
    }

    /// A control line that changes a mailbox of this worker is about to be answered `ok`: its record has the worker's next line number, and
    /// stands in the current file alone.
    pub fn answered(&mut self, worker: u32, change: &MailChange) -> Result<(), Unkept>
        ensures kept { OnOk result (self.new ≡ after_answered worker change.now self.old) }
        ensures is_worker { OnOk result (worker < length self.old.workers) }
        ensures readable { (k : kept.Kept) → slice_get self.old.workers worker ≡ Some k
            → OnOk result (IsRecord (entry.Line (next_line worker change.now k))) }
        ensures unchanged { OnErr result (self.new ≡ self.old) }
        ensures fails { (k : kept.Kept) → slice_get self.old.workers worker ≡ Some k
            → IfErr result (KeepFails (entry.Line (next_line worker change.now k)) self.old.workers worker) }
        ensures beyond { result ≡ Err unkept.NoSuchWorker → length self.old.workers ≤ worker }
    {
        let Some(kept) = self.workers.get_mut(worker as usize) else {
            return Err(Unkept::NoSuchWorker);
        };
        let number = kept.next_line()?;
        let line = Line {
            worker,
            number,
            change: change.copy(self.alloc)?,
        };
        put_line(self.alloc, &line, &mut self.waiting.current)?;
        kept.answer(number);
        Ok(())
    }

    /// A worker handled an event whose record can't be written: it counts all the same, and nothing is written.
    pub fn passed(&mut self, worker: u32, event: &Event) -> Result<(), Unkept>
        ensures kept { OnOk result (self.new ≡ after_passed worker event.now self.old) }
        ensures is_worker { OnOk result (worker < length self.old.workers) }
        ensures unchanged { OnErr result (self.new ≡ self.old) }
        ensures fails { IfErr result (WorkerFails self.old.workers worker) }
    {
        let Some(kept) = self.workers.get_mut(worker as usize) else {
            return Err(Unkept::NoSuchWorker);
        };
        kept.take(self.alloc, event)?;
        Ok(())
    }

    /// A control line is about to be answered `ok` whose record can't be written: it counts all the same, and nothing is written.
    pub fn counted(&mut self, worker: u32) -> Result<(), Unkept>
        ensures kept { OnOk result (self.new ≡ after_counted worker self.old) }
        ensures is_worker { OnOk result (worker < length self.old.workers) }
        ensures unchanged { OnErr result (self.new ≡ self.old) }
        ensures fails { IfErr result (WorkerFails self.old.workers worker) }
    {
        let Some(kept) = self.workers.get_mut(worker as usize) else {
            return Err(Unkept::NoSuchWorker);
        };
        let number = kept.next_line()?;
        kept.answer(number);
        Ok(())
    }

    /// What the clocks show stands in the current file.
    pub fn clock(&mut self, clock: Clock) -> Result<(), Unkept>
        ensures kept { OnOk result (self.new ≡ after_clock clock self.old) }
        ensures readable { OnOk result (IsRecord (entry.Clock clock)) }
        ensures unchanged { OnErr result (self.new ≡ self.old) }
        ensures fails { IfErr result (PutFails (entry.Clock clock)) }
    {
        put_record(self.alloc, &Record::Clock(clock), &mut self.waiting.current)?;
        Ok(())
    }

    /// A next file is begun with this header, in the place of one that was being begun.
    pub fn begin_next(&mut self, header: &Header) -> Result<(), Unkept>
        ensures kept { OnOk result (self.new ≡ after_begin header.now self.old) }
        ensures readable { OnOk result (IsRecord (entry.Header header.now)) }
        ensures unchanged { OnErr result (self.new ≡ self.old) }
        ensures fails { IfErr result (PutFails (entry.Header header.now)) }
    {
        let booked = none_booked(self.alloc, self.workers.len())?;
        let header = copy_header(self.alloc, header)?;
        let mut next = Vec::new(self.alloc);
        put_record(self.alloc, &Record::Header(header), &mut next)?;
        self.waiting.next = next;
        self.booked = Some(booked);
        Ok(())
    }

    /// Whether a next file is being begun.
    pub fn is_beginning(&self) -> bool
        ensures { result ≡ is_some self.now.booked }
    {
        self.booked.is_some()
    }

    /// Whether a next file is being begun, and waits for the book of this worker.
    pub fn wants_book(&self, worker: u32) -> bool
        ensures { result ≡ spec.wants_book worker self.now.booked }
    {
        match &self.booked {
            Some(booked) => !booked.get(worker as usize).copied().unwrap_or(true),
            None => false,
        }
    }

    /// The next file gets the book of a worker: what it was told by now, and what its desk wrote into these bytes.
    pub fn book(&mut self, worker: u32, desk: &[u8]) -> Result<(), Unkept>
        ensures kept { (saved : Saved) → IsBook desk.now saved → OnOk result (self.new ≡ after_book worker saved self.old) }
        ensures is_worker { OnOk result (worker < length self.old.workers) }
        ensures readable { (saved : Saved) (k : kept.Kept) → IsBook desk.now saved → slice_get self.old.workers worker ≡ Some k
            → OnOk result (IsRecord (book_record worker (kept.told_of k) saved)) }
        ensures begun { OnOk result (is_some self.old.booked ≡ true) }
        ensures not_begun { result ≡ Err unkept.NotBegun → is_some self.old.booked ≡ false }
        ensures not_outdated { result ≡ Err unkept.Outdated → ⊥ }
        ensures no_place { result ≡ Err unkept.NoSuchWorker → HasNoPlace self.old worker }
        ensures fails { (saved : Saved) (k : kept.Kept) → IsBook desk.now saved → slice_get self.old.workers worker ≡ Some k
            → IfErr result (BookingFails (book_record worker (kept.told_of k) saved) self.old worker) }
        ensures unchanged { OnErr result (self.new ≡ self.old) }
    {
        let told = self.told(worker)?;
        let made = MadeBook::new(self.alloc, worker, told, desk)?;
        self.put(made)
    }

    /// The next file gets the book of a worker whose record was made before. Outdated exactly where the worker was told more since, or less.
    pub fn put(&mut self, made: MadeBook) -> Result<(), Unkept>
        ensures kept { (saved : Saved) → IsBookOf made.worker made.told saved made
            → OnOk result (self.new ≡ after_book made.worker saved self.old) }
        ensures is_worker { OnOk result (made.worker < length self.old.workers) }
        ensures in_time { (k : kept.Kept) → slice_get self.old.workers made.worker ≡ Some k → OnOk result (kept.told_of k ≡ made.told) }
        ensures begun { OnOk result (is_some self.old.booked ≡ true) }
        ensures not_begun { result ≡ Err unkept.NotBegun → is_some self.old.booked ≡ false }
        ensures outdated { result ≡ Err unkept.Outdated → IsOutdated made self.old.workers }
        ensures fails { IfErr result (BookFails made self.old) }
        ensures unchanged { OnErr result (self.new ≡ self.old) }
    {
        let worker = made.worker();
        let Some(booked) = &mut self.booked else {
            return Err(Unkept::NotBegun);
        };
        let Some(place) = booked.get_mut(worker as usize) else {
            return Err(Unkept::NoSuchWorker);
        };
        if !find(self.workers.as_slice(), worker)?.is_told(made.told()) {
            return Err(Unkept::Outdated);
        }
        self.waiting.put_next(made.into_bytes())?;
        *place = true;
        Ok(())
    }

    /// Whether the next file has the book of each worker.
    pub fn is_next_whole(&self) -> bool
        ensures { result ≡ spec.is_whole self.now.booked }
    {
        match &self.booked {
            Some(booked) => all_booked(booked.as_slice()),
            None => false,
        }
    }

    /// The next file is the current one from now on, if it is whole: what waits is written behind it.
    pub fn turn(&mut self)
        ensures { self.new ≡ turned self.old }
    {
        if self.is_next_whole() {
            self.waiting.turn(self.alloc);
            self.booked = None;
        }
    }

    /// No next file is begun any more.
    pub fn give_up_next(&mut self)
        ensures { self.new ≡ without_next self.old }
    {
        self.waiting.next.clear();
        self.booked = None;
    }

    /// The bytes that wait to be written behind the current file.
    pub fn current(&self) -> &[u8]
        ensures { result.now ≡ self.now.current }
    {
        self.waiting.current.as_slice()
    }

    /// The bytes that wait to be written behind the next file.
    pub fn next(&self) -> &[u8]
        ensures { result.now ≡ self.now.next }
    {
        self.waiting.next.as_slice()
    }

    /// What waited is written.
    pub fn clear(&mut self)
        ensures { self.new ≡ cleared self.old }
    {
        self.waiting.clear();
    }

    /// What a worker was told so far.
    pub fn told(&self, worker: u32) -> Result<Told, Unkept>
        ensures told { IfOk result (λ told. option_map kept.told_of (slice_get self.now.workers worker) ≡ Some told) }
        ensures fails { IfErr result (LookFails self.now.workers worker) }
    {
        let kept = find(self.workers.as_slice(), worker)?;
        Ok(kept.told(self.alloc)?)
    }

    /// The tags of the transfers of whose last steps it knows that a worker was told them.
    pub fn transfers(&self, worker: u32) -> Result<Vec<String>, Unkept>
        ensures tags { IfOk result (λ tags. option_map kept.transfers (slice_get self.now.workers worker) ≡ Some (map string_bytes tags.items)) }
        ensures fails { IfErr result (LookFails self.now.workers worker) }
    {
        let kept = find(self.workers.as_slice(), worker)?;
        Ok(kept.transfers(self.alloc)?)
    }

    /// Nobody watches the transfers with these tags at this worker any more: further books tell nothing of them. No file says so, since who
    /// reads a book makes nothing of a step of a transfer that none of its rows watches.
    pub fn forget(&mut self, worker: u32, tags: &IndexSet<String>)
        ensures { self.new ≡ after_forgetting worker (map string_bytes tags.now.keys) self.old }
    {
        let Some(kept) = self.workers.get_mut(worker as usize) else {
            return;
        };
        kept.forget(tags);
    }

    /// Each line for this worker that was answered is handled: so it is behind a replay, in which these lines were played too.
    pub fn catch_up(&mut self, worker: u32)
        ensures { self.new ≡ after_catching_up worker self.old }
    {
        let Some(kept) = self.workers.get_mut(worker as usize) else {
            return;
        };
        kept.catch_up();
    }
}
