//! The files of a journal, as one lock guards them.
ghost use Rattle.std.specs.Prelude.{◌≡◌, ◌+◌, ◌≤◌, ◌<◌, ℕ, true, false, [], ◌++◌, map, string_bytes, slice_get, option_map, Some, is_some, IfOk, OnOk, OnErr};
ghost use Rattle.std.specs.Int.NonZero.{non_zero_u32_get};
ghost use Rattle.journal.specs.Records.{written};
ghost use Rattle.journal.specs.declared.record.Record.TheVariants as entry;
ghost use Rattle.keeper.specs.Told as kept;
ghost use Rattle.keeper.specs.Keeping as keeping;
ghost use Rattle.control_lines.specs.Told.{with_name};
ghost use Rattle.service.specs.Shelved as spec;
ghost use Rattle.service.specs.Made.{worker_changes};
ghost use Rattle.service.specs.Shelved.{Writes, IsWritten, IsCutShort, HoldsBook, IsFollowed};
ghost use Rattle.service.specs.declared.shelf.Chore.TheVariants as chore;

use crate::made::Made;
use crate::volume::Volume;
use indexmap::IndexSet;
use journal::{Header, Told};
use keeper::{Keeper, MadeBook, Unkept};
use notifier_model::Event;
use package::MailChange;

/// Why a record isn't in the current file.
#[derive(Clone, Copy)]
pub(crate) enum Loss {
    /// That file misses an earlier one, and is written no more.
    Behind,
    /// It could not be made.
    Unmade,
    /// The system refused it, with this number where it told one.
    Refused(Option<i32>),
}

/// What is to be done about files.
#[derive(Clone, Copy)]
pub(crate) enum Chore {
    Nothing,
    /// The file with this number is removed.
    Remove(u64),
    /// The one with this number is begun.
    Begin(u64),
}

/// How the files stand at a look.
#[derive(Clone, Copy)]
pub(crate) struct Sight {
    /// Whether no further file is begun.
    is_over: bool,
    /// Whether a next file is being begun.
    is_beginning: bool,
    /// Whether the current one misses a record.
    is_behind: bool,
    /// Whether it is to stay, unless it misses one.
    is_held: bool,
    /// How many bytes it had as it became the current one: those of its books, most of all.
    books: u64,
    /// How many bytes stand behind them.
    rest: u64,
    /// For how many seconds it is the current one.
    age: u64,
    /// How many seconds ago it was tried last to begin a next one.
    pause: u64,
}

/// When a next file is begun, beside one that misses a record.
#[derive(Clone, Copy)]
pub(crate) struct Limits {
    /// More bytes stand behind the books of the current one, and more than these have: so books alone turn no file over.
    pub(crate) length: u64,
    /// And it is the current one for so many seconds.
    pub(crate) age: u64,
}

/// How many seconds pass between two tries to begin a next file.
const PAUSE: u64 = 5;

/// Whether a next file is to be begun.
fn wants_next(limits: Limits, sight: Sight) -> bool
    ensures { result ≡ spec.wants_next limits sight }
{
    let is_free = !sight.is_over && !sight.is_beginning && PAUSE <= sight.pause;
    let is_due = limits.length.max(sight.books) < sight.rest && limits.age <= sight.age;
    is_free && (sight.is_behind || !sight.is_held && is_due)
}

/// The next file gets a book, where it could be made. No more is counted of workers.
fn put(keeper: &mut Keeper, made: Result<MadeBook, Unkept>) -> Result<(), Unkept>
    ensures unmade { (error : _) → made ≡ Err error → result ≡ Err error }
    ensures workers { HoldsBook made → keeper.new.workers ≡ keeper.old.workers }
{
    keeper.put(made?)
}

/// A worker is told these changes again, by a line for each, which is answered and handled.
fn tell_all(keeper: &mut Keeper, worker: u32, changes: Vec<MailChange>) -> Result<(), Unkept>
    ensures told { OnOk result (keeper.new ≡ spec.all_told_again worker changes.items keeper.old) }
    ensures short { OnErr result (IsCutShort worker changes.items keeper.old keeper.new) }
{
    for change in changes {
        keeper.handled(worker, &Event::Mail(change))?;
        keeper.counted(worker)?;
    }
    Ok(())
}

/// The files of a journal: the current one, and the next one while that is being begun.
#[derive(Drop)]
pub(crate) struct Shelf {
    keeper: Keeper,
    current: Volume,
    next: Option<Volume>,
    /// Whether the current file misses a record. A gap would make what is read of it wrong: nothing more is written there.
    is_behind: bool,
    /// Whether count was lost of a worker for want of memory. No further file can be begun then.
    is_over: bool,
    /// Whether the current file is to stay while it misses nothing.
    is_held: bool,
    /// The mailboxes that lines made in this run: further books don't tell of them.
    made: Made,
    /// How many bytes the current file had as it became that.
    books: u64,
    /// Since which second it is the current one, as the first look at it found.
    since: Option<u64>,
    /// For how many seconds it was the current one before that, under a service that was killed. So a file ends though no service lives long.
    been: u64,
    /// In which second it was tried last to begin a next one.
    tried: u64,
    /// The number of the oldest file that may be there.
    oldest: u64,
    /// How many records wait to be written.
    waits: u64,
    /// How many records were not written, since it was asked last.
    lost: u64,
    /// The number that the system told as it refused a record last.
    refusal: Option<i32>,
}

impl Shelf {
    /// One that goes on in this file, which was the current one for so many seconds before. The oldest file that is there has this number. No line made
    /// a mailbox yet.
    pub(crate) fn new(keeper: Keeper, current: Volume, been: u64, oldest: u64, made: Made) -> Shelf
        ensures { result.is_behind ≡ false }
    {
        Shelf {
            keeper,
            current,
            next: None,
            is_behind: false,
            is_over: false,
            is_held: false,
            made,
            books: 0,
            since: None,
            been,
            tried: 0,
            oldest,
            waits: 0,
            lost: 0,
            refusal: None,
        }
    }

    /// The file that is written.
    pub(crate) fn current(&self) -> &Volume
        ensures { result.now ≡ self.now.current }
    {
        &self.current
    }

    /// How many files there may be before the current one.
    pub(crate) fn older(&self) -> u64 {
        self.current.number().saturating_sub(self.oldest)
    }

    /// A line is to make the mailbox of this change. From now on the current file stays while it misses nothing, and where a next one is begun
    /// all the same, what is told of the mailbox stands there behind the books. False where one is being begun already, or for want of memory.
    pub(crate) fn hold(&mut self, change: &MailChange) -> bool
        ensures made { result ≡ true → self.new.made.told ≡ with_name change.now.mailbox self.old.made.told }
    {
        if self.next.is_some() {
            return false;
        }
        let Ok(()) = self.made.add(change) else {
            return false;
        };
        self.is_held = true;
        true
    }

    /// The mailboxes that lines made.
    pub(crate) fn made(&self) -> &Made
        ensures { result.now ≡ self.now.made }
    {
        &self.made
    }

    /// Whether it misses no record, and no count was lost.
    pub(crate) fn is_whole(&self) -> bool {
        !self.is_behind && !self.is_over
    }

    /// Whether that misses a record.
    pub(crate) fn is_behind(&self) -> bool
        ensures { result ≡ self.now.is_behind }
    {
        self.is_behind
    }

    /// The next file isn't begun after all.
    fn give_up_next(&mut self)
        ensures current { self.new.current ≡ self.old.current }
        ensures behind { self.new.is_behind ≡ self.old.is_behind }
        ensures next { self.new.next ≡ None }
        ensures keeper { self.new.keeper ≡ keeping.without_next self.old.keeper }
        ensures made { self.new.made ≡ self.old.made }
    {
        self.keeper.give_up_next();
        self.next = None;
    }

    /// Writes what waits for the next file, if one is being begun and there was memory for it. Else it is given up: it would miss a record.
    fn write_next(&mut self, is_made: bool)
        ensures current { self.new.current ≡ self.old.current }
        ensures behind { self.new.is_behind ≡ self.old.is_behind }
        ensures begun { is_some self.new.next ≡ true → is_some self.old.next ≡ true }
        ensures unmade { is_made ≡ false → self.new.next ≡ None }
        ensures workers { self.new.keeper.workers ≡ self.old.keeper.workers }
        ensures made { self.new.made ≡ self.old.made }
    {
        let Some(next) = &mut self.next else {
            return;
        };
        if !is_made || next.append(self.keeper.next()).is_err() {
            self.give_up_next();
        }
    }

    /// The current file misses a record from now on.
    fn fall_behind(&mut self)
        ensures current { self.new.current ≡ self.old.current }
        ensures behind { self.new.is_behind ≡ true }
        ensures next { self.new.next ≡ self.old.next }
        ensures keeper { self.new.keeper ≡ self.old.keeper }
        ensures made { self.new.made ≡ self.old.made }
    {
        self.is_behind = true;
        let _ = self.current.tear();
    }

    /// Writes what waits for the current file, unless it misses a record. It does so where this one couldn't be made or isn't written.
    fn write_current(&mut self, is_made: bool) -> Result<(), Loss>
        ensures writes { Writes self.old self.new result }
        ensures unmade { is_made ≡ false → self.new.is_behind ≡ true }
        ensures file { self.new.current.number ≡ self.old.current.number }
        ensures next { self.new.next ≡ self.old.next }
        ensures keeper { self.new.keeper ≡ self.old.keeper }
        ensures made { self.new.made ≡ self.old.made }
    {
        if self.is_behind {
            return Err(Loss::Behind);
        }
        if !is_made {
            self.fall_behind();
            return Err(Loss::Unmade);
        }
        match self.current.append(self.keeper.current()) {
            Ok(()) => Ok(()),
            Err(error) => {
                self.fall_behind();
                Err(Loss::Refused(error.raw_os_error()))
            }
        }
    }

    /// Counts the records that waited, where they were not written.
    fn count(&mut self, written: Result<(), Loss>)
        ensures current { self.new.current ≡ self.old.current }
        ensures behind { self.new.is_behind ≡ self.old.is_behind }
        ensures next { self.new.next ≡ self.old.next }
        ensures keeper { self.new.keeper ≡ self.old.keeper }
        ensures made { self.new.made ≡ self.old.made }
    {
        if let Err(loss) = written {
            self.lost = self.lost.saturating_add(self.waits);
            if let Loss::Refused(number) = loss {
                self.refusal = number;
            }
        }
        self.waits = 0;
    }

    /// Writes what waits for each file.
    fn write(&mut self, is_made: bool) -> Result<(), Loss>
        ensures writes { Writes self.old self.new result }
        ensures unmade { is_made ≡ false → self.new.is_behind ≡ true }
        ensures written { IsWritten self.old self.new }
    {
        let written = self.write_current(is_made);
        self.write_next(is_made);
        self.keeper.clear();
        self.count(written);
        written
    }

    /// Writes the records that wait.
    pub(crate) fn flush(&mut self) -> Result<(), Loss>
        ensures writes { Writes self.old self.new result }
        ensures written { IsWritten self.old self.new }
    {
        self.write(true)
    }

    /// A record could not be made. Those that wait are written; the current file misses this one.
    fn lose(&mut self) -> Result<(), Loss>
        ensures writes { Writes self.old self.new result }
        ensures behind { self.new.is_behind ≡ true }
    {
        self.waits = self.waits.saturating_add(1);
        self.flush()?;
        self.waits = 1;
        self.write(false)
    }

    /// How many records were not written since it was asked last.
    pub(crate) fn take_lost(&mut self) -> u64 {
        let lost = self.lost;
        self.lost = 0;
        lost
    }

    /// The number that the system told as it refused a record last, if it told one.
    pub(crate) fn refusal(&self) -> Option<i32> {
        self.refusal
    }

    /// The system refused with this number, where it told one, to bring to the disk what was written last. Nobody knows whether that is there:
    /// so the current file is taken to miss a record.
    pub(crate) fn miss_sync(&mut self, number: Option<i32>)
        ensures current { self.new.current ≡ self.old.current }
        ensures behind { self.new.is_behind ≡ true }
    {
        self.fall_behind();
        self.lost = self.lost.saturating_add(1);
        self.refusal = number;
    }

    /// The keeper counted something whose record it could not make, or lost count of it.
    fn miss(&mut self, counted: Result<(), Unkept>)
        ensures current { self.new.current ≡ self.old.current }
        ensures behind { self.new.is_behind ≡ self.old.is_behind }
    {
        if counted.is_err() {
            self.is_over = true;
        }
    }

    /// A worker handled an event: its record waits to be written, unless the current file misses one.
    pub(crate) fn handled(&mut self, worker: u32, event: &Event) -> Result<(), Loss>
        ensures writes { Writes self.old self.new result }
        // Where the current file misses nothing, the record of this event waits for it.
        ensures noted { self.new.is_behind ≡ false
            → self.new.keeper.current ≡ self.old.keeper.current ++ written (entry.Handled worker event.now) }
    {
        self.made.tell(event);
        if self.keeper.handled(worker, event).is_err() {
            let passed = self.keeper.passed(worker, event);
            self.miss(passed);
            return self.lose();
        }
        self.waits = self.waits.saturating_add(1);
        if !self.is_behind {
            return Ok(());
        }
        self.flush()
    }

    /// A control line that changes a mailbox of a worker is about to be answered `ok`.
    pub(crate) fn answered(&mut self, worker: u32, change: &MailChange) -> Result<(), Loss>
        ensures { Writes self.old self.new result }
    {
        if self.keeper.answered(worker, change).is_ok() {
            self.waits = self.waits.saturating_add(1);
            return self.flush();
        }
        let counted = self.keeper.counted(worker);
        self.miss(counted);
        self.lose()
    }

    /// A line is about to be answered `ok` that is unknown for want of memory: so it isn't known either which lines wait.
    pub(crate) fn lose_count(&mut self) -> Result<(), Loss>
        ensures { Writes self.old self.new result }
    {
        self.is_over = true;
        self.lose()
    }

    /// Begins this next file. False where it can't be.
    pub(crate) fn begin(&mut self, next: Volume, header: &Header) -> bool {
        let _ = self.flush();
        if self.keeper.begin_next(header).is_err() {
            return false;
        }
        self.next = Some(next);
        self.write_next(true);
        self.keeper.clear();
        self.next.is_some()
    }

    /// What a worker was told so far, where the next file waits for its book.
    pub(crate) fn told(&self, worker: u32) -> Option<Result<Told, Unkept>> {
        if self.keeper.wants_book(worker) {
            Some(self.keeper.told(worker))
        } else {
            None
        }
    }

    /// The tags of the transfers of which a worker's book would tell.
    pub(crate) fn transfers(&self, worker: u32) -> Result<Vec<String>, Unkept>
        ensures { IfOk result (λ tags. option_map kept.transfers (slice_get self.now.keeper.workers worker) ≡ Some (map string_bytes tags.items)) }
    {
        self.keeper.transfers(worker)
    }

    /// Nobody watches the transfers with these tags at this worker any more: its books don't tell of them.
    pub(crate) fn forget(&mut self, worker: u32, tags: &IndexSet<String>)
        ensures { self.new ≡ record self.old { keeper = keeping.after_forgetting worker (map string_bytes tags.now.keys) self.old.keeper } }
    {
        self.keeper.forget(worker, tags);
    }

    /// The keeper counts as told again what this worker was told of mailboxes that lines made: a line for each, which is handled. The worker's desk has
    /// none of them, so it makes nothing of that.
    fn tell_again(&mut self, worker: u32) -> Result<(), Unkept>
        ensures told { OnOk result (self.new.keeper ≡ spec.followed worker self.old.made self.old.keeper) }
        ensures short { OnErr result (IsCutShort worker
            (worker_changes (non_zero_u32_get self.old.made.workers) worker self.old.made.told) self.old.keeper self.new.keeper) }
        ensures current { self.new.current ≡ self.old.current }
        ensures next { self.new.next ≡ self.old.next }
        ensures made { self.new.made ≡ self.old.made }
    {
        let changes = self.made.changes(worker)?;
        tell_all(&mut self.keeper, worker, changes)
    }

    /// Has what this worker was told of mailboxes that lines made stand behind its book in the next file, if one is being begun. The book itself has
    /// none of it. For want of memory that file is given up.
    fn follow_book(&mut self, worker: u32)
        ensures none { self.old.next ≡ None → self.new ≡ self.old }
        ensures told { is_some self.new.next ≡ true
            → self.new.keeper.workers ≡ (spec.followed worker self.old.made self.old.keeper).workers }
        ensures written { is_some self.old.next ≡ true → self.new.keeper.current ≡ [] }
        ensures file { self.new.current.number ≡ self.old.current.number }
    {
        if self.next.is_none() {
            return;
        }
        if self.tell_again(worker).is_err() {
            self.give_up_next();
        }
        let _ = self.flush();
    }

    /// Puts a book into the next file. Where it can't be that is given up.
    fn put_book(&mut self, made: Result<MadeBook, Unkept>)
        ensures unmade { (error : _) → made ≡ Err error → self.new.next ≡ None }
        ensures put { HoldsBook made → is_some self.new.next ≡ true → self.new.keeper.workers ≡ self.old.keeper.workers }
        ensures made { self.new.made ≡ self.old.made }
        ensures file { self.new.current.number ≡ self.old.current.number }
    {
        let _ = self.flush();
        let is_put = put(&mut self.keeper, made).is_ok();
        self.write_next(is_put);
        self.keeper.clear();
    }

    /// Puts the book of a worker into the next file, unless that was given up meanwhile, and behind it what the worker was told of mailboxes that
    /// lines made. Where it was the last that was wanted this file is the current one from now on.
    pub(crate) fn book(&mut self, worker: u32, made: Result<MadeBook, Unkept>)
        ensures unwanted { keeping.wants_book worker self.old.keeper.booked ≡ false → self.new ≡ self.old }
        ensures followed { HoldsBook made → keeping.wants_book worker self.old.keeper.booked ≡ true → IsFollowed worker self.old self.new }
    {
        if !self.keeper.wants_book(worker) {
            return;
        }
        self.put_book(made);
        self.follow_book(worker);
        if self.keeper.is_next_whole() {
            self.turn();
        }
    }

    /// The next file, which has the book of each worker, is the current one.
    fn turn(&mut self)
        requires whole { is_some self.old.next ≡ true → keeping.is_whole self.old.keeper.booked ≡ true }
        ensures none { self.old.next ≡ None → self.new ≡ self.old }
        ensures current { (next : _) → self.old.next ≡ Some next → self.new.current ≡ next }
        ensures whole { is_some self.old.next ≡ true → self.new.is_behind ≡ false }
        ensures workers { self.new.keeper.workers ≡ self.old.keeper.workers }
    {
        let Some(next) = self.next.take() else {
            return;
        };
        self.keeper.turn();
        self.current = next;
        self.is_behind = false;
        self.books = self.current.length();
        self.since = None;
        self.been = 0;
    }

    /// How the files stand in this second.
    fn sight(&mut self, now: u64) -> Sight
        ensures current { self.new.current ≡ self.old.current }
        ensures oldest { self.new.oldest ≡ self.old.oldest }
        ensures behind { result.is_behind ≡ self.old.is_behind }
        ensures over { result.is_over ≡ self.old.is_over }
        ensures age { result.age ≡ spec.age now self.old }
    {
        let since = match self.since {
            Some(since) => since,
            None => now,
        };
        self.since = Some(since);
        let length = self.current.length();
        Sight {
            is_over: self.is_over,
            is_beginning: self.next.is_some(),
            is_behind: self.is_behind,
            is_held: self.is_held,
            books: self.books,
            rest: length.saturating_sub(self.books),
            age: now.saturating_sub(since).saturating_add(self.been),
            pause: now.saturating_sub(self.tried),
        }
    }

    /// What is to be done in this second. The file before the current one is kept, since what was unanswered as it ended is known from there.
    /// Older ones are too until the current one is settled: where mailboxes were changed that doesn't go on from the one before.
    pub(crate) fn chore(&mut self, now: u64, limits: Limits) -> Chore
        ensures current { self.new.current ≡ self.old.current }
        ensures kept { (n : ℕ) → result ≡ chore.Remove n → n + 1 < self.old.current.number }
        ensures settled { (n : ℕ) → result ≡ chore.Remove n → limits.age ≤ spec.age now self.old }
        ensures further { (n : ℕ) → result ≡ chore.Begin n → self.old.current.number < n }
    {
        let sight = self.sight(now);
        let number = self.current.number();
        if self.oldest < number.saturating_sub(1) && limits.age <= sight.age {
            let oldest = self.oldest;
            self.oldest = oldest.saturating_add(1);
            return Chore::Remove(oldest);
        }
        let Some(following) = number.checked_add(1) else {
            return Chore::Nothing;
        };
        if !wants_next(limits, sight) {
            return Chore::Nothing;
        }
        self.tried = now;
        Chore::Begin(following)
    }
}
