//! The desks of a service that go on from a journal, as they stood there.

ghost use Rattle.std.specs.Prelude.{◌≡◌, ◌++◌, ◌∷◌, [], map, length, Some, IfOk, OnOk};
ghost use Rattle.arguments.specs.Wanted.{Gives};
ghost use Rattle.notifier.specs.Held.{seen_by};
ghost use Rattle.resumption.specs.Accounts as spec;
ghost use Rattle.resumption.specs.Noted.{noted, passed_all, handled_all};

use crate::told::{boxes_told, held_names, watched};
use arguments::Wanted;
use journal::{Account, Book, Told, Unwritten};
use keeper::{Keeper, Unkept};
use notifier::{Desk, Event, Out, ResumeError, Setup};
use package::{MailChange, Package};
use restarts::{Left, restart};
use sip_text::{NoMemory, Values};
use std::alloc::{AllocError, AllocFailed, Global};

/// Why desks don't go on.
#[derive(Clone, Copy, Debug, PartialEq, Eq, Drop)]
pub enum Halt {
    NoMemory,
    /// What was read is of no desk that worked so.
    Unfit,
}

impl From<NoMemory> for Halt {
    ghost use Rattle.resumption.specs.declared.desks.Halt.TheVariants as halt;

    ghost from_gives = { λ _ e. e ≡ halt.NoMemory };

    fn from(_refused: NoMemory) -> Halt {
        Halt::NoMemory
    }
}

impl From<AllocError> for Halt {
    ghost use Rattle.resumption.specs.declared.desks.Halt.TheVariants as halt;

    ghost from_gives = { λ _ e. e ≡ halt.NoMemory };

    fn from(_refused: AllocError) -> Halt {
        Halt::NoMemory
    }
}

impl<T: Drop> From<AllocFailed<T>> for Halt {
    ghost use Rattle.resumption.specs.declared.desks.Halt.TheVariants as halt;

    ghost from_gives = { λ _ e. e ≡ halt.NoMemory };

    fn from(_refused: AllocFailed<T>) -> Halt {
        Halt::NoMemory
    }
}

impl From<ResumeError> for Halt {
    fn from(error: ResumeError) -> Halt {
        match error {
            ResumeError::NoMemory => Halt::NoMemory,
            ResumeError::Numbers | ResumeError::BadRow(_) => Halt::Unfit,
        }
    }
}

impl From<Unkept> for Halt {
    ghost use Rattle.resumption.specs.Halts.{halted};

    ghost from_gives = { λ why e. e ≡ halted why };

    fn from(error: Unkept) -> Halt {
        match error {
            Unkept::NoMemory | Unkept::Unwritten(Unwritten::NoMemory) => Halt::NoMemory,
            _ => Halt::Unfit,
        }
    }
}

/// The number of the worker that comes behind so many.
pub(crate) fn worker_number(count: usize) -> Result<u32, Halt>
    ensures { IfOk result (λ worker. worker ≡ count) }
{
    match u32::try_from(count) {
        Ok(worker) => Ok(worker),
        Err(_) => Err(Halt::Unfit),
    }
}

/// The packages of a worker, as they were at its book.
fn boxes_then<P, M>(
    alloc: Global,
    book: &Book,
    no_refer: bool,
    make: &M,
) -> Result<Vec<P>, NoMemory>
where
    P: Package,
    M: Fn(Wanted) -> Result<P, NoMemory>,
    requires callable { M.IsAlwaysCallable make.now }
    requires gives { Gives P.seen (M.post make.now) }
    ensures { IfOk result (λ boxes. map P.seen boxes.items ≡ spec.boxes_then no_refer book.now) }
{
    let names = held_names(alloc, &book.told)?;
    let rows = book.saved.rows.as_slice();
    boxes_told(alloc, names, (&book.told, rows), no_refer, make)
}

/// A copy of changes of mailboxes.
fn copy_mails(alloc: Global, changes: &[MailChange]) -> Result<Vec<MailChange>, NoMemory>
    ensures { IfOk result (λ copy. copy.items ≡ changes.now) }
{
    let mut copy = Vec::new(alloc);
    for change in changes {
        copy.push(change.copy(alloc)?)?;
    }
    Ok(copy)
}

/// What a worker had been told at its book. Of a transfer that it didn't watch any more nothing is kept: so what is kept doesn't grow with
/// transfers whose subscriptions ended before their last steps came.
fn told_then(alloc: Global, account: &Account) -> Result<Told, NoMemory>
    ensures { IfOk result (λ told. told ≡ spec.told_then account.now) }
{
    let told = &account.book.told;
    let mail = copy_mails(alloc, told.mail.as_slice())?;
    let rows = account.book.saved.rows.as_slice();
    let progress = watched(alloc, rows, told.progress.as_slice())?;
    Ok(Told {
        events: told.events,
        mails: told.mails,
        mail: Values::new(mail),
        progress: Values::new(progress),
    })
}

/// What workers had been told at their books.
fn all_told_then(alloc: Global, accounts: &[Account]) -> Result<Vec<Told>, NoMemory>
    ensures { IfOk result (λ all. all.items ≡ map spec.told_then accounts.now) }
{
    let mut all = Vec::new(alloc);
    for account in accounts {
        all.push(told_then(alloc, account)?)?;
    }
    Ok(all)
}

/// A worker handled these events, which stand in its journal.
fn note_events(keeper: &mut Keeper, worker: u32, events: &[Event]) -> Result<(), Unkept>
    ensures { OnOk result (keeper.new ≡ passed_all worker events.now keeper.old) }
{
    for event in events {
        keeper.passed(worker, event)?;
    }
    Ok(())
}

/// A worker handles these lines now: that is to be written.
fn note_lines(
    alloc: Global,
    keeper: &mut Keeper,
    worker: u32,
    lines: &[MailChange],
) -> Result<(), Halt>
    ensures { OnOk result (keeper.new ≡ handled_all worker (map (λ c. Event.Mail c) lines.now) keeper.old) }
{
    for change in lines {
        let event = Event::Mail(change.copy(alloc)?);
        keeper.handled(worker, &event)?;
    }
    Ok(())
}

/// A worker goes on from this: the lines that waited for it are to be written, as it handles them now.
fn note(alloc: Global, keeper: &mut Keeper, worker: u32, account: &Account) -> Result<(), Halt>
    ensures { OnOk result (keeper.new ≡ noted worker account.now keeper.old) }
{
    note_events(keeper, worker, account.events.as_slice())?;
    note_lines(alloc, keeper, worker, account.lines.as_slice())?;
    keeper.catch_up(worker);
    Ok(())
}

/// Adds changes of mailboxes as events behind these.
fn add_lines(events: &mut Vec<Event>, lines: Vec<MailChange>) -> Result<(), NoMemory>
    ensures { OnOk result (events.new.items ≡ events.old.items ++ map (λ c. Event.Mail c) lines.items) }
{
    for change in lines {
        events.push(Event::Mail(change))?;
    }
    Ok(())
}

/// What a worker left: its book, and the events since, with the lines that waited for it behind them.
fn left_by(account: Account) -> Result<Left, NoMemory>
    ensures book { IfOk result (λ left. left.book ≡ account.book.saved) }
    ensures events { IfOk result (λ left. left.events.items ≡ spec.events_since account) }
{
    let Account {
        book,
        events,
        lines,
    } = account;
    let mut events = events.into_vec();
    add_lines(&mut events, lines.into_vec())?;
    Ok(Left {
        book: book.saved,
        events,
    })
}

/// Desks that go on, those of their NOTIFYs that nobody has answered, and what their workers were told.
#[derive(Drop)]
pub struct Replayed<P> {
    pub desks: Vec<Desk<P>>,
    pub unanswered: Vec<Out>,
    /// What waits in it to be written are the lines that waited for the workers.
    pub keeper: Keeper,
}

/// Under what desks worked.
#[derive(Clone, Copy)]
pub struct Worked {
    pub setup: Setup,
    pub no_refer: bool,
}

impl<P: Package> Replayed<P> {
    /// The desk of the next worker goes on.
    fn add<M>(
        &mut self,
        alloc: Global,
        worked: &Worked,
        account: Account,
        make: &M,
    ) -> Result<(), Halt>
    where
        M: Fn(Wanted) -> Result<P, NoMemory>,
        requires callable { M.IsAlwaysCallable make.now }
        requires gives { Gives P.seen (M.post make.now) }
        ensures desk { OnOk result (map (seen_by P.seen) self.new.desks.items
            ≡ map (seen_by P.seen) self.old.desks.items ++ Some (spec.stands worked.now (length self.old.desks.items) account) ∷ []) }
        ensures unanswered { OnOk result (self.new.unanswered.items
            ≡ self.old.unanswered.items ++ spec.unanswered worked.now (length self.old.desks.items) account) }
        ensures keeper { OnOk result (self.new.keeper ≡ noted (length self.old.desks.items) account self.old.keeper) }
    {
        let worker = worker_number(self.desks.len())?;
        note(alloc, &mut self.keeper, worker, &account)?;
        let boxes = boxes_then(alloc, &account.book, worked.no_refer, make)?;
        let left = left_by(account)?;
        let again = restart(alloc, &worked.setup, worker, boxes, left)?;
        self.desks.push(again.desk)?;
        let mut more = again.unanswered;
        self.unanswered.append(&mut more)?;
        Ok(())
    }
}

/// The desks of these workers go on over all that they handled, and over the lines that waited for them.
pub fn replay<P, M>(
    alloc: Global,
    worked: &Worked,
    accounts: Vec<Account>,
    make: &M,
) -> Result<Replayed<P>, Halt>
where
    P: Package,
    M: Fn(Wanted) -> Result<P, NoMemory>,
    requires callable { M.IsAlwaysCallable make.now }
    requires gives { Gives P.seen (M.post make.now) }
    ensures stands { IfOk result (λ r. map (seen_by P.seen) r.desks.items ≡ map (λ s. Some s) (spec.all_stand worked.now accounts.items)) }
    ensures unanswered { IfOk result (λ r. r.unanswered.items ≡ spec.all_unanswered worked.now accounts.items) }
    ensures kept { IfOk result (λ r. r.keeper ≡ spec.all_kept accounts.items) }
{
    let told = all_told_then(alloc, accounts.as_slice())?;
    let keeper = Keeper::new(alloc, told)?;
    let mut replayed = Replayed {
        desks: Vec::new(alloc),
        unanswered: Vec::new(alloc),
        keeper,
    };
    for account in accounts {
        replayed.add(alloc, worked, account, make)?;
    }
    Ok(replayed)
}
