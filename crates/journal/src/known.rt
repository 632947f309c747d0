//! What is known of a worker while a file's records are gone over.
ghost use Rattle.std.specs.Prelude.{◌≡◌, ◌≤◌, ◌+◌, [], ◌∷◌, ◌++◌, length, count_by, OnOk, IfOk, IfErr};
ghost use Rattle.journal.specs.Generations as said;
ghost use Rattle.journal.specs.Generations.{unknown, taken, after, is_mail, waiting, worker_of, account};
ghost use Rattle.journal.specs.Gathering.{AreUnknown, IsTaken, IsBeyond};

use crate::file::{Account, GenerationError};
use crate::record::{Book, Line, Record};
use notifier_model::Event;
use package::MailChange;
use sip_text::{NoMemory, Values};
use std::alloc::Global;
use std::marker::Model;

/// What is known of a worker: its last book, what it handled since, and all control lines for it.
#[derive(Drop)]
pub(crate) struct Known {
    book: Option<Book>,
    events: Vec<Event>,
    lines: Vec<Line>,
}

impl Model for Known {
    ghost use Rattle.journal.specs.Generations as said;

    ghost Value = { said.Known };

    ghost view = { λ k. record { book = k.book; events = k.events.items; lines = k.lines.items } };
}

/// One for an event that changes a mailbox, and nothing for another.
fn mail_count(event: &Event) -> u64
    ensures value { result ≡ count_by is_mail (event.now ∷ []) }
    ensures few { result ≤ 1 }
{
    match event {
        Event::Mail(_) => 1,
        Event::Request(_, _)
        | Event::Reply(_)
        | Event::Progress(_)
        | Event::Tick(_)
        | Event::Shut => 0,
    }
}

/// How many of these events change a mailbox.
fn mails(events: &[Event]) -> u64
    ensures { result ≡ count_by is_mail events.now }
{
    let mut count = 0;
    for event in events {
        count += mail_count(event);
    }
    count
}

/// One line more: its change, if it is behind the first `counted` and `since`.
#[tactic(auto, using(crate::proofs::Gathering::none_waits, crate::proofs::Gathering::one_waits))]
fn look_at(
    line: Line,
    counted: u64,
    since: u64,
    changes: &mut Vec<MailChange>,
) -> Result<(), NoMemory>
    ensures { OnOk result (changes.new.items ≡ changes.old.items ++ waiting (counted + since) (line ∷ [])) }
{
    if line.number.saturating_sub(counted) <= since {
        return Ok(());
    }
    changes.push(line.change)?;
    Ok(())
}

/// The changes of the lines behind the first `counted` and `since`, in their order.
fn waiting(
    alloc: Global,
    counted: u64,
    since: u64,
    lines: Vec<Line>,
) -> Result<Values<MailChange>, NoMemory>
    ensures { IfOk result (λ changes. changes ≡ waiting (counted + since) lines.items) }
{
    let mut changes = Vec::new(alloc);
    for line in lines {
        look_at(line, counted, since, &mut changes)?;
    }
    Ok(Values::new(changes))
}

impl Known {
    /// Nothing is known.
    pub(crate) fn new(alloc: Global) -> Known
        ensures { result ≡ unknown }
    {
        Known {
            book: None,
            events: Vec::new(alloc),
            lines: Vec::new(alloc),
        }
    }

    /// One record of this worker more is known.
    pub(crate) fn take(&mut self, entry: Record) -> Result<(), NoMemory>
        ensures { OnOk result (self.new ≡ taken self.old entry) }
    {
        match entry {
            Record::Header(_header) => {}
            Record::Clock(_clock) => {}
            Record::Book(book) => {
                self.book = Some(book);
                self.events.clear();
            }
            Record::Handled {
                worker: _worker,
                event,
            } => self.events.push(event)?,
            Record::Line(line) => self.lines.push(line)?,
        }
        Ok(())
    }

    /// What the worker goes on from, where there is a book of it.
    pub(crate) fn into_account(self, alloc: Global) -> Result<Option<Account>, NoMemory>
        ensures { IfOk result (λ o. o ≡ account self) }
    {
        let Known {
            book,
            events,
            lines,
        } = self;
        let Some(book) = book else {
            return Ok(None);
        };
        let lines = waiting(alloc, book.told.mails, mails(events.as_slice()), lines)?;
        let events = Values::new(events);
        Ok(Some(Account {
            book,
            events,
            lines,
        }))
    }
}

/// As many workers, of which nothing is known.
pub(crate) fn all_unknown(alloc: Global, workers: u32) -> Result<Vec<Known>, NoMemory>
    ensures { IfOk result (λ all. AreUnknown workers all.items) }
{
    let mut all = Vec::new(alloc);
    for _worker in 0..workers {
        all.push(Known::new(alloc))?;
    }
    Ok(all)
}

/// One record more: what it says is known of its worker.
pub(crate) fn note(all: &mut Vec<Known>, entry: Record) -> Result<(), GenerationError>
    ensures taken { OnOk result (IsTaken entry all.old.items all.new.items) }
    ensures beyond { IfErr result (IsBeyond entry (length all.old.items)) }
{
    let Some(worker) = entry.worker() else {
        return Ok(());
    };
    if worker as usize >= all.len() {
        return Err(GenerationError::NoSuchWorker(worker));
    }
    match all[worker as usize].take(entry) {
        Ok(()) => Ok(()),
        Err(_) => Err(GenerationError::NoMemory),
    }
}
