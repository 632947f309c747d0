//! Records: what is written of workers, one behind the other.
ghost use Rattle.std.specs.Prelude.{◌≡◌, ◌++◌, OnOk};
ghost use Rattle.sip_text.specs.Bytes.{Gives};
ghost use Rattle.journal.specs.Records.{told_text, told_at, IsTold, desk_at, had_text, had_at, IsHad, handled_text, line_text, had_bytes, record_text, record_at, RecordFits, record_is_sound, first_at, book_at, handled_at, line_at, IsLine, answered_at, clock_text, clock_at, IsClock, shown_at};
ghost use Rattle.journal.specs.Generations.{header_in, worker_of};
ghost use Rattle.journal.specs.declared.record.Record.TheVariants as entry;

use crate::header::Header;
use notifier_model::{Event, Saved};
use package::{MailChange, Progress};
use sip_text::{NoMemory, Values};
use snapshots::book::{cut_first_line, write_book};
use snapshots::event::is_sound;
use snapshots::form::Form;
use std::alloc::Global;

/// What a worker had at a moment: all that it needs to go on from there.
#[derive(Drop)]
pub struct Book {
    /// The number of the worker, from 0.
    pub worker: u32,
    /// What it had been told.
    pub told: Told,
    /// What its desk kept.
    pub saved: Saved,
}

/// What a worker had been told.
#[derive(Drop)]
pub struct Told {
    /// How many records of events it has in front of this moment, since the journal began.
    pub events: u64,
    /// How many changes of mailboxes it had handled since its lines are counted.
    pub mails: u64,
    /// Of each mailbox and class the last counts.
    pub mail: Values<MailChange>,
    /// Of each transfer the last step.
    pub progress: Values<Progress>,
}

/// One record of a file.
#[derive(Drop)]
pub enum Record {
    /// What the file begins with.
    Header(Header),
    /// What a worker had at a moment.
    Book(Book),
    /// A worker handled an event: these stand in the order in which it handled them.
    Handled { worker: u32, event: Event },
    /// A control line that changes a mailbox was answered `ok`.
    Line(Line),
    /// What the clocks showed.
    Clock(Clock),
}

/// A control line that changes a mailbox.
#[derive(Drop)]
pub struct Line {
    /// The worker whose mailbox it is.
    pub worker: u32,
    /// Which of that worker's lines it is, from 1.
    pub number: u64,
    /// What it says.
    pub change: MailChange,
}

/// What two clocks showed at once.
#[derive(Clone, Copy, Debug, PartialEq, Eq)]
pub struct Clock {
    /// Seconds since the notifier began.
    pub tick: u64,
    /// Seconds since 1970.
    pub wall: u64,
}

type ToldParts = (u64, (u64, (Values<MailChange>, Values<Progress>)));

impl Form for Told {
    ghost text = { told_text };

    ghost at = { told_at };

    ghost Fits = { IsTold };

    fn fits(&self) {
        self.events.fits();
        self.mails.fits();
        self.mail.fits();
        self.progress.fits();
    }

    fn put(&self, alloc: Global, out: &mut Vec<u8>) -> Result<(), NoMemory> {
        self.events.put(alloc, out)?;
        self.mails.put(alloc, out)?;
        self.mail.put(alloc, out)?;
        self.progress.put(alloc, out)
    }

    #[tactic(auto, unfolding(crate::specs::Records::told_at))]
    fn cut(alloc: Global, bytes: &[u8]) -> Result<Option<(Told, &[u8])>, NoMemory> {
        let Some((parts, rest)) = ToldParts::cut(alloc, bytes)? else {
            return Ok(None);
        };
        let (events, (mails, (mail, progress))) = parts;
        let told = Told {
            events,
            mails,
            mail,
            progress,
        };
        Ok(Some((told, rest)))
    }
}

/// What a desk kept, behind its first line.
#[tactic(auto, unfolding(crate::specs::Records::desk_at))]
fn cut_desk(alloc: Global, bytes: &[u8]) -> Result<Option<(Saved, &[u8])>, NoMemory>
    ensures { Gives (λ x. (x.0, x.1.now)) result (desk_at bytes.now) }
{
    let Some(rest) = cut_first_line(bytes) else {
        return Ok(None);
    };
    Saved::cut(alloc, rest)
}

impl Form for Book {
    ghost text = { had_text };

    ghost at = { had_at };

    ghost Fits = { IsHad };

    fn fits(&self) {
        self.worker.fits();
        self.told.fits();
        self.saved.fits();
    }

    fn put(&self, alloc: Global, out: &mut Vec<u8>) -> Result<(), NoMemory> {
        self.worker.put(alloc, out)?;
        self.told.put(alloc, out)?;
        write_book(alloc, &self.saved, out)
    }

    #[tactic(auto, unfolding(crate::specs::Records::had_at))]
    fn cut(alloc: Global, bytes: &[u8]) -> Result<Option<(Book, &[u8])>, NoMemory> {
        let Some((worker, rest)) = u32::cut(alloc, bytes)? else {
            return Ok(None);
        };
        let Some((told, rest)) = Told::cut(alloc, rest)? else {
            return Ok(None);
        };
        let Some((saved, rest)) = cut_desk(alloc, rest)? else {
            return Ok(None);
        };
        let book = Book {
            worker,
            told,
            saved,
        };
        Ok(Some((book, rest)))
    }
}

impl Form for Line {
    ghost text = { line_text };

    ghost at = { line_at };

    ghost Fits = { IsLine };

    fn fits(&self) {
        self.worker.fits();
        self.number.fits();
        self.change.fits();
    }

    fn put(&self, alloc: Global, out: &mut Vec<u8>) -> Result<(), NoMemory> {
        self.worker.put(alloc, out)?;
        self.number.put(alloc, out)?;
        self.change.put(alloc, out)
    }

    #[tactic(auto, unfolding(crate::specs::Records::line_at))]
    fn cut(alloc: Global, bytes: &[u8]) -> Result<Option<(Line, &[u8])>, NoMemory> {
        let Some((parts, rest)) = <(u32, (u64, MailChange))>::cut(alloc, bytes)? else {
            return Ok(None);
        };
        let (worker, (number, change)) = parts;
        let line = Line {
            worker,
            number,
            change,
        };
        Ok(Some((line, rest)))
    }
}

impl Form for Clock {
    ghost text = { clock_text };

    ghost at = { clock_at };

    ghost Fits = { IsClock };

    fn fits(&self) {
        self.tick.fits();
        self.wall.fits();
    }

    fn put(&self, alloc: Global, out: &mut Vec<u8>) -> Result<(), NoMemory> {
        self.tick.put(alloc, out)?;
        self.wall.put(alloc, out)
    }

    #[tactic(auto, unfolding(crate::specs::Records::clock_at))]
    fn cut(alloc: Global, bytes: &[u8]) -> Result<Option<(Clock, &[u8])>, NoMemory> {
        let Some((parts, rest)) = <(u64, u64)>::cut(alloc, bytes)? else {
            return Ok(None);
        };
        let (tick, wall) = parts;
        Ok(Some((Clock { tick, wall }, rest)))
    }
}

/// What the file begins with.
#[tactic(auto, unfolding(crate::specs::Records::first_at))]
fn cut_header(alloc: Global, bytes: &[u8]) -> Result<Option<(Record, &[u8])>, NoMemory>
    ensures { Gives (λ x. (x.0, x.1.now)) result (first_at bytes.now) }
{
    let Some((header, rest)) = Header::cut(alloc, bytes)? else {
        return Ok(None);
    };
    Ok(Some((Record::Header(header), rest)))
}

/// What a worker had.
#[tactic(auto, unfolding(crate::specs::Records::book_at))]
fn cut_book(alloc: Global, bytes: &[u8]) -> Result<Option<(Record, &[u8])>, NoMemory>
    ensures { Gives (λ x. (x.0, x.1.now)) result (book_at bytes.now) }
{
    let Some((book, rest)) = Book::cut(alloc, bytes)? else {
        return Ok(None);
    };
    Ok(Some((Record::Book(book), rest)))
}

/// An event that a worker handled.
#[tactic(auto, unfolding(crate::specs::Records::handled_at))]
fn cut_handled(alloc: Global, bytes: &[u8]) -> Result<Option<(Record, &[u8])>, NoMemory>
    ensures { Gives (λ x. (x.0, x.1.now)) result (handled_at bytes.now) }
{
    let Some((parts, rest)) = <(u32, Event)>::cut(alloc, bytes)? else {
        return Ok(None);
    };
    let (worker, event) = parts;
    Ok(Some((Record::Handled { worker, event }, rest)))
}

/// A control line.
#[tactic(auto, unfolding(crate::specs::Records::answered_at))]
fn cut_line(alloc: Global, bytes: &[u8]) -> Result<Option<(Record, &[u8])>, NoMemory>
    ensures { Gives (λ x. (x.0, x.1.now)) result (answered_at bytes.now) }
{
    let Some((line, rest)) = Line::cut(alloc, bytes)? else {
        return Ok(None);
    };
    Ok(Some((Record::Line(line), rest)))
}

/// What the clocks showed.
#[tactic(auto, unfolding(crate::specs::Records::shown_at))]
fn cut_clock(alloc: Global, bytes: &[u8]) -> Result<Option<(Record, &[u8])>, NoMemory>
    ensures { Gives (λ x. (x.0, x.1.now)) result (shown_at bytes.now) }
{
    let Some((clock, rest)) = Clock::cut(alloc, bytes)? else {
        return Ok(None);
    };
    Ok(Some((Record::Clock(clock), rest)))
}

/// The text of an event that a worker handled.
pub(crate) fn put_event(
    alloc: Global,
    worker: u32,
    event: &Event,
    out: &mut Vec<u8>,
) -> Result<(), NoMemory>
    ensures { OnOk result (out.new.items ≡ out.old.items ++ handled_text worker event.now) }
{
    out.push(b'e')?;
    worker.put(alloc, out)?;
    event.put(alloc, out)
}

/// The text of a record of a control line.
pub(crate) fn put_answered(alloc: Global, line: &Line, out: &mut Vec<u8>) -> Result<(), NoMemory>
    ensures { OnOk result (out.new.items ≡ out.old.items ++ record_text (entry.Line line.now)) }
{
    out.push(b'l')?;
    line.put(alloc, out)
}

/// The text of a book, of a desk that wrote what it keeps into these bytes.
pub(crate) fn put_had(
    alloc: Global,
    worker: u32,
    told: &Told,
    desk: &[u8],
    out: &mut Vec<u8>,
) -> Result<(), NoMemory>
    ensures { OnOk result (out.new.items ≡ out.old.items ++ had_bytes worker told.now desk.now) }
{
    out.push(b'b')?;
    worker.put(alloc, out)?;
    told.put(alloc, out)?;
    out.extend_from_slice(desk)?;
    Ok(())
}

impl Form for Record {
    ghost text = { record_text };

    ghost at = { record_at };

    ghost Fits = { RecordFits };

    fn fits(&self) {
        match self {
            Record::Header(header) => header.fits(),
            Record::Book(book) => book.fits(),
            Record::Handled { worker, event } => {
                worker.fits();
                event.fits();
            }
            Record::Line(line) => line.fits(),
            Record::Clock(clock) => clock.fits(),
        }
    }

    fn put(&self, alloc: Global, out: &mut Vec<u8>) -> Result<(), NoMemory> {
        match self {
            Record::Header(header) => {
                out.push(b'h')?;
                header.put(alloc, out)
            }
            Record::Book(book) => {
                out.push(b'b')?;
                book.put(alloc, out)
            }
            Record::Handled { worker, event } => put_event(alloc, *worker, event, out),
            Record::Line(line) => put_answered(alloc, line, out),
            Record::Clock(clock) => {
                out.push(b'c')?;
                clock.put(alloc, out)
            }
        }
    }

    #[tactic(auto, unfolding(crate::specs::Records::record_at))]
    fn cut(alloc: Global, bytes: &[u8]) -> Result<Option<(Record, &[u8])>, NoMemory> {
        let Some((mark, rest)) = bytes.split_first() else {
            return Ok(None);
        };
        match *mark {
            b'h' => cut_header(alloc, rest),
            b'b' => cut_book(alloc, rest),
            b'e' => cut_handled(alloc, rest),
            b'l' => cut_line(alloc, rest),
            b'c' => cut_clock(alloc, rest),
            _ => Ok(None),
        }
    }
}

impl Record {
    /// Whether it is read again: a reader of SIP makes no other events.
    pub(crate) fn is_sound(&self) -> bool
        ensures { result ≡ record_is_sound self.now }
    {
        match self {
            Record::Handled { worker: _, event } => is_sound(event),
            Record::Header(_) | Record::Book(_) | Record::Line(_) | Record::Clock(_) => true,
        }
    }

    /// What a file begins with, if it is that.
    pub(crate) fn into_header(self) -> Option<Header>
        ensures { result ≡ header_in self }
    {
        match self {
            Record::Header(header) => Some(header),
            Record::Book(_book) => None,
            Record::Handled {
                worker: _worker,
                event: _event,
            } => None,
            Record::Line(_line) => None,
            Record::Clock(_clock) => None,
        }
    }

    /// The worker that it is of.
    pub(crate) fn worker(&self) -> Option<u32>
        ensures { result ≡ worker_of self.now }
    {
        match self {
            Record::Header(_) | Record::Clock(_) => None,
            Record::Book(book) => Some(book.worker),
            Record::Handled { worker, event: _ } => Some(*worker),
            Record::Line(line) => Some(line.worker),
        }
    }
}
