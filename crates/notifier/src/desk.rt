//! The desk, and what to do with a request: `verdict` goes through the cases in their order, and `serve` does what it says.
#![tactic(auto, unfolding(notifier_model::specs::Run::empty, notifier_model::specs::Book::nothing, notifier_model::specs::Book::unless, notifier_model::specs::Book::unless_denied, notifier_model::specs::Book::in_dialog, notifier_model::specs::Book::outside, notifier_model::specs::Book::by_to_tag, notifier_model::specs::Book::by_kept, notifier_model::specs::Book::verdict, notifier_model::specs::Book::served, notifier_model::specs::Rows::is_dialog, notifier_model::specs::Out::out_of))]

ghost use Rattle.std.specs.Prelude.{◌≡◌, ◌++◌, ◌↔◌, map, is_none, IfOk, OnOk, OnErr, Some, None, ◌^◌, All, option_map, find};
ghost use Rattle.notifier.specs.Standing.{Standing, first_standing, IsHandled};
ghost use Rattle.notifier.specs.Awaiting.{is_awaited};
ghost use Rattle.notifier.specs.Held.{seen_by};
ghost use Rattle.notifier.specs.Errors.{number_of};
ghost use Rattle.notifier_model.specs.Book.{step};
ghost use Rattle.notifier_model.specs.Start.{place_of};
ghost use Rattle.notifier_model.specs.Saved.{book_with};
ghost use Rattle.snapshots.specs.Books.{book_text, IsSaved};
ghost use Rattle.notifier.specs.Written.{saved_of};
ghost use Rattle.notifier.specs.Resumed.{MayGoOn, AreInRange, IsRightly, NamesCause};
ghost use Rattle.notifier.specs.Ledger.{book_of, IsStep, IsSound};
ghost use Rattle.notifier_model.specs.Book as spec;
ghost use Rattle.notifier_model.specs.Fields as fields;
ghost use Rattle.notifier_model.specs.Rows as tabled;
ghost use Rattle.notifier.specs.Sound.{IsOwn};
ghost use Rattle.notifier.specs.Stored.{rows_of, IsIndexed};
ghost use Rattle.notifier.specs.Verdicts.{verdict_of};

use crate::answer::repeat;
use crate::incoming::{Incoming, Pending};
use crate::resume::{ResumeError, keep_all};
use crate::store::Ledger;
use crate::store::kept::KeptAnswers;
use crate::store::rows::Rows;
use crate::store::transaction::Transaction;
use crate::sweep::touched::own_serial;
use crate::tag::Tags;
use notifier_model::birth::Birth;
use notifier_model::event::{Event, Out};
use notifier_model::place::{Place, Setup};
use notifier_model::refusal::Refusal;
use notifier_model::row::Row;
use notifier_model::saved::Saved;
use package::Package;
use sip_read::{Addr, Request};
use sip_text::{NoMemory, Octets, Text};
use std::alloc::Global;
use std::marker::Model;
use thiserror::Error;

/// Why a desk gives no outs.
#[derive(Clone, Copy, Debug, PartialEq, Eq, Error)]
pub enum DeskError {
    /// A growth was refused. The desk is spent.
    #[error("out of memory")]
    NoMemory,
    /// A growth was refused at an earlier event.
    #[error("the desk is spent")]
    Spent,
}

impl DeskError {
    /// 1 for NoMemory, 2 for Spent.
    pub fn number(self) -> u8
        ensures { result ≡ number_of self }
    {
        match self {
            DeskError::NoMemory => 1,
            DeskError::Spent => 2,
        }
    }
}

/// One thread's notifier, over boxed packages unless said otherwise. Contracts see its place and what its book holds, with the
/// packages themselves, or nothing where it is spent.
pub struct Desk<P = Box<dyn Package>> {
    spent: bool,
    place: Place,
    ledger: Ledger<P>,
}

/// By hand, so that all that lets go of one calls this one function, and none proves the ways through each field.
impl<P: Drop> Drop for Desk<P> {
    fn drop(self) {
        let Desk {
            spent: _,
            place: _,
            ledger: _,
        } = self;
    }
}

impl<P> Model for Desk<P> {
    ghost use Rattle.std.specs.Prelude.{◌≡◌, false, Option, None, Some, if◌then◌else◌};
    ghost use Rattle.notifier.specs.Held.{Held, held_of};
    ghost use Rattle.notifier.specs.Ledger.{IsSound};

    ghost Value = { Option (Held P) };

    ghost view = { λ d. if d.spent then None else Some (held_of d.place d.ledger) };

    ghost invariant = { λ d. d.spent ≡ false → IsSound d.place d.ledger };
}

impl<P: Package> Desk<P> {
    /// The desk of this worker, with nothing in its book but the boxes. Of two boxes with one name the first is used.
    pub fn new(
        alloc: Global,
        setup: &Setup,
        worker: u32,
        boxes: Vec<P>,
    ) -> Result<Desk<P>, NoMemory>
        ensures { IfOk result (λ desk. seen_by P.seen desk
            ≡ Some (first_standing (record { place = place_of setup.now worker; boxes = map P.seen boxes.items }))) }
    {
        setup.limits.are_in_range();
        let ring = KeptAnswers::with_room(alloc, setup.limits.kept() as usize)?;
        let place = Place {
            limits: setup.limits,
            seed: setup.seed,
            me: setup.me,
            stop: setup.stop,
            worker,
        };
        let ledger = Ledger {
            clock: 0,
            next: 1,
            rows: Rows::new(alloc),
            boxes,
            ring,
            tags: Tags::new(&place),
        };
        Ok(Desk {
            spent: false,
            place,
            ledger,
        })
    }

    /// The desk of this worker, which goes on from a saved book with these boxes. The limits may be others than they were:
    /// of rows that are more than the table holds all go on. An error names its cause: BadRow the first row that may not stand
    /// behind those before it.
    pub fn resume(
        alloc: Global,
        setup: &Setup,
        worker: u32,
        boxes: Vec<P>,
        saved: Saved,
    ) -> Result<Desk<P>, ResumeError>
        ensures stands { IfOk result (λ desk. seen_by P.seen desk ≡ Some (record {
          place = place_of setup.now worker;
          book = book_with saved (map P.seen boxes.items);
        })) }
        ensures may { OnOk result (MayGoOn (place_of setup.now worker) saved) }
        ensures rightly { IsRightly result (MayGoOn (place_of setup.now worker) saved) }
        ensures cause { NamesCause result (AreInRange (place_of setup.now worker) saved → ⊥) (place_of setup.now worker) saved.clock saved.next saved.rows }
    {
        setup.limits.are_in_range();
        let Saved {
            clock,
            next,
            rows,
            ring,
        } = saved;
        let answers = ring.into_vec();
        if clock >= 1 << 63
            || next < 1
            || next > 1 << 32
            || answers.len() > setup.limits.kept() as usize
        {
            return Err(ResumeError::Numbers);
        }
        let ring = keep_all(alloc, &setup.limits, answers)?;
        let place = Place {
            limits: setup.limits,
            seed: setup.seed,
            me: setup.me,
            stop: setup.stop,
            worker,
        };
        let mut ledger = Ledger {
            clock,
            next,
            rows: Rows::new(alloc),
            boxes,
            ring,
            tags: Tags::new(&place),
        };
        if let Err(error) = ledger.put_all(alloc, &place, rows.into_vec()) {
            return Err(error);
        }
        Ok(Desk {
            spent: false,
            place,
            ledger,
        })
    }

    /// Appends the whole book, but for what its boxes hold: it is read again, and a desk of this place goes on from it. After an
    /// error a part of it may stand there.
    pub fn save(&self, alloc: Global, out: &mut Vec<u8>) -> Result<(), DeskError>
        ensures saved { OnOk result ((s : Standing) → seen_by P.seen self.now ≡ Some s
            → out.new.items ≡ out.old.items ++ book_text (saved_of s.book)) }
        ensures fits { OnOk result ((s : Standing) → seen_by P.seen self.now ≡ Some s → IsSaved (saved_of s.book)) }
        ensures may { OnOk result ((s : Standing) → seen_by P.seen self.now ≡ Some s
            → MayGoOn s.place (saved_of s.book)) }
        ensures spent { result ≡ Err DeskError.Spent ↔ seen_by P.seen self.now ≡ None }
    {
        if self.spent {
            return Err(DeskError::Spent);
        }
        match self.ledger.write(alloc, out) {
            Ok(()) => Ok(()),
            Err(_) => Err(DeskError::NoMemory),
        }
    }

    /// The moment of its book, in seconds. Of a spent desk no contract tells it.
    pub fn clock(&self) -> u64
        ensures { (s : Standing) → seen_by P.seen self.now ≡ Some s → result ≡ s.book.clock }
    {
        self.ledger.clock
    }

    /// The rows of its book, by rising serial. Of a spent desk no contract tells them.
    pub fn rows(&self, alloc: Global) -> Result<Vec<&Row>, NoMemory>
        ensures { IfOk result (λ rows. (s : Standing) → seen_by P.seen self.now ≡ Some s
            → map (λ row. row.now) rows.items ≡ s.book.rows) }
    {
        self.ledger.rows.all(alloc)
    }

    /// What the desk was made for: its setup, and the number of its worker. Of a spent desk no contract tells it.
    pub fn place(&self) -> Place
        ensures { (s : Standing) → seen_by P.seen self.now ≡ Some s → result ≡ s.place }
    {
        self.place
    }

    /// Whether the NOTIFY with this local tag and this number is unanswered. Of a desk that is spent none is.
    pub fn awaits(&self, tag: &str, number: u32) -> bool
        ensures { result ≡ is_awaited (seen_by P.seen self.now) tag.now number }
    {
        if self.spent {
            return false;
        }
        self.ledger.awaits(&self.place, tag, number)
    }

    /// Whether a growth was refused at an earlier event.
    pub fn is_spent(&self) -> bool
        ensures { result ≡ is_none (seen_by P.seen self.now) }
    {
        self.spent
    }

    /// Handles one event. After want of memory, which gives no outs, the desk is spent.
    pub fn handle(&mut self, alloc: Global, event: &Event) -> Result<Vec<Out>, DeskError>
        ensures ok { IfOk result (λ outs. (s : Standing) → seen_by P.seen self.old ≡ Some s
            → IsHandled s event.now (seen_by P.seen self.new) outs.items) }
        ensures spent { result ≡ Err DeskError.Spent ↔ seen_by P.seen self.old ≡ None }
        ensures err { OnErr result (seen_by P.seen self.new ≡ None) }
    {
        if self.spent {
            return Err(DeskError::Spent);
        }
        self.spent = true;
        match self.ledger.act(alloc, &self.place, event) {
            Err(_) => Err(DeskError::NoMemory),
            Ok(outs) => {
                self.spent = false;
                Ok(outs)
            }
        }
    }
}

impl<P: Package> Ledger<P> {
    /// One event: what it makes of the book, and what goes out.
    #[tactic(auto, unfolding(notifier_model::specs::Book::step))]
    fn act(&mut self, alloc: Global, place: &Place, event: &Event) -> Result<Vec<Out>, NoMemory>
        requires { IsSound place.now self.old }
        ensures step { IfOk result (λ outs. IsStep (step place.now (book_of P.seen self.old) event.now)
            (book_of P.seen self.new) outs.items) }
        ensures sound { OnOk result (IsSound place.now self.new) }
    {
        match event {
            Event::Request(source, request) => self.serve(alloc, place, *source, request),
            Event::Reply(response) => self.reply(alloc, place, response),
            Event::Mail(change) => self.mail(alloc, place, change),
            Event::Progress(change) => self.progress(alloc, place, change),
            Event::Tick(moment) => self.time(alloc, place, *moment),
            Event::Shut => self.shut(alloc, place),
        }
    }
}

/// What to do with a request (RFC 6665 section 4.2.1).
#[derive(Clone, Copy)]
pub(crate) enum Verdict<'a> {
    /// An ACK has no answer (RFC 3261 section 17).
    Silent,
    /// A retransmission gets the kept answer (RFC 3261 section 17.2.2).
    Repeated(&'a Octets),
    /// It is refused for this cause.
    Refused(Refusal),
    /// It is refused in the dialog of the row with this serial, and that dialog has heard its CSeq (RFC 3261 section 12.2.2).
    Denied(u32, Refusal),
    /// A SUBSCRIBE is accepted in the dialog of the row with this serial (RFC 6665 section 4.2.1.4).
    Renewed(u32),
    /// It makes a dialog, and this (RFC 6665 section 4.2.1.1, RFC 3515 section 2.4.2).
    Born(Birth),
}

/// The tag, or the empty text.
pub(crate) fn tag_or_empty(tag: &Option<Text>) -> &str
    ensures { result.now ≡ fields.or_empty tag.now }
{
    match tag {
        Some(tag) => tag.as_str(),
        None => "",
    }
}

fn is_dialog(request: &Request, tag: &Text, row: &Row) -> bool
    ensures { result ≡ tabled.is_dialog request.now tag.now row.now }
{
    let usage = row.sub.usage();
    usage.call_id.is(request.head.call_id.as_str())
        && usage.local_tag.is(tag.as_str())
        && usage.remote_tag.is(tag_or_empty(&request.head.from.tag))
}

/// The row of the dialog of a request with this To tag.
fn find_dialog<'a>(place: &Place, live: &'a Rows, request: &Request, tag: &Text) -> Option<&'a Row>
    requires indexed { IsIndexed live.now }
    requires own { All (IsOwn place.now (2 ^ 32)) (rows_of live.now) }
    ensures { option_map (λ row. row.now) result ≡ find (tabled.is_dialog request.now tag.now) (rows_of live.now) }
{
    let row = live.row(own_serial(place.worker, tag.as_str())?)?;
    if is_dialog(request, tag, row) {
        Some(row)
    } else {
        None
    }
}

impl<P: Package> Ledger<P> {
    /// A request with this To tag (RFC 3261 section 12.2.2).
    fn in_dialog(&self, incoming: &Incoming<'_>, tag: &Text) -> Verdict<'_>
        requires { IsSound incoming.now.place.now self.now }
        ensures { verdict_of result ≡ spec.in_dialog incoming.now.place.now.limits incoming.now.request.now
            (find (tabled.is_dialog incoming.now.request.now tag.now) (rows_of self.now.rows)) }
    {
        let Some(row) = find_dialog(incoming.place, &self.rows, incoming.request, tag) else {
            return Verdict::Refused(Refusal::NoDialog);
        };
        if incoming.request.head.cseq <= row.last_cseq {
            return Verdict::Refused(Refusal::OldCseq);
        }
        match incoming.denial(&row.sub.want().event) {
            Some(cause) => Verdict::Denied(row.serial, cause),
            None => Verdict::Renewed(row.serial),
        }
    }

    /// What to do with a request: the first case that applies (RFC 6665 section 4.2.1).
    fn verdict(&self, pending: &Pending<'_>) -> Verdict<'_>
        requires { IsSound pending.now.incoming.now.place.now self.now }
        ensures { verdict_of result ≡ spec.verdict pending.now.incoming.now.place.now.limits (book_of P.seen self.now)
            pending.now.incoming.now.request.now }
    {
        let incoming = pending.incoming;
        if incoming.request.method.is("ACK") {
            return Verdict::Silent;
        }
        if let Some(bytes) = self.ring.answer_to(&pending.transaction) {
            return Verdict::Repeated(bytes);
        }
        if let Some(cause) = incoming.misfit() {
            return Verdict::Refused(cause);
        }
        if let Some(tag) = &incoming.request.head.to.tag {
            return self.in_dialog(incoming, tag);
        }
        if let Some(cause) = incoming.misplaced(&self.boxes) {
            return Verdict::Refused(cause);
        }
        let kind = incoming.birth();
        if incoming.is_full(kind, self.next, self.rows.len()) {
            return Verdict::Refused(Refusal::Full);
        }
        Verdict::Born(kind)
    }

    /// A request: what is to be done with it is done.
    pub(crate) fn serve(
        &mut self,
        alloc: Global,
        place: &Place,
        source: Addr,
        request: &Request,
    ) -> Result<Vec<Out>, NoMemory>
        requires { IsSound place.now self.old }
        ensures step { IfOk result (λ outs. IsStep (spec.served place.now (book_of P.seen self.old) source request.now
            (spec.verdict place.now.limits (book_of P.seen self.old) request.now))
            (book_of P.seen self.new) outs.items) }
        ensures sound { OnOk result (IsSound place.now self.new) }
    {
        let transaction = Transaction::of(alloc, request)?;
        let incoming = Incoming::new(place, source, request);
        let pending = Pending {
            incoming: &incoming,
            transaction,
        };
        match self.verdict(&pending) {
            Verdict::Silent => Ok(Vec::new(alloc)),
            Verdict::Repeated(bytes) => repeat(alloc, source, bytes),
            Verdict::Refused(cause) => self.refuse(alloc, pending, cause),
            Verdict::Denied(serial, cause) => self.deny(alloc, pending, serial, cause),
            Verdict::Renewed(serial) => self.renew(alloc, pending, serial),
            Verdict::Born(kind) => self.bear(alloc, pending, kind),
        }
    }
}
