//! Desks that don't go on as they stood in a journal: with other mailboxes, under other limits, behind another start of the machine, or not at all.

ghost use Rattle.std.specs.Prelude.{◌≡◌, ◌<◌, ◌≤◌, ◌++◌, ◌∷◌, [], if◌then◌else◌, map, length, take, option_map, string_bytes, Some, IfOk, IfErr, OnOk};
ghost use Rattle.arguments.specs.Wanted.{Gives};
ghost use Rattle.notifier_model.specs.Start.{place_of};
ghost use Rattle.notifier.specs.Held.{seen_by};
ghost use Rattle.notifier.specs.Standing.{Standing};
ghost use Rattle.notifier.specs.Tellers.{telling};
ghost use Rattle.notifier.specs.Written.{saved_of};
ghost use Rattle.restarts.specs.Ahead.{book_ahead, left_out};
ghost use Rattle.resumption.specs.Changed as spec;

use crate::desks::{Halt, Replayed, Worked, worker_number};
use crate::told::{add_mails, boxes_told, told_with};
use arguments::{Wanted, dealt_names};
use journal::Told;
use keeper::Keeper;
use notifier::{Desk, Event, Out, Place, Saved, Setup, Teller};
use package::{Change, Package};
use restarts::{Withdrawn, skip_ahead, withdraw};
use sip_text::{NoMemory, Text, Values};
use snapshots::book::read_book;
use std::alloc::Global;
use subscription::Reason;

/// Desks with which a journal begins a new file, the NOTIFYs that are sent first, and what their workers were told.
#[derive(Drop)]
pub struct Renewed<P> {
    pub desks: Vec<Desk<P>>,
    pub first: Vec<Out>,
    pub told: Vec<Told>,
}

/// What a service is to be from now on.
#[derive(Clone, Copy)]
pub struct Wish<'a> {
    pub work: &'a Worked,
    pub workers: u32,
    pub mailboxes: &'a [Text],
}

/// What a desk keeps. What it writes is its book: so only want of memory keeps that from being read again.
pub fn saved<P: Package>(alloc: Global, desk: &Desk<P>) -> Result<Saved, Halt>
    ensures book { IfOk result (λ book. option_map (λ (s : Standing). saved_of s.book) (seen_by P.seen desk.now) ≡ Some book) }
    ensures memory { IfErr result (λ e. e ≡ Halt.NoMemory) }
{
    let mut bytes = Vec::new(alloc);
    let Ok(()) = desk.save(alloc, &mut bytes) else {
        return Err(Halt::NoMemory);
    };
    let Ok(book) = read_book(alloc, bytes.as_slice()) else {
        return Err(Halt::NoMemory);
    };
    Ok(book)
}

/// The place of a desk.
fn desk_place(setup: &Setup, worker: u32) -> Place
    ensures { result ≡ place_of setup.now worker }
{
    Place {
        limits: setup.limits,
        seed: setup.seed,
        me: setup.me,
        stop: setup.stop,
        worker,
    }
}

/// The book without those who watch what isn't there any more, and their last NOTIFYs.
fn held_part<P: Package>(
    alloc: Global,
    teller: &Teller<'_, P>,
    book: Saved,
) -> Result<(Saved, Vec<Out>), NoMemory>
    ensures book { IfOk result (λ part. part.0 ≡ spec.held_part (telling P.seen teller.now).boxes book) }
    ensures outs { IfOk result (λ part. part.1.items ≡ spec.held_outs (telling P.seen teller.now) book) }
{
    let Withdrawn { book, rows } = withdraw(alloc, teller, book)?;
    let outs = teller.farewells(alloc, Reason::Noresource, rows)?;
    Ok((book, outs))
}

/// The book, the numbers of whose NOTIFYs are above all that may have been sent, and the last NOTIFYs of those that have no such numbers left.
fn part_ahead<P: Package>(
    alloc: Global,
    teller: &Teller<'_, P>,
    book: Saved,
) -> Result<(Saved, Vec<Out>), NoMemory>
    ensures book { IfOk result (λ part. part.0 ≡ book_ahead book) }
    ensures outs { IfOk result (λ part. part.1.items ≡ spec.farewells (telling P.seen teller.now) Reason.Deactivated (left_out book.rows)) }
{
    let Withdrawn { book, rows } = skip_ahead(alloc, book)?;
    let outs = teller.farewells(alloc, Reason::Deactivated, rows)?;
    Ok((book, outs))
}

/// What goes on of a book with these packages, and the last NOTIFYs of what doesn't. Where the end of what was handled may be lost, numbers leap.
fn part<P: Package>(
    alloc: Global,
    teller: &Teller<'_, P>,
    book: Saved,
    is_lost: bool,
) -> Result<(Saved, Vec<Out>), NoMemory>
    ensures book { IfOk result (λ part. part.0 ≡ spec.part is_lost (telling P.seen teller.now).boxes book) }
    ensures outs { IfOk result (λ part. part.1.items ≡ spec.part_outs is_lost (telling P.seen teller.now) book) }
{
    let (book, mut outs) = held_part(alloc, teller, book)?;
    if !is_lost {
        return Ok((book, outs));
    }
    let (book, mut more) = part_ahead(alloc, teller, book)?;
    outs.append(&mut more)?;
    Ok((book, outs))
}

/// The book with so many of its kept answers, the newest.
fn with_room(book: Saved, kept: u32) -> Saved
    ensures { result ≡ spec.with_room kept book }
{
    let Saved {
        clock,
        next,
        rows,
        ring,
    } = book;
    let mut ring = ring.into_vec();
    ring.truncate(kept as usize);
    Saved {
        clock,
        next,
        rows,
        ring: Values::new(ring),
    }
}

/// The mailboxes that are dealt to this worker from now on.
fn names_now(alloc: Global, wish: &Wish<'_>, worker: u32) -> Result<Vec<String>, NoMemory>
    requires { 0 < wish.now.workers }
    ensures { IfOk result (λ names. map string_bytes names.items ≡ spec.names_now wish.now worker) }
{
    dealt_names(alloc, wish.mailboxes, wish.workers, worker)
}

/// The desk of a worker as it stood, what its packages were told, and whether the end of what it handled may be lost.
#[derive(Drop)]
struct Was<P> {
    worker: u32,
    desk: Desk<P>,
    told: Told,
    is_lost: bool,
}

/// The desk of a worker, as it goes on with these mailboxes, and the last NOTIFYs of what doesn't.
fn carried<P, M>(
    alloc: Global,
    wish: &Wish<'_>,
    was: &Was<P>,
    make: &M,
) -> Result<(Desk<P>, Vec<Out>), Halt>
where
    P: Package,
    M: Fn(Wanted) -> Result<P, NoMemory>,
    requires callable { M.IsAlwaysCallable make.now }
    requires gives { Gives P.seen (M.post make.now) }
    requires some { 0 < wish.now.workers }
    ensures stands { IfOk result (λ now. seen_by P.seen now.0
        ≡ spec.carried wish.now was.now.worker was.now.told was.now.is_lost (seen_by P.seen was.now.desk)) }
    ensures outs { IfOk result (λ now. now.1.items
        ≡ spec.carried_outs wish.now was.now.worker was.now.told was.now.is_lost (seen_by P.seen was.now.desk)) }
{
    let setup = &wish.work.setup;
    let book = saved(alloc, &was.desk)?;
    let names = names_now(alloc, wish, was.worker)?;
    let from = (&was.told, book.rows.as_slice());
    let boxes = boxes_told(alloc, names, from, wish.work.no_refer, make)?;
    let place = desk_place(setup, was.worker);
    let teller = Teller {
        place: &place,
        boxes: &boxes,
        clock: book.clock,
    };
    let parted = part(alloc, &teller, book, was.is_lost)?;
    let room = with_room(parted.0, setup.limits.kept());
    let desk = Desk::resume(alloc, setup, was.worker, boxes, room)?;
    Ok((desk, parted.1))
}

/// What a worker was told, as its new file has it. The change itself counts as an event that stands in no file: so nobody takes the older file for the
/// one before.
fn told_since(alloc: Global, names: &[String], told: Told) -> Result<Told, NoMemory>
    ensures { IfOk result (λ now. now ≡ spec.told_since (map string_bytes names.now) told) }
{
    let mut mails = Vec::new(alloc);
    add_mails(alloc, &mut mails, &told)?;
    let now = told_with(alloc, names, mails.as_slice())?;
    Ok(Told {
        events: told.events.saturating_add(1),
        mails: told.mails,
        mail: now.mail,
        progress: told.progress,
    })
}

impl<P: Package> Renewed<P> {
    /// The desk of the next worker goes on as it is wished.
    fn add<M>(&mut self, alloc: Global, wish: &Wish<'_>, was: Was<P>, make: &M) -> Result<(), Halt>
    where
        M: Fn(Wanted) -> Result<P, NoMemory>,
        requires callable { M.IsAlwaysCallable make.now }
        requires gives { Gives P.seen (M.post make.now) }
        requires some { 0 < wish.now.workers }
        ensures desk { OnOk result (map (seen_by P.seen) self.new.desks.items ≡ map (seen_by P.seen) self.old.desks.items
            ++ spec.carried wish.now was.worker was.told was.is_lost (seen_by P.seen was.desk) ∷ []) }
        ensures first { OnOk result (self.new.first.items ≡ self.old.first.items
            ++ spec.carried_outs wish.now was.worker was.told was.is_lost (seen_by P.seen was.desk)) }
        ensures told { OnOk result (self.new.told.items ≡ self.old.told.items
            ++ spec.told_since (spec.names_now wish.now was.worker) was.told ∷ []) }
    {
        let (desk, mut outs) = carried(alloc, wish, &was, make)?;
        let held = names_now(alloc, wish, was.worker)?;
        let told = told_since(alloc, held.as_slice(), was.told)?;
        self.desks.push(desk)?;
        self.first.append(&mut outs)?;
        self.told.push(told)?;
        Ok(())
    }
}

/// What is sent first of what nobody has answered: nothing, where the end of what was handled may be lost.
fn first_of(unanswered: Vec<Out>, is_lost: bool) -> Vec<Out>
    ensures { result.items ≡ (if is_lost then [] else unanswered.items) }
{
    let mut first = unanswered;
    if is_lost {
        first.clear();
    }
    first
}

/// The desks of all workers go on as they are wished. A keeper knows what they were told, and whether the end of what they handled may be lost is said beside it.
fn renew_all<P, M>(
    alloc: Global,
    wish: &Wish<'_>,
    desks: Vec<Desk<P>>,
    known: (&Keeper, bool),
    make: &M,
) -> Result<Renewed<P>, Halt>
where
    P: Package,
    M: Fn(Wanted) -> Result<P, NoMemory>,
    requires callable { M.IsAlwaysCallable make.now }
    requires gives { Gives P.seen (M.post make.now) }
    requires some { 0 < wish.now.workers }
    ensures stands { IfOk result (λ r. map (seen_by P.seen) r.desks.items
        ≡ spec.all_carried wish.now known.entry.1 (map (seen_by P.seen) desks.items) known.entry.0.now.workers) }
    ensures first { IfOk result (λ r. r.first.items
        ≡ spec.all_carried_outs wish.now known.entry.1 (map (seen_by P.seen) desks.items) known.entry.0.now.workers) }
    ensures told { IfOk result (λ r. r.told.items ≡ spec.all_told_since wish.now (length desks.items) known.entry.0.now.workers) }
    ensures all { IfOk result (λ r. length r.desks.items ≡ length desks.items) }
{
    let (keeper, is_lost) = known;
    let mut renewed = Renewed {
        desks: Vec::new(alloc),
        first: Vec::new(alloc),
        told: Vec::new(alloc),
    };
    for desk in desks {
        let worker = worker_number(renewed.desks.len())?;
        let told = keeper.told(worker)?;
        let was = Was {
            worker,
            desk,
            told,
            is_lost,
        };
        renewed.add(alloc, wish, was, make)?;
    }
    Ok(renewed)
}

/// The desks that a journal had go on as they are wished from now on, each of them. Unfit: another number of workers is wished, to which
/// mailboxes would go that their desks don't know.
pub fn renew<P, M>(
    alloc: Global,
    wish: &Wish<'_>,
    replayed: Replayed<P>,
    is_lost: bool,
    make: &M,
) -> Result<Renewed<P>, Halt>
where
    P: Package,
    M: Fn(Wanted) -> Result<P, NoMemory>,
    requires callable { M.IsAlwaysCallable make.now }
    requires gives { Gives P.seen (M.post make.now) }
    requires some { 0 < wish.now.workers }
    ensures stands { IfOk result (λ r. map (seen_by P.seen) r.desks.items
        ≡ spec.all_carried wish.now is_lost (map (seen_by P.seen) replayed.desks.items) replayed.keeper.workers) }
    ensures first { IfOk result (λ r. r.first.items ≡ (if is_lost then [] else replayed.unanswered.items)
        ++ spec.all_carried_outs wish.now is_lost (map (seen_by P.seen) replayed.desks.items) replayed.keeper.workers) }
    ensures told { IfOk result (λ r. r.told.items
        ≡ spec.all_told_since wish.now (length replayed.desks.items) replayed.keeper.workers) }
    ensures same { OnOk result (length replayed.desks.items ≡ wish.now.workers) }
    ensures all { IfOk result (λ r. length r.desks.items ≡ wish.now.workers) }
{
    let desks = replayed.desks;
    if desks.len() != wish.workers as usize {
        return Err(Halt::Unfit);
    }
    let mut renewed = renew_all(alloc, wish, desks, (&replayed.keeper, is_lost), make)?;
    let mut first = first_of(replayed.unanswered, is_lost);
    first.append(&mut renewed.first)?;
    renewed.first = first;
    Ok(renewed)
}

/// Ends all subscriptions of a desk, and gives what is told of that.
fn shut<P: Package>(alloc: Global, desk: Desk<P>) -> Result<Vec<Out>, Halt>
    ensures outs { IfOk result (λ outs. outs.items ≡ spec.shut_outs (seen_by P.seen desk)) }
    ensures memory { IfErr result (λ e. e ≡ Halt.NoMemory) }
{
    let mut desk = desk;
    let Ok(outs) = desk.handle(alloc, &Event::Shut) else {
        return Err(Halt::NoMemory);
    };
    Ok(outs)
}

/// Ends all subscriptions of these desks, as a planned stop does. What is told of that is appended.
pub fn shut_all<P: Package>(
    alloc: Global,
    desks: Vec<Desk<P>>,
    outs: &mut Vec<Out>,
) -> Result<(), Halt>
    ensures outs { OnOk result (outs.new.items ≡ outs.old.items ++ spec.all_shut (map (seen_by P.seen) desks.items)) }
    ensures memory { IfErr result (λ e. e ≡ Halt.NoMemory) }
{
    for desk in desks {
        let mut more = shut(alloc, desk)?;
        outs.append(&mut more)?;
    }
    Ok(())
}

/// What all workers were told of mailboxes, and the greatest counts of events and of mails.
#[tactic(auto, using(crate::proofs::Looking::told_by_all))]
pub fn told_of_all(
    alloc: Global,
    keeper: &Keeper,
    workers: u32,
) -> Result<(Vec<Change>, u64, u64), Halt>
    ensures changes { IfOk result (λ all. all.0.items ≡ spec.all_mails (take workers keeper.now.workers)) }
    ensures events { IfOk result (λ all. all.1 ≡ spec.most_events (take workers keeper.now.workers)) }
    ensures mails { IfOk result (λ all. all.2 ≡ spec.most_mails (take workers keeper.now.workers)) }
    // Of workers that it knows.
    ensures memory { workers ≤ length keeper.now.workers → IfErr result (λ e. e ≡ Halt.NoMemory) }
{
    let mut changes = Vec::new(alloc);
    let mut events = 0;
    let mut mails = 0;
    for worker in 0..workers {
        let told = keeper.told(worker)?;
        add_mails(alloc, &mut changes, &told)?;
        events = told.events.max(events);
        mails = told.mails.max(mails);
    }
    Ok((changes, events, mails))
}
