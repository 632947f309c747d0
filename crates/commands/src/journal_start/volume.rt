//! The file of its journal in which a service goes on: a new one with the books of its desks, or the newest one.
ghost use Rattle.std.specs.Prelude.{◌≡◌, ◌++◌, filter, map, nat_lt, IfOk, OnOk};
ghost use Rattle.notifier.specs.Held.{seen_by};
ghost use Rattle.commands.specs.Begun.{AreLiving, BeginsOver, IsLastSecond, living_row};

use crate::journal_opened::Opened;
use crate::journal_start::{Order, Started};
use journal::{Header, Told};
use keeper::Keeper;
use notifier::{Desk, Out};
use package::{Change, Package};
use restarts::Living as Row;
use resumption::{Found, Halt, Renewed, Replayed, add_mails};
use service::{Begins, Journal, Living, Volume};
use sip_text::NoMemory;
use std::alloc::Global;
use std::fs::File;
use std::rt::Files;

/// Adds what is known of the subscriptions that go on.
fn add_living(living: &mut Vec<Living>, rows: Vec<Row>) -> Result<(), NoMemory>
    ensures { OnOk result (living.new.items ≡ living.old.items ++ map living_row rows.items) }
{
    for row in rows {
        let Row {
            tag,
            number,
            to,
            note,
        } = row;
        living.push(Living {
            tag,
            number,
            to,
            note,
        })?;
    }
    Ok(())
}

/// The last second of which one of these desks was told.
pub(crate) fn last_second<P: Package>(desks: &[Desk<P>]) -> u64
    ensures { IsLastSecond (map (seen_by P.seen) desks.now) result }
{
    let mut second = 0u64;
    for desk in desks {
        second = second.max(desk.clock());
    }
    second
}

/// What a service begins with beside these desks, where these NOTIFYs are sent first.
fn begin_with<P: Package>(alloc: Global, desks: &[Desk<P>], first: Vec<Out>) -> Result<Begins, Halt>
    ensures unanswered { IfOk result (λ b. b.unanswered.items ≡ first.items) }
    ensures tick { IfOk result (λ b. IsLastSecond (map (seen_by P.seen) desks.now) b.tick) }
    ensures living { IfOk result (λ b. AreLiving (map (seen_by P.seen) desks.now) b.living.items) }
{
    let mut begins = Begins::anew(alloc);
    begins.unanswered = first;
    begins.tick = last_second(desks);
    for desk in desks {
        add_living(&mut begins.living, Row::of_desk(alloc, desk)?)?;
    }
    Ok(begins)
}

/// What was told of the mailboxes of these workers.
fn told_changes(alloc: Global, keeper: &Keeper, workers: u32) -> Result<Vec<Change>, Halt> {
    let mut changes = Vec::new(alloc);
    for worker in 0..workers {
        add_mails(alloc, &mut changes, &keeper.told(worker)?)?;
    }
    Ok(changes)
}

/// Has the book of a worker's desk stand in the next file.
fn put_book<P: Package>(
    alloc: Global,
    keeper: &mut Keeper,
    worker: u32,
    desk: &Desk<P>,
) -> Result<(), Halt> {
    let mut bytes = Vec::new(alloc);
    if desk.save(alloc, &mut bytes).is_err() {
        return Err(Halt::NoMemory);
    }
    keeper.book(worker, bytes.as_slice())?;
    Ok(())
}

/// Has the books of these desks stand in the next file.
fn put_books<P: Package>(
    alloc: Global,
    keeper: &mut Keeper,
    desks: &[Desk<P>],
) -> Result<(), Halt> {
    let mut worker = 0u32;
    for desk in desks {
        put_book(alloc, keeper, worker, desk)?;
        worker = worker.saturating_add(1);
    }
    Ok(())
}

/// A new file with the books of these desks. None where it can't be written.
fn new_volume<R, P>(
    rt: &R,
    opened: &Opened,
    header: &Header,
    keeper: &mut Keeper,
    desks: &[Desk<P>],
) -> Result<Option<Volume>, Halt>
where
    R: Files<File = File> + AllocGlobal,
    P: Package,
{
    let alloc = rt.alloc();
    let last = opened.numbers.first().copied().unwrap_or(0);
    let number = last.saturating_add(1);
    keeper.begin_next(header)?;
    put_books(alloc, keeper, desks)?;
    keeper.turn();
    let Some(file) = opened.folder.file(rt, number, 0)? else {
        return Ok(None);
    };
    let mut volume = Volume::new(file, number, 0);
    if volume.append(keeper.current()).is_err() {
        opened.folder.remove(rt, &[number])?;
        return Ok(None);
    }
    keeper.clear();
    Ok(Some(volume))
}

/// Where a new file of a journal is written: the folder, and the numbers of files there that go once it stands.
#[derive(Clone, Copy)]
struct Place<'a> {
    opened: &'a Opened,
    spare: &'a [u64],
}

/// The journal that goes on in this file, which was the current one for so many seconds.
fn journal_in(
    alloc: Global,
    order: Order<'_>,
    opened: &Opened,
    been: u64,
    kept: (Keeper, Volume),
) -> Result<Journal, Halt> {
    let upkeep = match order.upkeep(alloc, opened, been) {
        Ok(upkeep) => upkeep,
        Err(error) => {
            drop((order, kept));
            return Err(error.into());
        }
    };
    let (keeper, volume) = kept;
    Ok(Journal::new(alloc, keeper, order.header, volume, upkeep)?)
}

/// A new file with the books of these desks, if it can be written, and what the keeper was told of mailboxes.
fn first_file<R, P>(
    rt: &R,
    order: &Order<'_>,
    opened: &Opened,
    keeper: &mut Keeper,
    desks: &[Desk<P>],
) -> Result<(Option<Volume>, Vec<Change>), Halt>
where
    R: Files<File = File> + AllocGlobal,
    P: Package,
{
    let volume = new_volume(rt, opened, &order.header, keeper, desks)?;
    match told_changes(rt.alloc(), keeper, order.plan.workers) {
        Ok(changes) => Ok((volume, changes)),
        Err(halt) => {
            drop(volume);
            Err(halt)
        }
    }
}

/// The journal that goes on in this new file. Once it stands there spare files are removed. Where it can't be written nobody goes on from an
/// older one any more: numbers of NOTIFYs would come twice.
fn begin_journal<R>(
    rt: &R,
    order: Order<'_>,
    place: Place<'_>,
    keeper: Keeper,
    volume: Option<Volume>,
) -> Result<Option<Journal>, Halt>
where
    R: Files<File = File> + AllocGlobal,
{
    let opened = place.opened;
    let Some(volume) = volume else {
        drop((order, keeper));
        opened.folder.put_aside(rt, opened.numbers.as_slice())?;
        return Ok(None);
    };
    let journal = journal_in(rt.alloc(), order, opened, 0, (keeper, volume))?;
    match opened.folder.remove(rt, place.spare) {
        Ok(()) => Ok(Some(journal)),
        Err(error) => {
            drop(journal);
            Err(error.into())
        }
    }
}

/// The journal of a service with these desks, if it can be written, and what was told of mailboxes.
fn new_journal<R, P>(
    rt: &R,
    order: Order<'_>,
    place: Place<'_>,
    told: Vec<Told>,
    desks: &[Desk<P>],
) -> Result<(Vec<Change>, Option<Journal>), Halt>
where
    R: Files<File = File> + AllocGlobal,
    P: Package,
{
    let mut keeper = Keeper::new(rt.alloc(), told)?;
    match first_file(rt, &order, place.opened, &mut keeper, desks) {
        Ok((volume, changes)) => Ok((changes, begin_journal(rt, order, place, keeper, volume)?)),
        Err(halt) => {
            drop((order, keeper));
            Err(halt)
        }
    }
}

/// A service with these desks, which writes a new file, if it can. Once that stands there the files with these numbers are removed.
pub(crate) fn begin_file<R, P>(
    rt: &R,
    order: Order<'_>,
    opened: &Opened,
    renewed: Renewed<P>,
    spare: &[u64],
) -> Result<Started<P>, Halt>
where
    R: Files<File = File> + AllocGlobal,
    P: Package,
    ensures desks { IfOk result (λ s. s.desks ≡ renewed.desks) }
    ensures begins { IfOk result (λ s. BeginsOver (map (seen_by P.seen) renewed.desks.items) renewed.first.items s.begins) }
{
    let Renewed { desks, first, told } = renewed;
    let begins = match begin_with(rt.alloc(), desks.as_slice(), first) {
        Ok(begins) => begins,
        Err(halt) => {
            drop((order, desks, told));
            return Err(halt);
        }
    };
    match new_journal(rt, order, Place { opened, spare }, told, desks.as_slice()) {
        Ok((changes, journal)) => Ok(Started {
            desks,
            begins,
            changes: Some(changes),
            journal,
        }),
        Err(halt) => {
            drop((desks, begins));
            Err(halt)
        }
    }
}

/// Where the newest file of a journal stands.
#[derive(Clone, Copy)]
pub(crate) struct Newest {
    /// Its number.
    pub(crate) number: u64,
    /// The second of the notifier in which its books were written.
    pub(crate) begun: u64,
    /// Where its whole records end.
    whole: u64,
    /// Whether it follows the one before.
    pub(crate) follows: bool,
}

impl Newest {
    /// The file with this number, in which this was found.
    pub(crate) fn of(number: u64, found: &Found) -> Newest {
        Newest {
            number,
            begun: found.begun,
            whole: found.whole,
            follows: found.follows,
        }
    }
}

/// The journal that goes on in this file, which was the current one for so many seconds, if it can be written, and what was told of mailboxes.
fn old_journal<R>(
    rt: &R,
    order: Order<'_>,
    opened: &Opened,
    aged: (Newest, u64),
    keeper: Keeper,
) -> Result<(Vec<Change>, Option<Journal>), Halt>
where
    R: Files<File = File> + AllocGlobal,
{
    let (newest, been) = aged;
    let mut keeper = keeper;
    let changes = match told_changes(rt.alloc(), &keeper, order.plan.workers) {
        Ok(changes) => changes,
        Err(halt) => {
            drop((order, keeper));
            return Err(halt);
        }
    };
    match old_volume(rt, opened, newest, &mut keeper) {
        Ok(Some(volume)) => {
            let journal = journal_in(rt.alloc(), order, opened, been, (keeper, volume))?;
            Ok((changes, Some(journal)))
        }
        Ok(None) => {
            drop((order, keeper));
            Ok((changes, None))
        }
        Err(halt) => {
            drop((order, keeper, changes));
            Err(halt)
        }
    }
}

/// A service whose desks stand where they stood, and which goes on in this file.
pub(crate) fn go_straight<R, P>(
    rt: &R,
    order: Order<'_>,
    opened: &Opened,
    newest: Newest,
    replayed: Replayed<P>,
) -> Result<Started<P>, Halt>
where
    R: Files<File = File> + AllocGlobal,
    P: Package,
    ensures desks { IfOk result (λ s. s.desks ≡ replayed.desks) }
    ensures begins { IfOk result (λ s. BeginsOver (map (seen_by P.seen) replayed.desks.items) replayed.unanswered.items s.begins) }
{
    let Replayed {
        desks,
        unanswered,
        keeper,
    } = replayed;
    let begins = match begin_with(rt.alloc(), desks.as_slice(), unanswered) {
        Ok(begins) => begins,
        Err(halt) => {
            drop((order, desks, keeper));
            return Err(halt);
        }
    };
    let been = begins.tick.saturating_sub(newest.begun);
    match old_journal(rt, order, opened, (newest, been), keeper) {
        Ok((changes, journal)) => Ok(Started {
            desks,
            begins,
            changes: Some(changes),
            journal,
        }),
        Err(halt) => {
            drop((desks, begins));
            Err(halt)
        }
    }
}

/// Those of these files that a service doesn't need which goes on from the one with this number, or from none: newer ones, which were never
/// whole. Older ones it removes as it runs.
pub(crate) fn spare_numbers(
    alloc: Global,
    numbers: &[u64],
    number: u64,
) -> Result<Vec<u64>, NoMemory>
    ensures { IfOk result (λ spare. spare.items ≡ filter (λ other. nat_lt number other) numbers.now) }
{
    let mut spare = Vec::new(alloc);
    for other in numbers {
        if *other > number {
            spare.push(*other)?;
        }
    }
    Ok(spare)
}

/// This file, to be gone on in behind its whole records, with what waits in the keeper: the lines that are handled now. None where it can't be written;
/// then nobody goes on from it any more.
fn old_volume<R>(
    rt: &R,
    opened: &Opened,
    newest: Newest,
    keeper: &mut Keeper,
) -> Result<Option<Volume>, Halt>
where
    R: Files<File = File> + AllocGlobal,
{
    let Newest { number, whole, .. } = newest;
    let numbers = opened.numbers.as_slice();
    let spare = spare_numbers(rt.alloc(), numbers, number)?;
    opened.folder.remove(rt, spare.as_slice())?;
    if let Some(file) = opened.folder.file(rt, number, whole)? {
        let mut volume = Volume::new(file, number, whole);
        if volume.append(keeper.current()).is_ok() {
            keeper.clear();
            return Ok(Some(volume));
        }
    }
    opened.folder.put_aside(rt, numbers)?;
    Ok(None)
}
