//! New desks where there is a journal: with the counts that were told, and where former desks ended.

ghost use Rattle.std.specs.Prelude.{◌≡◌, ◌<◌, [], length, map, take, IfOk};
ghost use Rattle.arguments.specs.Wanted.{Gives};
ghost use Rattle.notifier.specs.Held.{seen_by};
ghost use Rattle.resumption.specs.Changed.{all_mails, all_shut};
ghost use Rattle.commands.specs.Anew as spec;
ghost use Rattle.commands.specs.Anew.{AreNew};

use arguments::{Wanted, all_told, dealt_names};
use crew::open_desks;
use journal::Told;
use package::{Change, Package};
use resumption::{Halt, Renewed, Replayed, Wish, shut_all, told_of_all, told_with};
use sip_text::NoMemory;
use std::alloc::Global;

/// So many workers.
pub(crate) fn worker_count(count: usize) -> Result<u32, Halt>
    ensures { IfOk result (λ workers. workers ≡ count) }
{
    match u32::try_from(count) {
        Ok(workers) => Ok(workers),
        Err(_) => Err(Halt::Unfit),
    }
}

/// What workers were told that begin with these counts of their mailboxes.
fn told_anew(alloc: Global, wish: &Wish<'_>, changes: &[Change]) -> Result<Vec<Told>, NoMemory>
    requires some { 0 < wish.now.workers }
    ensures { IfOk result (λ told. told.items ≡ spec.told_anew wish.now changes.now) }
{
    let mut told = Vec::new(alloc);
    for worker in 0..wish.workers {
        let names = dealt_names(alloc, wish.mailboxes, wish.workers, worker)?;
        told.push(told_with(alloc, names.as_slice(), changes)?)?;
    }
    Ok(told)
}

/// The desks of a service that begins with these counts of its mailboxes, and what its workers were told.
pub(crate) fn begin_desks<P, M>(
    alloc: Global,
    wish: &Wish<'_>,
    changes: &[Change],
    make: &M,
) -> Result<Renewed<P>, Halt>
where
    P: Package,
    M: Fn(Wanted) -> Result<P, NoMemory>,
    requires callable { M.IsAlwaysCallable make.now }
    requires gives { Gives P.seen (M.post make.now) }
    requires some { 0 < wish.now.workers }
    ensures stand { IfOk result (λ r. AreNew wish.now changes.now (map (seen_by P.seen) r.desks.items)) }
    ensures first { IfOk result (λ r. r.first.items ≡ []) }
    ensures told { IfOk result (λ r. r.told.items ≡ spec.told_anew wish.now changes.now) }
{
    let boxes = all_told(
        alloc,
        wish.mailboxes,
        wish.workers,
        changes,
        wish.work.no_refer,
        make,
    )?;
    if boxes.len() > 256 {
        return Err(Halt::Unfit);
    }
    let desks = open_desks(alloc, &wish.work.setup, boxes)?;
    Ok(Renewed {
        desks,
        first: Vec::new(alloc),
        told: told_anew(alloc, wish, changes)?,
    })
}

/// What workers were told, where the counts of events and of mails go on from these. The change itself counts as an event that stands in no
/// file: so nobody takes the older file for the one before.
fn counted_on(
    alloc: Global,
    told: Vec<Told>,
    events: u64,
    mails: u64,
) -> Result<Vec<Told>, NoMemory>
    ensures { IfOk result (λ all. all.items ≡ map (spec.counted_on events mails) told.items) }
{
    let mut all = Vec::new(alloc);
    for was in told {
        all.push(Told {
            events: events.saturating_add(1),
            mails,
            mail: was.mail,
            progress: was.progress,
        })?;
    }
    Ok(all)
}

/// All subscriptions of these desks end, and new desks begin with the counts that these had.
pub(crate) fn end_and_begin<P, M>(
    alloc: Global,
    wish: &Wish<'_>,
    replayed: Replayed<P>,
    make: &M,
) -> Result<Renewed<P>, Halt>
where
    P: Package,
    M: Fn(Wanted) -> Result<P, NoMemory>,
    requires callable { M.IsAlwaysCallable make.now }
    requires gives { Gives P.seen (M.post make.now) }
    requires some { 0 < wish.now.workers }
    ensures first { IfOk result (λ r. r.first.items ≡ all_shut (map (seen_by P.seen) replayed.desks.items)) }
    ensures stand { IfOk result (λ r. AreNew wish.now
        (all_mails (take (length replayed.desks.items) replayed.keeper.workers)) (map (seen_by P.seen) r.desks.items)) }
    ensures told { IfOk result (λ r. r.told.items
        ≡ spec.told_behind wish.now (take (length replayed.desks.items) replayed.keeper.workers)) }
{
    let Replayed {
        desks,
        unanswered: _,
        keeper,
    } = replayed;
    let workers = worker_count(desks.len())?;
    let mut first = Vec::new(alloc);
    shut_all(alloc, desks, &mut first)?;
    let (changes, events, mails) = told_of_all(alloc, &keeper, workers)?;
    let Renewed { desks, told, .. } = begin_desks(alloc, wish, changes.as_slice(), make)?;
    let told = counted_on(alloc, told, events, mails)?;
    Ok(Renewed { desks, first, told })
}
