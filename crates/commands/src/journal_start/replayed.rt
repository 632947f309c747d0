//! What goes on from the files of a journal: its desks, the NOTIFYs of earlier files that nobody answered, and what lines told of mailboxes
//! that no desk has.
ghost use Rattle.std.specs.Prelude.{◌≡◌, ◌++◌, filter, map, string_bytes, IfOk, OnOk};
ghost use Rattle.std.specs.List.{list_any};
ghost use Rattle.arguments.specs.Wanted.{Gives};
ghost use Rattle.control_lines.specs.Told.{is_held};
ghost use Rattle.notifier.specs.Awaiting.{is_awaited as waits_for};
ghost use Rattle.notifier.specs.Held.{seen_by};
ghost use Rattle.plans.specs.Plans.{each_once};
ghost use Rattle.resumption.specs.Told as told;
ghost use Rattle.commands.specs.GoingOn.{AreSentFirst, IsReplayed, awaited_by};
ghost use Rattle.commands.specs.Runs as runs;

use crate::journal_new::worker_count;
use crate::journal_opened::{Opened, read_file, told_since};
use crate::journal_start::volume::{Newest, last_second};
use crate::journal_start::{Order, add_held, is_own, may_miss};
use arguments::Wanted;
use indexmap::IndexSet;
use journal::{Account, Told};
use keeper::Keeper;
use notifier::{Desk, Out, Saved};
use package::{Change, MailChange, Package};
use plans::copied_names;
use resumption::{Found, Halt, Reading, Replayed, replay, saved};
use service::SETTLED;
use sip_text::{NoMemory, Values};
use std::alloc::Global;
use std::fs::File;
use std::rt::Files;

/// The newest file of a journal, with those before it, for a service of this order.
#[derive(Clone, Copy)]
pub(crate) struct Past<'a> {
    pub(crate) order: &'a Order<'a>,
    pub(crate) opened: &'a Opened,
    pub(crate) newest: Newest,
}

/// What an earlier file of a journal tells.
#[derive(Drop)]
struct Earlier {
    /// The NOTIFYs that nobody had answered as it ended, in order.
    outs: Vec<Out>,
    /// The second of the notifier in which its books were written.
    begun: u64,
    /// Whether it follows the one before.
    follows: bool,
}

/// What the file at this place of the list tells. None where it isn't whole, is of another service, or may miss what was handled last.
fn read_earlier<R, P, M>(
    rt: &R,
    past: Past<'_>,
    place: usize,
    make: &M,
) -> Result<Option<Earlier>, Halt>
where
    R: Files<File = File> + AllocGlobal,
    P: Package,
    M: Fn(Wanted) -> Result<P, NoMemory>,
    requires callable { M.IsAlwaysCallable make.now }
    requires gives { Gives P.seen (M.post make.now) }
{
    let Past { order, opened, .. } = past;
    let Some(number) = opened.numbers.get(place).copied() else {
        return Ok(None);
    };
    let before = opened.numbers.get(place.saturating_add(1)).copied();
    let Reading::Found(found) = read_file(rt, &opened.folder, number, before)? else {
        return Ok(None);
    };
    if !is_own(&found, order) || may_miss(&found, order) {
        return Ok(None);
    }
    let worked = order.worked(&found);
    let Found {
        generation,
        begun,
        follows,
        ..
    } = found;
    let accounts = generation.accounts.into_vec();
    match replay(rt.alloc(), &worked, accounts, make) {
        Ok(replayed) => Ok(Some(Earlier {
            outs: replayed.unanswered,
            begun,
            follows,
        })),
        Err(Halt::Unfit) => Ok(None),
        Err(error) => Err(error),
    }
}

/// How many NOTIFYs wait for their answers, as a book has it.
fn unanswered_in(book: &Saved) -> usize {
    let mut count = 0usize;
    for row in book.rows.as_slice() {
        count = count.saturating_add(row.unanswered.as_slice().len());
    }
    count
}

/// How many NOTIFYs of these desks wait for their answers.
fn count_awaited<P: Package>(alloc: Global, desks: &[Desk<P>]) -> Result<usize, Halt> {
    let mut count = 0usize;
    for desk in desks {
        let book = saved(alloc, desk)?;
        count = count.saturating_add(unanswered_in(&book));
    }
    Ok(count)
}

/// Whether one of these desks waits for the answer to the NOTIFY with this local tag and this number.
fn any_awaits<P: Package>(desks: &[Desk<P>], tag: &str, number: u32) -> bool
    ensures { result ≡ list_any (λ desk. waits_for (seen_by P.seen desk) tag.now number) desks.now }
{
    desks.iter().any(|desk| desk.awaits(tag, number))
}

/// Whether one of these desks waits for the answer to this NOTIFY.
#[tactic(auto, using(crate::proofs::GoneOn::awaits_so))]
fn is_awaited<P: Package>(desks: &[Desk<P>], out: &Out) -> bool
    ensures { result ≡ awaited_by (map (seen_by P.seen) desks.now) out.now }
{
    match out {
        Out::Notify { tag, number, .. } => any_awaits(desks, tag.as_str(), *number),
        Out::Answer { .. } | Out::Start { .. } => false,
    }
}

/// Those of these outs that one of these desks awaits the answers to.
fn awaited<P: Package>(
    alloc: Global,
    desks: &[Desk<P>],
    outs: Vec<Out>,
) -> Result<Vec<Out>, NoMemory>
    ensures { IfOk result (λ awaited. awaited.items ≡ filter (awaited_by (map (seen_by P.seen) desks.now)) outs.items) }
{
    let mut awaited = Vec::new(alloc);
    for out in outs {
        if is_awaited(desks, &out) {
            awaited.push(out)?;
        }
    }
    Ok(awaited)
}

/// The NOTIFYs that these desks await the answers to, in order: behind those that earlier files tell of, these of the newest one. A file that
/// was begun with other mailboxes doesn't follow the one before, so its own events don't tell all of them. What is older than [`SETTLED`]
/// seconds is answered or given up.
fn all_awaited<R, P, M>(
    rt: &R,
    past: Past<'_>,
    desks: &[Desk<P>],
    newest: Vec<Out>,
    make: &M,
) -> Result<Vec<Out>, Halt>
where
    R: Files<File = File> + AllocGlobal,
    P: Package,
    M: Fn(Wanted) -> Result<P, NoMemory>,
    requires callable { M.IsAlwaysCallable make.now }
    requires gives { Gives P.seen (M.post make.now) }
    ensures { IfOk result (λ outs. AreSentFirst (map (seen_by P.seen) desks.now) newest.items outs.items) }
{
    let clock = last_second(desks);
    let numbers = past.opened.numbers.as_slice();
    let mut outs = newest;
    let Newest {
        number,
        mut begun,
        mut follows,
        ..
    } = past.newest;
    for place in 0..numbers.len() {
        if numbers[place] >= number {
            continue;
        }
        if follows || SETTLED <= clock.saturating_sub(begun) {
            break;
        }
        if count_awaited(rt.alloc(), desks)? <= outs.len() {
            break;
        }
        let Some(earlier) = read_earlier(rt, past, place, make)? else {
            break;
        };
        begun = earlier.begun;
        follows = earlier.follows;
        let mut first = awaited(rt.alloc(), desks, earlier.outs)?;
        first.append(&mut outs)?;
        outs = first;
    }
    Ok(outs)
}

/// What goes on from what was found, with the NOTIFYs of earlier files that are still unanswered.
pub(crate) fn replay_found<R, P, M>(
    rt: &R,
    past: Past<'_>,
    found: Found,
    make: &M,
) -> Result<Replayed<P>, Halt>
where
    R: Files<File = File> + AllocGlobal,
    P: Package,
    M: Fn(Wanted) -> Result<P, NoMemory>,
    requires callable { M.IsAlwaysCallable make.now }
    requires gives { Gives P.seen (M.post make.now) }
    ensures { IfOk result (λ r. IsReplayed found past.entry.order.now.work.setup.stop (map (seen_by P.seen) r.desks.items)
        r.unanswered.items r.keeper) }
{
    let worked = past.order.worked(&found);
    let Found { generation, .. } = found;
    let Replayed {
        desks,
        unanswered,
        keeper,
    } = replay(rt.alloc(), &worked, generation.accounts.into_vec(), make)?;
    let unanswered = all_awaited(rt, past, desks.as_slice(), unanswered, make)?;
    Ok(Replayed {
        desks,
        unanswered,
        keeper,
    })
}

/// The mailboxes that a worker held at its book, as a set.
fn held_set(alloc: Global, account: &Account) -> Result<IndexSet<String>, NoMemory>
    ensures { IfOk result (λ set. map string_bytes set.keys ≡ each_once (told.held_names account.now.book.told.mail)) }
{
    let mut names = Vec::new(alloc);
    add_held(alloc, &mut names, account)?;
    copied_names(alloc, names.as_slice())
}

/// Whether the mailbox of this change is in the set.
fn has_mailbox(set: &IndexSet<String>, change: &MailChange) -> bool
    ensures { result ≡ is_held (map string_bytes set.now.keys) change.now.mailbox }
{
    set.contains(change.mailbox())
}

/// Adds the change, if it is of a mailbox that isn't in the set.
fn add_unheld(
    unheld: &mut Vec<MailChange>,
    held: &IndexSet<String>,
    change: Change,
) -> Result<(), NoMemory>
    ensures { OnOk result (unheld.new.items ≡ unheld.old.items ++ runs.unheld (map string_bytes held.now.keys) change) }
{
    if let Change::Mail(change) = change {
        if !has_mailbox(held, &change) {
            unheld.push(change)?;
        }
    }
    Ok(())
}

/// What lines told a worker since its book of mailboxes that it doesn't hold.
fn unheld_since(alloc: Global, account: &Account) -> Result<Vec<MailChange>, NoMemory>
    ensures { IfOk result (λ unheld. unheld.items ≡ runs.unheld_since account.now) }
{
    let held = held_set(alloc, account)?;
    let mut unheld = Vec::new(alloc);
    for change in told_since(alloc, account)? {
        add_unheld(&mut unheld, &held, change)?;
    }
    Ok(unheld)
}

/// The same of each worker.
fn each_unheld(alloc: Global, accounts: &[Account]) -> Result<Vec<Vec<MailChange>>, NoMemory>
    ensures { IfOk result (λ all. map (λ u. u.items) all.items ≡ map runs.unheld_since accounts.now) }
{
    let mut all = Vec::new(alloc);
    for account in accounts {
        all.push(unheld_since(alloc, account)?)?;
    }
    Ok(all)
}

/// The same of each worker, where lines make mailboxes. They are of mailboxes that the next run has.
pub(crate) fn all_unheld(
    alloc: Global,
    order: &Order<'_>,
    found: &Found,
) -> Result<Vec<Vec<MailChange>>, NoMemory>
    ensures { IfOk result (λ all. map (λ u. u.items) all.items ≡ runs.all_unheld order.now.plan.now found.now) }
{
    if order.plan.choices.any_mailbox {
        each_unheld(alloc, found.generation.accounts.as_slice())
    } else {
        Ok(Vec::new(alloc))
    }
}

/// What a worker was told, with these changes behind it.
fn told_also(told: Told, changes: Vec<MailChange>) -> Result<Told, NoMemory>
    ensures { IfOk result (λ also. also ≡ runs.told_also told changes.items) }
{
    let Told {
        events,
        mails,
        mail,
        progress,
    } = told;
    let mut mail = mail.into_vec();
    let mut changes = changes;
    mail.append(&mut changes)?;
    Ok(Told {
        events,
        mails,
        mail: Values::new(mail),
        progress,
    })
}

/// What these workers were told, each with these changes of its own behind it.
fn all_told_also(
    alloc: Global,
    keeper: &Keeper,
    unheld: Vec<Vec<MailChange>>,
) -> Result<Vec<Told>, Halt>
    ensures { IfOk result (λ all. all.items ≡ runs.all_told_also (map (λ u. u.items) unheld.items) keeper.now.workers) }
{
    let mut all = Vec::new(alloc);
    for changes in unheld {
        let worker = worker_count(all.len())?;
        let told = keeper.told(worker)?;
        all.push(told_also(told, changes)?)?;
    }
    Ok(all)
}

/// What was told to workers, each with these changes of its own, if there are some, of mailboxes that it didn't hold.
fn kept_also(alloc: Global, keeper: Keeper, unheld: Vec<Vec<MailChange>>) -> Result<Keeper, Halt>
    ensures { IfOk result (λ kept. kept ≡ runs.kept_also (map (λ u. u.items) unheld.items) keeper) }
{
    if unheld.is_empty() {
        return Ok(keeper);
    }
    let told = all_told_also(alloc, &keeper, unheld)?;
    let kept = Keeper::new(alloc, told)?;
    Ok(kept)
}

/// Desks that go on, whose workers were told these changes too, of mailboxes that they didn't hold.
pub(crate) fn with_unheld<P: Package>(
    alloc: Global,
    replayed: Replayed<P>,
    unheld: Vec<Vec<MailChange>>,
) -> Result<Replayed<P>, Halt>
    ensures desks { IfOk result (λ r. r.desks ≡ replayed.desks) }
    ensures unanswered { IfOk result (λ r. r.unanswered ≡ replayed.unanswered) }
    ensures kept { IfOk result (λ r. r.keeper ≡ runs.kept_also (map (λ u. u.items) unheld.items) replayed.keeper) }
{
    let Replayed {
        desks,
        unanswered,
        keeper,
    } = replayed;
    let keeper = kept_also(alloc, keeper, unheld)?;
    Ok(Replayed {
        desks,
        unanswered,
        keeper,
    })
}
