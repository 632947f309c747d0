//! How a service with a journal begins: its desks go on from what stands in its folder. [`replayed`] makes them of its files, and [`volume`] has
//! the file in which the journal goes on.

ghost use Rattle.std.specs.Prelude.{◌<◌, ◌≤◌, ◌≡◌, ◌↔◌, ◌⊎◌, ◌++◌, false, map, None, IsTrue, IfOk, IfErr, OnOk, vec_len};
ghost use Rattle.arguments.specs.Wanted.{Gives};
ghost use Rattle.notifier.specs.Held.{seen_by};
ghost use Rattle.resumption.specs.Told.{held_names};
ghost use Rattle.commands.specs.GoingOn as spec;
ghost use Rattle.commands.specs.GoingOn.{GoesOn, IsBegunAnew, IsComplete, IsGoneOn, IsHeaderOf, IsOwn, StartsThere, kept_as};
ghost use Rattle.commands.specs.Refused.{IsOther};
ghost use Rattle.commands.specs.Serving.{BeginsAnew};

mod replayed;
mod volume;

use crate::error::ServeError;
use crate::help::VERSION;
use crate::journal_folder::boot_text;
use crate::journal_new::{begin_desks, end_and_begin};
use crate::journal_opened::Opened;
use crate::journal_start::replayed::{Past, all_unheld, replay_found, with_unheld};
use crate::journal_start::volume::{Newest, begin_file, go_straight, spare_numbers};
use crate::logging::say_journal;
use crate::names::are_same;
use arguments::{Wanted, all_told};
use crew::open_desks;
use journal::{Account, Header};
use notifier::{Desk, Setup};
use package::{Change, Package};
use plans::{Plan, local_setup};
use resumption::{Found, Halt, Renewed, Terms, Wish, Worked, held_names, renew};
use service::{Begins, Journal, SETTLED, Syncing, Upkeep};
use sip_text::{Addr, NoMemory, Text};
use std::alloc::Global;
use std::fs::File;
use std::rt::{Clock, Files};

/// Desks, what a service begins with beside them, what was told of its mailboxes, and its journal, where it has one.
#[derive(Drop)]
pub(crate) struct Started<P> {
    pub(crate) desks: Vec<Desk<P>>,
    pub(crate) begins: Begins,
    /// None: those of the plan.
    pub(crate) changes: Option<Vec<Change>>,
    pub(crate) journal: Option<Journal>,
}

/// What a service is to begin with, and what its journal is to begin with.
#[derive(Drop)]
pub(crate) struct Order<'a> {
    plan: &'a Plan,
    work: Worked,
    terms: Terms,
    header: Header,
}

/// What the journal of a service begins with that is planned so and hears SIP here.
fn new_order<'a, R>(rt: &R, plan: &'a Plan, local: Addr) -> Result<Order<'a>, NoMemory>
where
    R: Files<File = File> + AllocGlobal,
    ensures plan { IfOk result (λ o. o.plan.now ≡ plan.now) }
    ensures work { IfOk result (λ o. o.work ≡ spec.worked_here plan.now local) }
    ensures terms { IfOk result (λ o. o.terms ≡ spec.terms_of plan.now) }
    ensures header { IfOk result (λ o. IsHeaderOf plan.now local o.header) }
{
    let setup = local_setup(plan, local);
    let no_refer = plan.choices.no_refer;
    let terms = Terms {
        limits: plan.limits,
        no_refer,
    };
    let header = Header {
        version: terms.text(rt.alloc(), VERSION)?,
        workers: plan.workers,
        seed: plan.seed,
        listen: local,
        contact: setup.me,
        boot: boot_text(rt)?,
    };
    Ok(Order {
        plan,
        work: Worked { setup, no_refer },
        terms,
        header,
    })
}

/// When the journal of a service is brought to the disk, as its words say.
fn syncing(sync: arguments::Syncing) -> Syncing
    ensures { result ≡ kept_as sync }
{
    match sync {
        arguments::Syncing::Never => Syncing::Never,
        arguments::Syncing::Each(seconds) => Syncing::Each(seconds),
        arguments::Syncing::Always => Syncing::Always,
    }
}

impl Order<'_> {
    /// What its desks are to be.
    fn wish(&self) -> Wish<'_>
        ensures workers { result.workers ≡ self.now.plan.now.workers }
        ensures mailboxes { result.mailboxes.now ≡ self.now.plan.now.mailboxes.items }
        ensures work { result.work.now ≡ self.now.work }
    {
        Wish {
            work: &self.work,
            workers: self.plan.workers,
            mailboxes: self.plan.mailboxes.as_slice(),
        }
    }

    /// How its journal is kept in this folder, where it goes on in a file that was the current one for so many seconds. What doesn't stand there
    /// any more needs no removal.
    fn upkeep(&self, alloc: Global, opened: &Opened, been: u64) -> Result<Upkeep, NoMemory>
        ensures folder { IfOk result (λ u. u.folder ≡ opened.now.folder.path) }
        ensures limit { IfOk result (λ u. u.limit ≡ self.now.plan.now.choices.numbers.journal_bytes) }
        ensures age { IfOk result (λ u. u.age ≡ SETTLED) }
        ensures been { IfOk result (λ u. u.been ≡ been) }
        ensures sync { IfOk result (λ u. u.sync ≡ kept_as self.now.plan.now.choices.sync) }
    {
        Ok(Upkeep {
            folder: opened.folder.path.copy(alloc)?,
            oldest: opened.numbers.last().copied().unwrap_or(0),
            limit: u64::from(self.plan.choices.numbers.journal_bytes),
            age: SETTLED,
            been,
            sync: syncing(self.plan.choices.sync),
        })
    }

    /// Under what the desks worked that a journal tells of.
    fn worked(&self, found: &Found) -> Worked
        ensures { result ≡ spec.worked_then found.now self.now.work.setup.stop }
    {
        let header = &found.generation.header;
        Worked {
            setup: Setup {
                limits: found.terms.limits,
                seed: header.seed,
                me: header.contact,
                stop: self.work.setup.stop,
            },
            no_refer: found.terms.no_refer,
        }
    }
}

/// How a service goes on from a journal.
#[derive(Clone, Copy)]
enum Course {
    /// As it stood.
    Straight,
    /// With other mailboxes, other limits, or with a leap of its numbers: in a new file.
    Renewed { is_lost: bool },
    /// Its subscriptions end: nobody who knows them would know the service.
    Ended,
}

/// Adds the mailboxes that a worker held at its book.
fn add_held(alloc: Global, names: &mut Vec<Text>, account: &Account) -> Result<(), NoMemory>
    ensures { OnOk result (names.new.items ≡ names.old.items ++ held_names account.now.book.told.mail) }
{
    for name in held_names(alloc, &account.book.told)? {
        names.push(Text::new(name))?;
    }
    Ok(())
}

/// The mailboxes that workers held at their books.
fn held_by_all(alloc: Global, accounts: &[Account]) -> Result<Vec<Text>, NoMemory>
    ensures { IfOk result (λ names. names.items ≡ spec.held_by_all accounts.now) }
{
    let mut names = Vec::new(alloc);
    for account in accounts {
        add_held(alloc, &mut names, account)?;
    }
    Ok(names)
}

/// Whether a service like this one wrote what was found.
fn is_own(found: &Found, order: &Order<'_>) -> bool
    ensures { IsTrue result ↔ IsOwn found.now.generation.header order.now.header }
{
    let (was, is) = (&found.generation.header, &order.header);
    was.seed == is.seed && was.workers == is.workers && was.contact == is.contact
}

/// Whether the end of what was handled may be lost: it is torn, or the machine was started anew.
fn may_miss(found: &Found, order: &Order<'_>) -> bool
    ensures { (result ≡ false) ↔ IsComplete found.now order.now.header }
{
    let (was, is) = (&found.generation.header, &order.header);
    found.is_torn || is.boot.is("") || !is.boot.is(was.boot.as_str())
}

/// How a service goes on from what was found.
fn course_from(alloc: Global, order: &Order<'_>, found: &Found) -> Result<Course, NoMemory>
    ensures { IfOk result (GoesOn order.now.plan.now.mailboxes.items order.now.terms order.now.header found.now) }
{
    if !is_own(found, order) {
        return Ok(Course::Ended);
    }
    let is_lost = may_miss(found, order);
    let held = held_by_all(alloc, found.generation.accounts.as_slice())?;
    let is_same = are_same(alloc, order.plan.mailboxes.as_slice(), held.as_slice())?;
    if !is_lost && found.terms.is(&order.terms) && is_same {
        Ok(Course::Straight)
    } else {
        Ok(Course::Renewed { is_lost })
    }
}

/// A service that goes on from what was found.
fn go_on<R, P, M>(
    rt: &R,
    order: Order<'_>,
    opened: &Opened,
    from: (u64, Found),
    make: &M,
) -> Result<Started<P>, Halt>
where
    R: Clock + Files<File = File> + Eprint + AllocGlobal,
    P: Package,
    M: Fn(Wanted) -> Result<P, NoMemory>,
    requires callable { M.IsAlwaysCallable make.now }
    requires gives { Gives P.seen (M.post make.now) }
    requires some { 0 < order.plan.now.workers }
    ensures { IfOk result (λ s. IsGoneOn order.entry.plan.now order.entry.work order.entry.terms order.entry.header from.1
        (map (seen_by P.seen) s.desks.items) s.begins) }
{
    let alloc = rt.alloc();
    let (number, found) = from;
    let course = course_from(alloc, &order, &found)?;
    let newest = Newest::of(number, &found);
    let past = Past {
        order: &order,
        opened,
        newest,
    };
    let unheld = all_unheld(alloc, &order, &found)?;
    let replayed = replay_found(rt, past, found, make)?;
    let is_json = order.plan.choices.log_json;
    say_journal(rt, is_json, &opened.folder.path, told(course));
    let wish = order.wish();
    match course {
        Course::Straight => go_straight(rt, order, opened, newest, replayed),
        Course::Renewed { is_lost } => {
            let again = with_unheld(alloc, replayed, unheld)?;
            let renewed = renew(alloc, &wish, again, is_lost, make)?;
            // Behind a leap nothing of an older file is sent again.
            let kept = if is_lost { 0 } else { number };
            let spare = spare_numbers(alloc, opened.numbers.as_slice(), kept)?;
            begin_file(rt, order, opened, renewed, spare.as_slice())
        }
        Course::Ended => {
            let last = with_unheld(alloc, replayed, unheld)?;
            let anew = end_and_begin(alloc, &wish, last, make)?;
            begin_file(rt, order, opened, anew, opened.numbers.as_slice())
        }
    }
}

/// A service with a journal that begins with new desks.
fn begin_anew<R, P, M>(
    rt: &R,
    order: Order<'_>,
    opened: &Opened,
    make: &M,
) -> Result<Started<P>, Halt>
where
    R: Files<File = File> + AllocGlobal,
    P: Package,
    M: Fn(Wanted) -> Result<P, NoMemory>,
    requires callable { M.IsAlwaysCallable make.now }
    requires gives { Gives P.seen (M.post make.now) }
    requires some { 0 < order.plan.now.workers }
    ensures { IfOk result (λ s. IsBegunAnew order.entry.plan.now order.entry.work (map (seen_by P.seen) s.desks.items) s.begins) }
{
    let changes = order.plan.changes.as_slice();
    let wish = order.wish();
    let renewed = begin_desks(rt.alloc(), &wish, changes, make)?;
    opened.folder.put_aside(rt, opened.numbers.as_slice())?;
    begin_file(rt, order, opened, renewed, &[])
}

/// The same, as it is told.
fn told(course: Course) -> log_lines::Course {
    match course {
        Course::Straight => log_lines::Course::GoesOn,
        Course::Renewed { is_lost: false } => log_lines::Course::GoesOnRenewed,
        Course::Renewed { is_lost: true } => log_lines::Course::GoesOnWithoutLast,
        Course::Ended => log_lines::Course::EndsSubscriptions,
    }
}

/// A service without a journal, which begins with new desks.
fn begin_without<P, M>(
    alloc: Global,
    plan: &Plan,
    local: Addr,
    make: &M,
) -> Result<Started<P>, ServeError>
where
    P: Package,
    M: Fn(Wanted) -> Result<P, NoMemory>,
    requires callable { M.IsAlwaysCallable make.now }
    requires gives { Gives P.seen (M.post make.now) }
    requires some { 0 < plan.now.workers }
    requires few { plan.now.workers ≤ 256 }
    ensures anew { IfOk result (λ s. BeginsAnew P.seen plan.now local s.desks.items s.begins s.changes) }
    ensures refused { IfErr result IsOther }
{
    let setup = local_setup(plan, local);
    let boxes = all_told(
        alloc,
        plan.mailboxes.as_slice(),
        plan.workers,
        plan.changes.as_slice(),
        plan.choices.no_refer,
        make,
    )?;
    Ok(Started {
        desks: open_desks(alloc, &setup, boxes)?,
        begins: Begins::anew(alloc),
        changes: None,
        journal: None,
    })
}

/// A service with a journal in this folder, which goes on from what was found there, if something was.
fn start_there<R, P, M>(
    rt: &R,
    plan: &Plan,
    local: Addr,
    opened: &mut Opened,
    make: &M,
) -> Result<Started<P>, Halt>
where
    R: Clock + Files<File = File> + Eprint + AllocGlobal,
    P: Package,
    M: Fn(Wanted) -> Result<P, NoMemory>,
    requires callable { M.IsAlwaysCallable make.now }
    requires gives { Gives P.seen (M.post make.now) }
    requires some { 0 < plan.now.workers }
    ensures { IfOk result (λ s. StartsThere plan.now local (map (seen_by P.seen) s.desks.items) s.begins) }
{
    let order = new_order(rt, plan, local)?;
    match opened.found.take() {
        Some(found) => go_on(rt, order, opened, found, make),
        None => begin_anew(rt, order, opened, make),
    }
}

/// A service with a journal in this folder. Where what was found there is of no service like this one, it is put aside, and the service begins anew.
fn start_with<R, P, M>(
    rt: &R,
    plan: &Plan,
    local: Addr,
    opened: &mut Opened,
    make: &M,
) -> Result<Started<P>, ServeError>
where
    R: Clock + Files<File = File> + Eprint + AllocGlobal,
    P: Package,
    M: Fn(Wanted) -> Result<P, NoMemory>,
    requires callable { M.IsAlwaysCallable make.now }
    requires gives { Gives P.seen (M.post make.now) }
    requires some { 0 < plan.now.workers }
    ensures there { IfOk result (λ s. StartsThere plan.now local (map (seen_by P.seen) s.desks.items) s.begins) }
    ensures refused { IfErr result IsOther }
{
    let is_json = plan.choices.log_json;
    if opened.found.is_none() && !opened.numbers.is_empty() {
        let path = &opened.folder.path;
        say_journal(rt, is_json, path, log_lines::Course::Unreadable);
    }
    match start_there(rt, plan, local, opened, make) {
        Err(Halt::Unfit) => {
            let path = &opened.folder.path;
            say_journal(rt, is_json, path, log_lines::Course::Unfit);
            let order = new_order(rt, plan, local)?;
            Ok(begin_anew(rt, order, opened, make)?)
        }
        came => Ok(came?),
    }
}

/// What a service begins with that is planned so: without a journal new desks, and with one where it stood.
fn begin_as_planned<R, P, M>(
    rt: &R,
    plan: &Plan,
    local: Addr,
    opened: &mut Option<Opened>,
    make: &M,
) -> Result<Started<P>, ServeError>
where
    R: Clock + Files<File = File> + Eprint + AllocGlobal,
    P: Package,
    M: Fn(Wanted) -> Result<P, NoMemory>,
    requires callable { M.IsAlwaysCallable make.now }
    requires gives { Gives P.seen (M.post make.now) }
    requires some { 0 < plan.now.workers }
    requires few { plan.now.workers ≤ 256 }
    ensures anew { IfOk result (λ s. plan.now.journal ≡ None → BeginsAnew P.seen plan.now local s.desks.items s.begins s.changes) }
    ensures starts { IfOk result (λ s. StartsThere plan.now local (map (seen_by P.seen) s.desks.items) s.begins
        ⊎ BeginsAnew P.seen plan.now local s.desks.items s.begins s.changes) }
    ensures refused { IfErr result IsOther }
{
    match (&plan.journal, opened) {
        (Some(_), Some(opened)) => start_with(rt, plan, local, opened, make),
        _ => begin_without(rt.alloc(), plan, local, make),
    }
}

/// What a service begins with that is planned so and hears SIP here.
pub(crate) fn start<R, P, M>(
    rt: &R,
    plan: &Plan,
    local: Addr,
    opened: &mut Option<Opened>,
    make: &M,
) -> Result<Started<P>, ServeError>
where
    R: Clock + Files<File = File> + Eprint + AllocGlobal,
    P: Package,
    M: Fn(Wanted) -> Result<P, NoMemory>,
    requires callable { M.IsAlwaysCallable make.now }
    requires gives { Gives P.seen (M.post make.now) }
    requires some { 0 < plan.now.workers }
    requires few { plan.now.workers ≤ 256 }
    ensures workers { IfOk result (λ s. vec_len s.desks ≡ plan.now.workers) }
    ensures anew { IfOk result (λ s. plan.now.journal ≡ None → BeginsAnew P.seen plan.now local s.desks.items s.begins s.changes) }
    ensures starts { IfOk result (λ s. StartsThere plan.now local (map (seen_by P.seen) s.desks.items) s.begins
        ⊎ BeginsAnew P.seen plan.now local s.desks.items s.begins s.changes) }
    ensures refused { IfErr result IsOther }
{
    let started = begin_as_planned(rt, plan, local, opened, make)?;
    // Another number of desks is in no journal that such a service wrote.
    if started.desks.len() == plan.workers as usize {
        Ok(started)
    } else {
        Err(ServeError::System)
    }
}
