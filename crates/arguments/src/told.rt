//! The packages that workers start from: mailboxes, which a service tells of changes before, and transfers, unless they are left out.
ghost use Rattle.std.specs.Prelude.{◌≡◌, ◌<◌, map, string_bytes, IfOk, OnOk};
ghost use Rattle.arguments.specs.Setup as setup;
ghost use Rattle.arguments.specs.Told as spec;
ghost use Rattle.arguments.specs.Wanted.{Gives};

use crate::setup::dealt_names;
use crate::wanted::Wanted;
use package::{Change, Package};
use sip_text::{NoMemory, Text};
use std::alloc::Global;

/// Tells mailboxes of changes, one behind the other.
fn tell<P: Package>(alloc: Global, mailboxes: &mut P, changes: &[Change]) -> Result<(), NoMemory>
    ensures { OnOk result (P.seen mailboxes.new ≡ spec.told changes.now (P.seen mailboxes.old)) }
{
    for change in changes {
        mailboxes.change(alloc, change)?;
    }
    Ok(())
}

/// The packages of a worker with these mailboxes, which were told of these changes, and with transfers that were told of those steps, unless
/// they are left out. Each is as `make` gives it.
pub fn boxes_left<P, F>(
    alloc: Global,
    names: Vec<String>,
    changes: (&[Change], &[Change]),
    no_refer: bool,
    make: &F,
) -> Result<Vec<P>, NoMemory>
where
    P: Package,
    F: Fn(Wanted) -> Result<P, NoMemory>,
    requires callable { F.IsAlwaysCallable make.now }
    requires gives { Gives P.seen (F.post make.now) }
    ensures { IfOk result (λ boxes. map P.seen boxes.items
        ≡ spec.boxes_left no_refer changes.entry.0.now changes.entry.1.now (map string_bytes names.items)) }
{
    let (mails, steps) = changes;
    let mut mailboxes = make(Wanted::Mailboxes(names))?;
    tell(alloc, &mut mailboxes, mails)?;
    let mut boxes = Vec::new(alloc);
    boxes.push(mailboxes)?;
    if no_refer {
        return Ok(boxes);
    }
    let mut transfers = make(Wanted::Transfers)?;
    tell(alloc, &mut transfers, steps)?;
    boxes.push(transfers)?;
    Ok(boxes)
}

/// The packages of a worker of a service with these mailboxes, each as `make` gives it.
fn boxes_told<P, F>(
    alloc: Global,
    names: Vec<String>,
    changes: &[Change],
    no_refer: bool,
    make: &F,
) -> Result<Vec<P>, NoMemory>
where
    P: Package,
    F: Fn(Wanted) -> Result<P, NoMemory>,
    requires callable { F.IsAlwaysCallable make.now }
    requires gives { Gives P.seen (F.post make.now) }
    ensures { IfOk result (λ boxes. map P.seen boxes.items
        ≡ spec.boxes_told no_refer changes.now (map string_bytes names.items)) }
{
    boxes_left(alloc, names, (changes, &[]), no_refer, make)
}

/// The packages of each worker of a service, among whom the mailboxes are dealt out, each as `make` gives it. The mailboxes were
/// told of these changes, one behind the other; a change of any other is dropped. Where `refer` is left out, no worker has that
/// package.
pub fn all_told<P, F>(
    alloc: Global,
    mailboxes: &[Text],
    workers: u32,
    changes: &[Change],
    no_refer: bool,
    make: &F,
) -> Result<Vec<Vec<P>>, NoMemory>
where
    P: Package,
    F: Fn(Wanted) -> Result<P, NoMemory>,
    requires some { 0 < workers }
    requires callable { F.IsAlwaysCallable make.now }
    requires gives { Gives P.seen (F.post make.now) }
    ensures { IfOk result (λ all. map (λ boxes. map P.seen boxes.items) all.items
        ≡ spec.all_told workers no_refer changes.now mailboxes.now) }
{
    let mut all = Vec::new(alloc);
    for worker in 0..workers {
        let names = dealt_names(alloc, mailboxes, workers, worker)?;
        all.push(boxes_told(alloc, names, changes, no_refer, make)?)?;
    }
    Ok(all)
}

/// The packages of a worker with these mailboxes, each as `make` gives it.
pub fn made_boxes<P, F>(alloc: Global, names: Vec<String>, make: &F) -> Result<Vec<P>, NoMemory>
where
    P: Package,
    F: Fn(Wanted) -> Result<P, NoMemory>,
    requires callable { F.IsAlwaysCallable make.now }
    requires gives { Gives P.seen (F.post make.now) }
    ensures { IfOk result (λ boxes. map P.seen boxes.items ≡ setup.made_boxes (map string_bytes names.items)) }
{
    boxes_told(alloc, names, &[], false, make)
}

/// The packages of each worker, among whom the mailboxes are dealt out, each as `make` gives it.
pub fn dealt_boxes<P, F>(
    alloc: Global,
    mailboxes: &[Text],
    workers: u32,
    make: &F,
) -> Result<Vec<Vec<P>>, NoMemory>
where
    P: Package,
    F: Fn(Wanted) -> Result<P, NoMemory>,
    requires some { 0 < workers }
    requires callable { F.IsAlwaysCallable make.now }
    requires gives { Gives P.seen (F.post make.now) }
    ensures { IfOk result (λ all.
        map (λ boxes. map P.seen boxes.items) all.items ≡ setup.dealt_boxes workers mailboxes.now) }
{
    all_told(alloc, mailboxes, workers, &[], false, make)
}
