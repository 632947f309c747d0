//! What a package leaves where its desk is dropped.
//!
//! Each script of `data` that is named here is played on a desk with one package, and the desk is dropped. A line tells how many
//! outs each event gave, and what the package left in its cell.

use crate::desks::heard;
use arguments::loopback_setup;
use message_summary::Mailboxes;
use notifier::{Desk, Event};
use package::{ClosingCell, Package};
use refer::Transfers;
use sip_text::NoMemory;
use std::alloc::{AllocError, Global};
use std::rt::Files;
use std::sync::Arc;
use std::{fs, io};

/// What is left of a desk that was dropped.
#[derive(Drop)]
struct Left {
    /// How many outs each event gave.
    outs: Vec<usize>,
    /// Where its package left its Closing.
    cell: Arc<ClosingCell>,
}

/// How many outs a desk with this package alone gives to each event. The desk is dropped.
fn outs_to_each<P: Package>(
    alloc: Global,
    package: P,
    events: &[Event],
) -> Result<Vec<usize>, NoMemory> {
    let mut boxes = Vec::new(alloc);
    boxes.push(package)?;
    let mut desk = Desk::new(alloc, &loopback_setup(5060, [0; 32], false), 0, boxes)?;
    let mut outs = Vec::new(alloc);
    for event in events {
        let Ok(given) = desk.handle(alloc, event) else {
            return Err(NoMemory);
        };
        outs.push(given.len())?;
    }
    Ok(outs)
}

/// What is left of a desk with alice's mailbox.
fn left_by_mail(alloc: Global, script: &[u8]) -> Result<Left, NoMemory> {
    let events = heard(alloc, script)?;
    let cell = ClosingCell::new(alloc)?;
    let mut names = Vec::new(alloc);
    names.push(String::from_str(alloc, "alice")?)?;
    let mailboxes = Mailboxes::new(alloc, names, Arc::try_clone(&cell)?)?;
    let outs = outs_to_each(alloc, mailboxes, events.as_slice())?;
    Ok(Left { outs, cell })
}

/// What is left of a desk with transfers.
fn left_by_transfers(alloc: Global, script: &[u8]) -> Result<Left, NoMemory> {
    let events = heard(alloc, script)?;
    let cell = ClosingCell::new(alloc)?;
    let transfers = Transfers::new(alloc, Arc::try_clone(&cell)?)?;
    let outs = outs_to_each(alloc, transfers, events.as_slice())?;
    Ok(Left { outs, cell })
}

/// Tells what is left.
fn tell(rt: &impl Print, name: &str, left: Result<Left, NoMemory>) -> io::Result<()> {
    let Ok(left) = left else {
        return Err(io::Error::from(AllocError));
    };
    print!(rt; "{name}: outs")?;
    for count in left.outs.as_slice() {
        print!(rt; " {count}")?;
    }
    match left.cell.get() {
        Some(closing) => {
            let event = closing.event.as_str();
            println!(rt;
                "; {event}: {} resources, {} changes",
                closing.resources, closing.changes
            )
        }
        None => println!(rt; "; nothing left"),
    }
}

/// Tells of each script.
pub(crate) fn tell_all(rt: &(impl Files + Print + AllocGlobal)) -> io::Result<()> {
    let mail = fs::read(rt, "mail_on_a_dropped_desk.script")?;
    tell(
        rt,
        "mail_on_a_dropped_desk",
        left_by_mail(rt.alloc(), mail.as_slice()),
    )?;
    let transfer = fs::read(rt, "a_transfer_on_a_dropped_desk.script")?;
    let left = left_by_transfers(rt.alloc(), transfer.as_slice());
    tell(rt, "a_transfer_on_a_dropped_desk", left)
}
