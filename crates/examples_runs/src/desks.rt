//! Desks and replays that memory fails.
//!
//! Each script of `data` that is named here is played on a new desk and on a new replay. Where memory is short they say so once,
//! and are spent from then on.

use crate::pages::{mailbox_of_alice, new_transfers};
use crate::presence::Presence;
use arguments::loopback_setup;
use crew::Replay;
use notifier::{Desk, DeskError, Event, play};
use package::Package;
use scripts::{Block, parse_script};
use sip_read::{Message, read};
use sip_text::NoMemory;
use std::alloc::{AllocError, Global};
use std::rt::Files;
use std::{fs, io};

/// The scripts.
const SCRIPTS: [&str; 3] = [
    "mail_without_memory_spends_the_desk",
    "a_transfer_without_memory_spends_the_desk",
    "a_replay_without_memory_is_spent",
];

/// The event of a block. Each datagram here is read and each change is an event, so what is not is want of memory.
fn event_of(alloc: Global, block: Block) -> Result<Event, NoMemory> {
    match block {
        Block::Sip(addr, octets) => match read(alloc, octets.as_slice()) {
            Ok(Message::Request(request)) => Ok(Event::Request(addr, request)),
            Ok(Message::Response(response)) => Ok(Event::Reply(response)),
            Err(_) => Err(NoMemory),
        },
        Block::Change(change) => Event::of(change).ok_or(NoMemory),
        Block::Tick(time) => Ok(Event::Tick(time)),
    }
}

/// The events of a script. No script here is bad, so what is not read is want of memory.
pub(crate) fn heard(alloc: Global, script: &[u8]) -> Result<Vec<Event>, NoMemory> {
    let Ok(blocks) = parse_script(alloc, script) else {
        return Err(NoMemory);
    };
    let mut events = Vec::new(alloc);
    for block in blocks {
        events.push(event_of(alloc, block)?)?;
    }
    Ok(events)
}

/// Whether all events are handled, or the desk is spent by the first that memory was short for, and refuses each from then on.
fn handles<P: Package>(alloc: Global, desk: &mut Desk<P>, events: &[Event]) -> bool {
    for event in events {
        let was_spent = desk.is_spent();
        let is_right = match desk.handle(alloc, event).err() {
            None => !was_spent && !desk.is_spent(),
            Some(DeskError::NoMemory) => !was_spent && desk.is_spent(),
            Some(DeskError::Spent) => was_spent && desk.is_spent(),
        };
        if !is_right {
            return false;
        }
    }
    true
}

/// Whether a new desk handles these events as far as memory serves. Once it is spent it refuses all of them.
fn is_played(alloc: Global, events: &[Event]) -> Result<bool, NoMemory> {
    let mut boxes: Vec<Box<dyn Package>> = Vec::new(alloc);
    boxes.push(Box::new(alloc, mailbox_of_alice(alloc)?)?)?;
    boxes.push(Box::new(alloc, new_transfers(alloc)?)?)?;
    let mut desk = Desk::new(alloc, &loopback_setup(5060, [0; 32], false), 0, boxes)?;
    let is_handled = handles(alloc, &mut desk, events);
    Ok(is_handled && (!desk.is_spent() || handles(alloc, &mut desk, events)))
}

/// Whether a new replay of this desk answers NoMemory at the first refusal, of its desk or of its list, and Spent from then on.
fn is_spent_once<P: Package>(alloc: Global, desk: Desk<P>, events: Vec<Event>) -> bool {
    let mut replay = Replay::new(alloc, desk);
    let mut is_right = true;
    let mut is_spent = false;
    for event in events {
        let error = replay.handle(alloc, event).err();
        is_right = is_right && is_spent == (error == Some(DeskError::Spent));
        is_spent = error.is_some();
    }
    is_right
}

/// Whether a new replay is spent by the first refusal.
fn is_replayed(alloc: Global, events: Vec<Event>) -> Result<bool, NoMemory> {
    let mut boxes: Vec<Box<dyn Package>> = Vec::new(alloc);
    boxes.push(Box::new(alloc, mailbox_of_alice(alloc)?)?)?;
    boxes.push(Box::new(alloc, new_transfers(alloc)?)?)?;
    let desk = Desk::new(alloc, &loopback_setup(5060, [0; 32], false), 0, boxes)?;
    Ok(is_spent_once(alloc, desk, events))
}

/// Whether a desk with presence alone refuses the one request of these events, and tells nothing else.
fn is_refused(alloc: Global, events: &[Event]) -> Result<bool, NoMemory> {
    let mut boxes: Vec<Box<dyn Package>> = Vec::new(alloc);
    boxes.push(Box::new(alloc, Presence::new(alloc)?)?)?;
    let outs = play(
        alloc,
        &loopback_setup(5060, [0; 32], false),
        0,
        boxes,
        events,
    )?;
    Ok(outs.len() == 1)
}

/// Whether a script, and a planned stop behind it, goes as it should.
fn goes(alloc: Global, script: &[u8]) -> Result<bool, NoMemory> {
    let mut events = heard(alloc, script)?;
    events.push(Event::Shut)?;
    let is_refused = is_refused(alloc, events.as_slice());
    let is_played = is_played(alloc, events.as_slice());
    let is_replayed = is_replayed(alloc, events);
    Ok(is_refused? && is_played? && is_replayed?)
}

/// Tells of each script.
pub(crate) fn tell_all(rt: &(impl Files + Print + AllocGlobal)) -> io::Result<()> {
    for name in SCRIPTS {
        let script = fs::read(rt, format!(in rt.alloc(); "{name}.script")?)?;
        let outcome = match goes(rt.alloc(), script.as_slice()) {
            Ok(true) => "as it should",
            Ok(false) => "NOT AS IT SHOULD",
            Err(NoMemory) => return Err(io::Error::from(AllocError)),
        };
        println!(rt; "{name}: {outcome}")?;
    }
    Ok(())
}
