//! What a service says on standard error: a line as it begins, a warning where others may reach the control address, and a line as it
//! ends. Where nobody reads them within a second they are dropped, and it goes on.

use arguments::AddressFlag;
use log_lines::{Beginning, Count, Course, Ending, Form, Record, tell};
use service::{Shared, has_room_soon};
use sip_text::{Addr, NoMemory, Text};
use std::alloc::Global;
use std::rt::Clock;

/// Whether only this machine reaches the address.
fn is_loopback(addr: Addr) -> bool {
    addr.ip[0] == 127
}

/// Writes a line now, as a JSON object or plainly, where there is room within a second.
fn say<R: Clock + Eprint + AllocGlobal>(rt: &R, is_json: bool, record: &Record<'_>) {
    if has_room_soon() {
        tell(rt, rt.alloc(), Form::now(rt, is_json), record);
    }
}

/// Says where the service is, with so many workers and mailboxes.
pub(crate) fn say_hello<R: Clock + Eprint + AllocGlobal>(
    rt: &R,
    is_json: bool,
    (address, control): (Addr, Addr),
    workers: u32,
    mailboxes: usize,
) {
    let beginning = Beginning::Listening {
        address,
        control,
        workers: u64::from(workers),
        mailboxes: mailboxes as u64,
    };
    say(rt, is_json, &Record::Beginning(beginning));
}

/// Warns of a control address that other machines may reach, where their lines are heard.
pub(crate) fn warn_of_control<R: Clock + Eprint + AllocGlobal>(
    rt: &R,
    is_json: bool,
    control: Addr,
) {
    if !is_loopback(control) {
        let beginning = Beginning::ControlReachable { control };
        say(rt, is_json, &Record::Beginning(beginning));
    }
}

/// Says where the system gives less room for datagrams that wait than was asked for.
pub(crate) fn say_room<R: Clock + Eprint + AllocGlobal>(
    rt: &R,
    is_json: bool,
    which: AddressFlag,
    asked: u32,
    got: u32,
) {
    if got < asked {
        let beginning = Beginning::SmallBuffer {
            option: which.text(),
            octets: u64::from(got),
            asked: u64::from(asked),
        };
        say(rt, is_json, &Record::Beginning(beginning));
    }
}

/// Says how it stands with the journal in this folder.
pub(crate) fn say_journal<R: Clock + Eprint + AllocGlobal>(
    rt: &R,
    is_json: bool,
    folder: &Text,
    course: Course,
) {
    let beginning = Beginning::Journal {
        folder: folder.as_str(),
        course,
    };
    say(rt, is_json, &Record::Beginning(beginning));
}

/// Says which worker ran out of memory, where one did.
pub(crate) fn say_spent_worker<R: Eprint>(rt: &R, shared: &Shared) {
    let Some(worker) = shared.spent_worker() else {
        return;
    };
    if has_room_soon() {
        let ending = Ending::OutOfMemory {
            worker: u64::from(worker),
        };
        shared.tell(rt, &Record::Ending(ending));
    }
}

/// What lines of STATUS count, each by its name. One of several numbers is left out: each of them has a line of its own too.
fn counts(alloc: Global, lines: &str) -> Result<Vec<Count<'_>>, NoMemory> {
    let mut counts = Vec::new(alloc);
    for line in lines.lines() {
        if let Some((name, number)) = line.split_once(' ') {
            if let Ok(count) = number.parse::<u64>() {
                counts.push(Count { name, count })?;
            }
        }
    }
    Ok(counts)
}

/// Says what the service counted.
pub(crate) fn say_goodbye<R: Eprint + Clock + AllocGlobal>(
    rt: &R,
    shared: &Shared,
) -> Result<(), NoMemory> {
    let seconds = shared.seconds(rt).unwrap_or(0);
    let lines = shared.lines(rt.alloc(), seconds)?;
    let line = lines.trim_end().replace(rt.alloc(), "\n", ", ")?;
    let counters = counts(rt.alloc(), lines.as_str())?;
    if has_room_soon() {
        let ending = Ending::Ended {
            text: line.as_str(),
            counters: counters.as_slice(),
        };
        shared.tell(rt, &Record::Ending(ending));
    }
    Ok(())
}

/// Says why no service runs, or has ended, with this exit status.
pub(crate) fn say_why<R: Clock + Eprint + AllocGlobal>(
    rt: &R,
    is_json: bool,
    status: u8,
    text: &str,
) {
    let ending = Ending::Refused {
        status: u64::from(status),
        text,
    };
    say(rt, is_json, &Record::Ending(ending));
}
