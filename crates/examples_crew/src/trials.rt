//! Trials of crews in more than one run: starts that are refused, a stop and a start anew, and allocations that are refused.

use crate::boxes::{Manner, Props};
use crate::error::RunError;
use crate::feeding::Step;
use crate::gathering::Gathered;
use crate::names::Names;
use crate::page::Page;
use crate::running::{Came, Plan};
use crate::scenes::{BOB, ONE, STOP, Scene, TWO, Tells, perform};
use crew::{End, Report, StartError};
use package::ClosingCell;
use std::alloc::Global;
use std::rt::Clock;
use std::sync::Wait;
use std::thread::Threads;

/// A port, and no worker.
const NO_WORKERS: Scene = Scene {
    name: "no workers",
    plan: Plan::USUAL,
    holds_worker: false,
    roles: &[],
    feeds: &[&[]],
    tells: Tells::Workers,
};

/// A worker, and no port.
const NO_PORTS: Scene = Scene {
    name: "no ports",
    plan: Plan::USUAL,
    holds_worker: false,
    roles: ONE,
    feeds: &[],
    tells: Tells::Workers,
};

/// Bob subscribes at a crew of two workers, which stops as planned.
const BEFORE: Scene = Scene {
    name: "before",
    plan: STOP,
    holds_worker: false,
    roles: TWO,
    feeds: &[&[Step::Subscribe("bob", "c3"), Step::Close]],
    tells: Tells::Workers,
};

/// At a crew of one worker his phone first asks in the old dialog, and then subscribes anew.
const AFTER: Scene = Scene {
    name: "after",
    plan: Plan::USUAL,
    holds_worker: false,
    roles: &[(BOB, Manner::Plain)],
    feeds: &[&[
        Step::GoOn("bob", "c3"),
        Step::Subscribe("bob", "c4"),
        Step::Close,
    ]],
    tells: Tells::Workers,
};

/// Alice subscribes, and two messages come.
const THREE_EVENTS: Scene = Scene {
    name: "three events",
    plan: Plan::USUAL,
    holds_worker: false,
    roles: ONE,
    feeds: &[&[
        Step::Subscribe("alice", "c1"),
        Step::Rounds(Names::One("alice"), 2, 3),
        Step::Fax("alice"),
        Step::Close,
    ]],
    tells: Tells::Workers,
};

/// Whether the start of this crew is refused for this cause.
fn is_refused<R>(
    rt: R,
    alloc: Global,
    scene: &Scene,
    props: &Props,
    cause: StartError,
) -> Result<bool, RunError>
where
    R: Threads + Wait + Clock + Copy + Send + 'static,
{
    let mut gathered = Gathered::nothing(alloc, 0, false)?;
    match perform(rt, alloc, scene, props, "", &mut gathered) {
        Ok(_) => Ok(false),
        Err(RunError::Start(error)) => Ok(error == cause),
        Err(error) => Err(error),
    }
}

/// A start with no workers, and one with no ports, which drops the boxes.
pub(crate) fn refused_starts<R>(rt: R, alloc: Global, page: &mut Page) -> Result<(), RunError>
where
    R: Threads + Wait + Clock + Copy + Send + 'static,
{
    let props = Props::new(alloc, false)?;
    let no_workers = is_refused(rt, alloc, &NO_WORKERS, &props, StartError::NoWorkers)?;
    let no_ports = is_refused(rt, alloc, &NO_PORTS, &props, StartError::NoPorts)?;
    page.judge("no workers: ", no_workers);
    page.judge(", no ports: ", no_ports);
    page.judge(", boxes dropped: ", props.mail.get().is_some());
    page.say("\n");
    Ok(())
}

/// Runs a crew whose phones know this tag, and tells its outs in lines.
fn show_lines<R>(
    rt: R,
    alloc: Global,
    scene: &Scene,
    tag: &str,
    page: &mut Page,
) -> Result<Gathered, RunError>
where
    R: Threads + Wait + Clock + Copy + Send + 'static,
{
    let props = Props::new(alloc, false)?;
    let mut gathered = Gathered::nothing(alloc, 0, true)?;
    perform(rt, alloc, scene, &props, tag, &mut gathered)?;
    page.say(gathered.lines.text()?);
    Ok(gathered)
}

/// A planned stop of a crew of two workers, and a crew of one worker after it.
pub(crate) fn restart<R>(rt: R, alloc: Global, page: &mut Page) -> Result<(), RunError>
where
    R: Threads + Wait + Clock + Copy + Send + 'static,
{
    let before = show_lines(rt, alloc, &BEFORE, "", page)?;
    page.say("with one worker\n");
    show_lines(rt, alloc, &AFTER, before.tag.text()?, page)?;
    Ok(())
}

/// How often a package of this name with so many resources changed; nothing where it left another Closing, or none.
fn changes_of(cell: &ClosingCell, event: &str, resources: u64) -> Option<u64> {
    let closing = cell.get()?;
    if closing.event.as_str() == event && closing.resources == resources {
        Some(closing.changes)
    } else {
        None
    }
}

/// How often the mailboxes changed, where both packages left their Closings and the transfers never changed.
fn changes_left(props: &Props) -> Option<u64> {
    let changes = changes_of(&props.mail, "message-summary", 1)?;
    let transfers = props.transfers.as_ref()?;
    if changes_of(transfers, "refer", 0)? == 0 {
        Some(changes)
    } else {
        None
    }
}

/// Of how many of the three events these lines tell the outs, if they are those of the first of them and no others.
fn events_of(lines: &str) -> Option<u64> {
    match lines {
        "" => Some(0),
        "answer 200 OK\nNOTIFY 1 active;expires=3600\n" => Some(1),
        "answer 200 OK\nNOTIFY 1 active;expires=3600\nNOTIFY 2 active;expires=3600\n" => Some(2),
        "answer 200 OK\nNOTIFY 1 active;expires=3600\nNOTIFY 2 active;expires=3600\n\
NOTIFY 3 active;expires=3600\n" => Some(3),
        _ => None,
    }
}

/// How the first worker ended.
fn first_end(report: &Report) -> Option<End> {
    let worker = report.workers.first()?;
    Some(worker.end)
}

/// Whether a worker did as it should, whatever was refused to it: where memory ran out there are the outs of the events
/// before alone.
fn is_right_end(end: Option<End>, came: Option<u64>, changes: u64) -> bool {
    match end {
        Some(End::Closed) => came == Some(3) && changes == 2,
        Some(End::NoMemory(events)) => events < 3 && came == Some(events) && changes <= events,
        Some(End::Abandoned(_)) | None => false,
    }
}

/// Whether each event of the one port was made and sent.
fn is_fed(came: &Came) -> bool {
    let Some(fed) = came.fed.first() else {
        return false;
    };
    for refused in fed.refused.iter() {
        if *refused > 0 {
            return false;
        }
    }
    true
}

/// Runs the three events through a crew of one worker with these props, and tells whether all is as it should be. Where an event
/// can't be made, memory is wanting outside the crew.
fn is_right<R>(rt: R, alloc: Global, props: &Props) -> Result<bool, RunError>
where
    R: Threads + Wait + Clock + Copy + Send + 'static,
{
    let mut gathered = Gathered::nothing(alloc, 0, true)?;
    match perform(rt, alloc, &THREE_EVENTS, props, "", &mut gathered) {
        Ok(came) => {
            if !is_fed(&came) {
                return Err(RunError::Memory);
            }
            let events = events_of(gathered.lines.text()?);
            match changes_left(props) {
                Some(changes) => Ok(is_right_end(first_end(&came.report), events, changes)),
                None => Ok(false),
            }
        }
        Err(RunError::Start(StartError::NoMemory | StartError::NoThread)) => {
            Ok(changes_left(props) == Some(0))
        }
        Err(RunError::Start(_)) => Ok(false),
        Err(error) => Err(error),
    }
}

/// Alice subscribes and two messages come to a crew of one worker. It tells the same whichever allocation of the crew is
/// refused, which the toolchain's command for running programs can ask for: both packages leave their Closings, and the
/// worker ends as it should, or the start is refused for want of memory or of a thread.
pub(crate) fn refused_growths<R>(rt: R, alloc: Global, page: &mut Page) -> Result<(), RunError>
where
    R: Threads + Wait + Clock + Copy + Send + 'static,
{
    let mut props = Props::new(alloc, false)?;
    props.transfers = Some(ClosingCell::new(alloc)?);
    page.say(if is_right(rt, alloc, &props)? {
        "as it should be\n"
    } else {
        "NOT AS IT SHOULD BE\n"
    });
    Ok(())
}
