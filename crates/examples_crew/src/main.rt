//! Crews that run, their queues, and what feeds and empties them over wires: worked runs of threads, each of which ends by itself
//! and tells the same whatever the schedule, unless a wait gives up (`gates`).
//!
//! `examples_crew` runs each of [`RUNS`] some times and prints what came of it, and whether each run told the same. `examples_crew NAME
//! TIMES` runs one of them so many times, and `examples_crew queues EVENTS CAPACITY..` prints, for each capacity, the time that an
//! event takes through both queues (`bench/queues` at the top of the repository runs it beside plain Rust over
//! `sync_channel`s). The stored output was worked out by hand from the rules.
//!
//! There is nothing here that others build on. Begin with `scenes`, crews by a table, then `running`, which starts a crew, takes
//! what it posts, and joins it; `feeding` feeds each of its ports from a thread of its own. The `trials` are starts that are
//! refused, a crew that stops and another that starts anew, and a crew to which allocations are refused. `handed` gives its ports to
//! `join`. `over_wires` feeds a crew from wires in memory and from sockets. `desks` needs no crew, and `queues` is of the queues alone.
#![tactic(auto)]

mod boxes;
mod desks;
mod error;
mod events;
mod feeding;
mod gates;
mod gathering;
mod handed;
mod names;
mod over_wires;
mod page;
mod queue_runs;
mod running;
mod scenes;
mod trials;
mod vectors;

use crate::desks::shared_desks;
use crate::error::RunError;
use crate::handed::handed_ports;
use crate::over_wires::{
    SECOND_SEND_FAILS, TRANSFERS_START, WRITER_FAILS, emit_items, feed_two, loopback,
};
use crate::page::Page;
use crate::queue_runs::measuring::measure;
use crate::queue_runs::queues;
use crate::scenes::{SCENES, play_scene};
use crate::trials::{refused_growths, refused_starts, restart};
use std::alloc::{Allocator, Global};
use std::env;
use std::net::Net;
use std::rt::{Clock, Runtime};
use std::sync::Wait;
use std::thread::Threads;

/// The runs, each with how many times it is run where all are.
const RUNS: [(&str, u32); 24] = [
    ("two_workers", 3),
    ("handed_ports", 3),
    ("mail_through_one_place", 3),
    ("many_mails", 1),
    ("time_for_all", 3),
    ("planned_stop", 3),
    ("refused_change", 3),
    ("workers_meet", 3),
    ("boxes_meet", 3),
    ("dropped_ports", 3),
    ("dropped_after_ten", 3),
    ("closed_port", 3),
    ("closings", 3),
    ("refused_starts", 3),
    ("shared_desks", 3),
    ("restart", 3),
    ("refused_growths", 3),
    (QUEUES, 1),
    ("a message and no message", 3),
    ("the second receive fails", 3),
    ("the second send fails", 1),
    ("transfers start", 1),
    ("the writer fails", 1),
    ("loopback", 3),
];

/// The run that takes events and capacities, where some are given, and measures then.
const QUEUES: &str = "queues";

/// Runs what is no scene once.
fn run_other<R>(rt: R, alloc: Global, name: &str, page: &mut Page) -> Result<(), RunError>
where
    R: Threads + Wait + Net + Clock + Copy + Send + Sync + 'static,
{
    match name {
        "handed_ports" => handed_ports(rt, alloc, page),
        "refused_starts" => refused_starts(rt, alloc, page),
        "shared_desks" => shared_desks(rt, alloc, page),
        "restart" => restart(rt, alloc, page),
        "refused_growths" => refused_growths(rt, alloc, page),
        QUEUES => Ok(queues(&rt, alloc, page)),
        "a message and no message" => feed_two(rt, alloc, false, page),
        "the second receive fails" => feed_two(rt, alloc, true, page),
        "the second send fails" => emit_items(&rt, alloc, SECOND_SEND_FAILS, page),
        "transfers start" => emit_items(&rt, alloc, TRANSFERS_START, page),
        "the writer fails" => emit_items(&rt, alloc, WRITER_FAILS, page),
        "loopback" => loopback(rt, alloc, page),
        _ => Err(RunError::NoRun),
    }
}

/// Runs one of the runs once.
fn run_once<R>(rt: R, alloc: Global, name: &str, page: &mut Page) -> Result<(), RunError>
where
    R: Threads + Wait + Net + Clock + Copy + Send + Sync + 'static,
{
    for scene in SCENES.iter() {
        if scene.name == name {
            return play_scene(rt, alloc, scene, page);
        }
    }
    run_other(rt, alloc, name, page)
}

/// How many of the further runs tell something else than this.
fn unlike<R>(rt: R, alloc: Global, name: &str, times: u32, text: &str) -> Result<u32, RunError>
where
    R: Threads + Wait + Net + Clock + Copy + Send + Sync + 'static,
{
    let mut others = 0u32;
    for _ in 1..times {
        let mut page = Page::new(alloc);
        run_once(rt, alloc, name, &mut page)?;
        if page.text()? != text {
            others = others.saturating_add(1);
        }
    }
    Ok(others)
}

/// Runs one of the runs so many times, and prints what came of it.
fn show<R>(rt: R, alloc: Global, name: &str, times: u32) -> Result<(), RunError>
where
    R: Threads + Wait + Net + Clock + Print + Copy + Send + Sync + 'static,
{
    let mut page = Page::new(alloc);
    run_once(rt, alloc, name, &mut page)?;
    let text = page.text()?;
    let others = unlike(rt, alloc, name, times, text)?;
    print!(rt; "{name}\n{text}")?;
    if others > 0 {
        println!(rt; "{others} runs told something else")?;
    }
    Ok(())
}

/// Runs all of them.
fn show_all<R>(rt: R, alloc: Global) -> Result<(), RunError>
where
    R: Threads + Wait + Net + Clock + Print + Copy + Send + Sync + 'static,
{
    for (name, times) in RUNS {
        show(rt, alloc, name, times)?;
    }
    Ok(())
}

/// The number that a word is.
fn number_in<A: Allocator>(word: String<A>) -> Option<u32> {
    word.parse::<u32>().ok()
}

/// The numbers among the words that the program was given.
fn numbers_of<R: Runtime>(rt: &R) -> Result<Vec<u32, R::A>, RunError> {
    let mut numbers = Vec::new(rt.alloc());
    for word in env::args(rt)? {
        if let Some(number) = number_in(word) {
            numbers.push(number)?;
        }
    }
    Ok(numbers)
}

/// Runs what was asked for by name, with these numbers.
fn show_asked<R>(rt: R, alloc: Global, name: &str, numbers: &[u32]) -> Result<(), RunError>
where
    R: Runtime + Threads + Wait + Net + Copy + Send + Sync + 'static,
{
    match numbers.first() {
        Some(_) if name == QUEUES => Ok(measure(&rt, alloc, numbers)?),
        times => show(rt, alloc, name, times.copied().unwrap_or(1)),
    }
}

fn main(rt: HostRuntime) -> Result<(), RunError> {
    let alloc = rt.alloc();
    let name = env::args(&rt)?.nth(1);
    match name {
        Some(name) => show_asked(rt, alloc, name.as_str(), numbers_of(&rt)?.as_slice()),
        None => show_all(rt, alloc),
    }
}
