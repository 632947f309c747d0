//! The program over readers and writers that fail, by one worker and by several.
//!
//! The script of one datagram is cut at each byte, read by a reader that fails at each of its reads, and line feeds never end in its
//! place; its page is written by a writer that fails, or takes nothing, at each of its writes. For each of these a line says how many runs
//! ended in which way, and whether each wrote what it may: the page, a front of it, or nothing. The counts were worked out by
//! hand: the script has 308 bytes, and its page 791, or 811 with the line of a second worker.

ghost use Rattle.std.specs.Prelude.{◌≡◌, IfOk};
ghost use Rattle.arguments.specs.Wanted.{first_seen};

use crate::devices::{Drain, Drip, Fault};
use arguments::{ExitStatus, Wanted};
use message_summary::Mailboxes;
use package::{ClosingCell, Package};
use refer::Transfers;
use server::run;
use sip_text::{NoMemory, Text};
use std::alloc::Global;
use std::rt::Files;
use std::sync::Wait;
use std::thread::Threads;
use std::{fs, io};
use transport::{Sink, Source};

/// The words of a call.
pub(crate) fn words_of(alloc: Global, words: &[&str]) -> Result<Vec<Text>, NoMemory> {
    let mut texts = Vec::new(alloc);
    for word in words {
        texts.push(Text::of(alloc, word)?)?;
    }
    Ok(texts)
}

/// What is tried of a call, again and again: each turn has a number, from 0.
#[derive(Clone, Copy)]
pub(crate) enum Trial {
    /// So many bytes of the script are all there is of it.
    Cut,
    /// A byte a read, of which so many serve.
    Reads,
    /// A reader that never ends.
    Endless,
    /// Seven bytes a write, of which so many serve before this fault.
    Writes(Fault),
}

/// The trials, and how many turns each has: up to the whole script, and to the read or the write behind the last.
const TRIALS: [(&str, Trial, u32); 5] = [
    ("scripts cut at each byte", Trial::Cut, 309),
    ("reads that fail", Trial::Reads, 310),
    ("a reader that never ends", Trial::Endless, 1),
    ("writes that fail", Trial::Writes(Fault::Fails), 117),
    (
        "writes that take nothing",
        Trial::Writes(Fault::TakesNone),
        117,
    ),
];

/// The reader of a turn.
fn drip_of(trial: Trial, script: &[u8], turn: u32) -> Drip<'_> {
    let mut drip = Drip {
        rest: script,
        most: usize::MAX,
        left: u32::MAX,
        is_endless: false,
    };
    match trial {
        Trial::Cut => drip.rest = script.split_at(script.len().min(turn as usize)).0,
        Trial::Reads => {
            drip.most = 1;
            drip.left = turn;
        }
        Trial::Endless => {
            drip.rest = b"";
            drip.is_endless = true;
        }
        Trial::Writes(_) => {}
    }
    drip
}

/// The writer of a turn.
fn drain_of(alloc: Global, trial: Trial, turn: u32) -> Drain {
    let (most, left, fault) = match trial {
        Trial::Writes(fault) => (7, turn, fault),
        _ => (usize::MAX, u32::MAX, Fault::Fails),
    };
    Drain {
        taken: Vec::new(alloc),
        most,
        left,
        fault,
    }
}

/// How a turn ends, and the writer.
pub(crate) fn run_once<H>(
    rt: H,
    words: &[Text],
    script: &[u8],
    trial: Trial,
    turn: u32,
) -> (ExitStatus, Sink<Drain>)
where
    H: Threads + Wait + AllocGlobal + Copy + Send + 'static,
{
    let alloc = rt.alloc();
    let mut source = Source::new(drip_of(trial, script, turn));
    let mut sink = Sink::new(drain_of(alloc, trial, turn));
    let make = move |wanted: Wanted| -> Result<Box<dyn Package>, NoMemory>
        ensures { IfOk result (λ made. seen made ≡ first_seen wanted) }
    {
        let cell = ClosingCell::new(alloc)?;
        match wanted {
            Wanted::Mailboxes(names) => {
                Ok(Box::new(alloc, Mailboxes::new(alloc, names, cell)?)?)
            }
            Wanted::Transfers => Ok(Box::new(alloc, Transfers::new(alloc, cell)?)?),
        }
    };
    let status = run(rt, words, &mut source, &mut sink, &make);
    (status, sink)
}

/// Whether a turn wrote what it may, and told of no more and no fewer failures than one where a write had a fault.
fn is_right(trial: Trial, turn: u32, page: &[u8], status: ExitStatus, sink: &Sink<Drain>) -> bool {
    let taken = sink.writer().taken.as_slice();
    let is_done = status == ExitStatus::Done;
    match trial {
        Trial::Cut if turn == 0 => is_done && !taken.is_empty(),
        Trial::Writes(_) => {
            let length = page.len().min(7 * turn as usize);
            let is_told = is_done == (sink.failures() == 0) && sink.failures() <= 1;
            is_told && taken.len() == length && page.starts_with(taken)
        }
        _ if is_done => taken == page,
        _ => taken.is_empty(),
    }
}

/// A call of the program: its words and its script, and the page that is to come.
#[derive(Clone, Copy)]
struct Call<'a> {
    words: &'a [Text],
    script: &'a [u8],
    page: &'a [u8],
}

/// Tells how many turns of a trial ended in which way.
fn tell_trial<H>(rt: H, call: Call<'_>, title: &str, trial: Trial, turns: u32) -> io::Result<()>
where
    H: Threads + Wait + Print + AllocGlobal + Copy + Send + 'static,
{
    let (mut done, mut bad_scripts, mut faults, mut others, mut wrong) = (
        0u32, 0u32, 0u32, 0u32, 0u32,
    );
    for turn in 0..turns {
        let (status, sink) = run_once(rt, call.words, call.script, trial, turn);
        if !is_right(trial, turn, call.page, status, &sink) {
            wrong = wrong.saturating_add(1);
        }
        drop(sink);
        let count = match status {
            ExitStatus::Done => &mut done,
            ExitStatus::BadScript => &mut bad_scripts,
            ExitStatus::DeviceFault => &mut faults,
            _ => &mut others,
        };
        *count = count.saturating_add(1);
    }
    println!(rt;
        "{title}: {done} done, {bad_scripts} bad scripts, {faults} device faults, {others} others, {wrong} wrong"
    )
}

/// Tries a call with these words on this script.
fn tell_call<H>(rt: H, words: &[&str], script: &[u8]) -> io::Result<()>
where
    H: Threads + Wait + Print + AllocGlobal + Copy + Send + 'static,
{
    let Ok(words) = words_of(rt.alloc(), words) else {
        return println!(rt; "out of memory");
    };
    let (_, sink) = run_once(rt, words.as_slice(), script, Trial::Cut, u32::MAX);
    let call = Call {
        words: words.as_slice(),
        script,
        page: sink.writer().taken.as_slice(),
    };
    println!(rt; "a page of {} bytes", call.page.len())?;
    for (title, trial, turns) in TRIALS {
        tell_trial(rt, call, title, trial, turns)?;
    }
    Ok(())
}

/// Tells of the trials by one worker and by two.
pub(crate) fn tell_all<H>(rt: H) -> io::Result<()>
where
    H: Threads + Wait + Files + Print + AllocGlobal + Copy + Send + 'static,
{
    let script = fs::read(&rt, "one_subscription.script")?;
    println!(rt; "one worker")?;
    tell_call(rt, &["script", "1", "alice"], script.as_slice())?;
    println!(rt; "two workers")?;
    tell_call(rt, &["script", "2", "alice", "bob"], script.as_slice())
}
