//! What a worker does with the events of a script.
ghost use Rattle.std.specs.Prelude.{◌++◌, IfOk};
ghost use Rattle.notifier_model.specs.Home.{at_the_stop};
ghost use Rattle.crew.specs.Ready.{start_of};
ghost use Rattle.server.specs.Working.{IsWork};

use notifier::{Event, Out, Setup, play};
use package::Package;
use sip_text::NoMemory;
use std::alloc::Global;

/// What a worker did with the events of a script.
#[derive(Drop)]
pub struct Work {
    /// The worker's number.
    pub number: u32,
    /// How many events it handled.
    pub handled: u64,
    /// All that it sent.
    pub outs: Vec<Out>,
}

/// Has one worker with these boxes handle the events, on this thread, and the stop where one is planned.
pub fn work_alone<P: Package>(
    alloc: Global,
    setup: &Setup,
    boxes: Vec<P>,
    mut events: Vec<Event>,
) -> Result<Work, NoMemory>
    ensures { IfOk result
        (IsWork (start_of P.seen setup.now 0 boxes.items) (events.items ++ at_the_stop setup.now.stop)) }
{
    if setup.stop {
        events.push(Event::Shut)?;
    }
    let outs = play(alloc, setup, 0, boxes, events.as_slice())?;
    Ok(Work {
        number: 0,
        handled: events.len() as u64,
        outs,
    })
}
