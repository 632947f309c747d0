//! Whole runs of one desk.
#![tactic(auto, unfolding(notifier_model::specs::Run::run, notifier_model::specs::Run::made))]

ghost use Rattle.std.specs.Prelude.{◌≡◌, map, IfOk, OnOk, Some};
ghost use Rattle.notifier_model.specs.Out.{out_of};
ghost use Rattle.notifier_model.specs.Run.{made, made_from, run_from};
ghost use Rattle.notifier.specs.Held.{seen_by};
ghost use Rattle.notifier.specs.Standing.{Standing};
ghost use Rattle.notifier_model.specs.Saved.{book_with};
ghost use Rattle.notifier_model.specs.Start.{place_of};

use crate::desk::Desk;
use crate::resume::ResumeError;
use notifier_model::event::{Event, Out};
use notifier_model::place::Setup;
use notifier_model::saved::Saved;
use package::Package;
use sip_text::NoMemory;
use std::alloc::Global;

/// Handles these events, one by one, and gathers what they send.
pub fn handle_all<P: Package>(
    alloc: Global,
    desk: &mut Desk<P>,
    events: &[Event],
) -> Result<Vec<Out>, NoMemory>
    ensures stands { OnOk result ((s : Standing) → seen_by P.seen desk.old ≡ Some s → seen_by P.seen desk.new
        ≡ Some (record { place = s.place; book = run_from s.place s.book events.now })) }
    ensures outs { IfOk result (λ outs. (s : Standing) → seen_by P.seen desk.old ≡ Some s → outs.items
        ≡ map out_of (made_from s.place s.book events.now)) }
{
    let mut outs = Vec::new(alloc);
    for event in events {
        let Ok(mut told) = desk.handle(alloc, event) else {
            return Err(NoMemory);
        };
        outs.append(&mut told)?;
    }
    Ok(outs)
}

/// All that a new desk of this worker sends for these events (RFC 6665 section 4.2).
pub fn play<P: Package>(
    alloc: Global,
    setup: &Setup,
    worker: u32,
    boxes: Vec<P>,
    events: &[Event],
) -> Result<Vec<Out>, NoMemory>
    ensures { IfOk result (λ outs. outs.items
        ≡ map out_of (made (record { place = place_of setup.now worker; boxes = map P.seen boxes.items }) events.now)) }
{
    let mut desk = Desk::new(alloc, setup, worker, boxes)?;
    handle_all(alloc, &mut desk, events)
}

/// All that a desk sends for these events which goes on from a saved book: what the desk would have sent that was saved, had it
/// gone on (`run_grows` says that a run over two lists of events is one over the first, and then this one).
pub fn play_on<P: Package>(
    alloc: Global,
    setup: &Setup,
    worker: u32,
    boxes: Vec<P>,
    saved: Saved,
    events: &[Event],
) -> Result<Vec<Out>, ResumeError>
    ensures { IfOk result (λ outs. outs.items
        ≡ map out_of (made_from (place_of setup.now worker) (book_with saved (map P.seen boxes.items)) events.now)) }
{
    let mut desk = match Desk::resume(alloc, setup, worker, boxes, saved) {
        Ok(desk) => desk,
        Err(error) => return Err(error),
    };
    match handle_all(alloc, &mut desk, events) {
        Ok(outs) => Ok(outs),
        Err(_) => Err(ResumeError::NoMemory),
    }
}
