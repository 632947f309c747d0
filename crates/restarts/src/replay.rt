//! A desk that goes on, and what it sends again.
#![tactic(auto)]

ghost use Rattle.std.specs.Prelude.{◌≡◌, map, filter, IfOk, OnOk, Some};
ghost use Rattle.notifier_model.specs.Out.{out_of};
ghost use Rattle.notifier_model.specs.Run.{made_from, run_from};
ghost use Rattle.notifier_model.specs.Saved.{book_with};
ghost use Rattle.notifier_model.specs.Start.{place_of};
ghost use Rattle.notifier.specs.Held.{seen_by};
ghost use Rattle.notifier.specs.Resumed.{MayGoOn, IsRightly};
ghost use Rattle.restarts.specs.Restarts.{is_open, is_open_at};

use notifier::{Desk, Event, NoMemory, Out, ResumeError, Saved, Setup, handle_all};
use package::Package;
use std::alloc::Global;

/// What a worker left behind: a book, and the events that it had handled since.
#[derive(Drop)]
pub struct Left {
    pub book: Saved,
    pub events: Vec<Event>,
}

/// A desk that goes on, and those of the NOTIFYs since its book that nobody has answered, in the order in which they were sent.
#[derive(Drop)]
pub struct Restarted<P> {
    pub desk: Desk<P>,
    pub unanswered: Vec<Out>,
}

/// Whether this is a NOTIFY that is unanswered.
fn is_unanswered<P: Package>(desk: &Desk<P>, out: &Out) -> bool
    ensures { result ≡ is_open_at (seen_by P.seen desk.now) out.now }
{
    match out {
        Out::Notify { tag, number, .. } => desk.awaits(tag.as_str(), *number),
        Out::Answer { .. } | Out::Start { .. } => false,
    }
}

/// Keeps the NOTIFYs that are unanswered, and nothing else.
fn keep_unanswered<P: Package>(desk: &Desk<P>, outs: &mut Vec<Out>)
    ensures { outs.new.items ≡ filter (is_open_at (seen_by P.seen desk.now)) outs.old.items }
{
    outs.retain(|out| is_unanswered(desk, out));
}

/// The desk of this worker goes on from the book that it left, with the boxes as they were then, over the events since. What
/// these send is not to be sent again, but for the NOTIFYs that nobody has answered. Want of memory lets nothing stand.
pub fn restart<P: Package>(
    alloc: Global,
    setup: &Setup,
    worker: u32,
    boxes: Vec<P>,
    left: Left,
) -> Result<Restarted<P>, ResumeError>
    ensures stands { IfOk result (λ again. seen_by P.seen again.desk ≡ Some (record {
      place = place_of setup.now worker;
      book = run_from (place_of setup.now worker) (book_with left.book (map P.seen boxes.items)) left.events.items;
    })) }
    ensures unanswered { let place = place_of setup.now worker in
        let book = book_with left.book (map P.seen boxes.items) in
        IfOk result (λ again. again.unanswered.items
        ≡ filter (is_open (run_from place book left.events.items).rows) (map out_of (made_from place book left.events.items))) }
    ensures may { OnOk result (MayGoOn (place_of setup.now worker) left.book) }
    ensures rightly { IsRightly result (MayGoOn (place_of setup.now worker) left.book) }
{
    let Left { book, events } = left;
    let mut desk = match Desk::resume(alloc, setup, worker, boxes, book) {
        Ok(desk) => desk,
        Err(error) => return Err(error),
    };
    let mut outs = match handle_all(alloc, &mut desk, events.as_slice()) {
        Ok(outs) => outs,
        Err(NoMemory) => return Err(ResumeError::NoMemory),
    };
    keep_unanswered(&desk, &mut outs);
    Ok(Restarted {
        desk,
        unanswered: outs,
    })
}
