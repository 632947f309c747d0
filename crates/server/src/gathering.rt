//! What the workers of a crew send, taken on a thread of its own.
ghost use Rattle.std.specs.Prelude.{◌≡◌, ◌<◌, ◌≤◌, true, [], length, IfOk};
ghost use Rattle.queues.specs.Ended.{AllEnded};
ghost use Rattle.server.specs.Gathering.{AreNew, Keeps, AreKept, IsGathered};

use crate::work::Work;
use notifier_model::Out;
use queues::outbox::{Posted, Taker};
use sip_text::NoMemory;
use std::alloc::Global;
use std::snapshot::Snapshot;
use std::sync::Wait;
use std::thread;
use std::thread::Promise;

/// What the taker's thread leaves.
#[derive(Drop)]
pub(crate) struct GatheredOuts {
    pub(crate) taker: Taker,
    /// What each worker sent, in their order.
    pub(crate) works: Vec<Work>,
    /// Whether there was memory for all of it.
    pub(crate) is_whole: bool,
}

/// The taker that the thread was given, as contracts see it: it comes back with the end mark of each worker.
#[derive(Drop)]
pub(crate) struct Lent {
    pub(crate) taker: Snapshot<Taker>,
}

impl Promise<GatheredOuts> for Lent {
    ghost use Rattle.server.specs.Gathering.{IsGathered};

    ghost kept_by = { λ p gathered. IsGathered p.taker.value gathered };
}

/// What so many workers did before any event.
pub(crate) fn new_works(alloc: Global, workers: usize) -> Result<Vec<Work>, NoMemory>
    requires { workers ≤ 256 }
    ensures { IfOk result (λ works. AreNew workers works.items) }
{
    let mut works = Vec::with_capacity(alloc, workers)?;
    for number in 0..workers {
        works.push(Work {
            number: number as u32,
            handled: 0,
            outs: Vec::new(alloc),
        })?;
    }
    Ok(works)
}

/// Adds an out to what a worker sent. False where there is no memory for it: then it is dropped.
fn keep(works: &mut [Work], worker: u32, out: Out) -> bool
    requires { worker < length works.old }
    ensures len { length works.new ≡ length works.old }
    ensures kept { result ≡ true → Keeps worker out works.old works.new }
{
    let work = &mut works[worker as usize];
    work.outs.push(out).is_ok()
}

/// Takes what the workers post until each has ended, and keeps it. Where the outbox is empty the thread yields. False where an
/// allocation failed: outs are missing then, and the end marks are taken all the same.
fn gather<H: Wait>(rt: &H, taker: &mut Taker, works: &mut [Work]) -> bool
    requires none { taker.old.got ≡ [] }
    requires new { AreNew taker.old.workers works.old }
    ensures outbox { taker.new.outbox ≡ taker.old.outbox }
    ensures ended { AllEnded taker.old.workers taker.new.got }
    ensures len { length works.new ≡ length works.old }
    ensures kept { result ≡ true → AreKept taker.new.got works.new }
{
    let mut left = works.len();
    let mut is_whole = true;
    for _ in rt.forever() {
        if left == 0 {
            return is_whole;
        }
        match taker.take(rt) {
            Some(Posted::Ended(_)) => left -= 1,
            Some(Posted::Out(worker, out)) => {
                let is_kept = keep(works, worker, out);
                is_whole = is_whole && is_kept;
            }
            None => thread::yield_now(),
        }
    }
    unreachable!()
}

/// Takes all that the workers post.
pub(crate) fn gather_all<H: Wait>(rt: &H, mut taker: Taker, mut works: Vec<Work>) -> GatheredOuts
    requires none { taker.got ≡ [] }
    requires new { AreNew taker.workers works.items }
    ensures { IsGathered taker result }
{
    let is_whole = gather(rt, &mut taker, works.as_mut_slice());
    GatheredOuts {
        taker,
        works,
        is_whole,
    }
}
