//! Places where threads wait for one another, and the gate of all crews here.

use crew::{End, Gate, Report, WorkerReport};
use std::sync::atomic::{AtomicBool, AtomicU64, Ordering};
use std::thread;

/// How often a wait turns before it gives up.
const TURNS: u32 = 10_000_000;

/// How many workers the gate keeps a record of: as many as any crew here has.
const WORKERS: usize = 4;

/// What the gate saw of one worker.
#[derive(Drop)]
struct Passes {
    /// How often the worker passed, which is the index of the event before which it passes next.
    count: AtomicU64,
    /// Whether it passed with another index than that, or posted something before it passed.
    were_wrong: AtomicBool,
    /// Whether it posted something before it passed, as a worker does that ends without an event.
    has_begun: AtomicBool,
}

impl Passes {
    fn new() -> Passes {
        Passes {
            count: AtomicU64::new(0),
            were_wrong: AtomicBool::new(false),
            has_begun: AtomicBool::new(false),
        }
    }

    /// The worker passes before the event of this index. It alone does so, from one thread.
    fn pass(&self, index: u64) {
        if self.count.load(Ordering::SeqCst) != index || self.has_begun.load(Ordering::SeqCst) {
            self.were_wrong.store(true, Ordering::SeqCst);
        }
        self.count.store(index.saturating_add(1), Ordering::SeqCst);
    }

    /// The worker posted something.
    fn begin(&self) {
        if self.count.load(Ordering::SeqCst) == 0 {
            self.has_begun.store(true, Ordering::SeqCst);
        }
    }

    /// Whether the worker passed once before each event that it handled, in order, and before the one for which memory ran out.
    fn were_of(&self, worker: &WorkerReport) -> bool {
        let refused = match worker.end {
            End::Closed | End::Abandoned(false) => 0,
            End::NoMemory(_) | End::Abandoned(true) => 1,
        };
        let is_complete = self.count.load(Ordering::SeqCst)
            == worker.handled.saturating_add(refused);
        is_complete && !self.were_wrong.load(Ordering::SeqCst)
    }
}

/// Two places to meet at: whether somebody came there. It is also the gate of a crew, which is open, or has worker 0 before its
/// event 0 and worker 1 before its event 1 wait for each other, and keeps a record of who passed.
#[derive(Drop)]
pub(crate) struct Stage {
    holds_worker: bool,
    pub(crate) first: AtomicBool,
    pub(crate) second: AtomicBool,
    was_met: AtomicBool,
    was_missed: AtomicBool,
    passes: [Passes; WORKERS],
}

impl Stage {
    /// A stage whose gate is open, or holds both workers.
    pub(crate) fn new(holds_worker: bool) -> Stage {
        Stage {
            holds_worker,
            first: AtomicBool::new(false),
            second: AtomicBool::new(false),
            was_met: AtomicBool::new(false),
            was_missed: AtomicBool::new(false),
            passes: [Passes::new(), Passes::new(), Passes::new(), Passes::new()],
        }
    }

    /// Waits for whoever is to come to this place. It yields, and gives up at the end.
    pub(crate) fn wait(&self, place: &AtomicBool) {
        for _ in 0..TURNS {
            if place.load(Ordering::SeqCst) {
                self.was_met.store(true, Ordering::SeqCst);
                return;
            }
            thread::yield_now();
        }
        self.was_missed.store(true, Ordering::SeqCst);
    }

    /// Whether somebody waited, and each wait found the other side.
    pub(crate) fn was_kept(&self) -> bool {
        self.was_met.load(Ordering::SeqCst) && !self.was_missed.load(Ordering::SeqCst)
    }

    /// Whether each worker of this report passed the gate once before each event, in order.
    pub(crate) fn was_passed(&self, report: &Report) -> bool {
        let mut was_passed = true;
        for (passes, worker) in self.passes.iter().zip(report.workers.iter()) {
            was_passed = was_passed && passes.were_of(worker);
        }
        was_passed
    }
}

impl Gate for Stage {
    fn pass(&self, worker: u32, index: u64) {
        if let Some(passes) = self.passes.get(worker as usize) {
            passes.pass(index);
        }
        if !self.holds_worker {
            return;
        }
        if worker == 1 && index == 1 {
            self.first.store(true, Ordering::SeqCst);
            self.wait(&self.second);
        }
        if worker == 0 && index == 0 {
            self.second.store(true, Ordering::SeqCst);
            self.wait(&self.first);
        }
    }

    fn posted(&self, worker: u32) {
        if let Some(passes) = self.passes.get(worker as usize) {
            passes.begin();
        }
    }
}
