//! A desk for several threads.
ghost use Rattle.std.specs.Prelude.{IfOk};
ghost use Rattle.crew.specs.Recorded.{AreOutsOf};

use crate::replay::Replay;
use notifier::{DeskError, Event, Out};
use package::Package;
use std::alloc::Global;
use std::sync::{Mutex, Wait};

/// A replay behind a lock. Whenever the lock is free its book is the run of its start over its events, unless it is spent.
#[derive(Drop)]
pub struct SharedDesk<P: Package> {
    replay: Mutex<Replay<P>>,
}

impl<P: Package> SharedDesk<P> {
    /// Puts the replay behind a lock. It takes no memory.
    pub fn new(replay: Replay<P>) -> SharedDesk<P> {
        SharedDesk {
            replay: Mutex::new(replay),
        }
    }

    /// Handles one event as [`Replay::handle`] does, while no other thread does. It waits for its turn. The outs are those of
    /// the event after some events; which those are no contract can say.
    pub fn handle<R: Wait>(
        &self,
        rt: &R,
        alloc: Global,
        event: Event,
    ) -> Result<Vec<Out>, DeskError>
        ensures { IfOk result (λ outs. AreOutsOf event outs.items) }
    {
        self.replay.lock(rt).handle(alloc, event)
    }
}
