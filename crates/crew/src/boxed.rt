//! Crews over boxed packages.
ghost use Rattle.std.specs.Prelude.{◌≡◌, ◌↔◌, ◌<◌, ◌≤◌, get_or, vec_len, IfOk, Err};
ghost use Rattle.crew.specs.Ready.{start_of};
ghost use Rattle.crew.specs.Started.{IsStarted};

use crate::errors::StartError;
use crate::gate::Gate;
use crate::port::Port;
use crate::start::Crew;
use notifier_model::Setup;
use package::Package;
use queues::outbox::Taker;
use std::alloc::Global;
use std::sync::{Arc, Wait};
use std::thread::Threads;

impl Crew {
    /// Starts a worker for each entry of `boxes`, and makes this many ports and the taker of what the workers post. The gate
    /// is passed before each event. Where it is refused what was started has ended and is joined, and the boxes are dropped.
    pub fn start<R, G>(
        rt: R,
        alloc: Global,
        setup: &Setup,
        ports: u32,
        boxes: Vec<Vec<Box<dyn Package>>>,
        gate: Arc<G, Global>,
    ) -> Result<(Crew, Vec<Port>, Taker), StartError>
    where
        R: Threads + Wait + Copy + Send + 'static,
        G: Gate + Drop + 'static,
        requires few_ports { ports ≤ 256 }
        requires few_workers { vec_len boxes ≤ 256 }
        ensures started { IfOk result (λ r. (b : _) → IsStarted
            (λ w. start_of (λ x. seen x) setup.now w (get_or boxes.items w b).items) (vec_len boxes) ports r.0 r.1.items r.2) }
        ensures no_workers { result ≡ Err StartError.NoWorkers ↔ vec_len boxes ≡ 0 }
        ensures no_ports { result ≡ Err StartError.NoPorts ↔ (0 < vec_len boxes) × (ports ≡ 0) }
    {
        Crew::start_any(rt, alloc, setup, ports, boxes, gate)
    }
}
