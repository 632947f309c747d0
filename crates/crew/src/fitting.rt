//! What a crew is launched with.
ghost use Rattle.std.specs.Prelude.{◌≡◌, ◌<◌, ◌≤◌, ℕ, [], Some, map, get_or, vec_len, vec_capacity, IfOk};
ghost use Rattle.queues.specs.OutboxSeats.{new_taker};
ghost use Rattle.crew.specs.Ports.{AreDealt};
ghost use Rattle.notifier.specs.Held.{seen_by};
ghost use Rattle.notifier.specs.Standing.{Standing};
ghost use Rattle.crew.specs.Ready.{new_worker_seen, IsReady};

use crate::end::Done;
use crate::launching::{Began, NewWorker};
use crate::port::Port;
use crate::report::WorkerReport;
use crate::seating::new_workers;
use notifier::{Desk, Limits};
use package::Package;
use queues::outbox;
use queues::outbox::Taker;
use sip_text::NoMemory;
use std::alloc::Global;
use std::sync::Arc;
use std::thread::PromisedHandle;

/// This many ports, each without a seat.
fn open_ports(alloc: Global, count: u32) -> Result<Vec<Port>, NoMemory>
    ensures { IfOk result (λ ports. AreDealt ports.items [] count) }
{
    let mut ports = Vec::new(alloc);
    for at in 0..count {
        let _ = at;
        ports.push(Port::new(alloc))?;
    }
    Ok(ports)
}

/// This many handles of the gate.
fn gates<G: Drop>(
    alloc: Global,
    gate: &Arc<G, Global>,
    count: usize,
) -> Result<Vec<Arc<G, Global>>, NoMemory>
    ensures { IfOk result (λ gates. vec_len gates ≡ count) }
{
    let mut gates = Vec::new(alloc);
    for at in 0..count {
        let _ = at;
        gates.push(Arc::try_clone(gate)?)?;
    }
    Ok(gates)
}

/// Room for so many handles, and for what is told of so many workers.
fn make_room(
    alloc: Global,
    count: usize,
) -> Result<(Vec<PromisedHandle<Done, Began>>, Vec<WorkerReport>), NoMemory>
    ensures workers { IfOk result (λ r. (count ≤ vec_capacity r.0) × (r.0.items ≡ [])) }
    ensures reports { IfOk result (λ r. (count ≤ vec_capacity r.1) × (r.1.items ≡ [])) }
{
    let workers = Vec::with_capacity(alloc, count)?;
    let reports = Vec::with_capacity(alloc, count)?;
    Ok((workers, reports))
}

/// What the workers are given, this many ports with a seat in each inbox, and the taker of what the workers post.
fn new_crew<P: Package>(
    alloc: Global,
    limits: &Limits,
    ports: u32,
    desks: Vec<Desk<P>>,
) -> Result<(Vec<NewWorker<P>>, Vec<Port>, Taker), NoMemory>
    requires few_ports { ports ≤ 256 }
    requires few_workers { vec_len desks ≤ 256 }
    ensures len { IfOk result (λ r. vec_len r.0 ≡ vec_len desks) }
    ensures taker { IfOk result (λ r. r.2 ≡ new_taker r.2.outbox (vec_len desks)) }
    ensures holds { IfOk result (λ r. r.2.outbox.capacity ≡ limits.now.outbox) }
    ensures ready { IfOk result (λ r. (k : ℕ) (s : _) (d : _) (stands : Standing) → k < vec_len desks →
        seen_by P.seen (get_or desks.items k d) ≡ Some stands → IsReady stands ports
        (record { outbox = r.2.outbox; number = k; posted = [] })
        (new_worker_seen P.seen (get_or r.0.items k s))) }
    ensures dealt { IfOk result (λ r. AreDealt r.1.items (map (λ s. s.receiver.inbox) r.0.items) ports) }
{
    let count = desks.len();
    let capacity = limits.outbox();
    let (posters, taker) = outbox::make(alloc, capacity, count as u32)?;
    let mut dealt = open_ports(alloc, ports)?;
    let workers = new_workers(alloc, desks, posters, dealt.as_mut_slice())?;
    Ok((workers, dealt, taker))
}

/// All that a crew is launched with, and room for all that it keeps.
#[derive(Drop)]
pub(crate) struct CrewParts<P: Package, G> {
    pub(crate) new_workers: Vec<NewWorker<P>>,
    pub(crate) gates: Vec<Arc<G, Global>>,
    pub(crate) ports: Vec<Port>,
    pub(crate) taker: Taker,
    // room for the handles
    pub(crate) workers: Vec<PromisedHandle<Done, Began>>,
    // room for what `join` tells, which takes no memory
    pub(crate) reports: Vec<WorkerReport>,
}

/// Makes all that a crew is launched with.
pub(crate) fn fit_out<P: Package, G: Drop>(
    alloc: Global,
    limits: &Limits,
    ports: u32,
    desks: Vec<Desk<P>>,
    gate: &Arc<G, Global>,
) -> Result<CrewParts<P, G>, NoMemory>
    requires few_ports { ports ≤ 256 }
    requires few_workers { vec_len desks ≤ 256 }
    ensures workers { IfOk result (λ f. (vec_len desks ≤ vec_capacity f.workers) × (f.workers.items ≡ [])) }
    ensures reports { IfOk result (λ f. (vec_len desks ≤ vec_capacity f.reports) × (f.reports.items ≡ [])) }
    ensures len { IfOk result (λ f. (vec_len f.new_workers ≡ vec_len desks) × (vec_len f.gates ≡ vec_len desks)) }
    ensures taker { IfOk result (λ f. f.taker ≡ new_taker f.taker.outbox (vec_len desks)) }
    ensures holds { IfOk result (λ f. f.taker.outbox.capacity ≡ limits.now.outbox) }
    ensures ready { IfOk result (λ f. (k : ℕ) (s : _) (d : _) (stands : Standing) → k < vec_len desks →
        seen_by P.seen (get_or desks.items k d) ≡ Some stands → IsReady stands ports
        (record { outbox = f.taker.outbox; number = k; posted = [] })
        (new_worker_seen P.seen (get_or f.new_workers.items k s))) }
    ensures dealt { IfOk result (λ f. AreDealt f.ports.items (map (λ s. s.receiver.inbox) f.new_workers.items) ports) }
{
    let count = desks.len();
    let gates = gates(alloc, gate, count)?;
    let (workers, reports) = make_room(alloc, count)?;
    let (new_workers, ports, taker) = new_crew(alloc, limits, ports, desks)?;
    Ok(CrewParts {
        new_workers,
        gates,
        ports,
        taker,
        workers,
        reports,
    })
}
