//! How a crew is joined.
ghost use Rattle.std.specs.Prelude.{◌≡◌, ◌<◌, ◌≤◌, ℕ, false, [], length, reverse, get_or, vec_len, vec_capacity};
ghost use Rattle.queues.specs.Items.{TookInOrder};
ghost use Rattle.crew.specs.Ports.{PortSeats};
ghost use Rattle.crew.specs.Started.{Hired, hired};
ghost use Rattle.crew.specs.Joined.{HasEndOf, IsPortOf, Reported, IsJoined};
ghost use Rattle.crew.specs.AtHome.{SentHome};
ghost use Rattle.crew.specs.Settled.{AreSeatsOf, HaveCome};

use crate::end::Done;
use crate::launching::Began;
use crate::port::Port;
use crate::report::{Report, WorkerReport};
use crate::start::Crew;
use queues::inbox::Sent;
use queues::outbox::Taker;
use std::sync::Wait;
use std::thread::{PromisedHandle, Threads};

/// Joins one worker.
fn join_one<R: Threads + Wait>(
    rt: &R,
    worker: PromisedHandle<Done, Began>,
    taker: &mut Taker,
) -> WorkerReport
    requires { HasEndOf taker.old (hired worker.promise) }
    ensures same { taker.new ≡ taker.old }
    ensures report { Reported (hired worker.promise) taker.old.got result }
{
    let Done {
        receiver,
        poster,
        handled,
        made,
        end,
    } = worker.join(rt);
    taker.settle(poster);
    WorkerReport {
        receiver,
        handled,
        made,
        end,
    }
}

/// Joins the workers, in their order.
fn join_workers<R: Threads + Wait>(
    rt: &R,
    workers: Vec<PromisedHandle<Done, Began>>,
    mut reports: Vec<WorkerReport>,
    taker: &mut Taker,
) -> Vec<WorkerReport>
    requires room { vec_len workers ≤ vec_capacity reports }
    requires empty { reports.items ≡ [] }
    requires taker { (k : ℕ) (h : _) → k < vec_len workers
        → HasEndOf taker.old (hired (get_or workers.items k h).promise) }
    ensures len { vec_len result ≡ vec_len workers }
    ensures reports { (k : ℕ) (h : _) (r : WorkerReport) → k < vec_len workers
        → Reported (hired (get_or workers.items k h).promise) taker.old.got (get_or result.items k r) }
{
    for worker in workers {
        reports.push_reserved(join_one(rt, worker, taker));
    }
    reports
}

/// Joins a port's seat to the worker's.
fn settle_one(report: &mut WorkerReport, sent: Sent)
    requires { sent.inbox ≡ report.old.receiver.inbox }
    ensures same { report.new ≡ report.old }
    ensures came { TookInOrder sent.number report.old.receiver.taken sent.sent }
{
    report.receiver.settle(sent);
}

/// Joins a port's seats to those of the workers. The last worker's comes first.
fn settle_port(reports: &mut [WorkerReport], mut sents: Vec<Sent>)
    requires { AreSeatsOf reports.old (reverse sents.items) }
    ensures same { reports.new ≡ reports.old }
    ensures came { HaveCome reports.old (reverse sents.items) (length reports.old) }
{
    let mut at = 0;
    while let Some(sent) = sents.pop() {
        let report = &mut reports[at];
        settle_one(report, sent);
        at += 1;
    }
}

/// Joins the ports' seats to those of the workers.
fn settle_all(reports: &mut [WorkerReport], ports: Vec<Port>)
    requires closed { (k : ℕ) (p : PortSeats) → k < vec_len ports → (get_or ports.items k p).is_open ≡ false }
    requires seats { (k : ℕ) (p : PortSeats) → k < vec_len ports
        → AreSeatsOf reports.old (get_or ports.items k p).seats }
    ensures same { reports.new ≡ reports.old }
    ensures came { (k : ℕ) (p : PortSeats) → k < vec_len ports
        → HaveCome reports.old (get_or ports.items k p).seats (length reports.old) }
    ensures home { (k : ℕ) (p : PortSeats) → k < vec_len ports
        → SentHome (get_or ports.items k p).seats }
{
    for port in ports {
        settle_port(reports, port.into_sents());
    }
}

impl Crew {
    /// Waits for the workers' ends, and tells what each did with what these ports sent. The ports are closed ones of this
    /// crew, and its taker has the end mark of each worker. Nothing is told of a port that isn't handed in. It takes no
    /// memory.
    pub fn join<R: Threads + Wait>(self, rt: &R, ports: Vec<Port>, mut taker: Taker) -> Report
        requires ports { (p : ℕ) (q : PortSeats) → p < vec_len ports → IsPortOf self (get_or ports.items p q) }
        requires ended { (w : ℕ) (h : Hired) → w < length self → HasEndOf taker (get_or self w h) }
        ensures { IsJoined self ports.items taker.got result.workers.items }
    {
        let (workers, reports) = self.into_parts();
        let mut reports = join_workers(rt, workers, reports, &mut taker);
        settle_all(reports.as_mut_slice(), ports);
        Report { workers: reports }
    }
}
