//! What the workers of a crew are launched with.
ghost use Rattle.std.specs.Prelude.{◌≡◌, ◌<◌, ◌≤◌, ℕ, [], length, map, get_or, vec_len, Some, IfOk};
ghost use Rattle.queues.specs.OutboxSeats.{PosterSeat};
ghost use Rattle.crew.specs.Ports.{AreDealt, NoneHasSent, NoneWasClosed, HaveRoom, TakeSeats};
ghost use Rattle.queues.specs.InboxSeats.{new_senders, new_receiver};
ghost use Rattle.notifier.specs.Held.{seen_by};
ghost use Rattle.notifier.specs.Standing.{Standing, first_standing};
ghost use Rattle.crew.specs.Ready.{start_of, new_worker_seen, IsReady};

use crate::launching::NewWorker;
use crate::port::{Port, deal_out};
use crate::token::StandingToken;
use notifier::{Desk, Limits, Setup};
use package::Package;
use queues::inbox;
use queues::inbox::Receiver;
use queues::outbox::Poster;
use sip_text::NoMemory;
use std::alloc::Global;

/// A new desk for each worker of this setup, by its number, with its list of these boxes. [`Crew::go_on`](crate::Crew::go_on) starts a crew
/// with them, each worker of which begins anew.
pub fn open_desks<P: Package>(
    alloc: Global,
    setup: &Setup,
    boxes: Vec<Vec<P>>,
) -> Result<Vec<Desk<P>>, NoMemory>
    requires few { vec_len boxes ≤ 256 }
    ensures len { IfOk result (λ desks. vec_len desks ≡ vec_len boxes) }
    ensures new { IfOk result (λ desks. (k : ℕ) (d : _) (b : _) → k < vec_len boxes → seen_by P.seen (get_or desks.items k d)
        ≡ Some (first_standing (start_of P.seen setup.now k (get_or boxes.items k b).items))) }
{
    let mut desks = Vec::with_capacity(alloc, boxes.len())?;
    let mut worker = 0;
    for held in boxes {
        desks.push_reserved(Desk::new(alloc, setup, worker, held)?);
        worker += 1;
    }
    Ok(desks)
}

/// An inbox in which each of these ports takes a seat.
fn open_inbox(alloc: Global, limits: &Limits, ports: &mut [Port]) -> Result<Receiver, NoMemory>
    requires few { length ports.old ≤ 256 }
    requires unclosed { NoneWasClosed ports.old }
    requires room { HaveRoom ports.old }
    requires unsent { NoneHasSent ports.old }
    ensures new { IfOk result (λ r. r ≡ new_receiver r.inbox (length ports.old)) }
    ensures holds { IfOk result (λ r. r.inbox.capacity ≡ limits.now.inbox) }
    ensures dealt { IfOk result (λ r. TakeSeats ports.old ports.new
        (new_senders r.inbox (length ports.old)) (length ports.old)) }
{
    let capacity = limits.inbox();
    let (senders, receiver) = inbox::make(alloc, capacity, ports.len() as u32)?;
    deal_out(ports, senders)?;
    Ok(receiver)
}

/// What one worker is launched with: this desk, an inbox of these ports, and this poster.
fn new_worker<P: Package>(
    alloc: Global,
    desk: Desk<P>,
    poster: Poster,
    ports: &mut [Port],
) -> Result<NewWorker<P>, NoMemory>
    requires few { length ports.old ≤ 256 }
    requires unclosed { NoneWasClosed ports.old }
    requires room { HaveRoom ports.old }
    requires unsent { NoneHasSent ports.old }
    ensures ready { IfOk result (λ s. (stands : Standing) → seen_by P.seen desk ≡ Some stands
        → IsReady stands (length ports.old) poster (new_worker_seen P.seen s)) }
    ensures dealt { IfOk result (λ s. TakeSeats ports.old ports.new
        (new_senders s.receiver.inbox (length ports.old)) (length ports.old)) }
{
    let place = desk.place();
    let receiver = open_inbox(alloc, &place.limits, ports)?;
    let token = StandingToken::of(&desk);
    Ok(NewWorker {
        token,
        worker: place.worker,
        stop: place.stop,
        desk,
        receiver,
        poster,
    })
}

/// What the workers are launched with, in their order.
pub(crate) fn new_workers<P: Package>(
    alloc: Global,
    desks: Vec<Desk<P>>,
    posters: Vec<Poster>,
    ports: &mut [Port],
) -> Result<Vec<NewWorker<P>>, NoMemory>
    requires few { length ports.old ≤ 256 }
    requires few_workers { vec_len desks ≤ 256 }
    requires posters { vec_len posters ≡ vec_len desks }
    requires none { AreDealt ports.old [] (length ports.old) }
    ensures len { IfOk result (λ workers. vec_len workers ≡ vec_len desks) }
    ensures ready { IfOk result (λ workers. (k : ℕ) (s : _) (d : _) (p : PosterSeat) (stands : Standing) → k < vec_len desks →
        seen_by P.seen (get_or desks.items k d) ≡ Some stands →
        IsReady stands (length ports.old) (get_or posters.items k p) (new_worker_seen P.seen (get_or workers.items k s))) }
    ensures dealt { IfOk result (λ workers.
        AreDealt ports.new (map (λ s. s.receiver.inbox) workers.items) (length ports.old)) }
{
    let mut workers = Vec::with_capacity(alloc, desks.len())?;
    let mut rest = posters.into_iter();
    for desk in desks {
        let Some(poster) = rest.next() else {
            unreachable!()
        };
        workers.push_reserved(new_worker(alloc, desk, poster, ports)?);
    }
    Ok(workers)
}
