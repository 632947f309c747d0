//! How one worker is started.
ghost use Rattle.std.specs.Prelude.{◌≡◌, [], Some, IfOk};
ghost use Rattle.notifier.specs.Held.{seen_by};
ghost use Rattle.notifier.specs.Standing.{Standing};
ghost use Rattle.crew.specs.Worked.{IsWorked};

use crate::end::Done;
use crate::gate::Gate;
use crate::hand::Hand;
use crate::token::StandingToken;
use crate::working::work;
use notifier::Desk;
use package::Package;
use queues::inbox::Receiver;
use queues::outbox::Poster;
use std::alloc::{AllocError, Global};
use std::snapshot::Snapshot;
use std::sync::{Arc, Wait};
use std::thread;
use std::thread::{Promise, PromisedHandle, Threads};

/// What a worker began with, which contracts alone see. It is the promise under which its thread runs: what the worker
/// leaves is what a worker leaves whose desk stood so and that had these ends of the queues.
#[derive(Drop)]
pub struct Began {
    pub token: StandingToken,
    pub inbox: Snapshot<Receiver>,
    pub outbox: Snapshot<Poster>,
}

impl Promise<Done> for Began {
    ghost use Rattle.crew.specs.Worked.{IsWorked};

    ghost kept_by = { λ p done. IsWorked p.token.stands p.inbox.value p.outbox.value done };
}

/// What one worker is given.
#[derive(Drop)]
pub struct NewWorker<P: Package> {
    /// How the desk stands.
    pub token: StandingToken,
    /// The worker's number.
    pub worker: u32,
    /// Whether a stop is planned.
    pub stop: bool,
    pub desk: Desk<P>,
    pub receiver: Receiver,
    pub poster: Poster,
}

/// Starts one worker in a thread of its own. Where no thread can be made all that it was given is dropped.
pub fn launch<R, P, G>(
    rt: R,
    alloc: Global,
    new_worker: NewWorker<P>,
    gate: Arc<G, Global>,
) -> Result<PromisedHandle<Done, Began>, AllocError>
where
    R: Threads + Wait + Copy + Send + 'static,
    P: Package + 'static,
    G: Gate + Drop + 'static,
    requires taken { new_worker.receiver.taken ≡ [] }
    requires posted { new_worker.poster.posted ≡ [] }
    requires desk { seen_by P.seen new_worker.desk ≡ Some new_worker.token.stands }
    requires stop { new_worker.stop ≡ new_worker.token.stands.place.stop }
    ensures stands { IfOk result (λ h. h.promise.token.stands ≡ new_worker.token.stands) }
    ensures inbox { IfOk result (λ h. h.promise.inbox.value ≡ new_worker.receiver) }
    ensures outbox { IfOk result (λ h. h.promise.outbox.value ≡ new_worker.poster) }
{
    let NewWorker {
        token,
        worker,
        stop,
        desk,
        receiver,
        poster,
    } = new_worker;
    let began = Began {
        token,
        inbox: Snapshot::of(&receiver),
        outbox: Snapshot::of(&poster),
    };
    let child = thread::spawn_with(
        &rt,
        began,
        move || -> Done
            requires { (receiver.taken ≡ []) × (poster.posted ≡ []) }
            ensures { (stands : Standing) → seen_by P.seen desk ≡ Some stands → stop ≡ stands.place.stop
                → IsWorked stands receiver poster result }
        {
            let hand = Hand {
                worker,
                stop,
                desk,
                poster,
                handled: 0,
                made: 0,
                room: 0,
            };
            work(&rt, alloc, &*gate, hand, receiver)
        },
    )?;
    Ok(child)
}
