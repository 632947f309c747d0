//! Voicemail systems that are heard, each of whose NOTIFYs is told to the service by control lines of its own.

ghost use Rattle.std.specs.Prelude.{◌≡◌, ◌↔◌, [], IsNone, IfOk, IfErr, IfSome};
ghost use Rattle.commands.specs.Feeding.{IsFeedDesk, reached_at};
ghost use Rattle.commands.specs.Refused.{IsOther};

use crate::error::ServeError;
use crate::sockets::bind;
use arguments::AddressFlag;
use control_lines::UdpSpeaker;
use plans::Plan;
use service::{Counter, Shared};
use sip_text::Addr;
use std::alloc::Global;
use std::net::Net;
use std::rt::Clock;
use std::sync::{Arc, Wait};
use std::thread;
use std::thread::{Promise, PromisedHandle, Threads};
use transport::UdpWire;
use voicemail::{Clerk, KeptAnswers, VoicemailDesk};

/// Who hears voicemail systems of a service.
pub(crate) type FeedDesk = VoicemailDesk<UdpWire, UdpSpeaker>;

/// Hears voicemail systems as long as a service isn't finished, and counts there what is refused.
#[derive(Drop)]
struct FeedClerk {
    shared: Arc<Shared, Global>,
}

impl Clerk for FeedClerk {
    fn is_over(&self) -> bool {
        self.shared.is_finished()
    }

    fn count_refused(&self) {
        self.shared.count(Counter::BadSummary);
    }
}

/// Where this machine reaches a socket that is bound to this address: 0.0.0.0 is reached at 127.0.0.1.
fn reached(bound: Addr) -> Addr
    ensures { result ≡ reached_at bound }
{
    if bound.ip == [0; 4] {
        Addr {
            ip: [127, 0, 0, 1],
            port: bound.port,
        }
    } else {
        bound
    }
}

/// Opens what hears the voicemail systems that a plan names, if it names any. Control lines go to this address.
#[tactic(auto, using(crate::proofs::Refused::no_socket_is))]
pub(crate) fn open_feed<R: Wait + Net + AllocGlobal>(
    rt: &R,
    plan: &Plan,
    control: Addr,
) -> Result<Option<FeedDesk>, ServeError>
    ensures none { IfOk result (λ feed. IsNone feed ↔ (plan.now.feeds.items ≡ [])) }
    ensures desk { IfOk result (λ feed. IfSome feed (IsFeedDesk plan.now control)) }
    ensures refused { IfErr result IsOther }
{
    if plan.feeds.is_empty() {
        return Ok(None);
    }
    let networks = Vec::from_slice(rt.alloc(), plan.feeds.as_slice())?;
    let (coming, going) = bind(rt, AddressFlag::Feed, plan.choices.feed)?;
    if coming.limit_waits().is_err() {
        return Err(ServeError::System);
    }
    let Ok(speaker) = UdpSpeaker::to(rt, reached(control)) else {
        return Err(ServeError::System);
    };
    Ok(Some(VoicemailDesk {
        alloc: rt.alloc(),
        coming,
        going,
        speaker,
        networks,
        kept: KeptAnswers::new(rt.alloc())?,
    }))
}

/// What a thread that hears voicemail systems promises: nothing, since each line that it tells is one like any other.
#[derive(Drop)]
pub(crate) struct NoPromise;

impl Promise<bool> for NoPromise {
    ghost kept_by = { λ _ _. Unit {0} };
}

/// A thread that hears voicemail systems.
pub(crate) type Listener = PromisedHandle<bool, NoPromise>;

/// Starts the thread that hears by this desk until all was sent out.
pub(crate) fn start_listener<R>(
    rt: R,
    shared: &Arc<Shared, Global>,
    desk: FeedDesk,
) -> Result<Listener, ServeError>
where
    R: Threads + Wait + Clock + Copy + Send + 'static,
    ensures refused { IfErr result IsOther }
{
    shared.watch_feed(desk.coming.local());
    let clerk = FeedClerk {
        shared: Arc::try_clone(shared)?,
    };
    let mut desk = desk;
    match thread::spawn_with(&rt, NoPromise, move || -> bool {
        desk.hear_notices(&rt, &clerk)
    }) {
        Ok(listener) => Ok(listener),
        Err(_) => Err(ServeError::System),
    }
}
