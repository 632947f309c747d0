//! Homes: which of several workers an event goes to.
//!
//! [`home`] promises to be the definition `home` of `specs/Home`: the worker that the event's tag names,
//! else that of the hash of its key. It knows nothing of threads, queues or desks: it looks at one event, and takes no
//! memory. [`stay`] is the law for which there are homes: whatever belongs to one subscription goes to one worker.
//!
//! Begin with [`home`], then that definition. Homes of some events are computed in `proofs/HomeExamples`.
#![tactic(auto)]

ghost use Rattle.std.specs.Prelude.{◌≡◌, ◌<◌, false, option_map};
ghost use Rattle.notifier_model.specs.Home as spec;

use crate::homes::tag::worker_named;
use crate::{Event, user_part};
use sip_text::Text;

mod laws;
mod tag;

pub use laws::stay;
pub use tag::TagNumbers;

/// The hash of a key: from 0, for each byte 31 times as much and the byte, modulo 2^32.
pub fn key_hash(key: &str) -> u32
    ensures { result ≡ spec.key_hash key.now }
{
    let mut hash = 0u32;
    for byte in key.as_bytes() {
        hash = ((u64::from(hash) * 31 + u64::from(*byte)) % 4294967296) as u32;
    }
    hash
}

fn some_str(text: &Option<Text>) -> Option<&str>
    ensures { option_map (λ text. text.now) result ≡ text.now }
{
    match text {
        Some(text) => Some(text.as_str()),
        None => None,
    }
}

/// The tag in which an event may name a worker, and its key: the mailbox, Call-ID or tag that it is about.
fn tag_and_key(event: &Event) -> (Option<&str>, &str)
    ensures tag { option_map (λ tag. tag.now) result.0 ≡ spec.tag_in event.now }
    ensures key { result.1.now ≡ spec.key_of event.now }
{
    match event {
        Event::Request(_, request) => match &request.head.to.tag {
            Some(tag) => (Some(tag.as_str()), request.head.call_id.as_str()),
            None if request.method.is("SUBSCRIBE") => (None, user_part(request.uri.as_str())),
            None => (None, request.head.call_id.as_str()),
        },
        Event::Reply(response) => (
            some_str(&response.head.from.tag),
            response.head.call_id.as_str(),
        ),
        Event::Mail(change) => (None, change.mailbox()),
        Event::Progress(progress) => (Some(progress.tag()), progress.tag()),
        Event::Tick(_) | Event::Shut => (None, ""),
    }
}

/// Whether the event has no home, but goes to every worker.
pub fn is_for_all(event: &Event) -> bool
    ensures { result ≡ spec.is_for_all event.now }
{
    matches!(event, Event::Tick(_) | Event::Shut)
}

/// The one of the workers, from 0, to which an event goes: the one that its tag names, else that of the hash of its key. A
/// tick has no home, but goes to all. It takes no memory.
#[tactic(auto, unfolding(crate::specs::Home::home))]
pub fn home(event: &Event, workers: u32) -> u32
    requires some { 0 < workers }
    requires for_one { spec.is_for_all event.now ≡ false }
    ensures value { result ≡ spec.home event.now workers }
    ensures below { result < workers }
{
    let (tag, key) = tag_and_key(event);
    let named = match tag {
        Some(tag) => worker_named(workers, tag),
        None => None,
    };
    match named {
        Some(worker) => worker,
        None => key_hash(key) % workers,
    }
}
