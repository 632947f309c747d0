//! What became of outs, counted and told.
ghost use Rattle.std.specs.Prelude.{◌<◌, ◌^◌};

use crate::request_log::{Answer, log_answer};
use crate::shared::{Counter, Shared};
use feeds::Fate;
use notifier_model::Out;
use sip_text::Addr;
use std::sync::Wait;

/// An out that was sent or written at this moment, or at which the wire or the writer failed then.
#[derive(Drop)]
pub(crate) struct Put {
    pub(crate) now: u64,
    pub(crate) out: Out,
    pub(crate) fate: Fate,
    ghost in_range: { now < 2 ^ 63 },
}

/// An out that is to be sent or written at this moment.
#[derive(Drop)]
pub(crate) struct Timed {
    pub(crate) now: u64,
    pub(crate) out: Out,
    ghost in_range: { now < 2 ^ 63 },
}

/// Whom a request was sent to: `-` where that isn't known.
fn known_whom<'a>(whom: &'a Option<String>) -> &'a str {
    match whom {
        Some(whom) => whom.as_str(),
        None => "-",
    }
}

/// Tells of an answer that went to this address.
fn tell_answer<R: Wait + Eprint>(rt: &R, shared: &Shared, to: Addr, octets: &[u8]) {
    let whom = shared.asked.lock(rt).take(octets);
    let answer = Answer {
        to,
        octets,
        whom: known_whom(&whom),
    };
    log_answer(rt, shared, answer);
}

/// Counts and tells what became of an out: to whom an answer goes, where the operator wants to know of each. A transfer whose START line was
/// not written is to fail.
pub(crate) fn tell_fate<R: Wait + Eprint>(rt: &R, shared: &Shared, out: &Out, fate: Fate) {
    match out {
        Out::Answer { to, bytes } => {
            if fate == Fate::Sent {
                shared.count(Counter::Answer);
                shared.sent.statuses.count(bytes.as_slice());
            }
            if shared.logs_requests() {
                tell_answer(rt, shared, *to, bytes.as_slice());
            }
        }
        Out::Notify {
            number,
            terminated,
            ..
        } => {
            if fate == Fate::Sent {
                shared.count(Counter::Notify);
            }
            shared.count_notice(*number, *terminated);
        }
        Out::Start { tag, .. } => {
            if fate == Fate::Failed {
                shared.count(Counter::StartDropped);
                shared.lost_starts.put(rt, tag);
            }
        }
    }
    match fate {
        Fate::Failed => shared.count(Counter::Failed),
        Fate::Started => shared.count(Counter::Start),
        Fate::Held => shared.count(Counter::Held),
        Fate::Sent => {}
    }
}
