//! The answers of a desk: their bytes, and that they are kept.
#![tactic(auto, unfolding(notifier_model::specs::Answers::refusal_answer, notifier_model::specs::Answers::refusal_text, notifier_model::specs::Answers::renewal_answer, notifier_model::specs::Answers::birth_answer))]

ghost use Rattle.std.specs.Prelude.{◌≡◌, ◌++◌, ◌∷◌, [], map, option_map, filter, IfOk, OnOk};
ghost use Rattle.circular_buffer.specs.Buffer.{buffer};
ghost use Rattle.sip_write.specs.Answer.{answer_text};
ghost use Rattle.sip_write.specs.Views.{answer_view};
ghost use Rattle.notifier_model.specs.Answers as spec;
ghost use Rattle.notifier_model.specs.Limits.{Limits as LimitsSeen};
ghost use Rattle.notifier_model.specs.Requests.{is_strange as is_strange_word};
ghost use Rattle.notifier.specs.Transactions.{key_of};

use crate::incoming::{Incoming, Pending, is_strange};
use crate::store::kept::KeptAnswers;
use crate::tag::refusal_tag;
use notifier_model::event::Out;
use notifier_model::limits::Limits;
use notifier_model::refusal::Refusal;
use package::Package;
use sip_read::Addr;
use sip_text::{NoMemory, Octets, Text};
use sip_write::{Answer, Status, response};
use std::alloc::Global;

/// An answer without any of the optional lines. A To without a tag gets this one.
fn bare_answer<'a>(incoming: &Incoming<'a>, status: Status, tag: Option<&'a str>) -> Answer<'a>
    ensures { answer_view result ≡ spec.bare_answer incoming.now.source incoming.now.request.now
        (option_map (λ t. t.now) tag.entry) status }
{
    Answer::bare(&incoming.request.head, incoming.source, tag, status)
}

/// The 200 to a SUBSCRIBE in a dialog.
pub fn renewal_answer(alloc: Global, incoming: &Incoming<'_>) -> Result<Octets, NoMemory>
    ensures { IfOk result (λ bytes.
        bytes ≡ answer_text (spec.renewal_answer incoming.now.place.now incoming.now.source incoming.now.request.now)) }
{
    let answer = Answer {
        contact: Some(incoming.place.me),
        expires: Some(incoming.granted()),
        ..bare_answer(incoming, Status::Ok, None)
    };
    response(alloc, &answer)
}

/// The 200 or 202 that makes a dialog with this local tag.
pub fn birth_answer(alloc: Global, incoming: &Incoming<'_>, tag: &Text) -> Result<Octets, NoMemory>
    ensures { IfOk result (λ bytes.
        bytes ≡ answer_text (spec.birth_answer incoming.now.place.now incoming.now.source incoming.now.request.now tag.now)) }
{
    let status = if incoming.refers {
        Status::Accepted
    } else {
        Status::Ok
    };
    let answer = Answer {
        record_routes: incoming.request.record_routes.as_slice(),
        contact: Some(incoming.place.me),
        expires: if incoming.refers {
            None
        } else {
            Some(incoming.granted())
        },
        without_subscription: incoming.is_unwatched(),
        ..bare_answer(incoming, status, Some(tag.as_str()))
    };
    response(alloc, &answer)
}

/// Puts a word behind those that are there, if it isn't understood.
fn push_strange<'a>(words: &mut Vec<&'a str>, word: &'a Text) -> Result<(), NoMemory>
    ensures { OnOk result (map (λ w. w.now) words.new.items
        ≡ map (λ w. w.now) words.old.items ++ filter is_strange_word (word.now ∷ [])) }
{
    if is_strange(word) {
        words.push(word.as_str())?;
    }
    Ok(())
}

/// The required extensions that aren't understood.
fn strange_words(alloc: Global, required: &[Text]) -> Result<Vec<&str>, NoMemory>
    ensures { IfOk result (λ words. map (λ w. w.now) words.items ≡ filter is_strange_word required.now) }
{
    let mut words = Vec::new(alloc);
    for word in required {
        push_strange(&mut words, word)?;
    }
    Ok(words)
}

fn package_names<P: Package>(alloc: Global, boxes: &Vec<P>) -> Result<Vec<&str>, NoMemory>
    ensures { IfOk result (λ names. map (λ n. n.now) names.items ≡ spec.names_of (map P.seen boxes.now.items)) }
{
    let mut names = Vec::with_capacity(alloc, boxes.len())?;
    for found in boxes {
        names.push(found.event())?;
    }
    Ok(names)
}

fn min_expires(limits: &Limits, refused: Refusal) -> Option<u32>
    ensures { result ≡ spec.min_expires_of limits.now refused }
{
    match refused {
        Refusal::TooBrief => Some(limits.min_time()),
        _ => None,
    }
}

fn allow(refused: Refusal) -> Option<&'static [&'static str]>
    ensures { option_map (λ names. map (λ n. n.now) names.now) result ≡ spec.allow_of refused }
{
    match refused {
        Refusal::OtherMethod => Some(&["SUBSCRIBE", "REFER"]),
        _ => None,
    }
}

fn allow_events<'a>(names: &'a [&'a str], refused: Refusal) -> Option<&'a [&'a str]>
    ensures { option_map (λ texts. map (λ n. n.now) texts.now) result
        ≡ spec.allow_events_of (map (λ n. n.now) names.now) refused }
{
    match refused {
        Refusal::NoPackage => Some(names),
        _ => None,
    }
}

fn unsupported<'a>(words: &'a [&'a str], refused: Refusal) -> Option<&'a [&'a str]>
    ensures { option_map (λ texts. map (λ n. n.now) texts.now) result
        ≡ spec.unsupported_of (map (λ n. n.now) words.now) refused }
{
    match refused {
        Refusal::UnmetRequire => Some(words),
        _ => None,
    }
}

/// What a refusal may say: the tag that it adds, the names of the packages, and the required extensions that aren't
/// understood.
#[derive(Drop)]
struct Words<'a> {
    tag: &'a str,
    names: &'a [&'a str],
    strange: &'a [&'a str],
}

/// The answer to a refused request, where the words that it may say are at hand.
fn refusal_bytes(
    alloc: Global,
    incoming: &Incoming<'_>,
    refused: Refusal,
    words: &Words<'_>,
) -> Result<Octets, NoMemory>
    requires { map (λ n. n.now) words.now.strange.now ≡ filter is_strange_word incoming.now.request.now.require }
    ensures { IfOk result (λ bytes. bytes ≡ answer_text (spec.refusal_text incoming.now.place.now
        (map (λ n. n.now) words.now.names.now) words.now.tag.now
        incoming.now.source incoming.now.request.now refused)) }
{
    let answer = Answer {
        min_expires: min_expires(&incoming.place.limits, refused),
        allow: allow(refused),
        allow_events: allow_events(words.names, refused),
        unsupported: unsupported(words.strange, refused),
        ..bare_answer(incoming, refused.status(), Some(words.tag))
    };
    response(alloc, &answer)
}

/// The answer to a refused request, with what its status asks for (RFC 3261 sections 20.5, 20.23 and 20.40, RFC 6665
/// section 8.2.2).
pub fn refusal_answer<P: Package>(
    alloc: Global,
    boxes: &Vec<P>,
    incoming: &Incoming<'_>,
    refused: Refusal,
) -> Result<Octets, NoMemory>
    ensures { IfOk result (λ bytes. bytes ≡ answer_text (spec.refusal_answer incoming.now.place.now (map P.seen boxes.now.items)
        incoming.now.source incoming.now.request.now refused)) }
{
    let tag = refusal_tag(alloc, incoming.place.worker)?;
    let names = package_names(alloc, boxes)?;
    let strange = strange_words(alloc, incoming.request.require.as_slice())?;
    let words = Words {
        tag: tag.as_str(),
        names: names.as_slice(),
        strange: strange.as_slice(),
    };
    refusal_bytes(alloc, incoming, refused, &words)
}

/// Answers a retransmission with these bytes.
pub fn repeat(alloc: Global, to: Addr, bytes: &Octets) -> Result<Vec<Out>, NoMemory>
    ensures { IfOk result (λ outs. outs.items ≡ Out.Answer to bytes.now ∷ []) }
{
    let bytes = Octets::new(Vec::from_slice(alloc, bytes.as_slice())?);
    let mut outs = Vec::new(alloc);
    outs.push(Out::Answer { to, bytes })?;
    Ok(outs)
}

/// Answers a request, and keeps the answer where the request names a transaction.
pub fn respond(
    alloc: Global,
    ring: &mut KeptAnswers,
    pending: Pending<'_>,
    bytes: Octets,
) -> Result<Vec<Out>, NoMemory>
    ensures ring { OnOk result ((limits : LimitsSeen) → ring.old.capacity ≡ limits.kept
        → ring.new ≡ buffer
        (spec.ring_with limits ring.old.items (option_map key_of pending.entry.transaction) bytes) ring.old.capacity) }
    ensures outs { IfOk result (λ outs. outs.items ≡ Out.Answer pending.entry.incoming.now.source bytes ∷ []) }
{
    let copy = Octets::new(Vec::from_slice(alloc, bytes.as_slice())?);
    let to = pending.incoming.source;
    ring.keep(alloc, pending.transaction, copy)?;
    let mut outs = Vec::new(alloc);
    outs.push(Out::Answer { to, bytes })?;
    Ok(outs)
}
