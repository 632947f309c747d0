//! What a question is told.
ghost use Rattle.std.specs.Prelude.{◌≡◌, ◌%◌, IfOk, IfSome, Some, string_bytes};
ghost use Rattle.std.specs.Int.NonZero.{non_zero_u32_get};
ghost use Rattle.service.specs.Told as spec;
ghost use Rattle.service.specs.Told.{IsRefusal, IsReport, IsShown, IsInquiry, IsWatched};

use crate::shared::Shared;
use control_lines::{ToldCounts, dump_page, show_page};
use notifier_model::homes::key_hash;
use sip_text::{NoMemory, Text};
use std::alloc::Global;
use std::num::NonZeroU32;
use std::rt::Clock;
use std::sync::Wait;
use watchers::Inquiry;

/// These lines behind an `ok`.
fn report(alloc: Global, lines: &str) -> Result<String, NoMemory>
    ensures { IfOk result (λ text. string_bytes text ≡ spec.report lines.now) }
{
    let mut text = String::from_str(alloc, "ok\n")?;
    text.push_str(lines)?;
    Ok(text)
}

/// The counters behind an `ok`. None where there is no memory for them, or no clock.
pub(crate) fn counters<R: Clock>(rt: &R, alloc: Global, shared: &Shared) -> Option<String>
    ensures { IfSome result (λ text. IsReport (string_bytes text)) }
{
    let seconds = shared.seconds(rt)?;
    let Ok(lines) = shared.lines(alloc, seconds) else {
        return None;
    };
    report(alloc, lines.as_str()).ok()
}

/// The worker that has this mailbox.
pub(crate) fn home(workers: NonZeroU32, mailbox: &str) -> u32
    ensures { result ≡ spec.worker_for (non_zero_u32_get workers) mailbox.now }
{
    key_hash(mailbox) % workers.get()
}

/// What the mailbox at this place was last told, behind an `ok`.
pub(crate) fn shown(
    alloc: Global,
    told: &ToldCounts,
    workers: NonZeroU32,
    place: usize,
) -> Option<String>
    ensures { IfSome result (λ text. IsShown told.now (non_zero_u32_get workers) place (string_bytes text)) }
{
    let (mailbox, counts) = told.get(place)?;
    let worker = home(workers, mailbox);
    let Ok(lines) = show_page(alloc, worker, mailbox, &counts) else {
        return None;
    };
    report(alloc, lines.as_str()).ok()
}

/// What the mailboxes from this place on were last told, as far as a page goes, behind an `ok`.
pub(crate) fn dumped(alloc: Global, told: &ToldCounts, from: usize) -> Option<String>
    ensures { IfSome result (λ text. string_bytes text ≡ spec.dumped told.now from) }
{
    let Ok(lines) = dump_page(alloc, told, from) else {
        return None;
    };
    report(alloc, lines.as_str()).ok()
}

/// Who watches the mailbox at this place, or any, from this place in the list of rows on. None where there is no memory to ask.
#[tactic(auto, using(crate::proofs::Paging::asks_any, crate::proofs::Paging::asks_one))]
pub(crate) fn inquiry(
    alloc: Global,
    told: &ToldCounts,
    place: Option<usize>,
    from: u64,
) -> Option<Inquiry>
    ensures { IfSome result (λ q. IsInquiry told.now place from q) }
{
    let Some(place) = place else {
        return Some(Inquiry {
            mailbox: None,
            place: from,
        });
    };
    let (mailbox, _) = told.get(place)?;
    let Ok(mailbox) = Text::of(alloc, mailbox) else {
        return None;
    };
    Some(Inquiry {
        mailbox: Some(mailbox),
        place: from,
    })
}

/// The page that is asked for, behind an `ok`. None where it isn't told in time.
#[tactic(auto, using(crate::proofs::Paging::is_watched))]
pub(crate) fn watched<R: Wait + Clock>(
    rt: &R,
    alloc: Global,
    shared: &Shared,
    inquiry: Option<Inquiry>,
) -> Option<String>
    ensures { IfSome result (λ text. (q : _) × (inquiry ≡ Some q) × IsWatched q (string_bytes text)) }
{
    let inquiry = inquiry?;
    let page = shared.window.ask(rt, alloc, &inquiry)?;
    report(alloc, page.as_str()).ok()
}

/// This number and these words behind a `no`.
fn refused(alloc: Global, why: &str) -> Result<String, NoMemory>
    ensures { IfOk result (λ text. string_bytes text ≡ spec.refusal why.now) }
{
    let mut text = String::from_str(alloc, "no\n")?;
    text.push_str(why)?;
    Ok(text)
}

/// Why a RELOAD is refused, behind a `no`. None where there is no memory for it.
pub(crate) fn refusal<R: Wait>(rt: &R, alloc: Global, shared: &Shared) -> Option<String>
    ensures { IfSome result (λ text. IsRefusal (string_bytes text)) }
{
    let why = shared.reloads.why(rt, alloc)?;
    refused(alloc, why.as_str()).ok()
}
