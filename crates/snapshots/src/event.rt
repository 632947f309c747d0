//! Events, written and read.
ghost use Rattle.std.specs.Prelude.{◌≡◌};
ghost use Rattle.sip_text.specs.Bytes.{Gives};
ghost use Rattle.snapshots.specs.Events.{event_text, event_at, EventFits, comes_at, reply_at, changed_at, stepped_at, tick_at, is_sound};

use crate::field::are_sound;
use crate::form::Form;
use notifier_model::Event;
use package::{MailChange, Progress};
use sip_read::{Boxed, Request, Response};
use sip_text::{Addr, NoMemory};
use std::alloc::Global;

/// A request, with the address that it came from.
#[tactic(auto, unfolding(crate::specs::Events::comes_at))]
fn cut_request(alloc: Global, bytes: &[u8]) -> Result<Option<(Event, &[u8])>, NoMemory>
    ensures { Gives (λ x. (x.0, x.1.now)) result (comes_at bytes.now) }
{
    let Some((parts, rest)) = <(Addr, Boxed<Request>)>::cut(alloc, bytes)? else {
        return Ok(None);
    };
    let (from, request) = parts;
    Ok(Some((Event::Request(from, request), rest)))
}

/// A response.
#[tactic(auto, unfolding(crate::specs::Events::reply_at))]
fn cut_reply(alloc: Global, bytes: &[u8]) -> Result<Option<(Event, &[u8])>, NoMemory>
    ensures { Gives (λ x. (x.0, x.1.now)) result (reply_at bytes.now) }
{
    let Some((response, rest)) = <Boxed<Response>>::cut(alloc, bytes)? else {
        return Ok(None);
    };
    Ok(Some((Event::Reply(response), rest)))
}

/// New counts of a mailbox.
#[tactic(auto, unfolding(crate::specs::Events::changed_at))]
fn cut_mail(alloc: Global, bytes: &[u8]) -> Result<Option<(Event, &[u8])>, NoMemory>
    ensures { Gives (λ x. (x.0, x.1.now)) result (changed_at bytes.now) }
{
    let Some((change, rest)) = MailChange::cut(alloc, bytes)? else {
        return Ok(None);
    };
    Ok(Some((Event::Mail(change), rest)))
}

/// A step of a transfer.
#[tactic(auto, unfolding(crate::specs::Events::stepped_at))]
fn cut_progress(alloc: Global, bytes: &[u8]) -> Result<Option<(Event, &[u8])>, NoMemory>
    ensures { Gives (λ x. (x.0, x.1.now)) result (stepped_at bytes.now) }
{
    let Some((progress, rest)) = Progress::cut(alloc, bytes)? else {
        return Ok(None);
    };
    Ok(Some((Event::Progress(progress), rest)))
}

/// A second.
#[tactic(auto, unfolding(crate::specs::Events::tick_at))]
fn cut_tick(alloc: Global, bytes: &[u8]) -> Result<Option<(Event, &[u8])>, NoMemory>
    ensures { Gives (λ x. (x.0, x.1.now)) result (tick_at bytes.now) }
{
    let Some((second, rest)) = u64::cut(alloc, bytes)? else {
        return Ok(None);
    };
    Ok(Some((Event::Tick(second), rest)))
}

impl Form for Event {
    ghost text = { event_text };

    ghost at = { event_at };

    ghost Fits = { EventFits };

    fn fits(&self) {
        match self {
            Event::Request(from, request) => {
                from.fits();
                request.fits();
            }
            Event::Reply(response) => response.fits(),
            Event::Mail(change) => change.fits(),
            Event::Progress(progress) => progress.fits(),
            Event::Tick(second) => second.fits(),
            Event::Shut => {}
        }
    }

    fn put(&self, alloc: Global, out: &mut Vec<u8>) -> Result<(), NoMemory> {
        match self {
            Event::Request(from, request) => {
                out.push(b'q')?;
                from.put(alloc, out)?;
                request.put(alloc, out)
            }
            Event::Reply(response) => {
                out.push(b'r')?;
                response.put(alloc, out)
            }
            Event::Mail(change) => {
                out.push(b'm')?;
                change.put(alloc, out)
            }
            Event::Progress(progress) => {
                out.push(b'p')?;
                progress.put(alloc, out)
            }
            Event::Tick(second) => {
                out.push(b't')?;
                second.put(alloc, out)
            }
            Event::Shut => {
                out.push(b's')?;
                Ok(())
            }
        }
    }

    #[tactic(auto, unfolding(crate::specs::Events::event_at))]
    fn cut(alloc: Global, bytes: &[u8]) -> Result<Option<(Event, &[u8])>, NoMemory> {
        let Some((mark, rest)) = bytes.split_first() else {
            return Ok(None);
        };
        match *mark {
            b'q' => cut_request(alloc, rest),
            b'r' => cut_reply(alloc, rest),
            b'm' => cut_mail(alloc, rest),
            b'p' => cut_progress(alloc, rest),
            b't' => cut_tick(alloc, rest),
            b's' => Ok(Some((Event::Shut, rest))),
            _ => Ok(None),
        }
    }
}

/// Whether an event is read again: a reader of SIP makes no others.
pub fn is_sound(event: &Event) -> bool
    ensures { result ≡ is_sound event.now }
{
    match event {
        Event::Request(_, request) => are_sound(&request.accept),
        Event::Reply(_) | Event::Mail(_) | Event::Progress(_) | Event::Tick(_) | Event::Shut =>
            true,
    }
}
