//! The rows of a book, read.
ghost use Rattle.std.specs.Prelude.{◌≡◌, true, option_map, string_bytes};
ghost use Rattle.snapshots.specs.Rows.{IsUsage, is_event, IsEvent, IsWant, IsState, IsUnanswered, IsRow, usage_text, event_text, want_text, state_text, unanswered_text, row_text, usage_at, event_of, event_at, want_at, state_of, state_at, unanswered_at, row_at};

use crate::form::{Form, put_bytes, put_option};
use event_headers::EventValue;
use notifier_model::row::{Row, Unanswered};
use sip_text::{Addr, NoMemory, Text, Values};
use std::alloc::Global;
use subscription::{Sub, Usage, Want};

type UsageParts = (
    Text,
    (Text, (Text, (Text, (Text, (Text, (Values<Text>, u32)))))),
);

impl Form for Usage {
    ghost text = { usage_text };

    ghost at = { usage_at };

    ghost Fits = { IsUsage };

    fn fits(&self) {
        self.call_id.fits();
        self.local_tag.fits();
        self.remote_tag.fits();
        self.local.fits();
        self.remote.fits();
        self.target.fits();
        self.routes.fits();
        self.remote_cseq.fits();
    }

    fn put(&self, alloc: Global, out: &mut Vec<u8>) -> Result<(), NoMemory> {
        self.call_id.put(alloc, out)?;
        self.local_tag.put(alloc, out)?;
        self.remote_tag.put(alloc, out)?;
        self.local.put(alloc, out)?;
        self.remote.put(alloc, out)?;
        self.target.put(alloc, out)?;
        self.routes.put(alloc, out)?;
        self.remote_cseq.put(alloc, out)?;
        Ok(())
    }

    #[tactic(auto, unfolding(crate::specs::Rows::usage_at))]
    fn cut(alloc: Global, bytes: &[u8]) -> Result<Option<(Usage, &[u8])>, NoMemory> {
        let Some((parts, rest)) = UsageParts::cut(alloc, bytes)? else {
            return Ok(None);
        };
        let (
            call_id,
            (local_tag, (remote_tag, (local, (remote, (target, (routes, remote_cseq)))))),
        ) = parts;
        let usage = Usage {
            call_id,
            local_tag,
            remote_tag,
            local,
            remote,
            target,
            routes,
            remote_cseq,
        };
        Ok(Some((usage, rest)))
    }
}

/// The string of a text, where there is one.
fn some_string(text: Option<Text>) -> Option<String>
    ensures { option_map string_bytes result ≡ text }
{
    match text {
        Some(text) => Some(text.into_string()),
        None => None,
    }
}

/// The event of these texts, where they are tokens.
fn made_event(package: Text, id: Option<Text>) -> Option<EventValue>
    ensures { result ≡ event_of («package», id) }
{
    let name = package.into_string();
    let word = some_string(id);
    EventValue::new(name, word)
}

/// Both texts of an event are tokens.
fn are_tokens(event: &EventValue)
    ensures { is_event event.now ≡ true }
{
    event.are_tokens();
}

impl Form for EventValue {
    ghost text = { event_text };

    ghost at = { event_at };

    ghost Fits = { IsEvent };

    fn fits(&self) {
        let name = self.package();
        let _length = name.len();
        if let Some(id) = self.id() {
            let _length = id.len();
        }
        are_tokens(self);
    }

    fn put(&self, _alloc: Global, out: &mut Vec<u8>) -> Result<(), NoMemory> {
        put_bytes(self.package().as_bytes(), out)?;
        put_option(self.id(), out)
    }

    #[tactic(auto, unfolding(crate::specs::Rows::event_at))]
    fn cut(alloc: Global, bytes: &[u8]) -> Result<Option<(EventValue, &[u8])>, NoMemory> {
        let Some((parts, rest)) = <(Text, Option<Text>)>::cut(alloc, bytes)? else {
            return Ok(None);
        };
        let (name, id) = parts;
        let Some(event) = made_event(name, id) else {
            return Ok(None);
        };
        Ok(Some((event, rest)))
    }
}

impl Form for Want {
    ghost text = { want_text };

    ghost at = { want_at };

    ghost Fits = { IsWant };

    fn fits(&self) {
        self.event.fits();
        self.resource.fits();
        self.to.fits();
        self.max_cseq.fits();
    }

    fn put(&self, alloc: Global, out: &mut Vec<u8>) -> Result<(), NoMemory> {
        self.event.put(alloc, out)?;
        self.resource.put(alloc, out)?;
        self.to.put(alloc, out)?;
        self.max_cseq.put(alloc, out)?;
        Ok(())
    }

    #[tactic(auto, unfolding(crate::specs::Rows::want_at))]
    fn cut(alloc: Global, bytes: &[u8]) -> Result<Option<(Want, &[u8])>, NoMemory> {
        let Some((parts, rest)) = <(EventValue, (Text, (Addr, u32)))>::cut(alloc, bytes)? else {
            return Ok(None);
        };
        let (event, (resource, (to, max_cseq))) = parts;
        let want = Want {
            event,
            resource,
            to,
            max_cseq,
        };
        Ok(Some((want, rest)))
    }
}

impl Form for Sub {
    ghost text = { state_text };

    ghost at = { state_at };

    ghost Fits = { IsState };

    fn fits(&self) {
        self.usage().fits();
        self.want().fits();
        self.count().fits();
        self.due().fits();
    }

    fn put(&self, alloc: Global, out: &mut Vec<u8>) -> Result<(), NoMemory> {
        self.usage().put(alloc, out)?;
        self.want().put(alloc, out)?;
        self.count().put(alloc, out)?;
        self.due().put(alloc, out)?;
        Ok(())
    }

    #[tactic(auto, unfolding(crate::specs::Rows::state_at, crate::specs::Rows::state_of))]
    fn cut(alloc: Global, bytes: &[u8]) -> Result<Option<(Sub, &[u8])>, NoMemory> {
        let Some((parts, rest)) = <(Usage, (Want, (u32, u64)))>::cut(alloc, bytes)? else {
            return Ok(None);
        };
        let (usage, (want, (count, due))) = parts;
        let Some(sub) = Sub::resumed(usage, want, count, due) else {
            return Ok(None);
        };
        Ok(Some((sub, rest)))
    }
}

impl Form for Unanswered {
    ghost text = { unanswered_text };

    ghost at = { unanswered_at };

    ghost Fits = { IsUnanswered };

    fn fits(&self) {
        self.number.fits();
        self.moment.fits();
    }

    fn put(&self, alloc: Global, out: &mut Vec<u8>) -> Result<(), NoMemory> {
        self.number.put(alloc, out)?;
        self.moment.put(alloc, out)?;
        Ok(())
    }

    #[tactic(auto, unfolding(crate::specs::Rows::unanswered_at))]
    fn cut(alloc: Global, bytes: &[u8]) -> Result<Option<(Unanswered, &[u8])>, NoMemory> {
        let Some((parts, rest)) = <(u32, u64)>::cut(alloc, bytes)? else {
            return Ok(None);
        };
        let (number, moment) = parts;
        Ok(Some((Unanswered { number, moment }, rest)))
    }
}

impl Form for Row {
    ghost text = { row_text };

    ghost at = { row_at };

    ghost Fits = { IsRow };

    fn fits(&self) {
        self.serial.fits();
        self.sub.fits();
        self.last_cseq.fits();
        self.unanswered.fits();
    }

    fn put(&self, alloc: Global, out: &mut Vec<u8>) -> Result<(), NoMemory> {
        self.serial.put(alloc, out)?;
        self.sub.put(alloc, out)?;
        self.last_cseq.put(alloc, out)?;
        self.unanswered.put(alloc, out)?;
        Ok(())
    }

    #[tactic(auto, unfolding(crate::specs::Rows::row_at))]
    fn cut(alloc: Global, bytes: &[u8]) -> Result<Option<(Row, &[u8])>, NoMemory> {
        let Some((parts, rest)) = <(u32, (Sub, (u32, Values<Unanswered>)))>::cut(alloc, bytes)?
        else {
            return Ok(None);
        };
        let (serial, (sub, (last_cseq, unanswered))) = parts;
        let row = Row {
            serial,
            sub,
            last_cseq,
            unanswered,
        };
        Ok(Some((row, rest)))
    }
}
