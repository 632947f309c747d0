//! A request that makes a dialog (RFC 3261 section 12.1.1), as a step of a ledger: its answer goes out, then its first
//! NOTIFY, then the word that its transfer may start. Also what the rows keep of it.
#![tactic(auto, unfolding(notifier_model::specs::Book::keeping, notifier_model::specs::Book::born, notifier_model::specs::Book::served, notifier_model::specs::Book::first_boxes, notifier_model::specs::Book::first_gone, notifier_model::specs::Book::first_word, notifier_model::specs::Rows::forgetting, notifier_model::specs::Out::out_of))]

ghost use Rattle.std.specs.Prelude.{◌≡◌, ◌≤◌, ◌<◌, ◌+◌, ◌^◌, ◌++◌, true, not, map, IfOk, OnOk, None, is_none, option_to_list};
ghost use Rattle.notifier_model.specs.Book as spec;
ghost use Rattle.notifier.specs.Incoming.{Serves};
ghost use Rattle.notifier.specs.Ledger.{book_of, IsSound};
ghost use Rattle.notifier_model.specs.Out.{out_of};
ghost use Rattle.notifier_model.specs.Requests as requests;
ghost use Rattle.notifier_model.specs.Start.{tag_of};
ghost use Rattle.notifier.specs.Stored.{rows_of};
ghost use Rattle.notifier.specs.Told.{lasts};
ghost use Rattle.notifier_model.specs.Fields as fields;

use crate::answer::{birth_answer, respond};
use crate::desk::tag_or_empty;
use crate::incoming::{Incoming, Pending};
use crate::notice::{Teller, tell_first};
use crate::store::Ledger;
use event_headers::EventValue;
use notifier_model::birth::{Birth, Newborn};
use notifier_model::event::Out;
use notifier_model::row::{Row, Unanswered};
use package::{Change, Package};
use sip_read::Request;
use sip_text::{Field, NoMemory, Text, Values};
use std::alloc::Global;
use subscription::{Step, Sub, Usage, Want};

/// The transfer of a REFER may start.
fn start(
    alloc: Global,
    tag: Text,
    incoming: &Incoming<'_>,
    outs: &mut Vec<Out>,
) -> Result<(), NoMemory>
    requires { requests.is_refer incoming.now.request.now ≡ true }
    ensures { OnOk result (outs.new.items
        ≡ outs.old.items ++ map out_of (spec.first_word tag incoming.now.request.now)) }
{
    let refer_to = Text::of(alloc, value_or_empty(&incoming.request.refer_to))?;
    outs.push(Out::Start { tag, refer_to })?;
    Ok(())
}

impl<P: Package> Ledger<P> {
    /// A subscription begins: its first NOTIFY goes behind the outs that are there, and its row behind the others, if it stays. Does it?
    fn begin(
        &mut self,
        alloc: Global,
        incoming: &Incoming<'_>,
        newborn: &Newborn,
        outs: &mut Vec<Out>,
    ) -> Result<bool, NoMemory>
        requires fits { requests.misfit incoming.now.request.now ≡ None }
        requires kind { newborn.now.kind ≡ requests.birth_of incoming.now.place.now.limits incoming.now.request.now }
        requires lasts { lasts newborn.now.kind ≡ true }
        requires sound { IsSound incoming.now.place.now self.old }
        requires serial { newborn.now.serial ≡ self.old.next }
        requires tag { newborn.now.tag ≡ tag_of incoming.now.place.now self.old.next }
        requires room { self.old.next ≤ incoming.now.place.now.limits.serials }
        ensures rows { OnOk result (rows_of self.new.rows ≡ rows_of self.old.rows ++ option_to_list
            (spec.first_told (spec.telling incoming.now.place.now (book_of P.seen self.old))
            incoming.now.source incoming.now.request.now newborn.now).row) }
        ensures stays { IfOk result (λ stays. is_none
            (spec.first_told (spec.telling incoming.now.place.now (book_of P.seen self.old))
            incoming.now.source incoming.now.request.now newborn.now).row ≡ not stays) }
        ensures outs { OnOk result (outs.new.items ≡ outs.old.items ++ map out_of
            (spec.first_told (spec.telling incoming.now.place.now (book_of P.seen self.old))
            incoming.now.source incoming.now.request.now newborn.now).notifies) }
        ensures same { OnOk result ((self.new.clock ≡ self.old.clock) × (self.new.next ≡ self.old.next + 1)
            × (self.new.ring ≡ self.old.ring) × (self.new.boxes ≡ self.old.boxes)) }
        ensures sound { OnOk result (IsSound incoming.now.place.now self.new) }
    {
        incoming.place.limits.are_in_range();
        let want = new_want(alloc, &newborn.tag, incoming)?;
        let usage = new_usage(alloc, &newborn.tag, incoming.request)?;
        let step = Sub::accept(usage, want, self.clock, incoming.granted());
        let teller = Teller {
            place: incoming.place,
            boxes: &self.boxes,
            clock: self.clock,
        };
        match step {
            Step::Live(sub, notice) => {
                let out = teller.notice_out(
                    alloc,
                    incoming.source,
                    sub.usage(),
                    sub.want(),
                    notice,
                )?;
                outs.push(out)?;
                let mut unanswered = Vec::new(alloc);
                unanswered.push(Unanswered {
                    number: notice.number,
                    moment: self.clock,
                })?;
                let row = Row {
                    serial: newborn.serial,
                    sub,
                    last_cseq: incoming.request.head.cseq,
                    unanswered: Values::new(unanswered),
                };
                self.rows.push(alloc, row)?;
                self.next += 1;
                Ok(true)
            }
            Step::Over(usage, want, notice) => {
                let out = teller.notice_out(alloc, incoming.source, &usage, &want, notice)?;
                outs.push(out)?;
                self.next += 1;
                Ok(false)
            }
        }
    }

    /// What is fetched is told once, behind the outs that are there.
    fn fetch(
        &self,
        alloc: Global,
        incoming: &Incoming<'_>,
        newborn: &Newborn,
        outs: &mut Vec<Out>,
    ) -> Result<(), NoMemory>
        requires fits { requests.misfit incoming.now.request.now ≡ None }
        requires kind { newborn.now.kind ≡ Birth.Fetch }
        ensures outs { OnOk result (outs.new.items ≡ outs.old.items ++ map out_of
            (spec.first_told (spec.telling incoming.now.place.now (book_of P.seen self.now))
            incoming.now.source incoming.now.request.now newborn.now).notifies) }
    {
        let want = new_want(alloc, &newborn.tag, incoming)?;
        let usage = new_usage(alloc, &newborn.tag, incoming.request)?;
        let (usage, want, notice) = Sub::fetch(usage, want);
        let once = Teller {
            place: incoming.place,
            boxes: &self.boxes,
            clock: self.clock,
        };
        let out = once.notice_out(alloc, incoming.source, &usage, &want, notice)?;
        outs.push(out)?;
        Ok(())
    }

    /// A request that makes a dialog.
    pub fn bear(
        &mut self,
        alloc: Global,
        pending: Pending<'_>,
        kind: Birth,
    ) -> Result<Vec<Out>, NoMemory>
        requires fits { requests.misfit pending.incoming.now.request.now ≡ None }
        requires kind { kind ≡ requests.birth_of pending.incoming.now.place.now.limits pending.incoming.now.request.now }
        requires sound { IsSound pending.incoming.now.place.now self.old }
        requires room { self.old.next ≤ pending.incoming.now.place.now.limits.serials }
        ensures step { IfOk result (λ outs.
            Serves P.seen self.old pending.entry (spec.Born kind) self.new outs.items) }
        ensures sound { OnOk result (IsSound pending.entry.incoming.now.place.now self.new) }
    {
        let incoming = pending.incoming;
        incoming.place.limits.are_in_range();
        let serial = self.next as u32;
        let tag = self.tags.tag(alloc, incoming.place, serial)?;
        let bytes = birth_answer(alloc, incoming, &tag)?;
        let mut outs = respond(alloc, &mut self.ring, pending, bytes)?;
        let newborn = Newborn { kind, serial, tag };
        match kind {
            Birth::Watch => {
                self.begin(alloc, incoming, &newborn, &mut outs)?;
                Ok(outs)
            }
            Birth::Fetch => {
                self.fetch(alloc, incoming, &newborn, &mut outs)?;
                self.next += 1;
                Ok(outs)
            }
            Birth::Transfer => {
                tell_first(
                    alloc,
                    &mut self.boxes,
                    Change::Begin(newborn.tag.copy(alloc)?),
                )?;
                let stays = self.begin(alloc, incoming, &newborn, &mut outs)?;
                start(alloc, newborn.tag.copy(alloc)?, incoming, &mut outs)?;
                if stays {
                    return Ok(outs);
                }
                tell_first(alloc, &mut self.boxes, Change::Forget(newborn.tag))?;
                Ok(outs)
            }
            Birth::Unwatched => {
                self.next += 1;
                start(alloc, newborn.tag, incoming, &mut outs)?;
                Ok(outs)
            }
        }
    }
}

fn copy_texts(alloc: Global, texts: &[Text]) -> Result<Values<Text>, NoMemory>
    ensures { IfOk result (λ copies. copies ≡ texts.now) }
{
    let mut copies = Vec::with_capacity(alloc, texts.len())?;
    for text in texts {
        copies.push(text.copy(alloc)?)?;
    }
    Ok(Values::new(copies))
}

/// The value of a header, or the empty text.
pub fn value_or_empty(field: &Field<Text>) -> &str
    ensures { result.now ≡ fields.or_empty (fields.value_of field.now) }
{
    match field {
        Field::Value(text) => text.as_str(),
        _ => "",
    }
}

/// The dialog that a request makes.
#[tactic(auto, unfolding(notifier_model::specs::Book::new_usage, notifier_model::specs::Book::new_want, notifier_model::specs::Requests::event_of))]
fn new_usage(alloc: Global, tag: &Text, request: &Request) -> Result<Usage, NoMemory>
    ensures { IfOk result (λ usage. usage ≡ spec.new_usage tag.now request.now) }
{
    let head = &request.head;
    let call_id = head.call_id.copy(alloc)?;
    let local_tag = tag.copy(alloc)?;
    let remote_tag = Text::of(alloc, tag_or_empty(&head.from.tag))?;
    let local = head.to.text.copy(alloc)?;
    let remote = head.from.text.copy(alloc)?;
    let target = Text::of(alloc, value_or_empty(&request.contact))?;
    let routes = copy_texts(alloc, request.record_routes.as_slice())?;
    Ok(Usage {
        call_id,
        local_tag,
        remote_tag,
        local,
        remote,
        target,
        routes,
        remote_cseq: head.cseq,
    })
}

/// The event of a request that fits: a SUBSCRIBE has one, and a REFER makes its own (RFC 3515 section 2.4.6).
#[tactic(auto, unfolding(notifier_model::specs::Book::new_usage, notifier_model::specs::Book::new_want, notifier_model::specs::Requests::event_of))]
fn event(alloc: Global, incoming: &Incoming<'_>) -> Result<EventValue, NoMemory>
    requires fits { requests.misfit incoming.now.request.now ≡ None }
    ensures { IfOk result (λ event. event ≡ requests.event_of incoming.now.request.now) }
{
    match &incoming.request.event {
        Field::Value(event) if !incoming.refers => event.copy(alloc),
        _ => EventValue::numbered(alloc, "refer", incoming.request.head.cseq),
    }
}

/// What the subscription of a request that fits is about: a mailbox, or the tag of a transfer.
#[tactic(auto, unfolding(notifier_model::specs::Book::new_usage, notifier_model::specs::Book::new_want, notifier_model::specs::Requests::event_of))]
fn new_want(alloc: Global, tag: &Text, incoming: &Incoming<'_>) -> Result<Want, NoMemory>
    requires fits { requests.misfit incoming.now.request.now ≡ None }
    ensures want { IfOk result (λ want.
        want ≡ spec.new_want incoming.now.place.now tag.now incoming.now.source incoming.now.request.now) }
    ensures some_number { IfOk result (λ want. 1 ≤ want.max_cseq) }
{
    let event = event(alloc, incoming)?;
    let resource = if incoming.refers {
        tag.as_str()
    } else {
        incoming.user
    };
    let resource = Text::of(alloc, resource)?;
    Ok(Want {
        event,
        resource,
        to: incoming.source,
        max_cseq: incoming.place.limits.max_cseq(),
    })
}
