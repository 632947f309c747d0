//! NOTIFYs, each with the whole content (RFC 6665 section 4.2.2), and the boxes that it comes from: the first of a name counts.
#![tactic(auto, unfolding(notifier_model::specs::Rows::notify, notifier_model::specs::Out::out_of))]

ghost use Rattle.std.specs.Prelude.{◌≡◌, IfOk, unwrap_or, ◌<◌, List, map, option_map, OnOk, IfSome, IsOk, IsTrue, vec_len, bytes_eq};
ghost use Rattle.event_headers.specs.Values.{StateValue as State};
ghost use Rattle.subscription.specs.Written.{state_of};
ghost use Rattle.notifier_model.specs.Out.{Notifies, out_of};
ghost use Rattle.notifier_model.specs.Requests.{is_of_refer as is_of_refer_event};
ghost use Rattle.notifier_model.specs.Rows as spec;
ghost use Rattle.notifier.specs.Tellers.{telling};
ghost use Rattle.std.specs.List.{position_from};
ghost use Rattle.package.specs.Changes.{is_forget};
ghost use Rattle.package.specs.Boxes as packages;
ghost use Rattle.package.specs.Bodies.{body_of_held};

use event_headers::StateValue;
use notifier_model::event::{Note, Out};
use notifier_model::place::Place;
use package::{Change, Outcome, Package};
use sip_read::{Addr, Boxed};
use sip_text::{NoMemory, Text};
use sip_write::{NotifyText, notice as written};
use std::alloc::Global;
use subscription::{Notice, Phase, Usage, Want};

/// Where the first box of the name stands.
fn find_box<P: Package>(boxes: &Vec<P>, name: &str) -> Option<usize>
    ensures place { result ≡ position_from (λ b. bytes_eq (P.seen b).name name.now) 0 boxes.now.items }
    ensures within { IfSome result (λ i. i < vec_len boxes.now) }
{
    boxes.iter().position(|b| b.event() == name)
}

/// The first box of the name.
pub(crate) fn first_box<'a, P: Package>(boxes: &'a Vec<P>, name: &str) -> Option<&'a P>
    ensures { option_map (λ b. P.seen b.now) result ≡ packages.first_box name.now (map P.seen boxes.now.items) }
{
    match find_box(boxes, name) {
        None => None,
        Some(at) => Some(&boxes[at]),
    }
}

/// Tells a change to the first box of its package.
pub(crate) fn change_first<P: Package>(
    alloc: Global,
    boxes: &mut Vec<P>,
    change: &Change,
) -> Result<Outcome, NoMemory>
    ensures ok { IfOk result (λ o. (o, map P.seen boxes.new.items)
        ≡ packages.change_first (map P.seen boxes.old.items) change.now) }
    ensures forget { IsTrue (is_forget change.now) → IsOk result }
{
    match find_box(boxes, change.event()) {
        None => Ok(Outcome::Unknown),
        Some(at) => boxes[at].change(alloc, change),
    }
}

/// The same, whatever the box answers.
pub(crate) fn tell_first<P: Package>(
    alloc: Global,
    boxes: &mut Vec<P>,
    change: Change,
) -> Result<(), NoMemory>
    ensures { OnOk result (map P.seen boxes.new.items
        ≡ (packages.change_first (map P.seen boxes.old.items) change).1) }
{
    change_first(alloc, boxes, &change)?;
    Ok(())
}

/// The body that shows what this box holds of the resource.
pub(crate) fn body<P: Package>(
    alloc: Global,
    found: Option<&P>,
    resource: &str,
) -> Result<Vec<u8>, NoMemory>
    ensures { IfOk result (λ v. v.items
        ≡ body_of_held (packages.held_by resource.now (option_map (λ b. P.seen b.now) found.entry))) }
{
    match found {
        None => Ok(Vec::new(alloc)),
        Some(found) => Ok(found.body(alloc, resource)?.unwrap_or(Vec::new(alloc))),
    }
}

/// The content type of this box.
pub(crate) fn content_type<'a, P: Package>(found: Option<&'a P>) -> &'a str
    ensures { result.now ≡ packages.type_of (option_map (λ b. P.seen b.now) found.entry) }
{
    match found {
        None => "",
        Some(found) => found.content_type(),
    }
}

/// The Subscription-State of a phase (RFC 6665 section 4.1.3).
fn state_value(alloc: Global, phase: Phase) -> Result<StateValue, NoMemory>
    ensures { IfOk result (λ s. s ≡ state_of phase) }
{
    match phase {
        Phase::Active(left) => StateValue::worded(alloc, "active", Some(left), None, None),
        Phase::Terminated(reason) => {
            StateValue::worded(alloc, "terminated", None, Some(reason.word()), None)
        }
    }
}

/// Whether this is the want of a transfer.
pub fn is_of_refer(want: &Want) -> bool
    ensures { result ≡ is_of_refer_event want.now.event }
{
    want.event.package() == "refer"
}

/// What a subscription watches: its mailbox, or its transfer, which has its tag.
fn watched<'a>(usage: &'a Usage, want: &'a Want) -> &'a Text
    ensures { result.now ≡ unwrap_or (spec.mailbox_of want.now) usage.now.local_tag }
{
    if is_of_refer(want) {
        &usage.local_tag
    } else {
        &want.resource
    }
}

/// What is known of a subscription with a NOTIFY of it in this phase.
pub fn note(
    alloc: Global,
    usage: &Usage,
    want: &Want,
    phase: Phase,
) -> Result<Boxed<Note>, NoMemory>
    ensures { IfOk result (λ note. note ≡ record {
      watcher = usage.now.remote;
      resource = unwrap_or (spec.mailbox_of want.now) usage.now.local_tag;
      target = usage.now.target;
      call_id = usage.now.call_id;
      left = (state_of phase).expires;
    }) }
{
    let note = Note {
        watcher: usage.remote.copy(alloc)?,
        resource: watched(usage, want).copy(alloc)?,
        target: usage.target.copy(alloc)?,
        call_id: usage.call_id.copy(alloc)?,
        left: phase.expires(),
    };
    Boxed::new(alloc, note)
}

/// What a NOTIFY is written from: the place of the desk, what its boxes hold, and the moment.
#[derive(Drop)]
pub struct Teller<'a, P: Package> {
    pub place: &'a Place,
    pub boxes: &'a Vec<P>,
    /// The moment, in seconds.
    pub clock: u64,
}

impl<P: Package> Teller<'_, P> {
    /// The NOTIFY that tells of a subscription, to this address.
    pub fn notice_out(
        &self,
        alloc: Global,
        to: Addr,
        usage: &Usage,
        want: &Want,
        notice: Notice,
    ) -> Result<Out, NoMemory>
        ensures { IfOk result (λ out. out ≡ out_of (Notifies to (spec.mailbox_of want.now)
            (spec.notify (telling P.seen self.now) usage.now want.now notice))) }
    {
        let tag = usage.local_tag.copy(alloc)?;
        let note = note(alloc, usage, want, notice.phase)?;
        let found = first_box(self.boxes, want.event.package());
        let body = body(alloc, found, want.resource.as_str())?;
        let state = state_value(alloc, notice.phase)?;
        let text = NotifyText {
            target: usage.target.as_str(),
            routes: usage.routes.as_slice(),
            me: self.place.me,
            local: usage.local.as_str(),
            local_tag: usage.local_tag.as_str(),
            remote: usage.remote.as_str(),
            call_id: usage.call_id.as_str(),
            number: notice.number,
            event: &want.event,
            state: &state,
            content_type: content_type(found),
            body: body.as_slice(),
        };
        let bytes = written(alloc, &text)?;
        Ok(Out::Notify {
            to,
            number: notice.number,
            terminated: notice.phase.is_terminated(),
            tag,
            note,
            bytes,
        })
    }
}
