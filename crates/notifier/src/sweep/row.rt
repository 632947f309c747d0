//! What each cause makes of one row.
#![tactic(auto, unfolding(notifier_model::specs::Rows::stays, notifier_model::specs::Rows::goes, notifier_model::specs::Rows::gone_at, notifier_model::specs::Rows::wherever, notifier_model::specs::Rows::opened, notifier_model::specs::Rows::closed, notifier_model::specs::Rows::only, notifier_model::specs::Rows::takes_answer, notifier_model::specs::Rows::answered, notifier_model::specs::Rows::is_overdue, notifier_model::specs::Rows::counted, notifier_model::specs::Rows::turned, notifier_model::specs::Rows::tells, notifier_model::specs::Rows::ends, notifier_model::specs::Rows::times_out, notifier_model::specs::Rows::stops, notifier_model::specs::Rows::tells_change, notifier_model::specs::Rows::tells_watcher, notifier_model::specs::Rows::renewed, notifier_model::specs::Rows::renewed_sub, subscription::specs::Table::told, subscription::specs::Table::end, subscription::specs::Table::changed, subscription::specs::Table::refresh, subscription::specs::Table::is_refusal_of, subscription::specs::Table::refused_by, subscription::specs::Table::lost))]

ghost use Rattle.std.specs.Prelude.{◌≡◌, ◌<◌, ◌^◌, filter, not, IfOk, Some, None};
ghost use Rattle.notifier_model.specs.Rows as spec;
ghost use Rattle.notifier_model.specs.Fields.{value_of};
ghost use Rattle.notifier_model.specs.Out.{Notifies, out_of};
ghost use Rattle.notifier.specs.Sound.{IsLive};
ghost use Rattle.notifier.specs.Tellers.{telling};
ghost use Rattle.notifier.specs.Told.{FollowsRule, gone_from};

use crate::incoming::Incoming;
use crate::notice::{Teller, is_of_refer};
use notifier_model::event::Out;
use notifier_model::row::{Row, Unanswered};
use package::Package;
use sip_read::{Addr, Request, Response};
use sip_text::{Field, NoMemory, Text, Values};
use std::alloc::Global;
use subscription::{Notice, Reason, Step, Sub, Usage, Want};

/// What an event makes of one row.
#[derive(Drop)]
pub enum After {
    /// The row stays, with its NOTIFY, if it was told.
    Stays(Row, Option<Out>),
    /// It goes, with its last NOTIFY, if it was told.
    Goes(Gone, Option<Out>),
}

/// What a row that goes leaves.
#[derive(Drop)]
pub struct Gone {
    /// What it asked for.
    pub want: Want,
    /// The tag of its transfer, where it has one.
    pub transfer: Option<Text>,
}

impl Gone {
    /// What a subscription that is over leaves.
    fn new(usage: Usage, want: Want) -> Gone
        ensures { result ≡ gone_from usage want }
    {
        let transfer = if is_of_refer(&want) {
            Some(usage.local_tag)
        } else {
            None
        };
        Gone { want, transfer }
    }
}

/// A row that goes untold.
fn goes(row: Row) -> After
    ensures { result ≡ After.Goes (gone_from row.sub.usage row.sub.want) None }
{
    let Row { sub, .. } = row;
    let (usage, want) = sub.lost();
    After::Goes(Gone::new(usage, want), None)
}

fn has_number(notify: &Unanswered, number: u32) -> bool
    ensures { result ≡ spec.has_number number notify.now }
{
    notify.number == number
}

/// The NOTIFY with this number isn't unanswered any more.
fn close(unanswered: &mut Vec<Unanswered>, number: u32)
    ensures { unanswered.new.items ≡ filter (λ notify. not (spec.has_number number notify)) unanswered.old.items }
{
    unanswered.retain(|notify| !has_number(notify, number));
}

/// The row whose NOTIFY with this number is answered.
fn closed(number: u32, row: Row) -> Row
    ensures { result ≡ spec.closed number row }
{
    let Row {
        serial,
        sub,
        last_cseq,
        unanswered,
    } = row;
    let mut unanswered = unanswered.into_vec();
    close(&mut unanswered, number);
    Row {
        serial,
        sub,
        last_cseq,
        unanswered: Values::new(unanswered),
    }
}

/// A response: a 481 to a NOTIFY ends its subscription without another, and another final answer closes its NOTIFY.
pub fn take_answer(response: &Response, row: Row) -> After
    ensures { FollowsRule (spec.answered response.now) row result }
{
    if !row.sub.is_answered_by(response) {
        return After::Stays(row, None);
    }
    if response.status == 481 {
        return goes(row);
    }
    if response.status < 200 {
        return After::Stays(row, None);
    }
    After::Stays(closed(response.head.cseq, row), None)
}

/// A request that is denied in its dialog moves the last CSeq of the row with this serial.
pub fn count(wanted: u32, request: &Request, row: Row) -> After
    ensures { FollowsRule (spec.only wanted (spec.counted request.now)) row result }
{
    if row.serial != wanted {
        return After::Stays(row, None);
    }
    let row = Row {
        last_cseq: request.head.cseq,
        ..row
    };
    After::Stays(row, None)
}

/// Whether a NOTIFY of it was unanswered for too long.
fn is_overdue(clock: u64, row: &Row) -> bool
    ensures { result ≡ spec.is_overdue clock row.now }
{
    row.unanswered
        .as_slice()
        .iter()
        .any(|notify| clock.saturating_sub(notify.moment) >= 32)
}

/// Whether a row watches this resource of this package.
fn watches(row: &Row, name: &str, resource: &str) -> bool
    ensures { result ≡ spec.watches name.now resource.now row.now }
{
    let want = row.sub.want();
    want.event.package() == name && want.resource.is(resource)
}

fn new_target(alloc: Global, contact: &Field<Text>) -> Result<Option<Text>, NoMemory>
    ensures { IfOk result (λ target. target ≡ value_of contact.now) }
{
    match contact {
        Field::Value(target) => Ok(Some(target.copy(alloc)?)),
        _ => Ok(None),
    }
}

impl<P: Package> Teller<'_, P> {
    /// The row, which waits for an answer to this NOTIFY too.
    fn opened(&self, notice: Notice, mut row: Row) -> Result<Row, NoMemory>
        ensures { IfOk result (λ opened. opened ≡ spec.opened self.now.clock notice row) }
    {
        let mut unanswered = row.unanswered.into_vec();
        unanswered.push(Unanswered {
            number: notice.number,
            moment: self.clock,
        })?;
        row.unanswered = Values::new(unanswered);
        Ok(row)
    }

    /// A row whose subscription goes on, as it is with this NOTIFY, which goes to this address.
    pub fn goes_on(
        &self,
        alloc: Global,
        to: Addr,
        row: Row,
        notice: Notice,
    ) -> Result<After, NoMemory>
        ensures { IfOk result (λ after. after ≡ After.Stays (spec.opened self.now.clock notice row) (Some (out_of (Notifies to (spec.mailbox_of row.sub.want)
            (spec.notify (telling P.seen self.now) row.sub.usage row.sub.want notice))))) }
    {
        let out = self.notice_out(alloc, to, row.sub.usage(), row.sub.want(), notice)?;
        let row = self.opened(notice, row)?;
        Ok(After::Stays(row, Some(out)))
    }

    /// A row whose subscription is over, with its last NOTIFY, which goes to this address.
    pub fn finishes(
        &self,
        alloc: Global,
        to: Addr,
        usage: Usage,
        want: Want,
        notice: Notice,
    ) -> Result<After, NoMemory>
        ensures { IfOk result (λ after. after ≡ After.Goes (gone_from usage want) (Some (out_of (Notifies to (spec.mailbox_of want)
            (spec.notify (telling P.seen self.now) usage want notice))))) }
    {
        let out = self.notice_out(alloc, to, &usage, &want, notice)?;
        Ok(After::Goes(Gone::new(usage, want), Some(out)))
    }

    /// The end of a row, with a last NOTIFY that says why.
    fn end(&self, alloc: Global, reason: Reason, row: Row) -> Result<After, NoMemory>
        ensures { IfOk result (λ after. FollowsRule
            (spec.ends (telling P.seen self.now) reason) row after) }
    {
        let Row { sub, .. } = row;
        let (usage, want, notice) = sub.end(reason);
        self.finishes(alloc, want.to, usage, want, notice)
    }

    /// Time: a row of which a NOTIFY was unanswered for too long goes, else one whose time is up gets a last NOTIFY.
    pub fn time_out(&self, alloc: Global, row: Row) -> Result<After, NoMemory>
        ensures { IfOk result (λ after. FollowsRule
            (spec.times_out (telling P.seen self.now)) row after) }
    {
        if is_overdue(self.clock, &row) {
            return Ok(goes(row));
        }
        if row.sub.due() > self.clock {
            return Ok(After::Stays(row, None));
        }
        self.end(alloc, Reason::Timeout, row)
    }

    /// The planned stop: each row gets a last NOTIFY.
    pub fn stop(&self, alloc: Global, row: Row) -> Result<After, NoMemory>
        ensures { IfOk result (λ after. FollowsRule
            (spec.stops (telling P.seen self.now)) row after) }
    {
        self.end(alloc, Reason::Deactivated, row)
    }

    /// A change to what a row watches.
    fn tell_change(&self, alloc: Global, is_over: bool, row: Row) -> Result<After, NoMemory>
        requires { IsLive self.now.clock row }
        ensures { IfOk result (λ after. FollowsRule
            (spec.tells_change (telling P.seen self.now) is_over) row after) }
    {
        let to = row.sub.want().to;
        let next = row.sub.changed(self.clock, is_over);
        match next {
            Step::Live(sub, notice) => self.goes_on(alloc, to, Row { sub, ..row }, notice),
            Step::Over(usage, want, notice) => self.finishes(alloc, to, usage, want, notice),
        }
    }

    /// A change: a row that watches its resource is told.
    pub fn tell_watcher(
        &self,
        alloc: Global,
        name: &str,
        resource: &str,
        is_over: bool,
        row: Row,
    ) -> Result<After, NoMemory>
        requires { IsLive self.now.clock row }
        ensures { IfOk result (λ after. FollowsRule
            (spec.tells_watcher (telling P.seen self.now)
            name.now resource.now is_over) row after) }
    {
        if !watches(&row, name, resource) {
            return Ok(After::Stays(row, None));
        }
        self.tell_change(alloc, is_over, row)
    }

    /// What a SUBSCRIBE in its dialog makes of a subscription.
    fn renewed_sub(
        &self,
        alloc: Global,
        incoming: &Incoming<'_>,
        sub: Sub,
    ) -> Result<Step, NoMemory>
        requires clock { self.now.clock < 2 ^ 63 }
        requires here { incoming.now.place.now ≡ self.now.place.now }
        ensures { IfOk result (λ next. next
            ≡ spec.renewed_sub self.now.place.now self.now.clock incoming.now.source incoming.now.request.now sub) }
    {
        if incoming.asks_nothing() {
            let (usage, want, notice) = sub.end(Reason::Timeout);
            return Ok(Step::Over(usage, want, notice));
        }
        let target = new_target(alloc, &incoming.request.contact)?;
        Ok(sub.refresh(
            incoming.request.head.cseq,
            target,
            incoming.source,
            self.clock,
            incoming.granted(),
        ))
    }

    /// A SUBSCRIBE in its dialog renews a row, or ends it.
    fn renew_row(&self, alloc: Global, incoming: &Incoming<'_>, row: Row) -> Result<After, NoMemory>
        requires clock { self.now.clock < 2 ^ 63 }
        requires here { incoming.now.place.now ≡ self.now.place.now }
        ensures { IfOk result (λ after. FollowsRule
            (spec.renewed (telling P.seen self.now)
            incoming.now.source incoming.now.request.now) row after) }
    {
        let last_cseq = incoming.request.head.cseq;
        let next = self.renewed_sub(alloc, incoming, row.sub)?;
        match next {
            Step::Live(sub, notice) => {
                let row = Row {
                    sub,
                    last_cseq,
                    ..row
                };
                self.goes_on(alloc, incoming.source, row, notice)
            }
            Step::Over(usage, want, notice) => {
                self.finishes(alloc, incoming.source, usage, want, notice)
            }
        }
    }

    /// The same of the row with this serial alone.
    pub fn renew(
        &self,
        alloc: Global,
        wanted: u32,
        incoming: &Incoming<'_>,
        row: Row,
    ) -> Result<After, NoMemory>
        requires clock { self.now.clock < 2 ^ 63 }
        requires here { incoming.now.place.now ≡ self.now.place.now }
        ensures { IfOk result (λ after. FollowsRule
            (spec.only wanted
            (spec.renewed (telling P.seen self.now)
            incoming.now.source incoming.now.request.now)) row after) }
    {
        if row.serial != wanted {
            return Ok(After::Stays(row, None));
        }
        self.renew_row(alloc, incoming, row)
    }
}
