//! A live subscription, and what each cause makes of it.
#![tactic(auto, unfolding(crate::specs::Table::told, crate::specs::Table::accept, crate::specs::Table::fetch, crate::specs::Table::refresh, crate::specs::Table::changed, crate::specs::Table::end, crate::specs::Table::is_answer_to, crate::specs::Table::is_refusal_of, crate::specs::Table::refused_by, crate::specs::Table::lost))]

ghost use Rattle.std.specs.Prelude.{◌≡◌, ◌+◌, ◌<◌, ◌≤◌, ◌^◌, SomeIff};
ghost use Rattle.subscription.specs.Table as table;

use crate::notify::{Notice, Reason};
use crate::terms::{Usage, Want};
use sip_read::{Addr, Response};
use sip_text::Text;
use std::marker::Model;

/// A live subscription: its dialog, what was asked for, how many NOTIFYs it had, and the second in which its
/// time is up. Each arrow is one NOTIFY, but for those marked untold; the sections are those of RFC 6665.
///
/// ```text
///   accept (4.2.1.1)                                fetch (4.4.3)
///       |                                                |
///       v                                                v
///   +--------+                                    +------------+
///   | active |--- end: timeout (4.2.1.4) -------->| terminated |
///   |        |--- changed, over: noresource ----->|            |
///   |        |--- the last number: deactivated -->|            |
///   |        |--- end: deactivated (4.1.3) ------>|            |
///   |        |                                    +------------+
///   |        |--- a 481 to a NOTIFY (4.2.2) ---->  gone, untold
///   |        |--- lost: no answer (4.2.2) ------->  gone, untold
///   |        |
///   |        |---+ refresh (4.2.1.4)
///   |        |<--+ changed (4.2.2)
///   +--------+
/// ```
///
/// The last number is that which the dialog may not go beyond, `max_cseq`: where `accept`, `refresh` or `changed`
/// would give an active NOTIFY of that number, it is terminated in its place, and no state follows. Section 4.1.3
/// says what each reason asks of the subscriber.
#[derive(Debug, Drop)]
pub struct Sub {
    usage: Usage,
    want: Want,
    count: u32,
    due: u64,
}

impl Model for Sub {
    ghost use Rattle.std.specs.Prelude.{◌<◌, ◌≤◌};
    ghost use Rattle.subscription.specs.State.{State};

    ghost Value = { State };

    ghost view = { λ s. record { usage = s.usage; want = s.want; count = s.count; due = s.due } };

    // it was told of, and has a number left
    ghost invariant = { λ s. (1 ≤ s.count) × (s.count < s.want.max_cseq) };
}

/// What follows a cause, and the NOTIFY that tells of it.
#[derive(Debug, Drop)]
pub enum Step {
    /// The subscription goes on.
    Live(Sub, Notice),
    /// It is over. Its last NOTIFY is sent in this dialog, and tells of what was asked for.
    Over(Usage, Want, Notice),
}

// The NOTIFY of a state that goes on, unless that takes the last number.
fn told(usage: Usage, want: Want, count: u32, due: u64, left: u32) -> Step
    requires first { 1 ≤ count }
    requires last { count ≤ want.max_cseq }
    ensures { result ≡ table.told (record { usage = usage; want = want; count = count; due = due }) left }
{
    if count == want.max_cseq {
        return Step::Over(usage, want, Notice::terminated(count, Reason::Deactivated));
    }
    let sub = Sub {
        usage,
        want,
        count,
        due,
    };
    Step::Live(sub, Notice::active(count, left))
}

fn is_tag(other: &Option<Text>, tag: &Text) -> bool
    ensures { result ≡ table.is_tag other.now tag.now }
{
    match other {
        Some(other) => other.is(tag.as_str()),
        None => false,
    }
}

impl Sub {
    /// A new subscription, for `granted` seconds from `now` on, and its first NOTIFY (RFC 6665 section 4.2.1.1).
    pub fn accept(usage: Usage, want: Want, now: u64, granted: u32) -> Step
        requires some_time { 1 ≤ granted }
        requires some_number { 1 ≤ want.max_cseq }
        requires in_range { now < 2 ^ 63 }
        ensures { result ≡ table.accept usage want now granted }
    {
        told(usage, want, 1, now + u64::from(granted), granted)
    }

    /// The one NOTIFY of a SUBSCRIBE outside a dialog that asks for no time (RFC 6665 section 4.4.3).
    pub fn fetch(usage: Usage, want: Want) -> (Usage, Want, Notice)
        ensures { result ≡ table.fetch usage want }
    {
        (usage, want, Notice::terminated(1, Reason::Timeout))
    }

    /// A SUBSCRIBE in the dialog with this CSeq number, from `to`, begins the time anew: `granted` seconds from
    /// `now` on. A target that it brings replaces the old one (RFC 6665 section 4.2.1.4).
    pub fn refresh(self, cseq: u32, target: Option<Text>, to: Addr, now: u64, granted: u32) -> Step
        requires some_time { 1 ≤ granted }
        requires in_range { now < 2 ^ 63 }
        ensures { result ≡ table.refresh self cseq target to now granted }
    {
        let target = target.unwrap_or(self.usage.target);
        let usage = Usage {
            target,
            remote_cseq: cseq,
            ..self.usage
        };
        let want = Want { to, ..self.want };
        let due = now + u64::from(granted);
        told(usage, want, self.count + 1, due, granted)
    }

    /// A subscription that was saved goes on where it was. None where it was never told of, or has no number left.
    pub fn resumed(usage: Usage, want: Want, count: u32, due: u64) -> Option<Sub>
        ensures { SomeIff result ((1 ≤ count) × (count < want.max_cseq))
            (record { usage = usage; want = want; count = count; due = due }) }
    {
        if count < 1 || want.max_cseq <= count {
            return None;
        }
        Some(Sub {
            usage,
            want,
            count,
            due,
        })
    }

    /// What it watches has changed (RFC 6665 section 4.2.2). Where that is `over` for good, so is the
    /// subscription. Its time may not be up yet.
    pub fn changed(self, now: u64, over: bool) -> Step
        requires still_live { now < self.due }
        requires left_fits { self.due ≤ now + 4294967295 }
        ensures { result ≡ table.changed self now over }
    {
        if over {
            let (usage, want, notice) = self.end(Reason::Noresource);
            return Step::Over(usage, want, notice);
        }
        let left = (self.due - now) as u32;
        told(self.usage, self.want, self.count + 1, self.due, left)
    }

    /// It ends, and a last NOTIFY says why: its time is up, or the subscriber asked for no more of it (RFC 6665
    /// section 4.2.1.4), or the notifier stops (section 4.1.3).
    pub fn end(self, reason: Reason) -> (Usage, Want, Notice)
        ensures { result ≡ table.end self reason }
    {
        let number = self.count + 1;
        (self.usage, self.want, Notice::terminated(number, reason))
    }

    /// The dialog of a subscription that this response refuses: a 481 to one of its NOTIFYs (RFC 6665 section
    /// 4.2.2). Any other response hands it back as it was.
    pub fn refused_by(self, response: &Response) -> Result<Usage, Sub>
        ensures { result ≡ table.refused_by self response.now }
    {
        if self.is_refused_by(response) {
            Ok(self.usage)
        } else {
            Err(self)
        }
    }

    fn is_refused_by(&self, response: &Response) -> bool
        ensures { result ≡ table.is_refusal_of self.now response.now }
    {
        response.status == 481 && self.is_answered_by(response)
    }

    /// Whether this response answers one of its NOTIFYs: by its CSeq, its From tag and its Call-ID (RFC 3261
    /// section 12.2.1.2), whatever its status.
    pub fn is_answered_by(&self, response: &Response) -> bool
        ensures { result ≡ table.is_answer_to self.now response.now }
    {
        let head = &response.head;
        head.cseq_method.is("NOTIFY")
            && head.call_id.is(self.usage.call_id.as_str())
            && is_tag(&head.from.tag, &self.usage.local_tag)
            && (1..=self.count).contains(&head.cseq)
    }

    /// The dialog of a subscription of which a NOTIFY stayed unanswered, and what was asked for: it is gone without
    /// another (RFC 6665 section 4.2.2).
    pub fn lost(self) -> (Usage, Want)
        ensures { result ≡ table.lost self }
    {
        let Sub { usage, want, .. } = self;
        (usage, want)
    }

    /// How many NOTIFYs it had.
    pub fn count(&self) -> u32
        ensures value { result ≡ self.now.count }
        ensures left { (1 ≤ result) × (result < self.now.want.max_cseq) }
    {
        self.count
    }

    /// The second in which its time is up.
    pub fn due(&self) -> u64
        ensures { result ≡ self.now.due }
    {
        self.due
    }

    /// Its dialog, with the latest target and the CSeq number of the latest renewal.
    pub fn usage(&self) -> &Usage
        ensures { result.now ≡ self.now.usage }
    {
        &self.usage
    }

    /// What was asked for, with the latest address.
    pub fn want(&self) -> &Want
        ensures { result.now ≡ self.now.want }
    {
        &self.want
    }
}
