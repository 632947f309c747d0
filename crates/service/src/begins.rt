//! What a service begins with beside its desks: where it goes on, NOTIFYs that nobody answered yet, and who watches.
ghost use Rattle.std.specs.Prelude.{◌≡◌, [], None};
ghost use Rattle.transactions.specs.Runs.{state_after};
ghost use Rattle.service.specs.Releasing.{Fewer, waits};
ghost use Rattle.service.specs.Sending.{calls, went_out};
ghost use Rattle.service.specs.Watched.{known_from};
ghost use Rattle.watchers.specs.Notifies.{known_seen};

use crate::sending::Waiting;
use crate::shared::Shared;
use notifier_model::{Note, Out};
use sip_text::{Addr, Text};
use std::alloc::Global;
use std::sync::Wait;
use watchers::Known;

/// A subscription that goes on, and what is known of it when the service begins.
#[derive(Drop)]
pub struct Living {
    /// The local tag of its dialog.
    pub tag: Text,
    /// The number in the CSeq of its last NOTIFY.
    pub number: u32,
    /// Where that went.
    pub to: Addr,
    pub note: Note,
}

impl Living {
    /// What its row tells. Who showed a password isn't kept.
    fn known(&self) -> Known<'_>
        ensures { known_seen result ≡ known_from None self.now.note }
    {
        Known {
            watcher: self.note.watcher.as_str(),
            contact: self.note.target.as_str(),
            call_id: self.note.call_id.as_str(),
            user: None,
            resource: self.note.resource.as_str(),
            seconds: self.note.left.unwrap_or(0),
        }
    }
}

/// What a service begins with beside its desks.
#[derive(Drop)]
pub struct Begins {
    /// The NOTIFYs that went out before and that nobody answered yet, in their order. Each is sent again until it is answered, first half a
    /// second after the start, as if it had gone out then (RFC 3261 section 17.1.2.2). Where each NOTIFY is sent once, by the operator's
    /// word, they are dropped, and so is any other out among them.
    pub unanswered: Vec<Out>,
    /// The subscriptions that go on. WATCHERS tells of them from the start on.
    pub living: Vec<Living>,
    /// The second that was told last. The time goes on from it: the first tick is later.
    pub tick: u64,
}

impl Begins {
    /// What a service begins with before which there was none.
    pub fn anew(alloc: Global) -> Begins
        ensures none { result.unanswered.items ≡ [] }
        ensures none_live { result.living.items ≡ [] }
        ensures tick { result.tick ≡ 0 }
    {
        Begins {
            unanswered: Vec::new(alloc),
            living: Vec::new(alloc),
            tick: 0,
        }
    }
}

impl Waiting {
    /// A subscription that goes on has a row from the start on. Without room or memory for one it stays without.
    fn begin_row<R: Wait>(&mut self, rt: &R, living: &Living, shared: &Shared)
        ensures transactions { self.new.transactions ≡ self.old.transactions }
        ensures contacts { self.new.contacts ≡ self.old.contacts }
        ensures burst { self.new.burst ≡ self.old.burst }
    {
        let tag = living.tag.as_str();
        let begun = self
            .watchers
            .renew(0, tag, living.number, living.to, living.known());
        if begun.is_ok() {
            let source = self.watchers.source(tag);
            self.tell_source(rt, shared, source);
        }
    }

    /// Each of these subscriptions has a row from the start on.
    fn begin_rows<R: Wait>(&mut self, rt: &R, living: Vec<Living>, shared: &Shared)
        ensures transactions { self.new.transactions ≡ self.old.transactions }
        ensures contacts { self.new.contacts ≡ self.old.contacts }
        ensures burst { self.new.burst ≡ self.old.burst }
    {
        for one in living {
            self.begin_row(rt, &one, shared);
        }
    }

    /// The NOTIFYs among these outs wait for their answers, as if they had gone out at the start of the service.
    #[tactic(auto, using(crate::proofs::Releasing::fewer_same))]
    fn keep_again<R: Wait>(&mut self, rt: &R, unanswered: Vec<Out>, shared: &Shared)
        ensures kept { self.new.transactions ≡ state_after (calls (went_out unanswered.items)) self.old.transactions }
        ensures burst { self.new.burst ≡ self.old.burst }
        ensures fewer { Fewer (waits self.old.contacts) (waits self.new.contacts) }
    {
        for out in unanswered {
            let _ = self.take_up(rt, 0, out, shared);
        }
    }

    /// What a service begins with: its subscriptions have rows, and its NOTIFYs wait for their answers.
    pub(crate) fn begin<R: Wait>(&mut self, rt: &R, begins: Begins, shared: &Shared)
        ensures kept { self.new.transactions ≡ state_after (calls (went_out begins.unanswered.items)) self.old.transactions }
        ensures burst { self.new.burst ≡ self.old.burst }
        ensures fewer { Fewer (waits self.old.contacts) (waits self.new.contacts) }
    {
        let Begins {
            unanswered,
            living,
            tick: _,
        } = begins;
        self.begin_rows(rt, living, shared);
        self.keep_again(rt, unanswered, shared);
        shared.set_live(self.watchers.len());
    }
}
