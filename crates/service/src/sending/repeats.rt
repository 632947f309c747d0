//! What is done between outs: phones' answers are taken, what waited for them is sent, and NOTIFYs are sent again or given up.
ghost use Rattle.std.specs.Prelude.{◌≡◌, ◌<◌, ◌^◌, ℕ, List, [], ◌∷◌, map};
ghost use Rattle.service.specs.Watched.{IsSeen, AreRowed, is_of_dialog};
ghost use Rattle.watchers.specs.Rows.{without};
ghost use Rattle.transport.specs.Wires.{Grows};
ghost use Rattle.transport.specs.Devices.{rises};
ghost use Rattle.feeds.specs.Emitted.{WireSeen, wire_seen, sent_datagrams, count, fails_to_send};
ghost use Rattle.first_contact.specs.Outcomes.{IsAnswer};
ghost use Rattle.first_contact.specs.Steps.{ended};
ghost use Rattle.first_contact.specs.Tables.{IsStepped, at};
ghost use Rattle.transactions.specs.Machine.{answer};
ghost use Rattle.transactions.specs.Runs.{after, state_after};
ghost use Rattle.watchers.specs.Rows.{answered_rows};
ghost use Rattle.service.specs.Sending.{Act, Does, WentOut, fates, noting, sent_again};
ghost use Rattle.service.specs.Sending as act;
ghost use Rattle.service.specs.Releasing.{AreReleased, Fewer, HoldsOn, ReleasesFirst, ahead, waits};
ghost use Rattle.service.specs.Taken.{failures_then};
ghost use Rattle.service.specs.Noted.{answer_of};
ghost use Rattle.service.specs.declared.post.Note.{Note};

use crate::fates::{Put, Timed};
use crate::not_taken::Losses;
use crate::post::Note;
use crate::refusals::refused;
use crate::request_log::{Unanswered, log_unanswered};
use crate::sending::Waiting;
use crate::sending::keeping::drop_held;
use crate::sending::watch::{OUTS_AT_ONCE, Watch};
use crate::shared::{Counter, Shared};
use feeds::Fate;
use first_contact::Notice;
use notifier_model::Out;
use std::sync::Wait;
use transactions::Open;
use transport::Wire;
use watchers::Watchers;

/// How many notes are taken between two looks at what is due and what was posted: as many as outs are sent between two looks at notes.
const NOTES_AT_ONCE: u32 = OUTS_AT_ONCE;

/// The status of an answer that says that the dialog or its usage is gone (RFC 3261 section 12.2.1.2).
const GONE: u16 = 481;

/// The least status of a final answer (RFC 3261 section 7.2).
const FINAL: u16 = 200;

/// Sends a NOTIFY again. Answers whether the wire failed.
fn send_again<R: Wait, W: Wire>(rt: &R, wire: &mut W, due: &Open, shared: &Shared) -> bool
    ensures taken { Grows (W.taken wire.old) (W.taken wire.new) (sent_again due.now result) }
    ensures failures { W.failures wire.new ≡ failures_then result (W.failures wire.old) }
    ensures given { Grows (W.given wire.old) (W.given wire.new) [] }
{
    match wire.send(rt, due.to, due.bytes.as_slice()) {
        Ok(()) => {
            shared.outages.note_sent();
            shared.count(Counter::Repeat);
            false
        }
        Err(_) => {
            shared.count(Counter::Failed);
            shared.note_unsent_notify(due.number, wire.send_error());
            true
        }
    }
}

/// Counts and tells a NOTIFY that is given up at this moment.
fn count_given_up<R: Eprint>(
    rt: &R,
    given_up: &mut Losses,
    now: u64,
    unanswered: Unanswered<'_>,
    shared: &Shared,
) {
    shared.count(Counter::GivenUp);
    given_up.add(rt, shared, now, unanswered.loss());
    if shared.logs_requests() {
        log_unanswered(rt, shared, unanswered);
    }
}

/// What the subscription of this NOTIFY watches: `-` where it has no row.
fn resource<'a>(watchers: &'a Watchers, due: &Open) -> &'a str {
    match watchers.find(due.tag.as_str()) {
        Some(row) => row.mailbox.as_str(),
        None => "-",
    }
}

/// Whether an answer is one of the dialog that its tag names: it has the Call-ID of that one's row (RFC 3261 section 12). Where there is no
/// row the tag alone names it.
fn is_of_dialog(watchers: &Watchers, note: &Note) -> bool
    ensures { result ≡ is_of_dialog note.now.tag note.now.call_id watchers.now.rows }
{
    match watchers.find(note.tag.as_str()) {
        Some(row) => row.call_id.is(note.call_id.as_str()),
        None => true,
    }
}

/// The row with this tag goes. Whose it was, if it was there.
fn end_row(watchers: &mut Watchers, tag: &str) -> Option<u32>
    ensures rows { watchers.new.rows ≡ without tag.now watchers.old.rows }
{
    let source = watchers.source(tag);
    watchers.end(tag);
    source
}

/// Sends a NOTIFY that waited. What became of it.
fn send_late<R: Wait, W: Wire>(rt: &R, wire: &mut W, out: &Out, shared: &Shared) -> Fate
    ensures went_out { WentOut out.now result }
    ensures taken { Grows (W.taken wire.old) (W.taken wire.new) (sent_datagrams ((out.now, result) ∷ [])) }
    ensures failures { W.failures wire.new ≡ rises (count fails_to_send ((out.now, result) ∷ [])) (W.failures wire.old) }
    ensures given { Grows (W.given wire.old) (W.given wire.new) [] }
{
    match out {
        Out::Notify { to, bytes, .. } | Out::Answer { to, bytes } => {
            match wire.send(rt, *to, bytes.as_slice()) {
                Ok(()) => {
                    shared.outages.note_sent();
                    Fate::Sent
                }
                Err(_) => {
                    shared.note_unsent(out, wire.send_error());
                    Fate::Failed
                }
            }
        }
        // No START waits.
        Out::Start { .. } => Fate::Failed,
    }
}

/// What became of the notes that were taken.
#[derive(Drop)]
pub(crate) struct Taken {
    /// Whether more notes may wait.
    pub(crate) has_more: bool,
    /// The NOTIFYs that waited for the last one of them, in order.
    pub(crate) through: Vec<Notice>,
}

/// NOTIFYs that waited until this moment, in order.
#[derive(Drop)]
pub(crate) struct Late {
    pub(crate) now: u64,
    pub(crate) through: Vec<Notice>,
}

impl Waiting {
    /// Whose subscription is gone by this note, if one is.
    fn gone_source(&self, note: &Note) -> Option<u32> {
        if self.counts_sources && note.status == GONE {
            self.watchers.source(note.tag.as_str())
        } else {
            None
        }
    }

    /// Notes what the status of an answer says of a phone: that it knows no such subscription (RFC 6665 section 4.1.3) or refuses the NOTIFY,
    /// and that its answer is there.
    fn note_status<R: Wait + Eprint>(&mut self, rt: &R, now: u64, note: &Note, shared: &Shared)
        ensures transactions { self.new.transactions ≡ self.old.transactions }
        ensures watchers { self.new.watchers ≡ self.old.watchers }
        ensures contacts { self.new.contacts ≡ self.old.contacts }
        ensures burst { self.new.burst ≡ self.old.burst }
    {
        if note.status == GONE {
            shared.count(Counter::Gone);
        }
        if let Some(refusal) = refused(&self.watchers, note) {
            shared.count_refusal(refusal.code);
            self.refusals.add(rt, shared, now, refusal.loss());
        }
        if note.status >= FINAL {
            self.doubts.answer(now, note.tag.as_str(), note.number);
        }
    }

    /// Takes the note of an answer at this moment. What waited for it: all, or the next one alone where the answer came from elsewhere.
    fn take_note<R: Wait + Eprint>(
        &mut self,
        rt: &R,
        now: u64,
        note: &Note,
        shared: &Shared,
    ) -> Vec<Notice>
        ensures transactions { self.new.transactions ≡ after (answer_of note.now) self.old.transactions }
        ensures rows { self.new.watchers.rows ≡ answered_rows note.now.tag note.now.number note.now.status self.old.watchers.rows }
        ensures burst { self.new.burst ≡ self.old.burst }
        // As first_contact says it: what it lets through, all or the next one alone, and what waits then.
        ensures contacts { (lost : ℕ) × IsAnswer self.old.contacts self.new.contacts note.now.tag note.now.number note.now.status note.now.source
            (record { through = result; lost = lost }) }
    {
        self.note_status(rt, now, note, shared);
        let gone = self.gone_source(note);
        self.transactions
            .answer(note.tag.as_str(), note.number, note.status);
        self.watchers
            .answer(note.tag.as_str(), note.number, note.status);
        self.tell_source(rt, shared, gone);
        let passed = self
            .contacts
            .answer(note.tag.as_str(), note.number, note.status, note.source);
        shared.count_held_dropped(passed.lost);
        passed.through
    }

    /// Takes notes of answers at this moment, a few at a time. Behind one for which NOTIFYs waited it takes no further one. One of another
    /// dialog is dropped: who answers with another Call-ID has answered nothing.
    pub(crate) fn take_notes<R: Wait + Eprint>(
        &mut self,
        rt: &R,
        now: u64,
        shared: &Shared,
    ) -> Taken
        ensures noted { (taken : List Note)
            × (self.new.transactions ≡ state_after (map answer_of taken) self.old.transactions)
            × AreRowed (map noting taken) self.old.watchers.rows self.new.watchers.rows }
        ensures burst { self.new.burst ≡ self.old.burst }
        // What is to be sent had waited in one dialog, in this order, before what waits in it still.
        ensures waited { (tag : List ℕ) × Fewer (waits self.old.contacts) (ahead tag result.through.items (waits self.new.contacts)) }
    {
        for _ in 0..NOTES_AT_ONCE {
            let Some(note) = shared.notes.take(rt) else {
                return Taken {
                    has_more: false,
                    through: Vec::new(self.alloc),
                };
            };
            if !is_of_dialog(&self.watchers, &note) {
                continue;
            }
            let through = self.take_note(rt, now, &note, shared);
            if !through.is_empty() {
                return Taken {
                    has_more: true,
                    through,
                };
            }
        }
        Taken {
            has_more: true,
            through: Vec::new(self.alloc),
        }
    }

    /// Sends a NOTIFY that waited until now. It is kept from this moment on.
    fn release<R: Wait + Eprint, W: Wire>(
        &mut self,
        rt: &R,
        wire: &mut W,
        timed: Timed,
        shared: &Shared,
    )
        ensures does { (fate : Fate) × Does (act.Released timed.now timed.out fate ∷ []) self.old.transactions self.new.transactions
            (wire_seen W.taken W.failures wire.old) (wire_seen W.taken W.failures wire.new) }
        ensures seen { IsSeen timed.now timed.out self.old.watchers.rows self.new.watchers.rows }
        ensures given { Grows (W.given wire.old) (W.given wire.new) [] }
        ensures burst { self.new.burst ≡ self.old.burst }
        ensures fewer { Fewer (waits self.old.contacts) (waits self.new.contacts) }
    {
        let Timed { now, out } = timed;
        let fate = send_late(rt, wire, &out, shared);
        self.keep(rt, Put { now, out, fate }, shared);
    }

    /// Sends the NOTIFYs that waited until now, in order.
    fn release_all<R: Wait + Eprint, W: Wire>(
        &mut self,
        rt: &R,
        wire: &mut W,
        late: Late,
        shared: &Shared,
    )
        requires in_range { late.now < 2 ^ 63 }
        ensures does { (acts : List Act) × (fates acts ≡ [])
            × Does acts self.old.transactions self.new.transactions
            (wire_seen W.taken W.failures wire.old) (wire_seen W.taken W.failures wire.new)
            × AreRowed acts self.old.watchers.rows self.new.watchers.rows
            × AreReleased late.now late.through.items acts }
        ensures given { Grows (W.given wire.old) (W.given wire.new) [] }
        ensures burst { self.new.burst ≡ self.old.burst }
        ensures fewer { Fewer (waits self.old.contacts) (waits self.new.contacts) }
    {
        let Late { now, through } = late;
        for notice in through {
            let Notice { out, .. } = notice;
            self.release(rt, wire, Timed { now, out }, shared);
        }
    }

    /// The subscription with this tag is gone: its worker ended it. So is its row, and none of its NOTIFYs is sent any more, whether it
    /// waits for an answer or for its first send.
    #[tactic(auto, using(crate::proofs::Releasing::closed_fewer))]
    fn end_gone<R: Wait>(&mut self, rt: &R, tag: &str, shared: &Shared)
        ensures transactions { self.new.transactions ≡ answer self.old.transactions tag.now 0 481 }
        ensures rows { self.new.watchers.rows ≡ without tag.now self.old.watchers.rows }
        ensures burst { self.new.burst ≡ self.old.burst }
        ensures closed { IsStepped self.old.contacts self.new.contacts tag.now (ended (at self.old.contacts tag.now)) }
        ensures fewer { Fewer (waits self.old.contacts) (waits self.new.contacts) }
    {
        let source = end_row(&mut self.watchers, tag);
        self.transactions.answer(tag, 0, GONE);
        let lost = self.contacts.close(tag);
        shared.count_held_dropped(lost);
        self.tell_source(rt, shared, source);
    }

    /// The same of the subscriptions with these tags.
    fn end_all<R: Wait>(&mut self, rt: &R, tags: Vec<String>, shared: &Shared)
        ensures ended { (acts : List Act) × (fates acts ≡ [])
            × ((wire : WireSeen) → Does acts self.old.transactions self.new.transactions wire wire)
            × AreRowed acts self.old.watchers.rows self.new.watchers.rows
            × HoldsOn acts (waits self.old.contacts) (waits self.new.contacts) }
        ensures burst { self.new.burst ≡ self.old.burst }
    {
        for tag in tags {
            self.end_gone(rt, tag.as_str(), shared);
        }
    }

    /// Sends the NOTIFYs that waited until now, and ends what workers told as gone.
    pub(crate) fn catch_up<R: Wait + Eprint, W: Wire>(
        &mut self,
        rt: &R,
        wire: &mut W,
        late: Late,
        shared: &Shared,
    )
        requires in_range { late.now < 2 ^ 63 }
        ensures does { (acts : List Act) × (fates acts ≡ [])
            × Does acts self.old.transactions self.new.transactions
            (wire_seen W.taken W.failures wire.old) (wire_seen W.taken W.failures wire.new)
            × AreRowed acts self.old.watchers.rows self.new.watchers.rows
            × ReleasesFirst late.now late.through.items acts (waits self.old.contacts) (waits self.new.contacts) }
        ensures given { Grows (W.given wire.old) (W.given wire.new) [] }
        ensures burst { self.new.burst ≡ self.old.burst }
    {
        self.release_all(rt, wire, late, shared);
        let over = self.doubts.over(&self.watchers);
        self.end_all(rt, over, shared);
    }

    /// Sends the NOTIFY again that is due at this moment, or gives it up. Its row stays: where its worker ends the subscription, that says
    /// so. False where none is due.
    fn repeat<R: Wait + Eprint, W: Wire>(
        &mut self,
        rt: &R,
        wire: &mut W,
        now: u64,
        shared: &Shared,
    ) -> bool
        requires in_range { now < 2 ^ 63 }
        ensures does { (acts : List Act) × (fates acts ≡ [])
            × Does acts self.old.transactions self.new.transactions
            (wire_seen W.taken W.failures wire.old) (wire_seen W.taken W.failures wire.new)
            × AreRowed acts self.old.watchers.rows self.new.watchers.rows
            × HoldsOn acts (waits self.old.contacts) (waits self.new.contacts) }
        ensures given { Grows (W.given wire.old) (W.given wire.new) [] }
        ensures burst { self.new.burst ≡ self.old.burst }
    {
        let Some(due) = self.transactions.due(now) else {
            return false;
        };
        if due.is_over(now) {
            let resource = resource(&self.watchers, due);
            let unanswered = Unanswered { due, resource };
            count_given_up(rt, &mut self.given_up, now, unanswered, shared);
            drop_held(&mut self.contacts, due.tag.as_str(), due.number, shared);
            self.doubts.give_up(due);
            self.transactions.turn(now);
            return true;
        }
        send_again(rt, wire, due, shared);
        self.doubts.sent_again(now, due);
        self.transactions.turn(now);
        true
    }

    /// While time stands still, since each send fails: tries to send the NOTIFY again that is due. It stays due, so that it is tried until a
    /// send succeeds. One whose time is over is given up. False where none is due.
    fn probe<R: Wait + Eprint, W: Wire>(
        &mut self,
        rt: &R,
        wire: &mut W,
        now: u64,
        shared: &Shared,
    ) -> bool
        requires in_range { now < 2 ^ 63 }
        ensures does { (acts : List Act) × (fates acts ≡ [])
            × Does acts self.old.transactions self.new.transactions
            (wire_seen W.taken W.failures wire.old) (wire_seen W.taken W.failures wire.new)
            × AreRowed acts self.old.watchers.rows self.new.watchers.rows
            × HoldsOn acts (waits self.old.contacts) (waits self.new.contacts) }
        ensures given { Grows (W.given wire.old) (W.given wire.new) [] }
        ensures burst { self.new.burst ≡ self.old.burst }
    {
        let Some(due) = self.transactions.due(now) else {
            return false;
        };
        let is_late = due.is_over(now);
        if is_late {
            return self.repeat(rt, wire, now, shared);
        }
        send_again(rt, wire, due, shared);
        true
    }

    /// Sends the NOTIFY again that is due, or gives it up; while time stands still it is tried alone. False where none is due.
    pub(crate) fn send_due<R: Wait + Eprint, W: Wire>(
        &mut self,
        rt: &R,
        wire: &mut W,
        watch: &Watch,
        shared: &Shared,
    ) -> bool
        ensures does { (acts : List Act) × (fates acts ≡ [])
            × Does acts self.old.transactions self.new.transactions
            (wire_seen W.taken W.failures wire.old) (wire_seen W.taken W.failures wire.new)
            × AreRowed acts self.old.watchers.rows self.new.watchers.rows
            × HoldsOn acts (waits self.old.contacts) (waits self.new.contacts) }
        ensures given { Grows (W.given wire.old) (W.given wire.new) [] }
        ensures burst { self.new.burst ≡ self.old.burst }
    {
        if watch.stands() {
            self.probe(rt, wire, watch.now(), shared)
        } else {
            self.repeat(rt, wire, watch.now(), shared)
        }
    }
}
