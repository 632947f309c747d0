//! What the workers post, sent out, and each NOTIFY again that nobody answers.
ghost use Rattle.std.specs.Prelude.{◌≡◌, ◌==◌, ◌<◌, ◌^◌, ◌⊎◌, ℕ, List, [], ◌∷◌, ◌++◌, length, not, true, false};
ghost use Rattle.transport.specs.Devices.{rises};
ghost use Rattle.transactions.specs.Machine.{State};
ghost use Rattle.watchers.specs.Rows.{Row};
ghost use Rattle.queues.specs.Ended.{AllEnded};
ghost use Rattle.transport.specs.Wires.{Grows};
ghost use Rattle.feeds.specs.declared.sending.EmitReport.{EmitReport};
ghost use Rattle.feeds.specs.Emitted as spec;
ghost use Rattle.feeds.specs.Emitted.{MayMeet, Writes, sent_datagrams, fails_to_send, is_start};
ghost use Rattle.service.specs.Departing.{Takes, next_outs};
ghost use Rattle.service.specs.Keeping.{AreKept};
ghost use Rattle.service.specs.Naps.{idle_nap, sending_nap};
ghost use Rattle.transactions.specs.Machine.{next_moment};
ghost use Rattle.service.specs.Sending.{Act, IsSentOut, fates, outflow, taking};
ghost use Rattle.service.specs.Releasing.{HoldsOn, waits};
ghost use Rattle.service.specs.Watched.{AreRowed};

use crate::fates::Put;
use crate::owners::concerns_dialogs;
use crate::sending::Waiting;
use crate::sending::watch::Watch;
use crate::shared::{Counter, Shared};
use crew::Gate;
use crossbeam_utils::sync::{Parker, Unparker};
use feeds::{Fate, Next, next_out, put_out};
use notifier_model::{Event, Out};
use queues::outbox::Taker;
use std::alloc::{AllocError, Global};
use std::collections::VecDeque;
use std::fs::File;
use std::io::Write;
use std::rt::{Clock, Files};
use std::sync::atomic::Ordering;
use std::sync::{Arc, Wait};
use std::time::Duration;
use transport::{Sink, Wire};

/// How many milliseconds the thread sleeps at most where nothing is posted, unless a worker wakes it: answers come meanwhile.
const NAP: u64 = 20;

/// The same where no answer is waited for: a worker that posts wakes the thread, and so does a question.
const QUIET_NAP: u64 = 1000;

/// The same where NOTIFYs are due again that may not leave yet.
const PACED_NAP: u64 = 1;

/// How many outs are taken at once at most where a journal is kept, besides the first.
const AT_ONCE: u32 = 64;

/// How many are taken besides the first. Where no journal is kept they would wait in another place alone.
fn taken_at_once(shared: &Shared) -> u32 {
    match shared.journal.get() {
        Some(_) => AT_ONCE,
        None => 0,
    }
}

/// Hands over to the journal what workers handle, asks them which subscriptions they ended, wakes the thread that sends when one posts, and
/// closes the service where one runs out of memory: what is sent to that worker nobody would handle any more.
#[derive(Drop)]
pub(crate) struct Waker {
    unparker: Unparker,
    shared: Arc<Shared, Global>,
}

impl Waker {
    /// What the thread that sends sleeps by, and what wakes it.
    pub(crate) fn pair(
        alloc: Global,
        shared: &Arc<Shared, Global>,
    ) -> Result<(Parker, Waker), AllocError> {
        let parker = Parker::new(alloc)?;
        let unparker = parker.unparker().clone()?;
        shared.window.set_sender(parker.unparker().clone()?);
        let shared = Arc::try_clone(shared)?;
        Ok((parker, Waker { unparker, shared }))
    }
}

impl Gate for Waker {
    fn pass(&self, _worker: u32, _index: u64) {}

    fn handled<R: Wait>(&self, rt: &R, worker: u32, event: &Event, outs: &[Out]) {
        if self.shared.has_owners.load(Ordering::SeqCst) && concerns_dialogs(event, outs) {
            let _ = self.shared.owners.lock(rt).follow(event, outs);
        }
        if self.shared.logs_requests() {
            let _ = self.shared.asked.lock(rt).note(event, outs);
        }
        // The planned stop is no part of a run that the next one goes on from.
        if matches!(event, Event::Shut) && self.shared.is_reloading() {
            return;
        }
        // Nothing of it is posted yet: so its record waits before an out of it can be sent.
        if let Some(journal) = self.shared.journal.get() {
            let lost = journal.handled(rt, worker, event, !outs.is_empty());
            self.shared.count_unwritten(lost);
        }
    }

    fn posted(&self, _worker: u32) {
        self.unparker.unpark();
    }

    fn wants_book(&self, worker: u32) -> bool {
        // A book behind the planned stop would tell of no subscription.
        if self.shared.is_reloading() {
            return false;
        }
        match self.shared.journal.get() {
            Some(journal) => journal.wants_book(worker),
            None => false,
        }
    }

    fn book<R: Wait>(&self, rt: &R, worker: u32, written: Vec<u8>) {
        self.shared.write_book(rt, worker, written.as_slice());
    }

    fn asked<R: Wait>(&self, rt: &R, worker: u32) -> Option<Vec<String>> {
        // Where the worker's book is wanted it comes behind that. It is to tell nothing of transfers that nobody watches.
        match self.shared.told_transfers(rt, worker) {
            Some(tags) => Some(tags),
            None => self.shared.roll.get()?.asked(rt, worker),
        }
    }

    fn gone<R: Wait>(&self, rt: &R, worker: u32, tags: Vec<String>) {
        self.shared.forget_transfers(rt, worker, tags.as_slice());
        self.shared.tell_gone(rt, tags);
        self.unparker.unpark();
    }

    fn give_up(&self, worker: u32) {
        self.shared.close_without(worker);
    }
}

/// How many milliseconds the thread may sleep at this moment, where at that one a NOTIFY is due again, or none waits for its answer.
fn idle_nap(next: Option<u64>, is_off: bool, now: u64) -> u64
    ensures { result ≡ idle_nap next is_off now }
{
    match next {
        Some(moment) => moment.saturating_sub(now).clamp(PACED_NAP, NAP),
        None => if is_off { NAP } else { QUIET_NAP },
    }
}

/// What outs leave by: datagrams by the wire, START lines by the writer.
#[derive(Drop)]
pub struct Exit<W, F> {
    pub wire: W,
    pub sink: Sink<F>,
}

/// What is to be sent: what the workers post, and the NOTIFYs that wait for their answers.
#[derive(Drop)]
pub(crate) struct Outgoing {
    pub(crate) alloc: Global,
    pub(crate) taker: Taker,
    pub(crate) workers: u32,
    pub(crate) waiting: Waiting,
    /// For how many milliseconds at most the answers to the last NOTIFYs are waited for.
    pub(crate) linger: u64,
    /// What a worker wakes the thread by.
    pub(crate) parker: Parker,
}

impl Outgoing {
    /// How many milliseconds the thread may sleep at this moment. Outs that are still to be kept have no moment yet.
    fn nap(&self, now: u64) -> u64
        ensures { result ≡ sending_nap (not (length self.now.waiting.burst.items == 0))
            (next_moment self.now.waiting.transactions) self.now.waiting.is_off now }
    {
        if !self.waiting.burst.is_empty() {
            return PACED_NAP;
        }
        let next = self.waiting.transactions.next_moment();
        idle_nap(next, self.waiting.is_off(), now)
    }

    /// Waits where nothing was posted: until a worker posts, but not for long, where nothing was done for some turns.
    fn rest<R: Wait + Clock>(&self, rt: &R, watch: &Watch) {
        if !watch.yields() {
            let nap = if watch.stands() {
                NAP
            } else {
                self.nap(watch.now())
            };
            self.parker.park_timeout(rt, Duration::from_millis(nap));
        }
    }
}

/// An out that was taken of the outbox, and is to leave at this moment.
#[derive(Drop)]
struct Leaving {
    now: u64,
    out: Out,
    /// Whether the records that wait for the journal were written since it was taken. That of its event is one of them, so it may not leave
    /// before. Where no journal is kept, or the system takes a record no more, there is none to wait for.
    is_written: bool,
    ghost in_range: { now < 2 ^ 63 },
}

/// Outs that were taken of the outbox and are to leave, in their order. Where a journal is kept all that is posted by a moment is taken at
/// once: so one write does for all their records.
#[derive(Drop)]
struct Departing {
    outs: VecDeque<Out>,
    /// Whether the records that wait for the journal were written since the last take.
    is_written: bool,
}

impl Departing {
    /// Nothing was taken.
    fn new(alloc: Global) -> Departing
        ensures none { result.outs.items ≡ [] }
    {
        Departing {
            outs: VecDeque::new(alloc),
            is_written: false,
        }
    }

    /// Whether all that was taken has left.
    fn is_empty(&self) -> bool
        ensures { result ≡ true → self.now.outs.items ≡ [] }
    {
        self.outs.is_empty()
    }

    /// Takes what is next of the outbox, and counts an end mark. The record of an out may wait from now on.
    #[tactic(auto, using(crate::proofs::Departing::takes_next))]
    fn take<R: Wait>(&mut self, rt: &R, taker: &mut Taker, left: &mut u32, shared: &Shared) -> Next
        ensures taken { Takes taker.old taker.new left.old left.new (next_outs result) }
        ensures outs { self.new.outs ≡ self.old.outs }
        ensures unwritten { self.new.is_written ≡ false }
    {
        self.is_written = false;
        let next = next_out(rt, taker, left);
        if let Next::Ended = &next {
            shared.count(Counter::WorkerEnded);
        }
        next
    }

    /// Takes what is next of the outbox behind those that were taken, where there is room. Whether there may be more.
    fn add<R: Wait>(&mut self, rt: &R, taker: &mut Taker, left: &mut u32, shared: &Shared) -> bool
        ensures taken { (outs : List Out) × Takes taker.old taker.new left.old left.new outs
            × (self.new.outs.items ≡ self.old.outs.items ++ outs) }
        ensures unwritten { self.new.is_written ≡ true → (self.old.is_written ≡ true) × (taker.new ≡ taker.old) }
    {
        if self.outs.reserve(1).is_err() {
            return false;
        }
        match self.take(rt, taker, left, shared) {
            Next::Out(out) => {
                self.outs.push_back_reserved(out);
                true
            }
            Next::Ended => true,
            Next::Nothing => false,
        }
    }

    /// Takes what else is posted by now, as far as there is room.
    fn fill<R: Wait>(&mut self, rt: &R, taker: &mut Taker, left: &mut u32, shared: &Shared)
        ensures taken { (outs : List Out) × Takes taker.old taker.new left.old left.new outs
            × (self.new.outs.items ≡ self.old.outs.items ++ outs) }
        ensures unwritten { self.new.is_written ≡ true → (self.old.is_written ≡ true) × (taker.new ≡ taker.old) }
    {
        for _ in 0..taken_at_once(shared) {
            if !self.add(rt, taker, left, shared) {
                return;
            }
        }
    }

    /// What is next of the outbox, where all that was taken has left. Behind an out it takes what else is posted by now.
    fn refill<R: Wait>(
        &mut self,
        rt: &R,
        taker: &mut Taker,
        left: &mut u32,
        shared: &Shared,
    ) -> Next
        requires none { self.old.outs.items ≡ [] }
        ensures taken { (outs : List Out) × Takes taker.old taker.new left.old left.new outs
            × (self.old.outs.items ++ outs ≡ next_outs result ++ self.new.outs.items) }
        ensures unwritten { self.new.is_written ≡ true → (self.old.is_written ≡ true) × (taker.new ≡ taker.old) }
    {
        match self.take(rt, taker, left, shared) {
            Next::Out(out) => {
                self.fill(rt, taker, left, shared);
                Next::Out(out)
            }
            other => other,
        }
    }

    /// What is next: an out that was taken before, else what is next of the outbox.
    fn next_out<R: Wait>(
        &mut self,
        rt: &R,
        taker: &mut Taker,
        left: &mut u32,
        shared: &Shared,
    ) -> Next
        // All leave in the order in which they are taken.
        ensures taken { (outs : List Out) × Takes taker.old taker.new left.old left.new outs
            × (self.old.outs.items ++ outs ≡ next_outs result ++ self.new.outs.items) }
        // What is taken now may not leave before a write.
        ensures unwritten { self.new.is_written ≡ true → (self.old.is_written ≡ true) × (taker.new ≡ taker.old) }
    {
        if self.is_empty() {
            return self.refill(rt, taker, left, shared);
        }
        match self.outs.pop_front() {
            Some(out) => Next::Out(out),
            None => Next::Nothing,
        }
    }

    /// Writes the records that wait for the journal, where one is kept and one of them is of an event with outs, unless nothing was taken
    /// since that was done: from now on what was taken may leave. Its events were noted before it was posted.
    fn write<R: Wait>(&mut self, rt: &R, shared: &Shared)
        ensures outs { self.new.outs ≡ self.old.outs }
        ensures written { self.new.is_written ≡ true }
    {
        if !self.is_written {
            if let Some(journal) = shared.journal.get() {
                shared.count_unwritten(journal.flush(rt));
            }
            self.is_written = true;
        }
    }
}

/// Sends or writes an out that was taken, behind its event's record, unless it is a NOTIFY that waits. What became of it.
fn send_on<R: Wait + Eprint, W: Wire, F: Write>(
    rt: &R,
    exit: &mut Exit<W, F>,
    waiting: &mut Waiting,
    leaving: Leaving,
    shared: &Shared,
) -> Fate
    requires written { leaving.is_written ≡ true }
    ensures fate { MayMeet leaving.out result }
    ensures taken { Grows (W.taken exit.old.wire) (W.taken exit.new.wire) (sent_datagrams ((leaving.out, result) ∷ [])) }
    ensures wire_failures { W.failures exit.new.wire
        ≡ rises (spec.count fails_to_send ((leaving.out, result) ∷ [])) (W.failures exit.old.wire) }
    ensures given { Grows (W.given exit.old.wire) (W.given exit.new.wire) [] }
    ensures failures { exit.new.sink.failures
        ≡ rises (spec.count spec.fails_to_start ((leaving.out, result) ∷ [])) exit.old.sink.failures }
    ensures writes { Writes (F.contents exit.old.sink.writer) (F.contents exit.new.sink.writer) leaving.out result }
    ensures flushed { result ≡ Fate.Started → exit.new.sink.is_flushed ≡ true }
    ensures stays { is_start leaving.out ≡ false → exit.new.sink ≡ exit.old.sink }
    ensures kept { (s : State) (rows : List Row) (acts : List Act) → AreKept s rows acts waiting.old
        → AreKept s rows (acts ++ taking leaving.now leaving.out result ∷ []) waiting.new }
    ensures held { HoldsOn (taking leaving.now leaving.out result ∷ []) (waits waiting.old.contacts) (waits waiting.new.contacts) }
{
    let Leaving { now, out, .. } = leaving;
    let Some(out) = waiting.let_through(rt, out, shared) else {
        return Fate::Held;
    };
    let fate = put_out(rt, &mut exit.wire, &mut exit.sink, &out);
    match (&out, fate) {
        (_, Fate::Sent) => shared.outages.note_sent(),
        (Out::Answer { .. } | Out::Notify { .. }, Fate::Failed) => {
            shared.note_unsent(&out, exit.wire.send_error());
        }
        _ => {}
    }
    waiting.put(rt, Put { now, out, fate }, shared);
    fate
}

/// Sends out what the workers post, in the order in which it is taken, until each has ended: answers and NOTIFYs by the wire,
/// and a line for each transfer that starts. What fails is counted, and the rest goes on. A NOTIFY to an address that has not answered one
/// of its dialog waits behind the first one. Between them it takes notes of answers, and sends what waited for them, and
/// sends a NOTIFY again whose time has come; where all workers have ended it waits a while for the answers to the last ones. No
/// worker's end mark was taken yet.
pub(crate) fn send_outs<R: Wait + Clock + Files<File = File> + Eprint, W: Wire, F: Write>(
    rt: &R,
    exit: &mut Exit<W, F>,
    outgoing: &mut Outgoing,
    shared: &Shared,
)
    requires workers { outgoing.old.workers ≡ outgoing.old.taker.workers }
    requires none { outgoing.old.taker.got ≡ [] }
    requires none_put { outgoing.old.waiting.burst.items ≡ [] }
    requires none_waits { (tag : List ℕ) → waits outgoing.old.waiting.contacts tag ≡ [] }
    // Each out that was taken is sent, written, failed or held back, in order, and nothing else is sent or written but what was held
    // back, of each dialog in its order, and NOTIFYs again, as their transactions ask for it. Where the writer never failed, what it took is flushed. The rows of live subscriptions are what
    // was sent and noted makes of them.
    ensures sent { (acts : List Act) × (report : EmitReport)
        × IsSentOut outgoing.old.waiting.transactions outgoing.old.taker.workers acts outgoing.old.taker.got outgoing.new.taker.got
        (outflow W.taken W.failures F.contents exit.old exit.new) report
        × (spec.count spec.fails_to_start (fates acts) ≡ 0
        → (exit.new.sink ≡ exit.old.sink) ⊎ (exit.new.sink.is_flushed ≡ true))
        × AreRowed acts outgoing.old.waiting.watchers.rows outgoing.new.waiting.watchers.rows }
    ensures given { Grows (W.given exit.old.wire) (W.given exit.new.wire) [] }
    ensures outbox { outgoing.new.taker.outbox ≡ outgoing.old.taker.outbox }
    ensures ended { AllEnded outgoing.old.taker.workers outgoing.new.taker.got }
{
    let mut left = outgoing.workers;
    let mut departing = Departing::new(outgoing.alloc);
    let mut watch = Watch::new(outgoing.linger);
    for _ in rt.forever() {
        watch.begin_turn(rt, shared);
        if left == 0 && departing.is_empty() && watch.is_over(outgoing.waiting.len()) {
            outgoing.waiting.settle(rt, shared);
            outgoing.waiting.given_up.tell_others(rt, shared);
            outgoing.waiting.refusals.tell_others(rt, shared);
            shared.count_lost(outgoing.waiting.len());
            shared.end_journal(rt);
            return;
        }
        // What is sent again, or was held back, was taken before: its record is written.
        let has_more = outgoing
            .waiting
            .tend(rt, &mut exit.wire, &mut watch, shared);
        match departing.next_out(rt, &mut outgoing.taker, &mut left, shared) {
            Next::Out(out) => {
                watch.begin_out(rt, shared);
                departing.write(rt, shared);
                let next = Leaving {
                    now: watch.now(),
                    out,
                    is_written: departing.is_written,
                };
                send_on(rt, exit, &mut outgoing.waiting, next, shared);
                watch.count_out();
            }
            Next::Ended => {}
            Next::Nothing => {
                watch.pause(has_more);
                outgoing.waiting.settle_few(rt, shared);
                outgoing.rest(rt, &watch);
            }
        }
    }
    unreachable!()
}
