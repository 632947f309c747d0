//! The subscriptions that their workers may have ended, and told nobody: a NOTIFY of theirs wasn't answered in time (RFC 6665 section
//! 4.2.2). Their workers are asked.

use crate::shared::Shared;
use indexmap::IndexMap;
use sip_text::NoMemory;
use std::alloc::Global;
use std::mem;
use std::sync::Wait;
use transactions::Open;
use watchers::Watchers;

/// How many milliseconds an answer takes that surely comes in time for the worker. That ends a subscription behind 32 seconds, but counts
/// whole ones, from when it made the NOTIFY.
const IN_TIME: u64 = 20_000;

/// So many milliseconds behind its NOTIFY a worker is asked first, once a second from then on: nearly always it has ended it by then.
const PATIENCE: u64 = 33_000;

/// The same of the last question. Whatever a worker keeps for so long it goes on with.
const SETTLED: u64 = 96_000;

/// The number of a NOTIFY that was never sent, or found no room here, whatever number it had: no answer ends that doubt.
pub(crate) const NEVER_SENT: u32 = 0;

/// How many NOTIFYs of a subscription are in doubt at most.
const MOST: usize = 64;

/// How many subscriptions are looked at in a second at most.
const LOOKS: u32 = 4096;

/// How many milliseconds a second has.
const SECOND: u64 = 1000;

/// A NOTIFY that nobody answered, or not for long.
#[derive(Clone, Copy)]
struct Doubt {
    /// Its number, or NEVER_SENT.
    number: u32,
    /// When it was sent first, or was to be.
    since: u64,
    /// Whether nothing waits for its answer any more: it was given up, or never kept.
    is_over: bool,
}

impl Doubt {
    /// Whether its worker is asked at this moment.
    fn is_due(&self, now: u64) -> bool {
        now.saturating_sub(self.since) >= PATIENCE
    }

    /// Whether an answer to the NOTIFY with this number at this moment ends it: it comes in time.
    fn is_ended(&self, now: u64, number: u32) -> bool {
        self.number == number && now.saturating_sub(self.since) < IN_TIME
    }

    /// Whether it was asked about for long enough.
    fn is_settled(&self, now: u64) -> bool {
        now.saturating_sub(self.since) >= SETTLED
    }
}

/// Whether the answer to a NOTIFY that was sent first at this moment may come too late for its worker from now on.
fn is_long(now: u64, first: u64) -> bool {
    now.saturating_sub(first) >= IN_TIME
}

/// Adds one, unless it is there. Where there are too many the last one stands for all that found no room.
fn add_doubt(doubts: &mut Vec<Doubt>, doubt: Doubt) -> Result<(), NoMemory> {
    let is_there = doubts.iter().any(|other| other.number == doubt.number);
    if is_there && doubt.number != NEVER_SENT {
        return Ok(());
    }
    if doubts.len() < MOST {
        doubts.push(doubt)?;
        return Ok(());
    }
    doubts.pop();
    doubts.push(Doubt {
        number: NEVER_SENT,
        ..doubt
    })?;
    Ok(())
}

/// The subscriptions with such NOTIFYs, by their local tags, and what workers said of them.
#[derive(Drop)]
pub(crate) struct Doubts {
    alloc: Global,
    subscriptions: IndexMap<String, Vec<Doubt>>,
    /// The place of the subscription that is looked at next.
    place: usize,
    /// The moment of the last turn.
    moment: u64,
    /// The second in which workers were asked last.
    second: u64,
    /// Which subscriptions are gone, as a worker said.
    heard: Vec<String>,
    /// Whether each note of an answer that came before that was taken.
    is_noted: bool,
    /// Whether each out that was posted before that was taken, too.
    is_clear: bool,
}

impl Doubts {
    /// None.
    pub(crate) fn new(alloc: Global) -> Doubts {
        Doubts {
            alloc,
            subscriptions: IndexMap::new(alloc),
            place: 0,
            moment: 0,
            second: 0,
            heard: Vec::new(alloc),
            is_noted: false,
            is_clear: false,
        }
    }

    /// The moment of the last turn.
    pub(crate) fn moment(&self) -> u64 {
        self.moment
    }

    /// Adds a NOTIFY of a subscription that has none yet.
    fn begin(&mut self, tag: &str, doubt: Doubt) -> Result<(), NoMemory> {
        let mut doubts = Vec::new(self.alloc);
        doubts.push(doubt)?;
        let tag = String::from_str(self.alloc, tag)?;
        match self.subscriptions.insert(tag, doubts) {
            Ok(_) => Ok(()),
            Err(_) => Err(NoMemory),
        }
    }

    /// This NOTIFY of this subscription is in doubt. Without memory it isn't asked about.
    fn insert(&mut self, tag: &str, doubt: Doubt) {
        let added = match self.subscriptions.get_mut(tag) {
            Some(doubts) => add_doubt(doubts, doubt),
            None => self.begin(tag, doubt),
        };
        let _ = added;
    }

    /// The NOTIFY with this tag and this number, which was sent at this moment, or was to be, may stay unanswered: it isn't kept.
    pub(crate) fn add(&mut self, tag: &str, number: u32, since: u64) {
        let doubt = Doubt {
            number,
            since,
            is_over: true,
        };
        self.insert(tag, doubt);
    }

    /// This NOTIFY is sent again at this moment. It is in doubt, where its answer may come too late for its worker from now on.
    pub(crate) fn sent_again(&mut self, now: u64, due: &Open) {
        if is_long(now, due.first) {
            let doubt = Doubt {
                number: due.number,
                since: due.first,
                is_over: false,
            };
            self.insert(due.tag.as_str(), doubt);
        }
    }

    /// This NOTIFY is given up.
    pub(crate) fn give_up(&mut self, due: &Open) {
        self.add(due.tag.as_str(), due.number, due.first);
        let Some(doubts) = self.subscriptions.get_mut(due.tag.as_str()) else {
            return;
        };
        if let Some(place) = doubts.iter().position(|doubt| doubt.number == due.number) {
            doubts[place].is_over = true;
        }
    }

    /// A final answer to the NOTIFY with this tag and this number came at this moment.
    pub(crate) fn answer(&mut self, now: u64, tag: &str, number: u32) {
        // Most often none is in doubt: so nobody looks for this one.
        if self.subscriptions.is_empty() {
            return;
        }
        let Some(doubts) = self.subscriptions.get_mut(tag) else {
            return;
        };
        doubts.retain(|doubt| !doubt.is_ended(now, number));
        if doubts.is_empty() {
            self.subscriptions.swap_remove(tag);
        }
    }

    /// A turn begins at this moment, behind one in which nothing was posted, or not. Hears what a worker said, unless something waits that
    /// was said before.
    pub(crate) fn turn<R: Wait>(&mut self, rt: &R, now: u64, was_empty: bool, shared: &Shared) {
        self.moment = now;
        self.is_clear = self.is_noted && was_empty;
        if !self.heard.is_empty() {
            return;
        }
        self.is_noted = false;
        self.is_clear = false;
        if let Some(heard) = shared.hear_gone(rt) {
            self.heard = heard;
        }
    }

    /// No note of an answer waits at this moment.
    pub(crate) fn note_none(&mut self) {
        self.is_noted = !self.heard.is_empty();
    }

    /// Whether the NOTIFY for which its worker ended this subscription was given up, and so counted, unless it was answered too late: one is
    /// over, or each is due. A worker may end a subscription up to a second before that, and may be asked just then for an earlier NOTIFY, whose
    /// answer came late.
    fn is_counted(&self, tag: &str) -> bool {
        match self.subscriptions.get(tag) {
            Some(doubts) => {
                doubts.iter().any(|doubt| doubt.is_over)
                    || doubts.iter().all(|doubt| doubt.is_due(self.moment))
            }
            None => true,
        }
    }

    /// Which subscriptions are gone: those that a worker told, once all that came before its word was taken. Of one without a row all was
    /// told. Where a NOTIFY of one may yet be given up, its worker is asked again a second later.
    pub(crate) fn over(&mut self, watchers: &Watchers) -> Vec<String> {
        if !self.is_clear {
            return Vec::new(self.alloc);
        }
        self.is_clear = false;
        self.is_noted = false;
        let mut over = mem::replace(&mut self.heard, Vec::new(self.alloc));
        over.retain(|tag| watchers.find(tag.as_str()).is_some() && self.is_counted(tag.as_str()));
        over
    }

    /// Looks at the subscription at this place. Its tag, where its worker is to be asked.
    fn due(&mut self, now: u64, place: usize) -> Option<String> {
        let (tag, doubts) = self.subscriptions.get_index(place)?;
        if !doubts.iter().any(|doubt| doubt.is_due(now)) {
            return None;
        }
        let tag = String::from_str(self.alloc, tag.as_str()).ok()?;
        if let Some(doubts) = self.subscriptions.get_index_mut(place) {
            doubts.retain(|doubt| !doubt.is_settled(now));
        }
        Some(tag)
    }

    /// Whether nothing is in doubt of the subscription at this place, or it has no row.
    fn is_idle(&self, watchers: &Watchers, place: usize) -> bool {
        match self.subscriptions.get_index(place) {
            Some((tag, doubts)) => doubts.is_empty() || watchers.find(tag.as_str()).is_none(),
            None => false,
        }
    }

    /// The subscriptions for which workers are to be asked at this moment, of some of them.
    fn all_due(&mut self, now: u64, watchers: &Watchers) -> Result<Vec<String>, NoMemory> {
        let mut tags = Vec::new(self.alloc);
        for _ in 0..LOOKS {
            if self.place >= self.subscriptions.len() {
                self.place = 0;
                break;
            }
            if self.is_idle(watchers, self.place) {
                // The last one takes its place.
                self.subscriptions.swap_remove_index(self.place);
                continue;
            }
            if let Some(tag) = self.due(now, self.place) {
                tags.push(tag)?;
            }
            self.place = self.place.saturating_add(1);
        }
        Ok(tags)
    }

    /// Asks the workers, once a second, for those that they may have ended by now. One without a row isn't in doubt.
    pub(crate) fn look<R: Wait>(&mut self, rt: &R, watchers: &Watchers, shared: &Shared) {
        let second = self.moment / SECOND;
        if self.subscriptions.is_empty() || second == self.second {
            return;
        }
        self.second = second;
        if let Ok(tags) = self.all_due(self.moment, watchers) {
            if !tags.is_empty() {
                shared.call_roll(rt, tags);
            }
        }
    }
}
