//! The time of the thread that sends: when it looks at the clock, and what it may do until the next look.
ghost use Rattle.std.specs.Prelude.{◌≡◌, ◌<◌, ◌≤◌, ◌^◌, ◌-◌, min};
ghost use Rattle.service.specs.Naps.{is_busy};

use crate::shared::{LAST_MOMENT, Shared};
use feeds::Idle;
use std::fs::File;
use std::rt::{Clock, Files};
use std::sync::Wait;

/// How many NOTIFYs are sent again within a millisecond at most: so the answers to many of them don't overflow the buffer of the
/// socket by which they come, and what the workers post never waits behind them.
const PACE: u32 = 8;

/// Where this thread comes late, what it didn't send again meanwhile is sent again at once: that of so many milliseconds at most.
const CATCH_UP: u64 = 8;

/// How many outs that follow one another are sent between two looks at the clock.
const OUTS_A_LOOK: u32 = 16;

/// How many outs that follow one another are sent between two looks at the notes and what is due. They are kept behind the last of them.
pub(crate) const OUTS_AT_ONCE: u32 = 512;

/// In how many turns between two looks at the notes and what is due nothing is posted at most, though outs come in between.
const FEW_EMPTY: u32 = 8;

/// How many milliseconds pass between two looks at what the system dropped.
const SECOND: u64 = 1000;

/// The time of the thread that sends.
#[derive(Drop)]
pub(crate) struct Watch {
    /// The moment of the last look at the clock, in milliseconds.
    moment: u64,
    /// For how many seconds the service was up then.
    second: u64,
    /// Whether that look was in this turn.
    has_looked: bool,
    /// Whether time stood still then, since each send fails.
    stands: bool,
    /// How many NOTIFYs may be sent again in it.
    pub(crate) repeats: u32,
    /// How many outs followed one another since the last look at the notes.
    pub(crate) outs: u32,
    /// In how many turns nothing was posted since then, in a row or not.
    pub(crate) empty: u32,
    /// The turns in a row in which nothing was done.
    idle: Idle,
    /// For how many milliseconds at most the answers to the last NOTIFYs are waited for, and until when.
    linger: u64,
    until: Option<u64>,
}

impl Watch {
    /// One that has not looked yet, of a service that waits so many milliseconds for its last answers.
    pub(crate) fn new(linger: u64) -> Watch {
        Watch {
            moment: 0,
            second: 0,
            has_looked: false,
            stands: false,
            repeats: PACE,
            outs: 0,
            empty: 0,
            idle: Idle::new(),
            linger,
            until: None,
        }
    }

    /// The moment, in milliseconds.
    pub(crate) fn now(&self) -> u64
        ensures last { result ≡ min self.now.moment (2 ^ 63 - 1) }
        ensures in_range { result < 2 ^ 63 }
    {
        self.moment.min(LAST_MOMENT)
    }

    /// Counts an out that was sent.
    pub(crate) fn count_out(&mut self)
        ensures moment { self.new.moment ≡ self.old.moment }
    {
        self.outs = self.outs.saturating_add(1);
        self.idle.end();
    }

    /// Nothing was posted in this turn. Where more is to be done all the same, the next turn goes on with it.
    pub(crate) fn pause(&mut self, has_more: bool)
        ensures moment { self.new.moment ≡ self.old.moment }
    {
        self.empty = self.empty.saturating_add(1);
        if has_more {
            self.idle.end();
        } else {
            self.idle.add();
        }
    }

    /// Lets the workers run where something was done a moment ago: so more may be posted soon. False where the thread may sleep.
    pub(crate) fn yields(&self) -> bool {
        self.idle.yields()
    }

    /// Whether only what is posted counts: outs follow one another, or the next one may be posted soon. So neither a change to many phones nor a
    /// short wait costs much. Where outs trickle and the processors are busy, each turn without one may take long: so only a few of them are
    /// waited for.
    pub(crate) fn is_busy(&self) -> bool
        ensures { result ≡ is_busy self.now }
    {
        let has_begun = self.outs > 0 || !self.idle.is_none();
        has_begun && self.outs < OUTS_AT_ONCE && self.idle.is_short() && self.empty < FEW_EMPTY
    }

    /// A turn begins. Looks at the clock, unless only what is posted counts in it. Where the next run waits for answers this one
    /// waits for none.
    pub(crate) fn begin_turn<R: Wait + Clock + Files<File = File>>(
        &mut self,
        rt: &R,
        shared: &Shared,
    )
        ensures later { self.old.moment ≤ self.new.moment }
    {
        if shared.is_reloading() {
            self.linger = 0;
        }
        self.has_looked = false;
        if !self.is_busy() {
            self.look(rt, shared);
        }
    }

    /// An out is about to leave. Looks at the clock, unless it did in this turn or outs follow one another: an out that comes behind a wait is
    /// of a moment of its own.
    pub(crate) fn begin_out<R: Wait + Clock + Files<File = File>>(
        &mut self,
        rt: &R,
        shared: &Shared,
    )
        ensures later { self.old.moment ≤ self.new.moment }
    {
        let follows = self.idle.is_none() && self.outs % OUTS_A_LOOK != 0;
        if !self.has_looked && !follows {
            self.look(rt, shared);
        }
    }

    /// Looks at the clock. Moments never fall. Where it can't be read no answer is waited for.
    fn look<R: Wait + Clock + Files<File = File>>(&mut self, rt: &R, shared: &Shared)
        ensures later { self.old.moment ≤ self.new.moment }
    {
        self.has_looked = true;
        let Some((reading, look)) = shared.look(rt) else {
            self.until = Some(0);
            return;
        };
        self.begin_second(rt, shared, reading / SECOND);
        self.stands = look.stands;
        if look.moment <= self.moment {
            return;
        }
        let passed = look.moment.saturating_sub(self.moment).min(CATCH_UP);
        // As time begins to stand still one NOTIFY is tried at once.
        self.repeats = if look.stands {
            1
        } else {
            PACE.saturating_mul(passed as u32)
        };
        self.moment = look.moment;
    }

    /// The service is up for so many seconds. In each the files are looked at, and where time stands still one NOTIFY is tried.
    fn begin_second<R: Wait + Files<File = File>>(&mut self, rt: &R, shared: &Shared, second: u64)
        ensures moment { self.new.moment ≡ self.old.moment }
    {
        if self.moment > 0 && second <= self.second {
            return;
        }
        self.second = second;
        shared.look_at_drops(rt);
        shared.look_at_journal(rt, second);
        if self.stands {
            self.repeats = 1;
        }
    }

    /// Whether time stands still, since each send fails.
    pub(crate) fn stands(&self) -> bool {
        self.stands
    }

    /// Whether nothing is left to be done, where each worker has ended and so many NOTIFYs wait for their answers.
    pub(crate) fn is_over(&mut self, waiting: usize) -> bool
        ensures moment { self.new.moment ≡ self.old.moment }
    {
        let until = match self.until {
            Some(until) => until,
            None => self.moment.saturating_add(self.linger),
        };
        self.until = Some(until);
        waiting == 0 || until <= self.moment
    }
}
