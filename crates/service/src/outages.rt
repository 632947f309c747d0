//! The clock by which NOTIFYs are sent again and given up, and subscriptions end: time in which nothing leaves this machine, or the process
//! stands still, is not the phones'.

use crate::logging::has_room;
use crate::shared::Shared;
use log_lines::{Outage, Record, Trouble};
use outage_clock::{Look, OutageClock};
use std::sync::atomic::{AtomicBool, AtomicU64, Ordering};
use std::sync::{Mutex, Wait};

/// How many milliseconds a second has.
const SECOND: u64 = 1000;

/// The service's address isn't this machine's any more (Linux's number, as the next ones are).
const EADDRNOTAVAIL: u32 = 99;

/// The link is down.
const ENETDOWN: u32 = 100;

/// No way leads to the network.
const ENETUNREACH: u32 = 101;

/// The link takes no more.
const ENOBUFS: u32 = 105;

/// No way leads to the host.
const EHOSTUNREACH: u32 = 113;

/// The number of a dialog's first NOTIFY.
const FIRST: u32 = 1;

/// Whether a send that fails so speaks of this machine's link or its way out. Any other error speaks of one datagram alone, whose address
/// a stranger may have chosen.
fn is_of_link(number: u32) -> bool {
    matches!(
        number,
        EADDRNOTAVAIL | ENETDOWN | ENETUNREACH | ENOBUFS | EHOSTUNREACH
    )
}

/// The clock of a service, and what is known of its sends. Its times are milliseconds.
#[derive(Drop)]
pub(crate) struct Outages {
    /// How much of outages is not counted at most.
    limit: AtomicU64,
    clock: Mutex<Hands>,
    /// Whether the last send failed, of those that tell of this machine.
    fails: AtomicBool,
    /// Whether the clock was told how far it may run.
    is_held: AtomicBool,
    /// How much was not counted until the last look.
    left_out: AtomicU64,
    /// Of that, for how long the process stood still.
    stalled: AtomicU64,
    /// Whether it stood at the last look.
    stands: AtomicBool,
    told: Mutex<Told>,
}

/// The clock, from the first look on.
#[derive(Drop)]
struct Hands {
    clock: Option<OutageClock>,
}

impl Hands {
    /// Looks at the clock at this reading. The first one begins it, with this limit.
    fn look(&mut self, limit: u64, reading: u64) -> Look {
        match &mut self.clock {
            Some(clock) => clock.look(reading),
            None => {
                let mut clock = OutageClock::new(limit, reading);
                let look = clock.look(reading);
                self.clock = Some(clock);
                look
            }
        }
    }

    /// So far it may run. Whether it is told.
    fn hold(&mut self, stop: Option<u64>) -> bool {
        match &mut self.clock {
            Some(clock) => {
                clock.hold(stop);
                true
            }
            None => false,
        }
    }
}

/// What was told on standard error.
#[derive(Drop)]
struct Told {
    /// Whether that an outage lasts was told last, or else that none does.
    lasts: bool,
    /// How much had not been counted of outages when the last one began, in milliseconds.
    lost: u64,
    /// For how long the process had stood still, in milliseconds.
    stalled: u64,
}

impl Told {
    /// What is to be told where time stands still, or doesn't, and so much was not counted of outages until now. An outage of less than a
    /// second isn't told.
    fn outage(&mut self, outages: &Outages, lost: u64) -> Option<Outage> {
        let more = lost.saturating_sub(self.lost);
        let seconds = more / SECOND;
        match (self.lasts, outages.stands()) {
            (false, true) if more >= SECOND => {
                let most = outages.limit.load(Ordering::SeqCst) / SECOND;
                Some(Outage::Began { most })
            }
            (false, true) | (true, true) => None,
            (false, false) => {
                self.lost = lost;
                None
            }
            (true, false) if outages.fails.load(Ordering::SeqCst) => {
                Some(Outage::TooLong { seconds })
            }
            (true, false) => Some(Outage::Ended { seconds }),
        }
    }
}

/// Says so on standard error, where there is room. Whether it was said.
fn say<R: Eprint>(rt: &R, shared: &Shared, outage: Outage) -> bool {
    if !has_room() {
        return false;
    }
    shared.tell(rt, &Record::Trouble(Trouble::Outage(outage)));
    true
}

impl Outages {
    /// Of a service that begins now, and counts each second.
    pub(crate) fn new() -> Outages {
        Outages {
            limit: AtomicU64::new(0),
            clock: Mutex::new(Hands { clock: None }),
            fails: AtomicBool::new(false),
            is_held: AtomicBool::new(false),
            left_out: AtomicU64::new(0),
            stalled: AtomicU64::new(0),
            stands: AtomicBool::new(false),
            told: Mutex::new(Told {
                lasts: false,
                lost: 0,
                stalled: 0,
            }),
        }
    }

    /// From now on, before the first look, so many seconds of outages are not counted at most.
    pub(crate) fn allow(&self, seconds: u32) {
        let limit = u64::from(seconds).saturating_mul(SECOND);
        self.limit.store(limit, Ordering::SeqCst);
    }

    /// A send succeeded.
    pub(crate) fn note_sent(&self) {
        // Most often the last one did too: a look costs less than to write it.
        if self.fails.load(Ordering::SeqCst) {
            self.fails.store(false, Ordering::SeqCst);
        }
    }

    /// A NOTIFY with this number in its dialog was not sent, at which the system told this error, if it told one. Where that speaks of one
    /// datagram, or where none is told, an outage neither begins nor ends. Nor does it at a dialog's first NOTIFY: nobody answered from its
    /// address yet, so a stranger may have named one to which no way leads.
    pub(crate) fn note_failed(&self, number: u32, error: Option<u32>) {
        match error {
            Some(error) if number > FIRST && is_of_link(error) => {
                self.fails.store(true, Ordering::SeqCst);
            }
            Some(_) | None => {}
        }
    }

    /// The next NOTIFY is due to be sent again at this moment, if one waits for its answer: where sends fail time counts up to there until
    /// one succeeds. While a service closes time counts as it passes.
    pub(crate) fn hold<R: Wait>(&self, rt: &R, next: Option<u64>, is_closing: bool) {
        let stop = if self.fails.load(Ordering::SeqCst) && !is_closing {
            next
        } else {
            None
        };
        if stop.is_none() && !self.is_held.load(Ordering::SeqCst) {
            return;
        }
        if self.clock.lock(rt).hold(stop) {
            self.is_held.store(stop.is_some(), Ordering::SeqCst);
        }
    }

    /// Looks at the clock, where the service is up for so long.
    pub(crate) fn look<R: Wait>(&self, rt: &R, reading: u64) -> Look {
        let limit = self.limit.load(Ordering::SeqCst);
        let look = self.clock.lock(rt).look(limit, reading);
        self.left_out.store(look.left_out, Ordering::SeqCst);
        self.stands.store(look.stands, Ordering::SeqCst);
        if look.stalled > 0 {
            self.stalled.fetch_add(look.stalled, Ordering::SeqCst);
        }
        look
    }

    /// Whether time stands still: each send fails, and a NOTIFY is due to be sent again.
    pub(crate) fn stands(&self) -> bool {
        self.stands.load(Ordering::SeqCst)
    }

    /// How many seconds were not counted.
    pub(crate) fn seconds(&self) -> u64 {
        self.left_out.load(Ordering::SeqCst) / SECOND
    }

    /// Says on standard error where time begins to stand still and where it goes on, and for how long the process stood still.
    pub(crate) fn tell<R: Wait + Eprint>(&self, rt: &R, shared: &Shared) {
        let stalled = self.stalled.load(Ordering::SeqCst);
        let lost = self.left_out.load(Ordering::SeqCst).saturating_sub(stalled);
        let mut told = self.told.lock(rt);
        let more = stalled.saturating_sub(told.stalled);
        if more >= SECOND {
            let seconds = more / SECOND;
            if say(rt, shared, Outage::StoodStill { seconds }) {
                told.stalled = stalled;
            }
        }
        if let Some(outage) = told.outage(self, lost) {
            if say(rt, shared, outage) {
                told.lasts = !told.lasts;
            }
        }
    }
}
