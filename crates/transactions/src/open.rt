//! A client transaction of a NOTIFY, and what time and answers make of it.
#![tactic(auto, unfolding(crate::specs::Timers::again))]

ghost use Rattle.std.specs.Prelude.{◌≡◌, ◌<◌, ◌^◌, ◌&&◌, ◌==◌, bytes_eq};
ghost use Rattle.transactions.specs.Timers as timers;

use sip_text::{Addr, Octets, Text};

/// T1, in milliseconds (RFC 3261 section 17.1.1.1).
pub const T1: u64 = 500;

/// T2, in milliseconds (RFC 3261 section 17.1.2.2).
pub const T2: u64 = 4_000;

/// Timer F: 64 times T1, in milliseconds (RFC 3261 section 17.1.2.2).
pub const PATIENCE: u64 = 32_000;

/// The status of an answer that says that the dialog or its usage is gone (RFC 3261 section 12.2.1.2).
pub const GONE: u16 = 481;

/// Whether a provisional answer came (RFC 3261 section 17.1.2.2).
#[derive(Clone, Copy, Debug, PartialEq, Eq)]
pub enum Phase {
    /// No answer came.
    Trying,
    /// A provisional answer came.
    Proceeding,
}

/// A NOTIFY that was sent, and to which no final answer came. Moments and times are milliseconds.
#[derive(Debug, Drop)]
pub struct Open {
    /// How many were kept before it.
    pub serial: u64,
    /// The local tag of its dialog.
    pub tag: Text,
    /// The number of its CSeq.
    pub number: u32,
    /// Where it is sent.
    pub to: Addr,
    /// What is sent, as it was the first time (RFC 3261 section 17.1.2.2).
    pub bytes: Octets,
    /// The moment of the first send.
    pub first: u64,
    /// How often it was sent.
    pub sends: u32,
    /// How long timer E runs from the latest send.
    pub interval: u64,
    /// The moment at which timer E fires.
    pub next: u64,
    pub phase: Phase,
}

impl Open {
    /// It was sent for the first time at this moment.
    #[tactic(auto, unfolding(crate::specs::Timers::sent))]
    pub(crate) fn sent(
        serial: u64,
        now: u64,
        tag: Text,
        number: u32,
        to: Addr,
        bytes: Octets,
    ) -> Open
        requires { now < 2 ^ 63 }
        ensures { result ≡ timers.sent serial now tag number to bytes }
    {
        Open {
            serial,
            tag,
            number,
            to,
            bytes,
            first: now,
            sends: 1,
            interval: T1,
            next: now + T1,
            phase: Phase::Trying,
        }
    }

    /// Whether it has this tag and this number.
    pub fn has_name(&self, tag: &str, number: u32) -> bool
        ensures { result ≡ timers.has_name tag.now number self.now }
    {
        self.tag.is(tag) && self.number == number
    }

    /// Whether it has this tag.
    pub fn has_tag(&self, tag: &str) -> bool
        ensures { result ≡ timers.has_tag tag.now self.now }
    {
        self.tag.is(tag)
    }

    /// Whether it is given up at this moment: timer F has fired (RFC 3261 section 17.1.2.2).
    pub fn is_over(&self, now: u64) -> bool
        ensures { result ≡ timers.is_over now self.now }
    {
        now.saturating_sub(self.first) >= PATIENCE
    }

    /// The moment at which time asks for something: timer E or timer F fires.
    pub fn alarm(&self) -> u64
        ensures { result ≡ timers.alarm self.now }
    {
        self.next.min(self.first.saturating_add(PATIENCE))
    }

    /// A provisional answer came.
    #[tactic(auto, unfolding(crate::specs::Timers::proceeding))]
    pub(crate) fn proceed(&mut self)
        ensures { self.new ≡ timers.proceeding self.old }
    {
        self.phase = Phase::Proceeding;
    }

    /// It was sent again at this moment.
    pub(crate) fn again(&mut self, now: u64)
        requires in_range { now < 2 ^ 63 }
        requires few { self.old.sends < 2 ^ 31 }
        requires short { self.old.interval < 2 ^ 31 }
        ensures { self.new ≡ timers.again now self.old }
    {
        let interval = match self.phase {
            Phase::Trying => T2.min(2 * self.interval),
            Phase::Proceeding => T2,
        };
        self.sends += 1;
        self.interval = interval;
        self.next = now + interval;
    }
}
