//! The clock.
ghost use Rattle.std.specs.Prelude.{◌≡◌, ◌≤◌, ◌+◌, max};

/// How many milliseconds count at most between two readings.
pub const GAP: u64 = 2000;

/// The clock of a service. All of its times are milliseconds.
#[derive(Drop)]
pub struct OutageClock {
    /// How much of all outages is left out at most, beyond what the time outside of them gives back.
    pub(crate) limit: u64,
    /// The last reading.
    pub(crate) read: u64,
    /// The moment that was given for it.
    pub(crate) given: u64,
    /// In an outage, how far it may run.
    pub(crate) stop: Option<u64>,
    /// How much of outages may still be left out.
    pub(crate) left: u64,
    /// It is never ahead of what it reads.
    pub ghost behind: { given ≤ read },
    pub ghost within: { left ≤ limit },
}

/// What a look at the clock tells.
#[derive(Clone, Copy, Debug)]
pub struct Look {
    /// The moment.
    pub moment: u64,
    /// For how long the process stood still since the last look, beyond what counts.
    pub stalled: u64,
    /// How much was left out since the first look, of outages and where the process stood still.
    pub left_out: u64,
    /// Whether it stands still now, since an outage lasts.
    pub stands: bool,
}

impl OutageClock {
    ghost use Rattle.outage_clock.specs.Moments as spec;

    /// One that begins at this reading, which is its first moment, and leaves out so much of all outages.
    pub fn new(limit: u64, reading: u64) -> OutageClock
        ensures begun { spec.seen result ≡ spec.begun limit reading }
    {
        OutageClock {
            limit,
            read: reading,
            given: reading,
            stop: None,
            left: limit,
        }
    }

    /// Sends fail, and the next NOTIFY is due to be sent again at this moment: up to there it may run. `None` where a send succeeded
    /// since, or no NOTIFY waits for its answer: it runs on.
    pub fn hold(&mut self, stop: Option<u64>)
        ensures held { spec.seen self.new ≡ spec.held stop (spec.seen self.old) }
    {
        self.stop = stop;
    }

    /// How much of this span lies behind the moment at which it is to stand.
    fn beyond(&self, span: u64) -> u64
        ensures beyond { result ≡ spec.beyond self.now.stop self.now.given span }
    {
        match self.stop {
            Some(stop) => span.saturating_sub(stop.saturating_sub(self.given)),
            None => 0,
        }
    }

    /// How much of a span that passed is left out.
    fn lost(&self, passed: u64) -> u64
        ensures lost { result ≡ spec.lost passed (spec.seen self.now) }
        ensures passed { result ≤ passed }
        ensures left { result ≤ self.now.left }
    {
        self.beyond(passed).min(self.left)
    }

    /// It reads so now. Of what passed since so much counts, and so much is left out of an outage.
    fn run_on(&mut self, reading: u64, counted: u64, lost: u64)
        requires passed { self.old.read + counted ≤ max self.old.read reading }
        requires lost { lost ≤ self.old.left }
        ensures ran { spec.seen self.new ≡ spec.ran reading counted lost (spec.seen self.old) }
    {
        self.left = self.budget(counted, lost);
        self.given += counted;
        self.read = self.read.max(reading);
    }

    /// How much of outages may still be left out behind a span of which so much counts and so much doesn't.
    fn budget(&self, counted: u64, lost: u64) -> u64
        requires lost { lost ≤ self.now.left }
        ensures budget { result ≡ spec.budget self.now.stop self.now.limit self.now.left counted lost }
        ensures within { result ≤ self.now.limit }
    {
        match self.stop {
            Some(_) => self.left - lost,
            None => self.left + counted.min(self.limit - self.left),
        }
    }

    /// Whether it stands still: it has run as far as it may, and more of the outage may be left out.
    fn stands(&self) -> bool
        ensures stands { result ≡ spec.stands (spec.seen self.now) }
    {
        match self.stop {
            Some(stop) => stop <= self.given && self.left > 0,
            None => false,
        }
    }

    /// Looks at the clock, which reads so now. A reading before the last one counts as that.
    pub fn look(&mut self, reading: u64) -> Look
        ensures clock { spec.seen self.new ≡ spec.looked reading (spec.seen self.old) }
        ensures moment { result.moment ≡ self.new.given }
        ensures stalled { result.stalled ≡ spec.stalled reading (spec.seen self.old) }
        ensures left_out { result.left_out ≡ spec.left_out (spec.seen self.new) }
        ensures stands { result.stands ≡ spec.stands (spec.seen self.new) }
    {
        let span = reading.saturating_sub(self.read);
        let passed = span.min(GAP);
        let lost = self.lost(passed);
        self.run_on(reading, passed - lost, lost);
        Look {
            moment: self.given,
            stalled: span - passed,
            left_out: self.read - self.given,
            stands: self.stands(),
        }
    }
}
