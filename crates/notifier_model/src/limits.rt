//! The limits of a notifier.
ghost use Rattle.std.specs.Prelude.{◌≡◌, ◌↔◌, IsTrue, SomeIff};
ghost use Rattle.notifier_model.specs.Limits as spec;
ghost use Rattle.notifier_model.specs.Limits.{AreLimits};

use std::marker::Model;

/// What bounds a notifier. Times are seconds.
#[derive(Clone, Copy, Debug)]
pub struct Limits {
    min_time: u32,
    max_time: u32,
    default_time: u32,
    refer_time: u32,
    max_cseq: u32,
    table: u32,
    serials: u32,
    kept: u32,
    inbox: u32,
    outbox: u32,
}

impl Model for Limits {
    ghost use Rattle.notifier_model.specs.Limits as spec;

    ghost Value = { spec.Limits };

    ghost use Rattle.notifier_model.specs.LimitsFields.{limits_of, fields_of, AreInRange};

    ghost view = { limits_of };

    ghost inverse = { fields_of };

    ghost invariant = { AreInRange };
}

fn is_within(low: u32, high: u32, n: u32) -> bool
    ensures { IsTrue result ↔ spec.IsWithin low high n }
{
    low <= n && n <= high
}

impl Limits {
    /// None exactly where a limit is out of its range:
    ///
    /// | limit | range |
    /// |---|---|
    /// | `min_time` | 1 to 3600 |
    /// | `max_time` | `min_time` to 4294967295 |
    /// | `default_time`, `refer_time` | `min_time` to `max_time` |
    /// | `max_cseq` | 1 to 2147483647 |
    /// | `table` | 1 to 65536 |
    /// | `serials` | 1 to 4294967295 |
    /// | `kept` | 1 to 4096 |
    /// | `inbox`, `outbox` | 1 to 65536 |
    pub fn new(
        min_time: u32,
        max_time: u32,
        default_time: u32,
        refer_time: u32,
        max_cseq: u32,
        table: u32,
        serials: u32,
        kept: u32,
        inbox: u32,
        outbox: u32,
    ) -> Option<Limits>
        ensures { let limits : spec.Limits = record {
          min_time = min_time;
          max_time = max_time;
          default_time = default_time;
          refer_time = refer_time;
          max_cseq = max_cseq;
          table = table;
          serials = serials;
          kept = kept;
          inbox = inbox;
          outbox = outbox;
        } in
            SomeIff result (AreLimits limits) limits }
    {
        let are_times = is_within(1, 3600, min_time)
            && is_within(min_time, u32::MAX, max_time)
            && is_within(min_time, max_time, default_time)
            && is_within(min_time, max_time, refer_time);
        let are_counts = is_within(1, 2147483647, max_cseq)
            && is_within(1, 65536, table)
            && is_within(1, u32::MAX, serials)
            && is_within(1, 4096, kept);
        if !are_times
            || !are_counts
            || !is_within(1, 65536, inbox)
            || !is_within(1, 65536, outbox)
        {
            return None;
        }
        Some(Limits {
            min_time,
            max_time,
            default_time,
            refer_time,
            max_cseq,
            table,
            serials,
            kept,
            inbox,
            outbox,
        })
    }
}

impl Limits {
    /// The least time that may be asked for, but for none.
    pub fn min_time(&self) -> u32
        ensures value { result ≡ self.now.min_time }
        ensures in_range { AreLimits self.now }
    {
        self.min_time
    }

    /// The greatest time that is granted.
    pub fn max_time(&self) -> u32
        ensures value { result ≡ self.now.max_time }
        ensures in_range { AreLimits self.now }
    {
        self.max_time
    }

    /// The time of a SUBSCRIBE that does not say, but for one to `refer`.
    pub fn default_time(&self) -> u32
        ensures value { result ≡ self.now.default_time }
        ensures in_range { AreLimits self.now }
    {
        self.default_time
    }

    /// The time of a REFER, and of a SUBSCRIBE to `refer` that does not say.
    pub fn refer_time(&self) -> u32
        ensures value { result ≡ self.now.refer_time }
        ensures in_range { AreLimits self.now }
    {
        self.refer_time
    }

    /// The number of the last NOTIFY that a dialog may have.
    pub fn max_cseq(&self) -> u32
        ensures value { result ≡ self.now.max_cseq }
        ensures in_range { AreLimits self.now }
    {
        self.max_cseq
    }

    /// How many subscriptions may be alive at one worker.
    pub fn table(&self) -> u32
        ensures value { result ≡ self.now.table }
        ensures in_range { AreLimits self.now }
    {
        self.table
    }

    /// The last serial of a subscription at one worker.
    pub fn serials(&self) -> u32
        ensures value { result ≡ self.now.serials }
        ensures in_range { AreLimits self.now }
    {
        self.serials
    }

    /// How many answers are kept for retransmissions.
    pub fn kept(&self) -> u32
        ensures value { result ≡ self.now.kept }
        ensures in_range { AreLimits self.now }
    {
        self.kept
    }

    /// How many items the queue to a worker holds.
    pub fn inbox(&self) -> u32
        ensures value { result ≡ self.now.inbox }
        ensures in_range { AreLimits self.now }
    {
        self.inbox
    }

    /// How many items the queue from the workers holds.
    pub fn outbox(&self) -> u32
        ensures value { result ≡ self.now.outbox }
        ensures in_range { AreLimits self.now }
    {
        self.outbox
    }
}

impl Limits {
    /// Tells a proof that each limit is in its range. It does nothing.
    pub fn are_in_range(&self)
        ensures { AreLimits self.now }
    {
        let _ = &self.min_time;
    }
}
