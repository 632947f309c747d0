//! One bucket.
ghost use Rattle.std.specs.Prelude.{◌≡◌};
ghost use Rattle.admission.specs.Buckets as spec;

/// What one datagram takes, in thousandths of a token.
const TOKEN: u64 = 1000;

/// How much of a source is let through.
#[derive(Clone, Copy, Debug, PartialEq, Eq)]
pub struct Rate {
    /// How many datagrams at once, of a source that was silent for long.
    pub burst: u32,
    /// How many datagrams a second, of one that goes on.
    pub per_second: u32,
}

/// What is left of a source's tokens.
#[derive(Clone, Copy, Debug, PartialEq, Eq)]
pub struct Bucket {
    /// In thousandths of a token.
    pub tokens: u64,
    /// When it held so much, in milliseconds.
    pub moment: u64,
}

/// Whether a datagram's token is there.
pub(crate) fn is_enough(tokens: u64) -> bool
    ensures { result ≡ spec.is_enough tokens }
{
    tokens >= TOKEN
}

/// The bucket behind a datagram that came at this moment, where so much was in it.
pub(crate) fn left(tokens: u64, now: u64) -> Bucket
    ensures { result ≡ spec.left tokens now }
{
    let tokens = if is_enough(tokens) {
        tokens - TOKEN
    } else {
        tokens
    };
    Bucket {
        tokens,
        moment: now,
    }
}

impl Rate {
    /// What a full bucket holds, in thousandths of a token.
    fn full(self) -> u64
        ensures { result ≡ spec.full self }
    {
        TOKEN * u64::from(self.burst)
    }

    /// What a bucket holds at this moment: a second fills in the tokens of a second, as far as there is room.
    #[tactic(auto, unfolding(crate::specs::Buckets::filled))]
    fn filled(self, bucket: Bucket, now: u64) -> u64
        ensures { result ≡ spec.filled self bucket now }
    {
        let passed = now.saturating_sub(bucket.moment);
        let more = u64::from(self.per_second).saturating_mul(passed);
        bucket.tokens.saturating_add(more).min(self.full())
    }

    /// What a source may use at this moment: one without a bucket has a full one.
    pub(crate) fn usable(self, bucket: Option<Bucket>, now: u64) -> u64
        ensures { result ≡ spec.usable self bucket now }
    {
        match bucket {
            Some(bucket) => self.filled(bucket, now),
            None => self.full(),
        }
    }

    /// Whether the bucket is full at this moment.
    pub(crate) fn is_full(self, bucket: Bucket, now: u64) -> bool
        ensures { result ≡ spec.is_full self bucket now }
    {
        self.filled(bucket, now) == self.full()
    }
}
