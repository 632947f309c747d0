//! Wrong passwords, counted by source and by the user's name.
ghost use Rattle.std.specs.Prelude.{◌≡◌, ◌⊎◌, not, OnOk, OnErr};
ghost use Rattle.admission.specs.Guesses as spec;
ghost use Rattle.admission.specs.Guesses.{minute_clock};

use crate::bucket::is_enough;
use crate::table::Rates;
use sha2::{Digest, Sha256};
use sip_text::NoMemory;

/// How many milliseconds are a thousandth of a minute.
const THOUSANDTH: u64 = 60;

/// How many thousandths of a minute are an hour.
const HOUR: u64 = 60_000;

/// The wrong passwords that were shown lately. Each takes a token of its source's bucket, and one of the bucket of its user's name. The clock
/// of these buckets counts thousandths of a minute, so that what their rate brings `per_second` comes in a minute.
#[derive(Drop)]
pub struct Guesses {
    /// By source: an IPv4 address, as a number.
    pub sources: Rates,
    /// By the user's name: the first four octets of its SHA-256, as a number. So a long name takes no more memory than a short one.
    pub names: Rates,
}

/// A moment in milliseconds, as thousandths of a minute.
fn minute_clock(moment: u64) -> u64
    ensures { result ≡ minute_clock moment }
{
    moment / THOUSANDTH
}

/// A user's name as a number: the first four octets of its SHA-256.
pub fn name_number(user: &str) -> u32
    ensures { result ≡ spec.name_number user.now }
{
    let digest = <Sha256 as Digest>::digest(user.as_bytes());
    u32::from_be_bytes([digest[0], digest[1], digest[2], digest[3]])
}

/// Whether no token is left of this source, or this name.
fn is_spent(buckets: &Rates, key: u32, now: u64) -> bool
    ensures { result ≡ not (spec.has_token buckets.now key now) }
{
    !is_enough(buckets.allowance(key, now))
}

impl Guesses {
    /// Whether a wrong password came from this source, less than an hour ago.
    fn has_guessed(&self, source: u32, now: u64) -> bool
        ensures { result ≡ spec.has_guessed self.now.sources source now }
    {
        match self.sources.bucket(source) {
            Some(bucket) => now.saturating_sub(bucket.moment) < HOUR,
            None => false,
        }
    }

    /// Whether the password of this user isn't looked at, where a request came from this source at this moment, in milliseconds. A source
    /// without a token is barred. A user whose name has none is barred at each source that showed a wrong password less than an hour ago,
    /// and at no other: so nobody is kept out by what others guess elsewhere.
    pub fn bars(&self, source: u32, user: &str, moment: u64) -> bool
        ensures { result ≡ spec.bars self.now source user.now (minute_clock moment) }
    {
        let now = minute_clock(moment);
        if is_spent(&self.sources, source, now) {
            return true;
        }
        self.has_guessed(source, now) && is_spent(&self.names, name_number(user), now)
    }

    /// Takes the tokens of a wrong password that this source showed for this user at this moment, in milliseconds. Its only error is out of
    /// memory.
    pub fn note(&mut self, source: u32, user: &str, moment: u64) -> Result<(), NoMemory>
        ensures ok { OnOk result (self.new ≡ spec.guessed self.old source user.now (minute_clock moment)) }
        // Then nothing was taken, or the source's token alone.
        ensures err { OnErr result ((self.new ≡ self.old) ⊎ (self.new ≡ spec.half_guessed self.old source (minute_clock moment))) }
    {
        let now = minute_clock(moment);
        self.sources.hear(source, now)?;
        self.names.hear(name_number(user), now)?;
        Ok(())
    }
}
