//! The buckets of all sources.
ghost use Rattle.std.specs.Prelude.{◌≡◌, true, IfOk, OnOk, OnErr};
ghost use Rattle.std.specs.NonZero.{non_zero_usize_get};
ghost use Rattle.admission.specs.Table as spec;
ghost use Rattle.admission.specs.Table.{empty, after};

use crate::bucket::{Bucket, Rate, is_enough, left};
use lru::LruCache;
use sip_text::NoMemory;
use std::alloc::Global;
use std::collections::hash_map::RandomState;
use std::num::NonZeroUsize;

/// The buckets of the sources that were heard lately, all of one rate. A source is an IPv4 address, as a number.
#[derive(Drop)]
pub struct Rates {
    pub rate: Rate,
    /// By source, the one heard last first. Strangers choose their addresses, so these are hashed by keys that nobody can guess.
    pub buckets: LruCache<u32, Bucket, RandomState>,
}

impl Rates {
    /// Of a service that has heard no source yet. So many may have a bucket at once, and are hashed by these keys. Its only error is out of
    /// memory.
    pub fn new(
        alloc: Global,
        rate: Rate,
        size: NonZeroUsize,
        keys: RandomState,
    ) -> Result<Rates, NoMemory>
        ensures { IfOk result (λ r. r ≡ empty rate (non_zero_usize_get size)) }
    {
        let buckets = LruCache::with_hasher(alloc, size, keys)?;
        Ok(Rates { rate, buckets })
    }

    /// The bucket of a source, if it has one.
    pub(crate) fn bucket(&self, source: u32) -> Option<Bucket>
        ensures { result ≡ spec.bucket self.now source }
    {
        self.buckets.peek(&source).copied()
    }

    /// What a source may use at this moment.
    pub(crate) fn allowance(&self, source: u32, now: u64) -> u64
        ensures { result ≡ spec.allowance self.now source now }
    {
        self.rate.usable(self.bucket(source), now)
    }

    /// Whether a further source finds a place at this moment: a free one, or that of the source that was heard the longest ago, where its bucket
    /// is full again.
    fn has_place(&self, now: u64) -> bool
        ensures { result ≡ spec.has_place self.now now }
    {
        if self.buckets.len() < self.buckets.cap().get() {
            return true;
        }
        match self.buckets.peek_lru() {
            Some((_, bucket)) => self.rate.is_full(*bucket, now),
            None => false,
        }
    }

    /// Whether a datagram of this source is let through at this moment, in milliseconds. It takes a token of the source's bucket, if one is there.
    /// Its only error is out of memory.
    #[tactic(auto, unfolding(crate::specs::Table::is_let, crate::specs::Table::after))]
    pub fn hear(&mut self, source: u32, now: u64) -> Result<bool, NoMemory>
        ensures verdict { IfOk result (λ r. r ≡ spec.is_let self.old source now) }
        ensures after { OnOk result (self.new ≡ after self.old source now) }
        ensures err { OnErr result (self.new ≡ self.old) }
        // A source that finds no place is refused without memory.
        ensures wanting { OnErr result (spec.has_room self.old source now ≡ true) }
    {
        let bucket = self.buckets.peek(&source).copied();
        if bucket.is_none() && !self.has_place(now) {
            return Ok(false);
        }
        let tokens = self.rate.usable(bucket, now);
        self.buckets.put(source, left(tokens, now))?;
        Ok(is_enough(tokens))
    }
}
