//! How many rows each source has.
ghost use Rattle.std.specs.Prelude.{◌≡◌, ◌<◌, ◌==◌, ℕ, [], if◌then◌else◌, OnOk, OnErr, IsOk};
ghost use Rattle.watchers.specs.Notifies as spec;
ghost use Rattle.watchers.specs.Tallies.{tally};

use sip_text::{Addr, NoMemory};
use std::alloc::Global;
use std::collections::BTreeMap;
use std::marker::Model;

/// Who sends from this address: its IPv4 address as a number, whose first octet has the highest bits.
pub fn source(addr: Addr) -> u32
    ensures { result ≡ spec.source addr }
{
    u32::from_be_bytes(addr.ip)
}

/// How much of something each source has. One that has none takes no room. Contracts see the pairs of a source and its count, and
/// `specs/Tallies` how much a source has by them. The map is ordered: a stranger chooses its addresses, and no choice makes it slow.
#[derive(Drop)]
pub struct Counts {
    counts: BTreeMap<u32, usize>,
}

impl Model for Counts {
    ghost use Rattle.std.specs.Prelude.{ℕ, List};

    ghost Value = { List (ℕ × ℕ) };

    ghost view = { λ c. c.counts.entries };
}

impl Counts {
    /// No source has any.
    pub fn new(alloc: Global) -> Counts
        ensures { result ≡ [] }
    {
        Counts {
            counts: BTreeMap::new(alloc),
        }
    }

    /// How much this source has.
    pub fn get(&self, source: u32) -> usize
        ensures { result ≡ tally self.now source }
    {
        match self.counts.get(&source) {
            Some(count) => *count,
            None => 0,
        }
    }

    /// This source has so much now. An error where there is no memory for one that had none: nothing changes then.
    pub fn set(&mut self, source: u32, count: usize) -> Result<(), NoMemory>
        ensures set { OnOk result ((k : ℕ) → tally self.new k ≡ (if source == k then count else tally self.old k)) }
        ensures unchanged { OnErr result (self.new ≡ self.old) }
        ensures succeeds { 0 < tally self.old source → IsOk result }
        ensures removes { count ≡ 0 → IsOk result }
    {
        if count == 0 {
            self.counts.remove(&source);
            return Ok(());
        }
        match self.counts.insert(source, count) {
            Ok(_) => Ok(()),
            Err(_) => Err(NoMemory),
        }
    }
}
