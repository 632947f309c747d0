//! Nonces that need no state.
ghost use Rattle.std.specs.Prelude.{◌≡◌, ◌↔◌, ℕ, IfOk, IsTrue, MatchOption, string_bytes};
ghost use Rattle.digest.specs.Nonces.{seal, nonce_text, IsOurs, IsYoung, IsFound};

use crate::comparison::is_same;
use sha2::{Digest, Sha256};
use sip_text::{Addr, NoMemory, Text, cut_at, plain_number};
use std::alloc::Global;

/// How nonces are made and known again. Nothing is kept of a nonce: it says itself when it was made, and its seal says that it was made here.
#[derive(Clone, Copy)]
pub struct Nonces {
    /// Who knows it can make nonces.
    pub secret: [u8; 32],
    /// For how many seconds a nonce is good.
    pub time: u64,
}

/// What is found of a nonce.
#[derive(Clone, Copy, Debug, PartialEq, Eq)]
pub enum Freshness {
    /// Made for this source, and no longer ago than a nonce is good.
    Fresh,
    /// Made for this source, but longer ago, or later than now.
    Stale,
    /// Not made here, or for another source.
    Foreign,
}

/// Whether a moment is no later than now and no more than `time` seconds ago.
fn is_young(time: u64, now: u64, moment: u64) -> bool
    ensures { IsTrue result ↔ IsYoung time now moment }
{
    moment <= now && now - moment <= time
}

impl Nonces {
    /// The seal of a nonce: SHA-256, in hex digits, over the secret, the moment, and the source's address and port.
    fn seal(&self, alloc: Global, moment: u64, source: Addr) -> Result<String, NoMemory>
        ensures { IfOk result (λ s. string_bytes s ≡ seal self.now.secret moment source) }
    {
        let address = source.text(alloc)?;
        let stamp = format!(in alloc; "{moment} {address}")?;
        let mut hasher = Sha256::new();
        hasher.update(self.secret.as_slice());
        hasher.update(stamp.as_bytes());
        let digits = hex::encode(alloc, hasher.finalize().as_slice())?;
        Ok(digits)
    }

    /// The nonce that is made at this moment, in seconds, for requests from this source. Its error is want of memory.
    pub fn make(&self, alloc: Global, moment: u64, source: Addr) -> Result<Text, NoMemory>
        ensures { IfOk result (λ t. t ≡ nonce_text self.now.secret moment source) }
    {
        let seal = self.seal(alloc, moment, source)?;
        let nonce = format!(in alloc; "{moment}-{seal}")?;
        Ok(Text::new(nonce))
    }

    /// The moment, in seconds, when the nonce was made for requests from this source, if it was.
    fn moment(&self, alloc: Global, nonce: &str, source: Addr) -> Result<Option<u64>, NoMemory>
        ensures { IfOk result (λ o. MatchOption o
            ((moment : ℕ) → ¬ (IsOurs self.now.secret source nonce.now moment))
            (IsOurs self.now.secret source nonce.now)) }
    {
        let Some((digits, _seal)) = cut_at(b'-', nonce.as_bytes()) else {
            return Ok(None);
        };
        let Some(moment) = plain_number(digits) else {
            return Ok(None);
        };
        let own = self.make(alloc, moment, source)?;
        if is_same(own.as_str().as_bytes(), nonce.as_bytes()) {
            Ok(Some(moment))
        } else {
            Ok(None)
        }
    }

    /// What the nonce is at the moment `now`, in seconds, in a request from this source. Its error is want of memory.
    pub fn judge(
        &self,
        alloc: Global,
        nonce: &str,
        source: Addr,
        now: u64,
    ) -> Result<Freshness, NoMemory>
        ensures { IfOk result (IsFound self.now source now nonce.now) }
    {
        match self.moment(alloc, nonce, source)? {
            None => Ok(Freshness::Foreign),
            Some(moment) => {
                if is_young(self.time, now, moment) {
                    Ok(Freshness::Fresh)
                } else {
                    Ok(Freshness::Stale)
                }
            }
        }
    }
}
