//! The requests for new subscriptions that were let through lately: one that comes again asks for none more. Its worker answers it as it
//! did before (RFC 3261 section 17.2.2).
ghost use Rattle.std.specs.Prelude.{◌≡◌, ◌≤◌, ℕ, List, [], length, max, Some, true, IfOk, IsTrue};
ghost use Rattle.service.specs.Newcomers as spec;
ghost use Rattle.service.specs.Newcomers.{IsPassed, IsSwept, passed_when};

use sha2::{Digest, Sha256};
use sip_read::Request;
use sip_text::{Addr, NoMemory};
use std::alloc::Global;
use std::collections::{BTreeMap, VecDeque};
use watchers::source;

/// For how many milliseconds a request may come again (timer J of RFC 3261 section 17.2.2).
const LIFE: u64 = 32_000;

/// How many are known at most. Of one more it isn't known that it comes again.
const MOST: usize = 65_536;

/// How many are looked at beside each that comes.
const LOOKS: u32 = 2;

/// How the branch of a request begins whose sender chose it unique (RFC 3261 section 8.1.1.7). By no other branch a request is known again.
const COOKIE: &[u8] = b"z9hG4bK";

/// What names a request: the SHA-256 of its text. So a long text takes no more memory than a short one.
type Name = [u8; 32];

/// A request that came from this address at this moment, in milliseconds.
#[derive(Clone, Copy)]
pub(crate) struct Newcomer<'a> {
    pub(crate) request: &'a Request,
    pub(crate) source: Addr,
    pub(crate) moment: u64,
}

impl Newcomer<'_> {
    /// What names it: whose it is, what it asks for, and its transaction (RFC 3261 section 17.2.3). None where its branch doesn't begin with
    /// the cookie.
    fn name(&self, alloc: Global) -> Result<Option<Name>, NoMemory>
        ensures { IfOk result (λ name. name ≡ spec.request_name self.now.request.now self.now.source) }
    {
        let Some(branch) = &self.request.head.top.branch else {
            return Ok(None);
        };
        let branch = branch.as_str();
        if !branch.as_bytes().starts_with(COOKIE) {
            return Ok(None);
        }
        let sender = self.request.head.top.sent_by.as_str();
        let method = self.request.method.as_str();
        let uri = self.request.uri.as_str();
        let call = self.request.head.call_id.as_str();
        let source = source(self.source);
        let text = format!(in alloc; "{source} {method} {uri} {sender} {branch} {call}")?;
        Ok(Some(<Sha256 as Digest>::digest(text.as_bytes())))
    }
}

/// Those that were let through, and when that was. The map is ordered: a stranger chooses the texts, and no choice makes it slow.
#[derive(Drop)]
pub(crate) struct Newcomers {
    alloc: Global,
    passed: BTreeMap<Name, u64>,
    /// Their names in the order in which they came.
    order: VecDeque<Name>,
}

impl Newcomers {
    /// None.
    pub(crate) fn new(alloc: Global) -> Newcomers
        ensures { result.passed.entries ≡ [] }
    {
        Newcomers {
            alloc,
            passed: BTreeMap::new(alloc),
            order: VecDeque::new(alloc),
        }
    }

    /// Whether it was let through, so lately that it may come again.
    fn is_known(&self, name: &Name, now: u64) -> bool
        ensures { result ≡ spec.is_recent (passed_when self.now.passed name.now) now }
    {
        match self.passed.get(name) {
            Some(moment) => now.saturating_sub(*moment) < LIFE,
            None => false,
        }
    }

    /// Looks at the first ones, and drops those of them that come no more.
    fn sweep(&mut self, now: u64)
        ensures swept { (n : List ℕ) → IsSwept (passed_when self.old.passed n) (passed_when self.new.passed n) }
        ensures fewer { length self.new.order.items ≤ length self.old.order.items }
    {
        for _ in 0..LOOKS {
            let Some(name) = self.order.front().copied() else {
                return;
            };
            if self.is_known(&name, now) {
                return;
            }
            self.passed.remove(&name);
            self.order.pop_front();
        }
    }

    /// This one is let through. Without memory or room it isn't known that it comes again.
    pub(crate) fn pass(&mut self, newcomer: Newcomer<'_>) -> Result<(), NoMemory>
        // None but this one is known from now on.
        ensures passed { (n : List ℕ) → IsPassed (spec.request_name newcomer.entry.request.now newcomer.entry.source) newcomer.entry.moment n
            (passed_when self.old.passed n) (passed_when self.new.passed n) }
        ensures few { length self.new.order.items ≤ max MOST (length self.old.order.items) }
    {
        self.sweep(newcomer.moment);
        let Some(name) = newcomer.name(self.alloc)? else {
            return Ok(());
        };
        if self.order.len() >= MOST || self.passed.contains_key(&name) {
            return Ok(());
        }
        if self.order.push_back(name).is_err() {
            return Err(NoMemory);
        }
        match self.passed.insert(name, newcomer.moment) {
            Ok(_) => Ok(()),
            Err(_) => Err(NoMemory),
        }
    }

    /// Whether it was let through before, and comes again.
    pub(crate) fn is_again(&self, newcomer: Newcomer<'_>) -> bool
        // Where it is: without memory it isn't known.
        ensures { IsTrue result → (name : List ℕ) × (spec.request_name newcomer.entry.request.now newcomer.entry.source ≡ Some name)
            × (spec.is_recent (passed_when self.now.passed name) newcomer.entry.moment ≡ true) }
    {
        match newcomer.name(self.alloc) {
            Ok(Some(name)) => self.is_known(&name, newcomer.moment),
            Ok(None) | Err(_) => false,
        }
    }
}
