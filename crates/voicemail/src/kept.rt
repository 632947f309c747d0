//! The answers to the last NOTIFYs, so that one that comes again is answered again, and not told again (RFC 3261 section 17.2.2).
ghost use Rattle.std.specs.Prelude.{◌≡◌, [], option_map, find, IfOk, OnOk, OnErr};
ghost use Rattle.circular_buffer.specs.Buffer.{buffer};
ghost use Rattle.notifier_model.specs.Answers.{kept_answer, has_key};
ghost use Rattle.notifier_model.specs.Requests.{key_of_request, same_key};
ghost use Rattle.voicemail.specs.Kept.{key_seen, with_answer};

use circular_buffer::HeapCircularBuffer;
use notifier_model::row::{Kept, Key};
use sip_read::Request;
use sip_text::{NoMemory, Octets, Text};
use std::alloc::Global;
use std::marker::Model;

/// How many answers are kept. A server transaction keeps its own for 32 seconds (timer J); these are kept by room and not by time. So above
/// 128 NOTIFYs a second one of 32 seconds ago may be forgotten.
pub const ROOM: usize = 4096;

/// What names a transaction, as a request of it says it (RFC 3261 section 17.2.3).
#[derive(Clone, Copy)]
struct Transaction<'a> {
    branch: &'a str,
    sent_by: &'a str,
    method: &'a str,
}

impl<'a> Transaction<'a> {
    /// The transaction of a request, if anything names it: a branch with the magic cookie.
    #[tactic(auto, unfolding(notifier_model::specs::Requests::key_of_request))]
    fn of(request: &'a Request) -> Option<Transaction<'a>>
        ensures { option_map key_seen result ≡ key_of_request request.now }
    {
        let top = &request.head.top;
        let Some(branch) = &top.branch else {
            return None;
        };
        if !branch.as_str().as_bytes().starts_with(b"z9hG4bK") {
            return None;
        }
        Some(Transaction {
            branch: branch.as_str(),
            sent_by: top.sent_by.as_str(),
            method: request.method.as_str(),
        })
    }

    /// Whether this key names it.
    fn has(&self, key: &Key) -> bool
        ensures { result ≡ same_key key.now (key_seen self.now) }
    {
        key.branch.is(self.branch) && key.sent_by.is(self.sent_by) && key.method.is(self.method)
    }

    /// The key that names it.
    fn key(&self, alloc: Global) -> Result<Key, NoMemory>
        ensures { IfOk result (λ key. key ≡ key_seen self.now) }
    {
        Ok(Key {
            branch: Text::of(alloc, self.branch)?,
            sent_by: Text::of(alloc, self.sent_by)?,
            method: Text::of(alloc, self.method)?,
        })
    }
}

/// The newest answer to a transaction, of answers that stand newest first.
fn newest<'a>(ring: &'a HeapCircularBuffer<Kept>, transaction: &Transaction<'_>) -> Option<&'a Kept>
    ensures { option_map (λ kept. kept.now) result ≡ find (has_key (key_seen transaction.now)) ring.now.items }
{
    ring.iter().find(|kept| transaction.has(&kept.key))
}

/// The answers that are kept, newest first. When there is no room the oldest goes. A look goes over all of them, so it needs no memory.
#[derive(Drop)]
pub struct KeptAnswers {
    ring: HeapCircularBuffer<Kept>,
}

impl Model for KeptAnswers {
    ghost use Rattle.circular_buffer.specs.Buffer.{Buffer};
    ghost use Rattle.notifier_model.specs.declared.row.Kept.{Kept};

    ghost Value = { Buffer Kept };

    ghost view = { λ k. k.ring };
}

impl KeptAnswers {
    /// Keeps nothing yet. Its only error is out of memory.
    pub fn new(alloc: Global) -> Result<KeptAnswers, NoMemory>
        ensures { IfOk result (λ kept. kept ≡ buffer [] 4096) }
    {
        let ring = HeapCircularBuffer::with_capacity(alloc, ROOM)?;
        Ok(KeptAnswers { ring })
    }

    /// The newest answer to a request of the same transaction, if one is kept. It takes no memory.
    #[tactic(auto, using(crate::proofs::Keeping::its_bytes), unfolding(notifier_model::specs::Answers::kept_answer))]
    pub fn answer_to(&self, request: &Request) -> Option<&Octets>
        ensures { option_map (λ octets. octets.now) result ≡ kept_answer self.now.items (key_of_request request.now) }
    {
        match Transaction::of(request) {
            None => None,
            Some(transaction) => match newest(&self.ring, &transaction) {
                None => None,
                Some(kept) => Some(&kept.bytes),
            },
        }
    }

    /// Keeps the answer to a request, if anything names its transaction. Its only error is out of memory: it keeps what it kept, then.
    pub fn keep(&mut self, alloc: Global, request: &Request, octets: Octets) -> Result<(), NoMemory>
        ensures kept { OnOk result (self.new ≡ with_answer self.old (key_of_request request.now) octets) }
        ensures unchanged { OnErr result (self.new ≡ self.old) }
    {
        let Some(transaction) = Transaction::of(request) else {
            return Ok(());
        };
        let key = transaction.key(alloc)?;
        self.ring.push_front(Kept { key, bytes: octets });
        Ok(())
    }
}
