//! Answers that are kept for retransmissions (RFC 3261 section 17.2.2), newest first.
#![tactic(auto, unfolding(notifier_model::specs::Answers::kept_answer, notifier_model::specs::Answers::ring_with))]

ghost use Rattle.std.specs.Prelude.{◌≡◌, ℕ, ◌<◌, ◌≤◌, ◌^◌, ◌-◌, ◌++◌, [], length, take, find, option_map, IfOk, OnOk, Some, true, ◌↔◌};
ghost use Rattle.circular_buffer.specs.Buffer.{buffer};
ghost use Rattle.notifier_model.specs.Answers as spec;
ghost use Rattle.notifier_model.specs.Limits.{Limits as LimitsSeen};
ghost use Rattle.snapshots.specs.Forms.{list_text, AreAll};
ghost use Rattle.snapshots.specs.Books.{kept_text, IsKept};
ghost use Rattle.notifier.specs.Slots as slots;
ghost use Rattle.notifier.specs.Transactions.{key_of};

use crate::store::transaction::Transaction;
use circular_buffer::HeapCircularBuffer;
use sip_text::{NoMemory, Octets};
use snapshots::form::Form;
use std::alloc::Global;
use std::collections::BTreeMap;
use std::marker::Model;

/// The slot after this one.
fn after(room: usize, slot: usize) -> usize
    requires { slot < room }
    ensures { result ≡ slots.after room slot }
{
    if slot + 1 == room { 0 } else { slot + 1 }
}

/// The place of the answer in this slot, where the newest one is in that slot.
fn place(room: usize, newest: usize, slot: usize) -> usize
    requires within { newest < room }
    requires fits { room < 2 ^ 63 }
    ensures { (place : ℕ) → place < room → slot ≡ slots.slot_at room newest place → result ≡ place }
{
    if slot <= newest {
        newest - slot
    } else {
        (newest + room).saturating_sub(slot)
    }
}

/// An answer that is kept. Contracts see it under the key that its transaction stands for.
#[derive(Drop)]
struct KeptAnswer {
    transaction: Transaction,
    bytes: Octets,
}

impl Model for KeptAnswer {
    ghost use Rattle.notifier_model.specs.declared.row.Kept.{Kept};
    ghost use Rattle.notifier.specs.Transactions.{key_of};

    ghost Value = { Kept };

    ghost view = { λ a. record { key = key_of a.transaction; bytes = a.bytes } };
}

impl KeptAnswer {
    /// The bytes of the answer.
    fn bytes(&self) -> &Octets
        ensures { result.now ≡ self.now.bytes }
    {
        &self.bytes
    }

    /// Appends its key and its bytes.
    fn write(&self, alloc: Global, out: &mut Vec<u8>) -> Result<(), NoMemory>
        ensures text { OnOk result (out.new.items ≡ out.old.items ++ kept_text self.now) }
        ensures fits { OnOk result (IsKept self.now) }
    {
        self.transaction.write(out)?;
        self.bytes.fits();
        self.bytes.put(alloc, out)
    }

    /// What names its transaction.
    fn into_transaction(self) -> Transaction
        ensures { key_of result ≡ self.key }
    {
        let KeptAnswer { transaction, .. } = self;
        transaction
    }
}

/// The answers that are kept, newest first, each found by its transaction through a map. When there is no room the
/// oldest goes. The map is ordered, since strangers choose what names a transaction: no choice of theirs makes a look-up long.
#[derive(Drop)]
pub struct KeptAnswers {
    /// Newest first.
    ring: HeapCircularBuffer<KeptAnswer>,
    /// The slot of the newest answer to each transaction.
    slots: BTreeMap<Transaction, usize>,
    /// The slot of the newest answer of all.
    newest: usize,
}

impl Model for KeptAnswers {
    ghost use Rattle.notifier_model.specs.declared.row.Kept.{Kept};
    ghost use Rattle.circular_buffer.specs.Buffer.{Buffer};
    ghost use Rattle.notifier.specs.Slots.{IsIndexed};

    ghost Value = { Buffer Kept };

    ghost view = { λ k. k.ring };

    ghost invariant = { λ k. IsIndexed k.ring k.slots k.newest };
}

/// Whether this transaction has its newest answer in this slot.
fn leads_to(index: &BTreeMap<Transaction, usize>, transaction: &Transaction, slot: usize) -> bool
    ensures { result ≡ true ↔ slots.slot_in index.now transaction.now ≡ Some slot }
{
    match index.get(transaction) {
        Some(found) => *found == slot,
        None => false,
    }
}

/// Lets the oldest answer go, if there is no room.
fn make_room(
    ring: &mut HeapCircularBuffer<KeptAnswer>,
    index: &mut BTreeMap<Transaction, usize>,
    newest: usize,
)
    requires { slots.IsIndexed ring.old index.old newest }
    ensures ring { ring.new ≡ buffer (take (ring.old.capacity - 1) ring.old.items) ring.old.capacity }
    ensures indexed { slots.IsIndexed ring.new index.new newest }
{
    if !ring.is_full() {
        return;
    }
    let Some(oldest) = ring.pop_back() else {
        return;
    };
    let transaction = oldest.into_transaction();
    let slot = after(ring.capacity(), newest);
    if leads_to(index, &transaction, slot) {
        index.remove(&transaction);
    }
}

impl KeptAnswers {
    /// Keeps nothing, and has room for so many answers.
    pub fn with_room(alloc: Global, room: usize) -> Result<KeptAnswers, NoMemory>
        requires { 0 < room }
        ensures { IfOk result (λ kept. kept ≡ buffer [] room) }
    {
        let ring = HeapCircularBuffer::with_capacity(alloc, room)?;
        Ok(KeptAnswers {
            ring,
            slots: BTreeMap::new(alloc),
            newest: 0,
        })
    }

    /// The newest answer to a request of this transaction, if one is kept.
    pub fn answer_to(&self, transaction: &Option<Transaction>) -> Option<&Octets>
        ensures { option_map (λ bytes. bytes.now) result
            ≡ spec.kept_answer self.now.items (option_map key_of transaction.now) }
    {
        let Some(transaction) = transaction else {
            return None;
        };
        let slot = *self.slots.get(transaction)?;
        let kept = self
            .ring
            .get(place(self.ring.capacity(), self.newest, slot))?;
        Some(kept.bytes())
    }

    /// Keeps an answer to a request of this transaction, if it has one. The oldest goes when there is no room.
    pub fn keep(
        &mut self,
        alloc: Global,
        transaction: Option<Transaction>,
        bytes: Octets,
    ) -> Result<(), NoMemory>
        ensures { OnOk result ((limits : LimitsSeen) → self.old.capacity ≡ limits.kept
            → self.new ≡ buffer
            (spec.ring_with limits self.old.items (option_map key_of transaction) bytes) self.old.capacity) }
    {
        let Some(transaction) = transaction else {
            return Ok(());
        };
        let named = transaction.copy(alloc)?;
        make_room(&mut self.ring, &mut self.slots, self.newest);
        let slot = after(self.ring.capacity(), self.newest);
        self.slots.insert(named, slot)?;
        self.newest = slot;
        self.ring.push_front(KeptAnswer { transaction, bytes });
        Ok(())
    }

    /// Appends the answers, newest first, their number before them.
    pub fn write(&self, alloc: Global, out: &mut Vec<u8>) -> Result<(), NoMemory>
        ensures text { OnOk result (out.new.items ≡ out.old.items ++ list_text kept_text self.now.items) }
        ensures fit { OnOk result (AreAll IsKept self.now.items) }
        ensures room { length self.now.items ≤ self.now.capacity }
    {
        let count = self.ring.len() as u64;
        count.put(alloc, out)?;
        for kept in &self.ring {
            kept.write(alloc, out)?;
        }
        Ok(())
    }
}
