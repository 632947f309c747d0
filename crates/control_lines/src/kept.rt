//! The answers to the last lines with a token, so that a line that comes again is answered again and not done again.
ghost use Rattle.std.specs.Prelude.{◌≡◌, ℕ, ◌<◌, ◌≤◌, ◌^◌, ◌-◌, [], take, find, option_map, IfOk, IsOk, OnOk, OnErr, None, Some, true, ◌↔◌};
ghost use Rattle.indexmap.specs.IndexMap.{spare};
ghost use Rattle.circular_buffer.specs.Buffer.{buffer};
ghost use Rattle.control_lines.specs.Kept as spec;
ghost use Rattle.control_lines.specs.Slots as slots;

use crate::answer::ControlAnswer;
use crate::token::Token;
use circular_buffer::HeapCircularBuffer;
use indexmap::IndexMap;
use sip_text::NoMemory;
use std::alloc::Global;
use std::marker::Model;

/// The answer to a line with this token.
#[derive(Clone, Copy, Debug, Drop)]
pub struct AnsweredLine {
    pub token: u64,
    pub answer: ControlAnswer,
}

/// The slot after this one.
fn after(room: usize, slot: usize) -> usize
    requires { slot < room }
    ensures { result ≡ slots.after room slot }
{
    if slot + 1 == room { 0 } else { slot + 1 }
}

/// The place of the answer in this slot, where the newest one is in that slot.
fn place(room: usize, newest: usize, slot: usize) -> usize
    requires within { newest < room }
    requires fits { room < 2 ^ 63 }
    ensures { (place : ℕ) → place < room → slot ≡ slots.slot_at room newest place → result ≡ place }
{
    if slot <= newest {
        newest - slot
    } else {
        (newest + room).saturating_sub(slot)
    }
}

/// The answers that are kept, newest first, each found by its token through a map. When there is no room the oldest goes.
#[derive(Drop)]
pub struct AnsweredLines {
    /// Newest first.
    ring: HeapCircularBuffer<AnsweredLine>,
    /// The slot of the newest answer to each token.
    slots: IndexMap<u64, usize>,
    /// The slot of the newest answer of all.
    newest: usize,
}

impl Model for AnsweredLines {
    ghost use Rattle.circular_buffer.specs.Buffer.{Buffer};
    ghost use Rattle.control_lines.specs.declared.kept.AnsweredLine.{AnsweredLine};
    ghost use Rattle.control_lines.specs.Slots.{IsIndexed};

    ghost Value = { Buffer AnsweredLine };

    ghost view = { λ k. k.ring };

    ghost invariant = { λ k. IsIndexed k.ring k.slots k.newest };
}

/// Whether this token has its newest answer in this slot.
fn leads_to(index: &IndexMap<u64, usize>, token: u64, slot: usize) -> bool
    ensures { result ≡ true ↔ slots.slot_in index.now token ≡ Some slot }
{
    match index.get(&token) {
        Some(found) => *found == slot,
        None => false,
    }
}

/// Lets the oldest answer go, if there is no room.
fn make_room(
    ring: &mut HeapCircularBuffer<AnsweredLine>,
    index: &mut IndexMap<u64, usize>,
    newest: usize,
)
    requires { slots.IsIndexed ring.old index.old newest }
    ensures ring { ring.new ≡ buffer (take (ring.old.capacity - 1) ring.old.items) ring.old.capacity }
    ensures indexed { slots.IsIndexed ring.new index.new newest }
    ensures room { spare index.old ≤ spare index.new }
{
    if !ring.is_full() {
        return;
    }
    let Some(oldest) = ring.pop_back() else {
        return;
    };
    let token = oldest.token;
    let slot = after(ring.capacity(), newest);
    if leads_to(index, token, slot) {
        index.swap_remove(&token);
    }
}

impl AnsweredLines {
    /// Keeps nothing, and has room for so many answers.
    pub fn with_room(alloc: Global, room: usize) -> Result<AnsweredLines, NoMemory>
        requires { 0 < room }
        ensures { IfOk result (λ kept. kept ≡ buffer [] room) }
    {
        let ring = HeapCircularBuffer::with_capacity(alloc, room)?;
        Ok(AnsweredLines {
            ring,
            slots: IndexMap::new(alloc),
            newest: 0,
        })
    }

    /// The newest answer to this token.
    fn newest_answer(&self, token: u64) -> Option<&AnsweredLine>
        ensures { option_map (λ kept. kept.now) result ≡ find (slots.answers token) self.now.items }
    {
        let slot = *self.slots.get(&token)?;
        self.ring
            .get(place(self.ring.capacity(), self.newest, slot))
    }

    /// The kept answer to a line with this token, if it has one.
    pub fn answer_to(&self, token: Option<Token>) -> Option<ControlAnswer>
        ensures { result ≡ spec.kept_answer self.now.items token }
    {
        match token {
            None => None,
            Some(token) => match self.newest_answer(token.number) {
                None => None,
                Some(kept) => Some(kept.answer),
            },
        }
    }

    /// Keeps an answer to a line with this token. The oldest goes when there is no room.
    fn insert(&mut self, token: u64, answer: ControlAnswer) -> Result<(), NoMemory>
        ensures kept { OnOk result (self.new ≡ slots.with_newest self.old (record { token = token; answer = answer })) }
        ensures unchanged { OnErr result (self.new ≡ self.old) }
    {
        self.slots.reserve(1)?;
        make_room(&mut self.ring, &mut self.slots, self.newest);
        let slot = after(self.ring.capacity(), self.newest);
        let Ok(_) = self.slots.insert(token, slot) else {
            unreachable!()
        };
        self.newest = slot;
        self.ring.push_front(AnsweredLine { token, answer });
        Ok(())
    }

    /// Keeps an answer to a line with this token, if it has one. The oldest goes when there is no room.
    pub fn keep(&mut self, token: Option<Token>, answer: ControlAnswer) -> Result<(), NoMemory>
        ensures kept { OnOk result (self.new ≡ spec.with_answer self.old token answer) }
        ensures unchanged { OnErr result (self.new ≡ self.old) }
        ensures tokenless { token ≡ None → IsOk result }
    {
        match token {
            None => Ok(()),
            Some(token) => self.insert(token.number, answer),
        }
    }
}
