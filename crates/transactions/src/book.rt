//! The open transactions in their places, with what leads to them: rings by name and by tag, and the alarms.

ghost use Rattle.std.specs.Prelude.{◌≡◌, ◌<◌, ◌≤◌, ◌+◌, ◌^◌, ℕ, true, false, IfOk, IfSome, IfNone, IsSomeAnd, IsSome, Some, None, []};
ghost use Rattle.slab.specs.Slab as slab_seen;
ghost use Rattle.slab.specs.Slab.{HasRoomFor, Updates, slab_len, with_value};
ghost use Rattle.transactions.specs.Timers as timers;
ghost use Rattle.transactions.specs.Tournament.{is_first};
ghost use Rattle.transactions.specs.Stored.{at, slot_alarm, IsBook};

use crate::alarms::{Alarm, NEVER, first_place, set_alarm};
use crate::open::Open;
use crate::places::{name_head, tag_head};
use crate::rings::Rings;
use sip_text::NoMemory;
use slab::Slab;
use std::alloc::Global;

/// The open transactions.
#[derive(Drop)]
pub struct Book {
    pub slab: Slab<Open>,
    /// Rings of places by tag and number.
    pub names: Rings,
    /// Rings of places by tag.
    pub tags: Rings,
    /// A tournament of the alarms of the places.
    pub alarms: Vec<Alarm>,
    /// How many places there are.
    pub size: usize,
    /// How many were ever kept.
    pub kept: u64,
}

/// Whether the transaction with this name lies there.
fn is_there(slab: &Slab<Open>, place: usize, tag: &str, number: u32) -> bool
    ensures { result ≡ timers.is_named tag.now number (slab_seen.get slab.now place) }
{
    match slab.get(place) {
        Some(open) => open.has_name(tag, number),
        None => false,
    }
}

/// The place of the transaction with this name.
pub fn named_place(book: &Book, tag: &str, number: u32) -> Option<usize>
    requires { IsBook book.now }
    ensures found { IfSome result (λ place. timers.is_named tag.now number (at book.now place) ≡ true) }
    ensures none { IfNone result ((place : ℕ) → timers.is_named tag.now number (at book.now place) ≡ false) }
{
    let head = name_head(book.size, tag, number);
    let mut node = book.names.next_older(head);
    while node != head {
        if is_there(&book.slab, node, tag, number) {
            return Some(node);
        }
        node = book.names.next_older(node);
    }
    None
}

impl Book {
    /// No transactions, and room for so many.
    pub fn new(alloc: Global, limit: u32) -> Result<Book, NoMemory>
        ensures book { IfOk result IsBook }
        ensures none { IfOk result (λ b. b.slab.slots ≡ []) }
        ensures kept { IfOk result (λ b. b.kept ≡ 0) }
        ensures room { IfOk result (λ b. limit ≤ b.slab.capacity) }
    {
        let slab = Slab::with_capacity(alloc, limit as usize)?;
        let size = slab.capacity();
        let Some(leaves) = size.checked_mul(2) else {
            return Err(NoMemory);
        };
        let Some(nodes) = leaves.checked_add(1) else {
            return Err(NoMemory);
        };
        let names = Rings::new(alloc, nodes)?;
        let tags = Rings::new(alloc, nodes)?;
        let alarms = vec![in alloc; NEVER; leaves]?;
        Ok(Book {
            slab,
            names,
            tags,
            alarms,
            size,
            kept: 0,
        })
    }

    /// A transaction comes.
    pub fn put(&mut self, sent: Open)
        requires book { IsBook self.old }
        requires room { HasRoomFor self.old.slab 1 }
        requires in_range { sent.first < 2 ^ 63 }
        requires newest { (p : ℕ) (t : Open) → at self.old p ≡ Some t → t.serial < sent.serial }
        ensures book { IsBook self.new }
        ensures put { (place : ℕ) × (at self.old place ≡ None) × Updates self.old.slab self.new.slab place (Some sent) }
        ensures len { slab_len self.new.slab ≡ slab_len self.old.slab + 1 }
        ensures capacity { self.new.slab.capacity ≡ self.old.slab.capacity }
        ensures kept { self.new.kept ≡ self.old.kept }
    {
        let name = name_head(self.size, sent.tag.as_str(), sent.number);
        let tag = tag_head(self.size, sent.tag.as_str());
        let alarm = Alarm {
            moment: sent.alarm(),
            serial: sent.serial,
        };
        let place = self.slab.insert_reserved(sent);
        self.names.join(name, place);
        self.tags.join(tag, place);
        set_alarm(&mut self.alarms, self.size, place, alarm);
    }

    /// The transaction at a place goes.
    pub fn take(&mut self, place: usize)
        requires book { IsBook self.old }
        requires there { IsSome (at self.old place) }
        ensures book { IsBook self.new }
        ensures taken { Updates self.old.slab self.new.slab place None }
        ensures len { slab_len self.new.slab + 1 ≡ slab_len self.old.slab }
        ensures size { self.new.size ≡ self.old.size }
        ensures capacity { self.new.slab.capacity ≡ self.old.slab.capacity }
        ensures kept { self.new.kept ≡ self.old.kept }
    {
        self.slab.remove(place);
        self.names.part(place);
        self.tags.part(place);
        set_alarm(&mut self.alarms, self.size, place, NEVER);
    }

    /// A provisional answer came to the transaction at a place.
    pub fn proceed(&mut self, place: usize)
        requires book { IsBook self.old }
        requires there { IsSome (at self.old place) }
        ensures book { IsBook self.new }
        ensures slab { IfSome (at self.old place) (λ t. self.new.slab ≡ with_value self.old.slab place (timers.proceeding t)) }
        ensures kept { self.new.kept ≡ self.old.kept }
    {
        if let Some(open) = self.slab.get_mut(place) {
            open.proceed();
        }
    }

    /// The transaction at a place was sent again.
    pub fn again(&mut self, place: usize, now: u64)
        requires book { IsBook self.old }
        requires there { IsSomeAnd (at self.old place) (λ t. (t.sends < 2 ^ 31) × (t.interval < 2 ^ 31)) }
        requires in_range { now < 2 ^ 63 }
        ensures book { IsBook self.new }
        ensures slab { IfSome (at self.old place) (λ t. self.new.slab ≡ with_value self.old.slab place (timers.again now t)) }
        ensures kept { self.new.kept ≡ self.old.kept }
    {
        if let Some(open) = self.slab.get_mut(place) {
            open.again(now);
            let alarm = Alarm {
                moment: open.alarm(),
                serial: open.serial,
            };
            set_alarm(&mut self.alarms, self.size, place, alarm);
        }
    }

    /// The transaction whose alarm comes first.
    pub fn first(&self) -> Option<usize>
        requires { IsBook self.now }
        ensures none { IfNone result (slab_len self.now.slab ≡ 0) }
        ensures some { IfSome result (λ place. IsSome (at self.now place)) }
        ensures first { IfSome result (λ place. (p : ℕ) → p < self.now.size
            → is_first (slot_alarm (at self.now place)) (slot_alarm (at self.now p)) ≡ true) }
    {
        if self.slab.is_empty() {
            return None;
        }
        Some(first_place(&self.alarms, self.size))
    }
}
