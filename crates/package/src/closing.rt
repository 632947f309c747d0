//! What a package leaves behind when it is dropped.
ghost use Rattle.std.specs.Prelude.{◌≡◌, ◌-◌, min, Some, IfOk, MatchResult};
ghost use Rattle.once_cell.specs.Once.{cell_name};
ghost use Rattle.package.specs.Closings as spec;
ghost use Rattle.package.specs.Closings.{counted, new_ending};

use crate::change::Outcome;
use once_cell::race::{Note, OnceBox};
use sip_text::{NoMemory, Text};
use std::alloc::Global;
use std::marker::Model;
use std::sync::Arc;

/// The last word of a package.
#[derive(Debug, Drop)]
pub struct Closing {
    /// Its name.
    pub event: Text,
    /// How many resources it held when it was dropped.
    pub resources: u64,
    /// How many changes it answered with `Changed`. It stays at 2^64 - 1 once there.
    pub changes: u64,
}

/// Keeps the first Closing that it is offered. Any thread may offer or look.
#[derive(Drop)]
pub struct ClosingCell {
    cell: OnceBox<Closing>,
}

/// What is known of a cell that took a Closing.
#[derive(Drop)]
pub struct ClosingNote {
    note: Note<Closing>,
}

impl ClosingCell {
    /// An empty cell.
    pub fn new(alloc: Global) -> Result<Arc<ClosingCell>, NoMemory> {
        let cell = OnceBox::new(alloc);
        Ok(Arc::new(alloc, ClosingCell { cell })?)
    }

    /// The Closing that it keeps, if it was given one. It takes no memory.
    pub fn get(&self) -> Option<&Closing> {
        self.cell.get()
    }

    /// Offers a Closing: Ok where this cell took it, and from then on it keeps this one; else it comes back. It takes no
    /// memory.
    pub fn offer(&self, closing: Box<Closing>) -> Result<ClosingNote, Box<Closing>>
        ensures kept { MatchResult result (λ taken. taken.note.known ≡ Some closing.value)
            (λ back. back.value ≡ closing.value) }
        ensures cell { IfOk result (λ taken. taken.note.cell ≡ cell_name self.now.cell) }
    {
        let mut note = self.cell.note();
        match self.cell.set_as(closing, &mut note) {
            Ok(()) => Ok(ClosingNote { note }),
            Err(back) => Err(back),
        }
    }
}

/// What a package keeps for its end: the cell, and its Closing, made beforehand, so that its Drop takes no memory.
#[derive(Drop)]
pub struct Ending {
    cell: Arc<ClosingCell>,
    closing: Box<Closing>,
}

impl Model for Ending {
    ghost Value = { spec.Ending };

    ghost view = { λ e. record { event = e.closing.value.event; changes = e.closing.value.changes; cell = cell_name e.cell.value.cell } };
}

impl Ending {
    /// The ending of a package of this name that answered no change yet. Its Closing goes to this cell.
    pub fn new(alloc: Global, event: &str, cell: Arc<ClosingCell>) -> Result<Ending, NoMemory>
        ensures { IfOk result (λ ending. ending ≡ new_ending event.now cell.value) }
    {
        let event = Text::of(alloc, event)?;
        let closing = Box::new(
            alloc,
            Closing {
                event,
                resources: 0,
                changes: 0,
            },
        )?;
        Ok(Ending { cell, closing })
    }

    /// Takes note of what a change was answered with: Changed counts. The count stays at 2^64 - 1 once there.
    pub fn count(&mut self, outcome: Outcome)
        ensures { self.new ≡ counted outcome self.old }
    {
        if outcome == Outcome::Changed {
            self.closing.changes = self.closing.changes.saturating_add(1);
        }
    }

    /// Offers the Closing of a package that holds so many resources now. It takes no memory.
    pub fn offer(self, resources: u64) -> Result<ClosingNote, Box<Closing>>
        ensures kept { let closing : Closing = record {
          event = self.event;
          resources = resources;
          changes = self.changes;
        } in
            MatchResult result (λ taken. taken.note.known ≡ Some closing) (λ back. back.value ≡ closing) }
        ensures cell { IfOk result (λ taken. taken.note.cell ≡ self.cell) }
    {
        let Ending { cell, mut closing } = self;
        closing.resources = resources;
        cell.offer(closing)
    }
}
