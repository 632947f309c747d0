//! The mailboxes that lines made in this run, and what workers were told of them. No desk has them before the next run, so no book of a worker tells
//! of them: in a further file of the journal they stand behind the books.
ghost use Rattle.std.specs.Prelude.{◌≡◌, max, [], ◌++◌, filter_map, option_to_list, slice_get, string_bytes, IfOk, OnOk, OnErr};
ghost use Rattle.std.specs.Option.{option_map_or};
ghost use Rattle.std.specs.Int.NonZero.{non_zero_u32_get};
ghost use Rattle.control_lines.specs.Told.{with_name};
ghost use Rattle.service.specs.Made as spec;
ghost use Rattle.service.specs.Made.{AreNames};

use crate::reports::home;
use control_lines::ToldCounts;
use notifier_model::Event;
use package::{Class, Counts, MailChange, MailCounts};
use sip_text::{NoMemory, Text};
use std::alloc::Global;
use std::num::NonZeroU32;

/// All classes, in the order in which a body tells them.
const CLASSES: [Class; 5] = [
    Class::Voice,
    Class::Fax,
    Class::Pager,
    Class::Multimedia,
    Class::Text,
];

/// The mailboxes that lines made in this run, in the order in which they did.
#[derive(Drop)]
pub(crate) struct Made {
    alloc: Global,
    /// What workers were told of each, and handled.
    told: ToldCounts,
    /// How many workers the service has.
    workers: NonZeroU32,
    /// Lines named them, and each stands there once.
    ghost named: { AreNames (spec.names told) },
}

/// The change of these values, where a line can tell it.
fn change_to(mailbox: String, class: Class, counts: Counts) -> Option<MailChange>
    ensures { result ≡ spec.change_to (string_bytes mailbox) class counts }
{
    MailChange::new(
        mailbox,
        class,
        counts.new_count,
        counts.old_count,
        counts.urgent_new,
        counts.urgent_old,
    )
}

/// Adds what says that a mailbox was told these counts of a class, if it was told of it.
fn add_class(
    alloc: Global,
    changes: &mut Vec<MailChange>,
    mailbox: &str,
    counts: &MailCounts,
    class: Class,
) -> Result<(), NoMemory>
    ensures { OnOk result (changes.new.items
        ≡ changes.old.items ++ option_to_list (spec.last_change (mailbox.now, counts.now) class)) }
{
    let Some(counts) = counts.of(class) else {
        return Ok(());
    };
    let mailbox = String::from_str(alloc, mailbox)?;
    if let Some(change) = change_to(mailbox, class, counts) {
        changes.push(change)?;
    }
    Ok(())
}

/// Adds what says that a mailbox was told these counts, of each of these classes that it was told of.
fn add_classes(
    alloc: Global,
    changes: &mut Vec<MailChange>,
    mailbox: &str,
    counts: &MailCounts,
    classes: &[Class],
) -> Result<(), NoMemory>
    ensures { OnOk result (changes.new.items
        ≡ changes.old.items ++ filter_map (spec.last_change (mailbox.now, counts.now)) classes.now) }
{
    for class in classes {
        add_class(alloc, changes, mailbox, counts, *class)?;
    }
    Ok(())
}

impl Made {
    /// None, of a service with so many workers.
    #[tactic(auto, using(crate::proofs::Making::named_none))]
    pub(crate) fn new(alloc: Global, workers: u32) -> Result<Made, NoMemory>
        ensures none { IfOk result (λ made. made.told ≡ []) }
        ensures workers { IfOk result (λ made. non_zero_u32_get made.workers ≡ max 1 workers) }
    {
        let told = ToldCounts::new(alloc, &[])?;
        let Some(workers) = NonZeroU32::new(workers.max(1)) else {
            unreachable!()
        };
        Ok(Made {
            alloc,
            told,
            workers,
        })
    }

    /// A line makes the mailbox of this change, unless one did before.
    #[tactic(auto, using(crate::proofs::Making::named_added))]
    pub(crate) fn add(&mut self, change: &MailChange) -> Result<(), NoMemory>
        ensures added { OnOk result (self.new.told ≡ with_name change.now.mailbox self.old.told) }
        ensures unchanged { OnErr result (self.new.told ≡ self.old.told) }
    {
        self.told.add(self.alloc, change.mailbox())
    }

    /// A worker handled an event. Of a mailbox that no line made it tells nothing here.
    pub(crate) fn tell(&mut self, event: &Event)
        ensures { self.new.told ≡ spec.told_event event.now self.old.told }
    {
        match event {
            Event::Mail(change) => self.told.tell(change),
            Event::Request(_, _)
            | Event::Reply(_)
            | Event::Progress(_)
            | Event::Tick(_)
            | Event::Shut => {}
        }
    }

    /// Adds what the mailbox at this place was told, where it is this worker's.
    fn add_own(
        &self,
        changes: &mut Vec<MailChange>,
        worker: u32,
        place: usize,
    ) -> Result<(), NoMemory>
        ensures { OnOk result (changes.new.items
            ≡ changes.old.items ++ option_map_or (spec.own_changes (non_zero_u32_get self.now.workers) worker) (slice_get self.now.told place) []) }
    {
        let Some((mailbox, counts)) = self.told.get(place) else {
            return Ok(());
        };
        if home(self.workers, mailbox) != worker {
            return Ok(());
        }
        add_classes(self.alloc, changes, mailbox, &counts, &CLASSES)
    }

    /// What this worker was told of those that are its own, of each class the last, in the order in which lines made them.
    pub(crate) fn changes(&self, worker: u32) -> Result<Vec<MailChange>, NoMemory>
        ensures { IfOk result (λ changes. changes.items
            ≡ spec.worker_changes (non_zero_u32_get self.now.workers) worker self.now.told) }
    {
        let mut changes = Vec::new(self.alloc);
        for place in 0..self.told.len() {
            self.add_own(&mut changes, worker, place)?;
        }
        Ok(changes)
    }

    /// Their names, in the order in which lines made them.
    pub(crate) fn names(&self) -> Result<Vec<Text>, NoMemory>
        ensures all { IfOk result (λ names. names.items ≡ spec.names self.now.told) }
        ensures are { IfOk result (λ names. AreNames names.items) }
    {
        let mut names = Vec::new(self.alloc);
        for place in 0..self.told.len() {
            let Some((mailbox, _counts)) = self.told.get(place) else {
                return Ok(names);
            };
            names.push(Text::of(self.alloc, mailbox)?)?;
        }
        Ok(names)
    }
}
