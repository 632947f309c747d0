//! What is kept of one worker.
ghost use Rattle.std.specs.Prelude.{◌≡◌, ◌↔◌, ◌+◌, ◌≤◌, ◌^◌, map, string_bytes, OnOk, OnErr, IfOk, IfErr, IsTrue};
ghost use Rattle.keeper.specs.Told as spec;
ghost use Rattle.keeper.specs.Told.{kept_from, told_of, told_event};
ghost use Rattle.keeper.specs.Refusing.{CountFails};
ghost use Rattle.keeper.specs.declared.error.Unkept.TheVariants as unkept;

use crate::comparison::are_steps;
use crate::error::Unkept;
use crate::mailboxes::Mailboxes;
use crate::steps::{copy_steps, copy_tags, forget_steps, take_step};
use indexmap::IndexSet;
use journal::Told;
use notifier_model::Event;
use package::{MailChange, Progress};
use sip_text::{NoMemory, Values};
use std::alloc::Global;
use std::marker::Model;

/// What is kept of one worker.
#[derive(Drop)]
pub(crate) struct Kept {
    events: u64,
    mails: u64,
    lines: u64,
    boxes: Mailboxes,
    steps: Vec<Progress>,
}

impl Model for Kept {
    ghost use Rattle.keeper.specs.Told as spec;

    ghost Value = { spec.Kept };

    ghost view = { λ k. record {
      events = k.events;
      mails = k.mails;
      lines = k.lines;
      boxes = k.boxes;
      steps = k.steps.items;
    } };
}

/// One more, if it can be counted.
fn one_more(count: u64) -> Result<u64, Unkept>
    ensures more { IfOk result (λ n. n ≡ count + 1) }
    ensures spent { IfErr result (λ e. (e ≡ unkept.Spent) × (2 ^ 64 ≤ count + 1)) }
{
    match count.checked_add(1) {
        Some(more) => Ok(more),
        None => Err(Unkept::Spent),
    }
}

impl Kept {
    /// A worker that was told this so far, and for which no line waits.
    pub(crate) fn new(alloc: Global, told: Told) -> Result<Kept, NoMemory>
        ensures { IfOk result (λ k. k ≡ kept_from told) }
    {
        let Told {
            events,
            mails,
            mail,
            progress,
        } = told;
        Ok(Kept {
            events,
            mails,
            lines: mails,
            boxes: Mailboxes::new(alloc, mail.into_vec())?,
            steps: progress.into_vec(),
        })
    }

    /// What it was told so far.
    pub(crate) fn told(&self, alloc: Global) -> Result<Told, NoMemory>
        ensures { IfOk result (λ told. told ≡ told_of self.now) }
    {
        let mail = self.boxes.last(alloc)?;
        let progress = copy_steps(alloc, self.steps.as_slice())?;
        Ok(Told {
            events: self.events,
            mails: self.mails,
            mail: Values::new(mail),
            progress: Values::new(progress),
        })
    }

    /// Whether this is what it was told so far.
    #[tactic(auto, using(crate::proofs::Same::same_told))]
    pub(crate) fn is_told(&self, told: &Told) -> bool
        ensures { IsTrue result ↔ (told_of self.now ≡ told.now) }
    {
        if self.events != told.events || self.mails != told.mails {
            return false;
        }
        if !are_steps(self.steps.as_slice(), told.progress.as_slice()) {
            return false;
        }
        self.boxes.are_last(told.mail.as_slice())
    }

    /// It handled a change of a mailbox.
    fn take_mail(&mut self, alloc: Global, change: &MailChange) -> Result<(), Unkept>
        ensures taken { OnOk result (self.new ≡ record self.old {
          mails = self.old.mails + 1;
          boxes = spec.told_mail change.now self.old.boxes;
        }) }
        ensures unchanged { OnErr result (self.new ≡ self.old) }
        ensures fails { IfErr result (CountFails self.old) }
    {
        let mails = one_more(self.mails)?;
        self.boxes.tell(alloc, change)?;
        self.mails = mails;
        Ok(())
    }

    /// It handled an event.
    pub(crate) fn take(&mut self, alloc: Global, event: &Event) -> Result<(), Unkept>
        ensures taken { OnOk result (self.new ≡ told_event event.now self.old) }
        ensures unchanged { OnErr result (self.new ≡ self.old) }
        ensures fails { IfErr result (CountFails self.old) }
    {
        let events = one_more(self.events)?;
        match event {
            Event::Mail(change) => self.take_mail(alloc, change)?,
            Event::Progress(step) => take_step(alloc, &mut self.steps, step)?,
            Event::Request(_, _) | Event::Reply(_) | Event::Tick(_) | Event::Shut => {}
        }
        self.events = events;
        Ok(())
    }

    /// The number of its next line, if it can be counted.
    pub(crate) fn next_line(&self) -> Result<u64, Unkept>
        ensures next { IfOk result (λ n. n ≡ self.now.lines + 1) }
        ensures fails { IfErr result (CountFails self.now) }
    {
        one_more(self.lines)
    }

    /// The line with this number was answered.
    pub(crate) fn answer(&mut self, number: u64)
        ensures { self.new ≡ record self.old { lines = number } }
    {
        self.lines = number;
    }

    /// The tags of the transfers of which it has a last step.
    pub(crate) fn transfers(&self, alloc: Global) -> Result<Vec<String>, NoMemory>
        ensures { IfOk result (λ tags. map string_bytes tags.items ≡ spec.transfers self.now) }
    {
        copy_tags(alloc, self.steps.as_slice())
    }

    /// Nobody watches the transfers with these tags any more.
    pub(crate) fn forget(&mut self, tags: &IndexSet<String>)
        ensures { self.new ≡ spec.forgotten (map string_bytes tags.now.keys) self.old }
    {
        forget_steps(&mut self.steps, tags);
    }

    /// Each line that was answered is handled.
    pub(crate) fn catch_up(&mut self)
        ensures { self.new ≡ spec.caught_up self.old }
    {
        self.lines = self.mails;
    }
}
