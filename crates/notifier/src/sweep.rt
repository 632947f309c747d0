//! What is done with all rows at once: changes, answers to NOTIFYs, time and the stop. [`telling`] goes through the rows that
//! [`touched`] names, [`cause`] turns each by its cause, and [`row`] says what a cause makes of one row.
#![tactic(auto, unfolding(notifier_model::specs::Book::step, notifier_model::specs::Book::nothing, notifier_model::specs::Book::content_changed, notifier_model::specs::Book::ticked, notifier_model::specs::Book::shut, notifier_model::specs::Book::replied))]

ghost use Rattle.std.specs.Prelude.{◌≤◌, ◌<◌, ◌^◌, [], map, IfOk, OnOk};
ghost use Rattle.package.specs.Boxes.{change_first as changed_boxes};
ghost use Rattle.notifier_model.specs.Book as spec;
ghost use Rattle.notifier_model.specs.Rows.{tells_watcher};
ghost use Rattle.notifier.specs.Ledger.{book_of, IsStep, IsSound};

pub mod cause;
pub mod row;
pub mod telling;
pub mod touched;

use crate::notice::change_first;
use crate::store::Ledger;
use crate::sweep::cause::Cause;
use notifier_model::event::{Event, Out};
use notifier_model::place::Place;
use package::{Change, MailChange, Outcome, Package, Progress};
use sip_read::Response;
use sip_text::NoMemory;
use std::alloc::Global;

/// What a change is news of.
#[derive(Clone, Copy)]
pub struct News<'a> {
    /// The name of the package.
    pub package: &'a str,
    pub resource: &'a str,
    /// Whether the resource is over for good.
    pub is_over: bool,
}

impl<P: Package> Ledger<P> {
    /// A response.
    pub fn reply(
        &mut self,
        alloc: Global,
        place: &Place,
        response: &Response,
    ) -> Result<Vec<Out>, NoMemory>
        requires { IsSound place.now self.old }
        ensures step { IfOk result (λ outs. IsStep (spec.replied (book_of P.seen self.old) response.now)
            (book_of P.seen self.new) outs.items) }
        ensures sound { OnOk result (IsSound place.now self.new) }
    {
        let mut outs = Vec::new(alloc);
        self.all_rows(alloc, place, &Cause::Response(response), &mut outs)?;
        Ok(outs)
    }

    /// Time goes on to this moment.
    pub fn tick(&mut self, alloc: Global, place: &Place, clock: u64) -> Result<Vec<Out>, NoMemory>
        requires sound { IsSound place.now self.old }
        requires on { self.old.clock ≤ clock }
        requires fits { clock < 2 ^ 63 }
        ensures step { IfOk result (λ outs. IsStep (spec.ticked place.now (book_of P.seen self.old) clock)
            (book_of P.seen self.new) outs.items) }
        ensures sound { OnOk result (IsSound place.now self.new) }
    {
        self.clock = clock;
        let mut outs = Vec::new(alloc);
        self.all_rows(alloc, place, &Cause::Time, &mut outs)?;
        Ok(outs)
    }

    /// The notifier stops.
    pub fn shut(&mut self, alloc: Global, place: &Place) -> Result<Vec<Out>, NoMemory>
        requires { IsSound place.now self.old }
        ensures step { IfOk result (λ outs. IsStep (spec.shut place.now (book_of P.seen self.old))
            (book_of P.seen self.new) outs.items) }
        ensures sound { OnOk result (IsSound place.now self.new) }
    {
        let mut outs = Vec::new(alloc);
        self.all_rows(alloc, place, &Cause::Stop, &mut outs)?;
        Ok(outs)
    }

    /// Tells those who watch a resource that it has changed.
    fn tell_watchers(
        &mut self,
        alloc: Global,
        place: &Place,
        news: &News<'_>,
    ) -> Result<Vec<Out>, NoMemory>
        requires { IsSound place.now self.old }
        ensures step { IfOk result (λ outs. IsStep
            (spec.all_rows (book_of P.seen self.old)
            (tells_watcher (spec.telling place.now (book_of P.seen self.old))
            news.now.package.now news.now.resource.now news.now.is_over) [])
            (book_of P.seen self.new) outs.items) }
        ensures sound { OnOk result (IsSound place.now self.new) }
    {
        let mut outs = Vec::new(alloc);
        self.all_rows(
            alloc,
            place,
            &Cause::Change(news.package, news.resource, news.is_over),
            &mut outs,
        )?;
        Ok(outs)
    }

    /// A change to a resource of the first box of its package.
    pub fn content_changed(
        &mut self,
        alloc: Global,
        place: &Place,
        news: &News<'_>,
        change: &Change,
    ) -> Result<Vec<Out>, NoMemory>
        requires { IsSound place.now self.old }
        ensures step { IfOk result (λ outs. IsStep
            (spec.content_changed place.now (book_of P.seen self.old)
            news.now.package.now news.now.resource.now news.now.is_over
            (changed_boxes (map P.seen self.old.boxes.items) change.now)) (book_of P.seen self.new) outs.items) }
        ensures sound { OnOk result (IsSound place.now self.new) }
    {
        match change_first(alloc, &mut self.boxes, change)? {
            Outcome::Changed => self.tell_watchers(alloc, place, news),
            Outcome::Same => Ok(Vec::new(alloc)),
            Outcome::Unknown => Ok(Vec::new(alloc)),
        }
    }
    /// A mailbox has changed.
    pub fn mail(
        &mut self,
        alloc: Global,
        place: &Place,
        change: &MailChange,
    ) -> Result<Vec<Out>, NoMemory>
        requires { IsSound place.now self.old }
        ensures step { IfOk result (λ outs. IsStep
            (spec.step place.now (book_of P.seen self.old) (Event.Mail change.now)) (book_of P.seen self.new) outs.items) }
        ensures sound { OnOk result (IsSound place.now self.new) }
    {
        let copy = Change::Mail(change.copy(alloc)?);
        let news = News {
            package: "message-summary",
            resource: change.mailbox(),
            is_over: false,
        };
        self.content_changed(alloc, place, &news, &copy)
    }

    /// A transfer goes on, or is over.
    pub fn progress(
        &mut self,
        alloc: Global,
        place: &Place,
        change: &Progress,
    ) -> Result<Vec<Out>, NoMemory>
        requires { IsSound place.now self.old }
        ensures step { IfOk result (λ outs. IsStep
            (spec.step place.now (book_of P.seen self.old) (Event.Progress change.now))
            (book_of P.seen self.new) outs.items) }
        ensures sound { OnOk result (IsSound place.now self.new) }
    {
        let copy = Change::Step(change.copy(alloc)?);
        let news = News {
            package: "refer",
            resource: change.tag(),
            is_over: 200 <= change.code(),
        };
        self.content_changed(alloc, place, &news, &copy)
    }

    /// A moment comes. One after the last that a clock may show does nothing, and an earlier one moves no clock.
    pub fn time(&mut self, alloc: Global, place: &Place, moment: u64) -> Result<Vec<Out>, NoMemory>
        requires { IsSound place.now self.old }
        ensures step { IfOk result (λ outs. IsStep (spec.step place.now (book_of P.seen self.old) (Event.Tick moment))
            (book_of P.seen self.new) outs.items) }
        ensures sound { OnOk result (IsSound place.now self.new) }
    {
        if moment > 9223372036854775807 {
            return Ok(Vec::new(alloc));
        }
        let clock = self.clock.max(moment);
        self.tick(alloc, place, clock)
    }
}
