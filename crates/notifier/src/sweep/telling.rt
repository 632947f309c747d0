//! What is done with all rows of a ledger at once.
#![tactic(auto, unfolding(notifier_model::specs::Rows::forgetting))]

ghost use Rattle.std.specs.Prelude.{◌≡◌, ◌++◌, ◌<◌, ◌≤◌, ◌^◌, List, map, All, IfOk, OnOk};
ghost use Rattle.notifier.specs.Causes.{rule_of, CanTell};
ghost use Rattle.notifier_model.specs.Book as book;
ghost use Rattle.notifier.specs.Ledger.{book_of, IsStep};
ghost use Rattle.notifier_model.specs.Out.{Send, out_of};
ghost use Rattle.notifier_model.specs.Rows as spec;
ghost use Rattle.notifier.specs.Sound.{IsOwn};
ghost use Rattle.notifier.specs.Stored.{rows_of, IsIndexed};
ghost use Rattle.notifier.specs.Tellers.{rule_by};

use crate::notice::{Teller, tell_first};
use crate::store::Ledger;
use crate::store::rows::Rows;
use crate::sweep::cause::Cause;
use crate::sweep::touched::touched;
use notifier_model::event::Out;
use notifier_model::place::Place;
use package::{Change, Package};
use sip_text::{NoMemory, Text};
use std::alloc::Global;

/// Forgets these transfers.
fn forget_all<P: Package>(
    alloc: Global,
    boxes: &mut Vec<P>,
    tags: Vec<Text>,
) -> Result<(), NoMemory>
    ensures { OnOk result (map P.seen boxes.new.items ≡ spec.forgetting tags.items (map P.seen boxes.old.items)) }
{
    for tag in tags {
        tell_first(alloc, boxes, Change::Forget(tag))?;
    }
    Ok(())
}

impl<P: Package> Teller<'_, P> {
    /// Tells all rows that a cause may change. The NOTIFYs go behind the outs that are there, and the tags of the
    /// transfers that go come back.
    fn tell_rows(
        &self,
        alloc: Global,
        cause: &Cause<'_>,
        rows: &mut Rows,
        outs: &mut Vec<Out>,
    ) -> Result<Vec<Text>, NoMemory>
        requires clock { self.now.clock < 2 ^ 63 }
        requires indexed { IsIndexed rows.old }
        requires own { All (IsOwn self.now.place.now (2 ^ 32)) (rows_of rows.old) }
        requires live { All (CanTell self.now.place.now self.now.clock cause.now) (rows_of rows.old) }
        ensures indexed { OnOk result (IsIndexed rows.new) }
        ensures rows { OnOk result (rows_of rows.new
            ≡ (spec.sweep (rule_by P.seen self.now cause.now) (rows_of rows.old)).rows) }
        ensures gone { IfOk result (λ tags. tags.items
            ≡ (spec.sweep (rule_by P.seen self.now cause.now) (rows_of rows.old)).gone) }
        ensures outs { OnOk result (outs.new.items
            ≡ outs.old.items
            ++ map out_of (spec.sweep (rule_by P.seen self.now cause.now) (rows_of rows.old)).notifies) }
    {
        let serials = touched(alloc, self.place, rows, self.clock, cause)?;
        self.tell_each(alloc, cause, rows, serials.as_slice(), outs)
    }
}

impl<P: Package> Ledger<P> {
    /// Tells all rows, and then forgets the transfers of those that go. The NOTIFYs go behind the outs that are there.
    pub fn all_rows(
        &mut self,
        alloc: Global,
        place: &Place,
        cause: &Cause<'_>,
        outs: &mut Vec<Out>,
    ) -> Result<(), NoMemory>
        requires clock { self.old.clock < 2 ^ 63 }
        requires next { self.old.next ≤ 2 ^ 32 }
        requires indexed { IsIndexed self.old.rows }
        requires own { All (IsOwn place.now self.old.next) (rows_of self.old.rows) }
        requires live { All (CanTell place.now self.old.clock cause.now) (rows_of self.old.rows) }
        ensures step { OnOk result ((sends : List Send) → outs.old.items ≡ map out_of sends
            → IsStep (book.all_rows (book_of P.seen self.old)
            (rule_of (book.telling place.now (book_of P.seen self.old)) cause.now) sends)
            (book_of P.seen self.new) outs.new.items) }
        ensures rows { OnOk result (rows_of self.new.rows
            ≡ (spec.sweep (rule_of (book.telling place.now (book_of P.seen self.old)) cause.now)
            (rows_of self.old.rows)).rows) }
        ensures indexed { OnOk result (IsIndexed self.new.rows) }
        ensures same { OnOk result ((self.new.clock ≡ self.old.clock) × (self.new.next ≡ self.old.next)
            × (self.new.ring ≡ self.old.ring)) }
    {
        let teller = Teller {
            place,
            boxes: &self.boxes,
            clock: self.clock,
        };
        let tags = teller.tell_rows(alloc, cause, &mut self.rows, outs)?;
        forget_all(alloc, &mut self.boxes, tags)
    }
}
