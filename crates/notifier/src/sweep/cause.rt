//! Why rows are told, and each row that a cause may change, turned by it.
#![tactic(auto)]

ghost use Rattle.std.specs.Prelude.{◌≡◌, ◌++◌, [], ◌<◌, ◌^◌, map, All, IfOk, IfSome, OnOk, option_to_list};
ghost use Rattle.std.specs.Option.{option_and_then};
ghost use Rattle.notifier.specs.Among.{among, said_at, gone_with, RiseFrom};
ghost use Rattle.notifier.specs.Causes.{CanTell};
ghost use Rattle.notifier_model.specs.Out.{out_of};
ghost use Rattle.notifier_model.specs.Rows as spec;
ghost use Rattle.notifier.specs.Stored.{rows_of, row_at, IsIndexed, Turns};
ghost use Rattle.notifier.specs.Tellers.{rule_by};
ghost use Rattle.notifier.specs.Told.{FollowsRule};

use crate::incoming::Incoming;
use crate::notice::Teller;
use crate::store::rows::{Rows, alarm};
use crate::sweep::row::{After, count, take_answer};
use notifier_model::event::Out;
use notifier_model::row::Row;
use package::Package;
use sip_read::{Request, Response};
use sip_text::{NoMemory, Text};
use std::alloc::Global;

/// Why the live subscriptions are told.
#[derive(Drop)]
pub enum Cause<'a> {
    /// A response came.
    Response(&'a Response),
    /// A request was denied in the dialog of the row with this serial.
    Refused(u32, &'a Request),
    /// A SUBSCRIBE was accepted in the dialog of the row with this serial.
    Renewal(u32, &'a Incoming<'a>),
    /// A resource of a package has changed, and may be over for good.
    Change(&'a str, &'a str, bool),
    /// Time has gone on.
    Time,
    /// The notifier stops.
    Stop,
}

pub fn push_some<T: Drop>(items: &mut Vec<T>, item: Option<T>) -> Result<(), NoMemory>
    ensures { OnOk result (items.new.items ≡ items.old.items ++ option_to_list item) }
{
    if let Some(item) = item {
        items.push(item)?;
    }
    Ok(())
}

/// What a row that is told gives beside what stays of it.
#[derive(Drop)]
pub struct Word {
    /// Its NOTIFY.
    pub out: Option<Out>,
    /// The tag of its transfer, where the row goes and has one.
    pub gone: Option<Text>,
}

/// There is no row to tell.
fn silence() -> Word
    ensures out { option_to_list result.out ≡ [] }
    ensures gone { option_to_list result.gone ≡ [] }
{
    Word {
        out: None,
        gone: None,
    }
}

impl<P: Package> Teller<'_, P> {
    /// Tells one row.
    fn tell(&self, alloc: Global, cause: &Cause<'_>, row: Row) -> Result<After, NoMemory>
        requires clock { self.now.clock < 2 ^ 63 }
        requires live { CanTell self.now.place.now self.now.clock cause.now row }
        ensures { IfOk result (λ after. FollowsRule (rule_by P.seen self.now cause.now) row after) }
    {
        match cause {
            Cause::Response(response) => Ok(take_answer(response, row)),
            Cause::Refused(serial, request) => Ok(count(*serial, request, row)),
            Cause::Renewal(serial, incoming) => self.renew(alloc, *serial, incoming, row),
            Cause::Change(name, resource, is_over) => {
                self.tell_watcher(alloc, name, resource, *is_over, row)
            }
            Cause::Time => self.time_out(alloc, row),
            Cause::Stop => self.stop(alloc, row),
        }
    }

    /// Tells the row with this serial, and moves what leads to it. All others stay.
    fn turn(
        &self,
        alloc: Global,
        cause: &Cause<'_>,
        rows: &mut Rows,
        serial: u32,
    ) -> Result<Word, NoMemory>
        requires clock { self.now.clock < 2 ^ 63 }
        requires indexed { IsIndexed rows.old }
        requires live { IfSome (row_at rows.old serial) (CanTell self.now.place.now self.now.clock cause.now) }
        ensures turns { OnOk result (Turns rows.old rows.new serial
            (option_and_then (λ r. (rule_by P.seen self.now cause.now r).row)
            (row_at rows.old serial))) }
        ensures indexed { OnOk result (IsIndexed rows.new) }
        ensures out { IfOk result (λ word. option_to_list word.out
            ≡ map out_of (said_at (rule_by P.seen self.now cause.now)
            (row_at rows.old serial))) }
        ensures gone { IfOk result (λ word. option_to_list word.gone
            ≡ gone_with (rule_by P.seen self.now cause.now) (row_at rows.old serial)) }
    {
        let Some(key) = rows.order.get(&serial).copied() else {
            return Ok(silence());
        };
        let Some(row) = rows.slab.try_remove(key) else {
            return Ok(silence());
        };
        let before = alarm(&row);
        let after = self.tell(alloc, cause, row)?;
        match after {
            After::Stays(row, out) => {
                rows.put_back(serial, before, row)?;
                Ok(Word { out, gone: None })
            }
            After::Goes(gone, out) => {
                rows.let_go(serial, before, gone.want);
                Ok(Word {
                    out,
                    gone: gone.transfer,
                })
            }
        }
    }

    /// Tells the rows with these serials. The NOTIFYs go behind the outs that are there, and the tags of the transfers
    /// that go come back.
    pub fn tell_each(
        &self,
        alloc: Global,
        cause: &Cause<'_>,
        rows: &mut Rows,
        serials: &[u32],
        outs: &mut Vec<Out>,
    ) -> Result<Vec<Text>, NoMemory>
        requires clock { self.now.clock < 2 ^ 63 }
        requires indexed { IsIndexed rows.old }
        requires live { All (CanTell self.now.place.now self.now.clock cause.now) (rows_of rows.old) }
        requires rise { RiseFrom 0 serials.now }
        ensures rows { OnOk result (rows_of rows.new
            ≡ (spec.sweep (among serials.now (rule_by P.seen self.now cause.now)) (rows_of rows.old)).rows) }
        ensures indexed { OnOk result (IsIndexed rows.new) }
        ensures gone { IfOk result (λ tags. tags.items
            ≡ (spec.sweep (among serials.now (rule_by P.seen self.now cause.now)) (rows_of rows.old)).gone) }
        ensures outs { OnOk result (outs.new.items ≡ outs.old.items
            ++ map out_of (spec.sweep (among serials.now (rule_by P.seen self.now cause.now))
            (rows_of rows.old)).notifies) }
    {
        let mut tags = Vec::new(alloc);
        for serial in serials {
            let word = self.turn(alloc, cause, rows, *serial)?;
            push_some(outs, word.out)?;
            push_some(&mut tags, word.gone)?;
        }
        Ok(tags)
    }
}
