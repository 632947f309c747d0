//! Which rows a cause may change. All others stay, whatever they are.
#![tactic(auto)]

ghost use Rattle.std.specs.Prelude.{◌≡◌, ◌<◌, ◌^◌, ℕ, List, All, IfOk, Some, option_to_list};
ghost use Rattle.package.specs.Content.{Seen};
ghost use Rattle.notifier.specs.Among.{Cover, RiseFrom};
ghost use Rattle.notifier.specs.Causes.{rule_of, CanTell};
ghost use Rattle.notifier.specs.Sound.{IsOwn};
ghost use Rattle.notifier.specs.Stored.{rows_of, Gives, IsIndexed};

use crate::store::rows::{Rows, Serials};
use crate::sweep::cause::Cause;
use notifier_model::homes::TagNumbers;
use notifier_model::place::Place;
use sip_read::Response;
use sip_text::NoMemory;
use smallvec::SmallVec;
use std::alloc::Global;

/// The serial that stands in a local tag of this worker.
pub fn own_serial(worker: u32, tag: &str) -> Option<u32>
    ensures { Gives worker tag.now result }
{
    let numbers = TagNumbers::read(tag)?;
    if numbers.worker == worker {
        numbers.serial
    } else {
        None
    }
}

/// The serial of the row whose NOTIFY a response answers, by its From tag.
fn answered_serial(worker: u32, response: &Response) -> Option<u32>
    ensures { (tag : List ℕ) → response.now.head.from.tag ≡ Some tag → Gives worker tag result }
{
    match &response.head.from.tag {
        None => None,
        Some(tag) => own_serial(worker, tag.as_str()),
    }
}

/// A list of a serial, if there is one.
fn one_serial(alloc: Global, serial: Option<u32>) -> Result<Serials, NoMemory>
    ensures items { IfOk result (λ v. v.items ≡ option_to_list serial) }
{
    let mut serials = SmallVec::new(alloc);
    if let Some(serial) = serial {
        serials.push(serial)?;
    }
    Ok(serials)
}

/// The serials of the rows that a cause may change, rising.
pub fn touched(
    alloc: Global,
    place: &Place,
    rows: &Rows,
    clock: u64,
    cause: &Cause<'_>,
) -> Result<Serials, NoMemory>
    requires clock { clock < 2 ^ 63 }
    requires indexed { IsIndexed rows.now }
    requires live { All (CanTell place.now clock cause.now) (rows_of rows.now) }
    ensures rise { IfOk result (λ serials. RiseFrom 0 serials.items) }
    ensures covers { IfOk result (λ serials. (boxes : List Seen) → All (IsOwn place.now (2 ^ 32)) (rows_of rows.now)
        → Cover serials.items (rule_of (record { place = place.now; boxes = boxes; clock = clock }) cause.now)
        (rows_of rows.now)) }
{
    match cause {
        Cause::Response(response) => one_serial(alloc, answered_serial(place.worker, response)),
        Cause::Refused(serial, _) => one_serial(alloc, Some(*serial)),
        Cause::Renewal(serial, _) => one_serial(alloc, Some(*serial)),
        Cause::Change(name, resource, _) => rows.watching(alloc, name, resource),
        Cause::Time => rows.timed_out(alloc, clock),
        Cause::Stop => rows.serials(alloc),
    }
}
