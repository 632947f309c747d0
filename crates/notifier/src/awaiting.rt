//! Which NOTIFYs are unanswered.
#![tactic(auto, unfolding(crate::specs::Awaiting::awaits))]

ghost use Rattle.std.specs.Prelude.{◌≡◌};
ghost use Rattle.std.specs.List.{list_any};
ghost use Rattle.notifier_model.specs.Rows.{has_number};
ghost use Rattle.notifier.specs.Awaiting as spec;
ghost use Rattle.notifier.specs.Ledger.{IsSound};
ghost use Rattle.notifier.specs.Stored.{rows_of, row_at, IsIndexed};

use crate::store::Ledger;
use crate::store::rows::Rows;
use crate::sweep::touched::own_serial;
use notifier_model::place::Place;
use notifier_model::row::{Row, Unanswered};

/// Whether one of these NOTIFYs has this number.
fn have_number(notifys: &[Unanswered], number: u32) -> bool
    ensures { result ≡ list_any (has_number number) notifys.now }
{
    notifys.iter().any(|notify| notify.number == number)
}

/// Whether the row has this local tag, and the NOTIFY with this number waits for its answer there.
fn awaits(row: &Row, tag: &str, number: u32) -> bool
    ensures { result ≡ spec.awaits tag.now number row.now }
{
    row.sub.usage().local_tag.is(tag) && have_number(row.unanswered.as_slice(), number)
}

impl Rows {
    /// Whether the row with this serial has this local tag, and the NOTIFY with this number waits for its answer there.
    fn awaits(&self, serial: u32, tag: &str, number: u32) -> bool
        requires { IsIndexed self.now }
        ensures { result ≡ spec.awaits_there tag.now number (row_at self.now serial) }
    {
        match self.row(serial) {
            None => false,
            Some(row) => awaits(row, tag, number),
        }
    }
}

impl<P> Ledger<P> {
    /// Whether the NOTIFY with this local tag and this number is unanswered.
    pub fn awaits(&self, place: &Place, tag: &str, number: u32) -> bool
        requires { IsSound place.now self.now }
        ensures { result ≡ spec.is_unanswered (rows_of self.now.rows) tag.now number }
    {
        match own_serial(place.worker, tag) {
            None => false,
            Some(serial) => self.rows.awaits(serial, tag, number),
        }
    }
}
