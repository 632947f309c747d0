//! Who watches, by what a desk keeps.
#![tactic(auto)]

ghost use Rattle.std.specs.Prelude.{◌≡◌, map, IfOk, Some};
ghost use Rattle.notifier.specs.Held.{seen_by};
ghost use Rattle.notifier.specs.Standing.{Standing};
ghost use Rattle.restarts.specs.Living as spec;

use notifier::notice::note;
use notifier::{Desk, NoMemory};
use notifier_model::event::Note;
use notifier_model::row::Row;
use package::Package;
use sip_read::Addr;
use sip_text::Text;
use std::alloc::Global;
use subscription::Phase;

/// A subscription that lives, as its last NOTIFY told of it.
#[derive(Debug, Drop)]
pub struct Living {
    /// The local tag of its dialog.
    pub tag: Text,
    /// The number of its last NOTIFY.
    pub number: u32,
    /// Where its NOTIFYs go.
    pub to: Addr,
    /// What is known of it: the seconds that are left are those at the desk's moment.
    pub note: Note,
}

/// How many seconds are left until a subscription's time is up: no more than a NOTIFY can tell.
fn left(clock: u64, due: u64) -> u32
    ensures { result ≡ spec.left clock due }
{
    due.saturating_sub(clock).min(u64::from(u32::MAX)) as u32
}

impl Living {
    /// The subscription of a row, at this moment.
    fn known(alloc: Global, clock: u64, row: &Row) -> Result<Living, NoMemory>
        ensures { IfOk result (λ living. living ≡ spec.known clock row.now) }
    {
        let usage = row.sub.usage();
        let want = row.sub.want();
        let tag = usage.local_tag.copy(alloc)?;
        let phase = Phase::Active(left(clock, row.sub.due()));
        let note = note(alloc, usage, want, phase)?;
        Ok(Living {
            tag,
            number: row.sub.count(),
            to: want.to,
            note: note.into_inner(),
        })
    }

    /// The subscriptions of these rows, in their order, at this moment.
    fn each(alloc: Global, clock: u64, rows: &[&Row]) -> Result<Vec<Living>, NoMemory>
        ensures { IfOk result (λ all. all.items ≡ map (spec.known clock) (map (λ row. row.now) rows.now)) }
    {
        let mut all = Vec::with_capacity(alloc, rows.len())?;
        for row in rows {
            let living = Living::known(alloc, clock, row)?;
            all.push(living)?;
        }
        Ok(all)
    }

    /// The subscriptions that live at a desk, in the order of its rows. Of a spent desk no contract tells them.
    pub fn of_desk<P: Package>(alloc: Global, desk: &Desk<P>) -> Result<Vec<Living>, NoMemory>
        ensures { IfOk result (λ all. (s : Standing) → seen_by P.seen desk.now ≡ Some s
            → all.items ≡ map (spec.known s.book.clock) s.book.rows) }
    {
        let rows = desk.rows(alloc)?;
        Living::each(alloc, desk.clock(), rows.as_slice())
    }
}
