//! Rows that don't go on with their desk, as where a resource was taken away while the notifier stood still: each is told once
//! more, and that was the last of it (RFC 6665 section 4.1.3).
#![tactic(auto, unfolding(notifier_model::specs::Rows::turned, notifier_model::specs::Rows::tells, notifier_model::specs::Rows::ends, subscription::specs::Table::end))]

ghost use Rattle.std.specs.Prelude.{◌≡◌, ◌∷◌, [], map, is_some, IfOk};
ghost use Rattle.std.specs.List.{flat_map};
ghost use Rattle.package.specs.Boxes.{content_in};
ghost use Rattle.notifier_model.specs.Out.{out_of};
ghost use Rattle.notifier_model.specs.Rows as spec;
ghost use Rattle.notifier.specs.Tellers.{telling};

use crate::notice::{Teller, first_box};
use notifier_model::event::Out;
use notifier_model::row::Row;
use package::Package;
use sip_text::NoMemory;
use std::alloc::Global;
use subscription::{Reason, Want};

impl<P: Package> Teller<'_, P> {
    /// Whether its boxes hold what was asked for.
    pub fn holds(&self, want: &Want) -> bool
        ensures { result ≡ is_some (content_in (map P.seen self.now.boxes.now.items) want.now.event.package want.now.resource) }
    {
        match first_box(self.boxes, want.event.package()) {
            Some(found) => found.holds(want.resource.as_str()),
            None => false,
        }
    }

    /// The last NOTIFY of a row, which says why it ends.
    fn farewell(&self, alloc: Global, reason: Reason, row: Row) -> Result<Out, NoMemory>
        ensures { IfOk result (λ out. out ∷ [] ≡ map out_of (spec.ends (telling P.seen self.now) reason row).notifies) }
    {
        let Row { sub, .. } = row;
        let (usage, want, notice) = sub.end(reason);
        self.notice_out(alloc, want.to, &usage, &want, notice)
    }

    /// The last NOTIFYs of these rows, each of which says why it ends.
    pub fn farewells(
        &self,
        alloc: Global,
        reason: Reason,
        rows: Vec<Row>,
    ) -> Result<Vec<Out>, NoMemory>
        ensures { IfOk result (λ outs. outs.items
            ≡ map out_of (flat_map (λ row. (spec.ends (telling P.seen self.now) reason row).notifies) rows.items)) }
    {
        let mut outs = Vec::new(alloc);
        for row in rows {
            let out = self.farewell(alloc, reason, row)?;
            outs.push(out)?;
        }
        Ok(outs)
    }
}
