//! What a desk keeps, lent as it stands: nothing is written or copied.

ghost use Rattle.std.specs.Prelude.{◌≡◌, ◌++◌, map, filter_map, option_to_list, IfOk, OnOk};
ghost use Rattle.std.specs.Option.{option_copied};
ghost use Rattle.slab.specs.Slab as slab;
ghost use Rattle.notifier.specs.Stored.{rows_of};

use crate::store::rows::Rows;
use notifier_model::row::Row;
use sip_text::NoMemory;
use slab::Slab;
use std::alloc::Global;

/// Puts a row behind those that are there, if there is one.
fn push_found<'a>(rows: &mut Vec<&'a Row>, row: Option<&'a Row>) -> Result<(), NoMemory>
    ensures { OnOk result (map (λ r. r.now) rows.new.items
        ≡ map (λ r. r.now) rows.old.items ++ option_to_list (option_copied row.entry)) }
{
    if let Some(row) = row {
        rows.push(row)?;
    }
    Ok(())
}

/// The rows under these keys, in their order.
fn found<'a>(alloc: Global, rows: &'a Slab<Row>, keys: &[usize]) -> Result<Vec<&'a Row>, NoMemory>
    ensures { IfOk result (λ found. map (λ r. r.now) found.items ≡ filter_map (λ key. slab.get rows.now key) keys.now) }
{
    let mut found = Vec::with_capacity(alloc, keys.len())?;
    for key in keys {
        push_found(&mut found, rows.get(*key))?;
    }
    Ok(found)
}

impl Rows {
    /// The rows, by rising serial.
    pub fn all(&self, alloc: Global) -> Result<Vec<&Row>, NoMemory>
        ensures { IfOk result (λ rows. map (λ r. r.now) rows.items ≡ rows_of self.now) }
    {
        let keys: Vec<usize> = self.order.values().copied().collect(alloc)?;
        found(alloc, &self.slab, keys.as_slice())
    }
}
