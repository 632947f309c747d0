//! What a desk keeps, written.

ghost use Rattle.std.specs.Prelude.{◌≡◌, ◌++◌, OnOk, filter_map};
ghost use Rattle.std.specs.List.{flat_map, AllByRecursion};
ghost use Rattle.std.specs.Option.{option_copied};
ghost use Rattle.slab.specs.Slab as slab;
ghost use Rattle.snapshots.specs.Books.{IsSaved, book_text, first_line};
ghost use Rattle.snapshots.specs.Forms.{AreAll, list_text};
ghost use Rattle.snapshots.specs.Rows.{IsRow, row_text};
ghost use Rattle.notifier_model.specs.declared.place.Place.{Place};
ghost use Rattle.notifier.specs.Ledger.{IsSound};
ghost use Rattle.notifier.specs.Resumed.{MayGoOn};
ghost use Rattle.notifier.specs.Written.{some_text, IsSomeRow, saved_ledger};
ghost use Rattle.notifier.specs.Stored.{rows_of, IsIndexed};

use crate::store::Ledger;
use crate::store::rows::Rows;
use notifier_model::row::Row;
use sip_text::NoMemory;
use slab::Slab;
use snapshots::form::Form;
use std::alloc::Global;

/// Appends a row, if there is one.
fn write_found(alloc: Global, row: Option<&Row>, out: &mut Vec<u8>) -> Result<(), NoMemory>
    ensures text { OnOk result (out.new.items ≡ out.old.items ++ some_text (option_copied row.entry)) }
    ensures fits { IsSomeRow (option_copied row.entry) }
{
    match row {
        Some(row) => {
            row.fits();
            row.put(alloc, out)
        }
        None => Ok(()),
    }
}

/// Appends the rows under these keys, one behind the other.
fn write_each(
    alloc: Global,
    rows: &Slab<Row>,
    keys: &[usize],
    out: &mut Vec<u8>,
) -> Result<(), NoMemory>
    ensures text { OnOk result (out.new.items
        ≡ out.old.items ++ flat_map row_text (filter_map (λ key. slab.get rows.now key) keys.now)) }
    ensures fit { OnOk result (AllByRecursion IsRow (filter_map (λ key. slab.get rows.now key) keys.now)) }
{
    for key in keys {
        let row = rows.get(*key);
        write_found(alloc, row, out)?;
    }
    Ok(())
}

impl Rows {
    /// Appends the rows, their number first.
    fn write(&self, alloc: Global, out: &mut Vec<u8>) -> Result<(), NoMemory>
        requires { IsIndexed self.now }
        ensures text { OnOk result (out.new.items ≡ out.old.items ++ list_text row_text (rows_of self.now)) }
        ensures fit { OnOk result (AreAll IsRow (rows_of self.now)) }
    {
        let count = self.len() as u64;
        let keys: Vec<usize> = self.order.values().copied().collect(alloc)?;
        count.put(alloc, out)?;
        write_each(alloc, &self.slab, keys.as_slice(), out)?;
        Ok(())
    }
}

/// Appends the line that says what is written, and in which version.
fn write_first_line(out: &mut Vec<u8>) -> Result<(), NoMemory>
    ensures { OnOk result (out.new.items ≡ out.old.items ++ first_line) }
{
    out.extend_from_slice(b"tipongahe book 1\n")?;
    Ok(())
}

impl<P> Ledger<P> {
    /// Appends the whole book but its boxes: the line that says what it is, the moment, the next serial, the rows and the kept
    /// answers.
    pub fn write(&self, alloc: Global, out: &mut Vec<u8>) -> Result<(), NoMemory>
        requires { IsIndexed self.now.rows }
        ensures text { OnOk result (out.new.items ≡ out.old.items ++ book_text (saved_ledger self.now)) }
        ensures fits { OnOk result (IsSaved (saved_ledger self.now)) }
        ensures may { OnOk result ((place : Place) → IsSound place self.now → MayGoOn place (saved_ledger self.now)) }
    {
        write_first_line(out)?;
        self.clock.fits();
        self.clock.put(alloc, out)?;
        self.next.fits();
        self.next.put(alloc, out)?;
        self.rows.write(alloc, out)?;
        self.ring.write(alloc, out)?;
        Ok(())
    }
}
