//! Rows that are taken out of a book, since their resource was taken away while the notifier stood still.
#![tactic(auto)]

ghost use Rattle.std.specs.Prelude.{◌≡◌, ◌++◌, ◌∷◌, [], map, filter, not, IfOk, OnOk};
ghost use Rattle.restarts.specs.Withdrawn.{is_held, book_where};

use notifier::{NoMemory, Saved, Teller};
use notifier_model::row::Row;
use package::Package;
use sip_text::Values;
use std::alloc::Global;

/// A book, and the rows that were taken out of it, by rising serial. `Teller::farewells` makes their last NOTIFYs.
#[derive(Drop)]
pub struct Withdrawn {
    pub book: Saved,
    pub rows: Vec<Row>,
}

/// Rows that stay, and rows that are taken out.
#[derive(Drop)]
struct Parted {
    held: Vec<Row>,
    others: Vec<Row>,
}

impl Parted {
    /// One row more.
    fn take<P: Package>(&mut self, teller: &Teller<'_, P>, row: Row) -> Result<(), NoMemory>
        ensures held { OnOk result (self.new.held.items
            ≡ self.old.held.items ++ filter (is_held (map P.seen teller.now.boxes.now.items)) (row ∷ [])) }
        ensures others { OnOk result (self.new.others.items ≡ self.old.others.items
            ++ filter (λ row. not (is_held (map P.seen teller.now.boxes.now.items) row)) (row ∷ [])) }
    {
        if teller.holds(row.sub.want()) {
            self.held.push(row)?;
        } else {
            self.others.push(row)?;
        }
        Ok(())
    }

    /// All of these rows.
    fn over<P: Package>(
        alloc: Global,
        teller: &Teller<'_, P>,
        rows: Vec<Row>,
    ) -> Result<Parted, NoMemory>
        ensures held { IfOk result (λ parted. parted.held.items
            ≡ filter (is_held (map P.seen teller.now.boxes.now.items)) rows.items) }
        ensures others { IfOk result (λ parted. parted.others.items
            ≡ filter (λ row. not (is_held (map P.seen teller.now.boxes.now.items) row)) rows.items) }
    {
        let mut parted = Parted {
            held: Vec::new(alloc),
            others: Vec::new(alloc),
        };
        for row in rows {
            parted.take(teller, row)?;
        }
        Ok(parted)
    }
}

/// Takes out of a book the rows whose resource the boxes don't hold: a mailbox that was taken away, or a transfer, where the boxes
/// are new. The others go on as they are.
pub fn withdraw<P: Package>(
    alloc: Global,
    teller: &Teller<'_, P>,
    book: Saved,
) -> Result<Withdrawn, NoMemory>
    ensures book { IfOk result (λ taken. taken.book ≡ book_where (is_held (map P.seen teller.now.boxes.now.items)) book) }
    ensures rows { IfOk result (λ taken. taken.rows.items
        ≡ filter (λ row. not (is_held (map P.seen teller.now.boxes.now.items) row)) book.rows) }
{
    let Saved {
        clock,
        next,
        rows,
        ring,
    } = book;
    let Parted { held, others } = Parted::over(alloc, teller, rows.into_vec())?;
    let book = Saved {
        clock,
        next,
        rows: Values::new(held),
        ring,
    };
    Ok(Withdrawn { book, rows: others })
}
