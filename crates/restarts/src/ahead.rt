//! Numbers of which none is used twice, where the end of what was handled may be lost.
#![tactic(auto, unfolding(subscription::specs::Table::lost))]

ghost use Rattle.std.specs.Prelude.{◌≡◌, ◌<◌, ◌≤◌, ◌++◌, ◌∷◌, [], option_to_list, IfOk, OnOk, Some};
ghost use Rattle.restarts.specs.Ahead as spec;

use crate::withdrawal::Withdrawn;
use notifier::{NoMemory, Saved};
use notifier_model::row::Row;
use sip_text::Values;
use std::alloc::Global;
use subscription::Sub;

/// By how much numbers and serials rise: more NOTIFYs of one subscription, or more subscriptions of one worker, are never lost.
const LEAP: u32 = 65536;

/// The next serial where all are used up.
const USED_UP: u64 = 1 << 32;

/// The next serial a leap further.
fn serial_ahead(next: u64) -> u64
    ensures { result ≡ spec.serial_ahead next }
{
    if next < USED_UP - u64::from(LEAP) {
        next + u64::from(LEAP)
    } else {
        USED_UP
    }
}

/// The row as one that was told so often, and waits for no answer.
fn told_so_often(alloc: Global, row: Row, count: u32) -> Option<Row>
    requires told { 1 ≤ count }
    requires left { count < row.sub.want.max_cseq }
    ensures { result ≡ Some (spec.told_so_often count row) }
{
    let Row {
        serial,
        sub,
        last_cseq,
        unanswered: _,
    } = row;
    let due = sub.due();
    let (usage, want) = sub.lost();
    let sub = Sub::resumed(usage, want, count, due)?;
    Some(Row {
        serial,
        sub,
        last_cseq,
        unanswered: Values::new(Vec::new(alloc)),
    })
}

fn push_some(rows: &mut Vec<Row>, row: Option<Row>) -> Result<(), NoMemory>
    ensures { OnOk result (rows.new.items ≡ rows.old.items ++ option_to_list row) }
{
    if let Some(row) = row {
        rows.push(row)?;
    }
    Ok(())
}

/// Rows that go on, and rows that are left out.
#[derive(Drop)]
struct Leap {
    ahead: Vec<Row>,
    left_out: Vec<Row>,
}

impl Leap {
    /// One row more.
    fn take(&mut self, alloc: Global, row: Row) -> Result<(), NoMemory>
        ensures ahead { OnOk result (self.new.ahead.items ≡ self.old.ahead.items ++ spec.all_ahead (row ∷ [])) }
        ensures left_out { OnOk result (self.new.left_out.items ≡ self.old.left_out.items ++ spec.left_out (row ∷ [])) }
    {
        let count = row.sub.count();
        let most = row.sub.want().max_cseq;
        if most - count > LEAP {
            push_some(&mut self.ahead, told_so_often(alloc, row, count + LEAP))
        } else {
            push_some(&mut self.left_out, told_so_often(alloc, row, most - 1))
        }
    }

    /// All of these rows.
    fn over(alloc: Global, rows: Vec<Row>) -> Result<Leap, NoMemory>
        ensures ahead { IfOk result (λ leap. leap.ahead.items ≡ spec.all_ahead rows.items) }
        ensures left_out { IfOk result (λ leap. leap.left_out.items ≡ spec.left_out rows.items) }
    {
        let mut leap = Leap {
            ahead: Vec::new(alloc),
            left_out: Vec::new(alloc),
        };
        for row in rows {
            leap.take(alloc, row)?;
        }
        Ok(leap)
    }
}

/// Lets the numbers of all rows and the next serial rise by 65,536, and no row wait for an answer: for a book behind which more may
/// have been handled than is known. A row that has no numbers for that is taken out, with its last number left, so that it can be
/// told of its end.
pub fn skip_ahead(alloc: Global, book: Saved) -> Result<Withdrawn, NoMemory>
    ensures book { IfOk result (λ taken. taken.book ≡ spec.book_ahead book) }
    ensures left_out { IfOk result (λ taken. taken.rows.items ≡ spec.left_out book.rows) }
{
    let Saved {
        clock,
        next,
        rows,
        ring,
    } = book;
    let Leap { ahead, left_out } = Leap::over(alloc, rows.into_vec())?;
    let book = Saved {
        clock,
        next: serial_ahead(next),
        rows: Values::new(ahead),
        ring,
    };
    Ok(Withdrawn {
        book,
        rows: left_out,
    })
}
