//! The rows as lines, page by page.
ghost use Rattle.std.specs.Prelude.{◌≡◌, ◌<◌, ◌++◌, Some, OnOk, IfOk, string_bytes};
ghost use Rattle.watchers.specs.Pages as spec;

use crate::inquiry::Inquiry;
use crate::row::Watcher;
use crate::watchers::Watchers;
use shown_text::Shown;
use sip_text::{NoMemory, Text};
use std::alloc::Global;
use std::fmt;
use std::fmt::{Display, Formatter};

/// How many rows a page tells at most.
pub const LINES: u32 = 500;

/// How many rows are looked at for a page at most: so it takes little time, however many rows there are.
pub const LOOKS: u32 = 2048;

/// A page with so many bytes of rows tells no further row.
pub const FULL: usize = 6800;

/// How many bytes of a row are told at most. A row with a longer tag isn't told.
pub const ROW: usize = 1200;

/// A page, as far as it is written. It goes from the last row of those that it may tell to the first: so a row that lives all the time is
/// told, though others go between two pages.
#[derive(Drop)]
struct RowPage {
    /// At which moment it is told.
    moment: u64,
    /// The rows before this place are still to be looked at.
    left: usize,
    /// How many were told.
    lines: u32,
    text: String,
}

/// The seconds from a moment to a later one.
fn seconds(from: u64, to: u64) -> u64
    ensures { result ≡ spec.seconds from to }
{
    to.saturating_sub(from) / 1000
}

/// Who showed a password, as the last word of a row.
#[derive(Clone, Copy)]
struct UserWord<'a> {
    user: &'a Option<Text>,
}

impl Display for UserWord<'_> {
    ghost output = { λ s. Some (spec.user_word s.user.now) };

    fn fmt<W: fmt::Write>(&self, f: &mut Formatter<W>) -> fmt::Result {
        match self.user {
            Some(user) => {
                let shown = Shown::word(user.as_str().as_bytes());
                write!(f, " user={shown}")
            }
            None => Ok(()),
        }
    }
}

/// Appends the line of a row that began so many seconds ago, and lasts for so many more.
fn write_row(
    text: &mut String,
    tag: &str,
    row: &Watcher,
    age: u64,
    left: u64,
) -> Result<(), NoMemory>
    ensures { OnOk result (string_bytes text.new ≡ string_bytes text.old ++ spec.line tag.now row.now age left) }
{
    let [a, b, c, d] = row.to.ip;
    let port = row.to.port;
    let watcher = Shown::words(row.watcher.as_str().as_bytes());
    let contact = Shown::word(row.contact.as_str().as_bytes());
    let user = UserWord { user: &row.user };
    let mailbox = row.mailbox.as_str();
    write!(
        text,
        "{mailbox} {watcher} {a}.{b}.{c}.{d}:{port} {tag} {} {} {age} {left} code={} contact={contact}{user}\n",
        row.sent, row.answered, row.code
    )?;
    Ok(())
}

/// The line of a row at this moment.
fn row_line(alloc: Global, moment: u64, tag: &str, row: &Watcher) -> Result<String, NoMemory>
    ensures { IfOk result (λ text. string_bytes text ≡ spec.row_text moment tag.now row.now) }
{
    let mut line = String::new(alloc);
    let age = seconds(row.since, moment);
    let left = seconds(moment, row.until);
    write_row(&mut line, tag, row, age, left)?;
    Ok(line)
}

/// Whether a row is one of those that are asked for.
fn is_wanted(mailbox: &Option<Text>, row: &Watcher) -> bool
    ensures { result ≡ spec.is_wanted mailbox.now row.now }
{
    match mailbox {
        Some(mailbox) => row.mailbox.is(mailbox.as_str()),
        None => true,
    }
}

impl RowPage {
    /// Whether it has room for one more row, and there is one to look at.
    fn goes_on(&self) -> bool
        ensures { result ≡ spec.goes_on (spec.page_in self.now) }
    {
        self.left > 0 && self.lines < LINES && self.text.len() < FULL
    }

    /// Tells this row.
    fn tell(&mut self, alloc: Global, tag: &str, row: &Watcher) -> Result<(), NoMemory>
        requires few { self.old.lines < LINES }
        ensures { OnOk result (spec.page_in self.new ≡ spec.with_line (spec.row_text self.old.moment tag.now row.now) (spec.page_in self.old)) }
    {
        let line = row_line(alloc, self.moment, tag, row)?;
        if line.len() <= ROW {
            self.text.push_str(line.as_str())?;
            self.lines += 1;
        }
        Ok(())
    }

    /// Looks at one row more, if it goes on, and tells it if it is asked for.
    fn look(
        &mut self,
        alloc: Global,
        watchers: &Watchers,
        mailbox: &Option<Text>,
    ) -> Result<(), NoMemory>
        ensures { OnOk result (spec.page_in self.new
            ≡ spec.after_look watchers.now.rows mailbox.now (spec.page_in self.old)) }
    {
        if !self.goes_on() {
            return Ok(());
        }
        self.left -= 1;
        let Some((tag, row)) = watchers.get(self.left) else {
            return Ok(());
        };
        if is_wanted(mailbox, row) {
            self.tell(alloc, tag, row)?;
        }
        Ok(())
    }

    /// The lines, and where to go on behind the last, if there are more rows to be looked at.
    fn into_text(self) -> Result<String, NoMemory>
        ensures { IfOk result (λ text. string_bytes text ≡ spec.page_text (spec.page_in self)) }
    {
        let left = self.left;
        let mut text = self.text;
        if left > 0 {
            write!(text, "more {left}\n")?;
        }
        Ok(text)
    }
}

/// Before which place rows are to be looked at, where those before this place are asked for, or all where it is 0.
fn beginning(place: u64, rows: usize) -> usize
    ensures { result ≡ spec.beginning place rows }
{
    if place == 0 {
        rows
    } else {
        place.min(rows as u64) as usize
    }
}

impl Watchers {
    /// A page of the rows that are asked for, as they are at this moment. It takes little time, however many there are.
    #[tactic(auto, using(crate::proofs::Bounded::looks_none, crate::proofs::Bounded::looks_more))]
    pub fn page(&self, now: u64, inquiry: &Inquiry) -> Result<String, NoMemory>
        ensures page { IfOk result (λ text. string_bytes text
            ≡ spec.page_text (spec.page now inquiry.now.mailbox inquiry.now.place self.now.rows)) }
        // It goes into one datagram.
        ensures bounded { spec.IsBounded (spec.page now inquiry.now.mailbox inquiry.now.place self.now.rows) }
    {
        let alloc = self.alloc();
        let mut page = RowPage {
            moment: now,
            left: beginning(inquiry.place, self.len()),
            lines: 0,
            text: String::new(alloc),
        };
        for _looked in 0..LOOKS {
            page.look(alloc, self, &inquiry.mailbox)?;
        }
        page.into_text()
    }
}
