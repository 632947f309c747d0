//! Who watches: a row for each live subscription, by what is known with its NOTIFYs, and by the answers to them.
//!
//! Whoever sends says so: a NOTIFY went out ([`Watchers::renew`]), an answer came ([`Watchers::answer`]), the last NOTIFY went out or
//! one was given up ([`Watchers::end`]). Who watches which mailbox, and for how long, is told with the NOTIFY ([`Known`]). [`Watchers::page`] tells
//! some of the rows as lines, and looks at a bounded number of them, so that whoever sends can go on soon. [`Watchers::rows_from`] tells
//! how many of them one source asked for.
//!
//! It sends nothing, reads no clock and starts no thread. Memory is taken as rows begin; a call costs about the
//! same however many there are, but that now and then all move to more room.
//!
//! Begin with [`Watchers`], then `specs/Rows`: what the calls make of the rows, `specs/Notifies`: what is known with a NOTIFY, `specs/Pages`:
//! what a page is, `specs/Readings`: what who reads all pages is told, and `specs/Tallies`: how many rows a source has.
#![tactic(auto)]

mod counts;
mod inquiry;
pub mod laws;
mod notify;
mod page;
mod row;
mod watchers;

pub use counts::{Counts, source};
pub use inquiry::Inquiry;
pub use notify::Known;
pub use row::Watcher;
pub use watchers::{NoRow, Watchers};
