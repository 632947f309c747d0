//! The stored parts of a desk: [`rows`] with what leads to them, and answers that are [`kept`], each by its [`transaction`].

pub mod kept;
pub mod rows;
pub mod transaction;

use crate::store::kept::KeptAnswers;
use crate::store::rows::Rows;
use crate::tag::Tags;

/// The stored parts of a desk.
#[derive(Drop)]
pub struct Ledger<P> {
    /// The moment, in seconds.
    pub clock: u64,
    /// The next serial.
    pub next: u64,
    pub rows: Rows,
    pub boxes: Vec<P>,
    /// Newest first.
    pub ring: KeptAnswers,
    /// What makes the tags of its dialogs.
    pub tags: Tags,
}
