//! What a desk keeps, apart from its packages, as it is saved.

use crate::row::{Kept, Row};
use sip_text::Values;

/// What a desk keeps, apart from what its packages hold.
#[derive(Drop)]
pub struct Saved {
    /// The moment, in seconds.
    pub clock: u64,
    /// The next serial.
    pub next: u64,
    /// The live subscriptions, by rising serial.
    pub rows: Values<Row>,
    /// The kept answers, newest first.
    pub ring: Values<Kept>,
}
