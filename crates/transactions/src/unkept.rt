//! Why a NOTIFY is not kept.

use thiserror::Error;

/// Why a NOTIFY is not kept. It was sent once, and is not sent again.
#[derive(Clone, Copy, Debug, PartialEq, Eq, Error)]
pub enum Unkept {
    /// One with its tag and its number is open already.
    #[error("already open")]
    Twice,
    /// As many as may be open are ([`Allowance::places`](crate::Allowance::places)), or 2^64 - 1 were kept.
    #[error("too many open")]
    Full,
    /// As many with its tag as may be open are.
    #[error("too many open with its tag")]
    Many,
}
