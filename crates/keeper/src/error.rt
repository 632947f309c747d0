//! Why something isn't kept.
ghost use Rattle.std.specs.Prelude.{◌≡◌};

use journal::Unwritten;
use sip_text::NoMemory;
use thiserror::Error;

/// Why something isn't kept. All is as it was before the call.
#[derive(Clone, Copy, Debug, PartialEq, Eq, Error)]
pub enum Unkept {
    /// Its record can't be written.
    #[error("{0}")]
    Unwritten(Unwritten),
    /// There is no memory for it.
    #[error("out of memory")]
    NoMemory,
    /// There is no worker with this number.
    #[error("no such worker")]
    NoSuchWorker,
    /// No next file is begun that a book could stand in.
    #[error("no next journal is begun")]
    NotBegun,
    /// The worker was told something since the book was made, or the book is not its own.
    #[error("the book of a worker is outdated")]
    Outdated,
    /// 2^64 - 1 were counted.
    #[error("the counts of a worker are spent")]
    Spent,
}

impl From<Unwritten> for Unkept {
    ghost use Rattle.keeper.specs.declared.error.Unkept.TheVariants as unkept;

    ghost from_gives = { λ why e. e ≡ unkept.Unwritten why };

    fn from(error: Unwritten) -> Unkept {
        Unkept::Unwritten(error)
    }
}

impl From<NoMemory> for Unkept {
    ghost use Rattle.keeper.specs.declared.error.Unkept.TheVariants as unkept;

    ghost from_gives = { λ _ e. e ≡ unkept.NoMemory };

    fn from(_refused: NoMemory) -> Unkept {
        Unkept::NoMemory
    }
}
