//! How many wrong passwords are looked at.

/// How many wrong passwords of one source address, or of one user, are looked at.
#[derive(Clone, Copy, Debug, PartialEq, Eq)]
pub struct Guesses {
    /// How many at once, of one that gave none for long.
    pub burst: u32,
    /// How many a minute, of one that goes on.
    pub per_minute: u32,
}
