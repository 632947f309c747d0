//! The packages that the workers of the program are to have. Whoever calls makes them, each in a box or as it is.

/// A package that a worker of the program is to have, and what it begins with.
#[derive(Drop)]
pub enum Wanted {
    /// Mailboxes of these names (RFC 3842).
    Mailboxes(Vec<String>),
    /// Transfers, of which none is there yet (RFC 3515).
    Transfers,
}
