//! Why a body is no summary.

use thiserror::Error;

/// Why a body is no summary of messages (RFC 3842 section 5.2).
#[derive(Clone, Copy, Debug, PartialEq, Eq, Error)]
pub enum SummaryError {
    /// Its first line is no `Messages-Waiting`.
    #[error("the first line is no Messages-Waiting")]
    NoStatus,
    /// `Messages-Waiting` says neither yes nor no.
    #[error("Messages-Waiting says neither yes nor no")]
    BadStatus,
    /// `Message-Account` names no URI.
    #[error("Message-Account is no URI")]
    BadAccount,
    /// A line is no `name: value`, or no CRLF ends it.
    #[error("a line is no name with a value")]
    BadLine,
    /// A line names none of the classes of RFC 3458.
    #[error("a line names no class of messages")]
    UnknownClass,
    /// A class has no counts.
    #[error("a class has no counts")]
    BadCounts,
    /// A count exceeds 4294967295.
    #[error("a count exceeds 4294967295")]
    TooLarge,
    /// More messages are urgent than there are.
    #[error("more messages are urgent than there are")]
    MoreUrgent,
    /// A class stands in two lines.
    #[error("a class stands in two lines")]
    Twice,
    /// Messages wait, and no line counts them.
    #[error("messages wait, and no line counts them")]
    Uncounted,
}
