//! What a desk keeps: its live subscriptions, and its answers.

use sip_text::{Octets, Text, Values};
use subscription::Sub;

/// A NOTIFY that no final answer came to yet.
#[derive(Clone, Copy)]
pub struct Unanswered {
    pub number: u32,
    /// The second in which it was made.
    pub moment: u64,
}

/// A live subscription.
#[derive(Drop)]
pub struct Row {
    /// Its number among those of its worker, from 1.
    pub serial: u32,
    pub sub: Sub,
    /// The last CSeq number that its dialog has heard, also of a request that was denied there (RFC 3261 section 12.2.2).
    pub last_cseq: u32,
    /// Its NOTIFYs that are unanswered, by rising number.
    pub unanswered: Values<Unanswered>,
}

/// What names a transaction (RFC 3261 section 17.2.3).
#[derive(Drop)]
pub struct Key {
    pub branch: Text,
    pub sent_by: Text,
    pub method: Text,
}

/// An answer that is kept for retransmissions of its request.
#[derive(Drop)]
pub struct Kept {
    pub key: Key,
    pub bytes: Octets,
}
