//! What the thread at a seat of a queue knows.
#![tactic(auto)]

use crate::items::Item;
use std::collections::LinkedList;

/// What is known at a seat: at a sender's (`is_sender`), its number and what it has sent; at the receiver's
/// (`is_receiver`), what was taken and how many senders were made. The receiver's seat may have taken over a sender's,
/// and then knows both. Proofs speak of it; no value of it is made.
pub struct View<T> {
    pub is_sender: bool,
    pub number: u32,
    pub sent: LinkedList<Item<T>>,
    pub is_receiver: bool,
    pub taken: LinkedList<Item<T>>,
    pub senders: u32,
}
