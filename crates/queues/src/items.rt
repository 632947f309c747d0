//! What a queue holds.
#![tactic(auto)]

/// A value, or the mark after the last value of a sender.
#[derive(Drop)]
pub enum Entry<T> {
    Value(T),
    End,
}

/// An entry, and the number of its sender.
#[derive(Drop)]
pub struct Item<T> {
    pub from: u32,
    pub entry: Entry<T>,
}
