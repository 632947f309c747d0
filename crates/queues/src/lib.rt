//! The queues of a crew: an inbox for each worker, and one outbox.
//!
//! Both have many senders and one receiver, and follow one rule. An item says who sent it, and is a value or the mark that its
//! sender has ended. Whatever the threads do in whatever order, of each sender the items that were taken and then those that
//! are still held are, in order, those that it sent; nothing follows its end mark. `specs/Rule` says it as a record, [`InOrder`]
//! hands it to `crossbeam_channel` and to `crossbeam_queue`, and `proofs/Keeps` shows that each step keeps it.
//!
//! [`many_to_one`] is a queue under that rule, whatever it carries, [`inbox`] the same with events, and [`outbox`] the queue of
//! what workers post. Begin with [`Item`], then `specs/Items`, `specs/Rule`, and the seats of each queue.
#![tactic(auto)]

pub mod inbox;
mod items;
pub mod many_to_one;
pub mod outbox;
mod rule;
mod steps;
mod views;

pub use items::{Entry, Item};
pub use rule::{InOrder, Roles};
pub use sip_text::NoMemory;
pub use steps::{Compares, Sends, Takes};
pub use views::View;
