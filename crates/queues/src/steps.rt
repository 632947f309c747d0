//! What a step on a queue tells the thread that made it.
#![tactic(auto)]

use crate::items::Item;
use crate::views::View;

/// Sending: the sender has sent one item more.
pub struct Sends;

impl<T> crossbeam_channel::protocol::Outcome<Item<T>, View<T>> for Sends {
    ghost use Rattle.queues.specs.Rule.{SendsItem};

    ghost then = { SendsItem };
}

impl<T> crossbeam_channel::protocol::Lesson<Item<T>, View<T>> for Sends {
    ghost fact = { λ view held. Unit {0} };
}

impl<T> crossbeam_queue::protocol::Outcome<Item<T>, View<T>> for Sends {
    ghost use Rattle.queues.specs.Rule.{SendsItem};

    ghost then = { SendsItem };
}

impl<T> crossbeam_queue::protocol::Lesson<Item<T>, View<T>> for Sends {
    ghost fact = { λ view held. Unit {0} };
}

/// Taking: the receiver has taken the next item, which is of a sender that had not ended. Where there was none, nothing
/// was held at one moment.
pub struct Takes;

impl<T> crossbeam_channel::protocol::Outcome<Item<T>, View<T>> for Takes {
    ghost use Rattle.queues.specs.Rule.{TakesItem};

    ghost then = { TakesItem };
}

impl<T> crossbeam_channel::protocol::Lesson<Item<T>, View<T>> for Takes {
    ghost use Rattle.queues.specs.Rule.{RestIsHeld};

    ghost fact = { RestIsHeld };
}

impl<T> crossbeam_queue::protocol::Outcome<Item<T>, View<T>> for Takes {
    ghost use Rattle.queues.specs.Rule.{TakesItem};

    ghost then = { TakesItem };
}

impl<T> crossbeam_queue::protocol::Lesson<Item<T>, View<T>> for Takes {
    ghost use Rattle.queues.specs.Rule.{RestIsHeld};

    ghost fact = { RestIsHeld };
}

/// Comparing: the receiver, which has taken over a sender's seat, learns how what it took stands to what was sent.
pub struct Compares;

impl<T> crossbeam_channel::protocol::Lesson<Item<T>, View<T>> for Compares {
    ghost use Rattle.queues.specs.Items.{TookInOrder};

    ghost fact = { λ view held. TookInOrder view.number view.taken view.sent };
}

impl<T> crossbeam_queue::protocol::Lesson<Item<T>, View<T>> for Compares {
    ghost use Rattle.queues.specs.Items.{TookInOrder};

    ghost fact = { λ view held. TookInOrder view.number view.taken view.sent };
}
