//! The rule, and how seats are made and joined under it.
#![tactic(auto)]

use crate::items::Item;
use crate::views::View;
use atomic_table::{Join, Split};

/// The rule: of each sender, what was taken and then what the queue holds is, in order, what it sent.
pub struct InOrder;

impl<T> crossbeam_channel::protocol::Protocol<Item<T>, View<T>> for InOrder {
    ghost use Rattle.std.specs.Prelude.{[]};
    ghost use Rattle.queues.specs.Rule.{IsInOrder, receiver_view};

    ghost holds = { IsInOrder };

    ghost first = { receiver_view 0 [] };
}

impl<T> crossbeam_queue::protocol::Protocol<Item<T>, View<T>> for InOrder {
    ghost use Rattle.std.specs.Prelude.{[]};
    ghost use Rattle.queues.specs.Rule.{IsInOrder, receiver_view};

    ghost holds = { IsInOrder };

    ghost first = { receiver_view 0 [] };
}

/// A sender's seat is cut from the receiver's, and given back to it at the end.
pub struct Roles;

impl<T> Split<View<T>> for Roles {
    ghost use Rattle.std.specs.Prelude.{[]};
    ghost use Rattle.queues.specs.Rule.{with_sender, sender_view};

    ghost left = { with_sender };

    ghost right = { λ v. sender_view v.senders [] };
}

impl<T> Join<View<T>> for Roles {
    ghost use Rattle.queues.specs.Rule.{taken_over, no_view};

    ghost both = { taken_over };

    ghost spent = { no_view };
}
