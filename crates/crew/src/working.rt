//! A worker from its first event to its end mark.
ghost use Rattle.std.specs.Prelude.{◌≡◌, ◌+◌, ℕ, [], ◌++◌, List, Some, MatchBool};
ghost use Rattle.queues.specs.declared.items.Item.{Item};
ghost use Rattle.queues.specs.Ended.{count_ended, AllEnded};
ghost use Rattle.notifier_model.specs.declared.event.Event.{Event};
ghost use Rattle.notifier.specs.Held.{seen_by};
ghost use Rattle.notifier.specs.Standing.{Standing};
ghost use Rattle.crew.specs.Worked.{AllFrom, IsWorked};
ghost use Rattle.crew.specs.Loop.{Halted, Halts};
ghost use Rattle.crew.specs.declared.hand.Stop.TheVariants.{Finished};

use crate::end::{Done, End};
use crate::gate::Gate;
use crate::hand::{Halt, Hand, Stop, handle_all};
use notifier_model::Event;
use package::Package;
use queues::inbox::{Receiver, Taken};
use std::alloc::Global;
use std::sync::Wait;

/// Takes and drops the rest, until each port has ended. False where all ports went away before.
fn drain<R: Wait>(rt: &R, receiver: &mut Receiver, mut left: u32) -> bool
    requires { left + count_ended receiver.old.ports receiver.old.taken ≡ receiver.old.ports }
    ensures inbox { receiver.new.inbox ≡ receiver.old.inbox }
    ensures ports { receiver.new.ports ≡ receiver.old.ports }
    ensures among { AllFrom receiver.old.ports receiver.old.taken → AllFrom receiver.old.ports receiver.new.taken }
    ensures more { (rest : List (Item Event)) × (receiver.new.taken ≡ receiver.old.taken ++ rest) }
    ensures ended { MatchBool result
        (AllEnded receiver.old.ports receiver.new.taken)
        (AllEnded receiver.old.ports receiver.new.taken → ⊥) }
{
    for _ in rt.forever() {
        if left == 0 {
            return true;
        }
        let Ok(taken) = receiver.take(rt) else {
            return false;
        };
        match taken {
            Taken::Ended(_) => left -= 1,
            Taken::Event(event) => drop(event),
        }
    }
    unreachable!()
}

/// Handles the planned stop, if there is one. All ports have ended.
fn shut<R: Wait, P: Package, G: Gate>(rt: &R, alloc: Global, gate: &G, hand: &mut Hand<P>) -> End
    ensures same { (hand.new.poster.outbox ≡ hand.old.poster.outbox)
        × (hand.new.poster.number ≡ hand.old.poster.number) }
    ensures ends { (n : ℕ) (stands : Standing) (taken : List (Item Event)) → hand.old.stop ≡ stands.place.stop
        → Halted hand.old.poster.number n stands taken
        (seen_by P.seen hand.old.desk) hand.old.poster.posted hand.old.handled hand.old.made Finished
        → Halts hand.old.poster.number n stands taken
        hand.new.poster.posted hand.new.handled hand.new.made result }
{
    if !hand.stop {
        return End::Closed;
    }
    let Ok(()) = hand.handle(rt, alloc, gate, Event::Shut) else {
        return End::NoMemory(hand.handled);
    };
    End::Closed
}

/// How a worker ends, once all that is to come was taken.
fn ending<R: Wait, P: Package, G: Gate>(
    rt: &R,
    alloc: Global,
    gate: &G,
    hand: &mut Hand<P>,
    receiver: &mut Receiver,
    halt: Halt,
) -> End
    requires { halt.left + count_ended receiver.old.ports receiver.old.taken ≡ receiver.old.ports }
    ensures inbox { receiver.new.inbox ≡ receiver.old.inbox }
    ensures ports { receiver.new.ports ≡ receiver.old.ports }
    ensures among { AllFrom receiver.old.ports receiver.old.taken → AllFrom receiver.old.ports receiver.new.taken }
    ensures same { (hand.new.poster.outbox ≡ hand.old.poster.outbox)
        × (hand.new.poster.number ≡ hand.old.poster.number) }
    ensures ends { (stands : Standing) → hand.old.stop ≡ stands.place.stop
        → Halted hand.old.poster.number receiver.old.ports stands receiver.old.taken
        (seen_by P.seen hand.old.desk) hand.old.poster.posted hand.old.handled hand.old.made halt.stop
        → Halts hand.old.poster.number receiver.old.ports stands receiver.new.taken
        hand.new.poster.posted hand.new.handled hand.new.made result }
{
    match halt.stop {
        Stop::Finished => shut(rt, alloc, gate, hand),
        Stop::Deserted => End::Abandoned(false),
        Stop::Full => {
            gate.give_up(hand.worker);
            if drain(rt, receiver, halt.left) {
                End::NoMemory(hand.handled)
            } else {
                End::Abandoned(true)
            }
        }
    }
}

/// One worker, from its first event to its end mark.
pub(crate) fn work<R: Wait, P: Package, G: Gate>(
    rt: &R,
    alloc: Global,
    gate: &G,
    mut hand: Hand<P>,
    mut receiver: Receiver,
) -> Done
    requires taken { receiver.taken ≡ [] }
    requires posted { hand.poster.posted ≡ [] }
    requires counts { (hand.handled ≡ 0) × (hand.made ≡ 0) }
    ensures { (stands : Standing) → seen_by P.seen hand.desk ≡ Some stands → hand.stop ≡ stands.place.stop
        → IsWorked stands receiver hand.poster result }
{
    let halt = handle_all(rt, alloc, gate, &mut hand, &mut receiver);
    let end = ending(rt, alloc, gate, &mut hand, &mut receiver, halt);
    hand.write_book(rt, alloc, gate);
    let Hand {
        worker,
        poster,
        handled,
        made,
        ..
    } = hand;
    let poster = poster.finish(rt);
    gate.posted(worker);
    Done {
        receiver,
        poster,
        handled,
        made,
        end,
    }
}
