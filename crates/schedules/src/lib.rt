//! Worlds: what the taker of a crew's outs may rely on, in whatever order ports, workers and taker go on.
//!
//! A world is what stands in the lists of the two queues after any list of steps: an item is sent, taken, posted or got, or
//! a worker quits. [`world`] says of each world what a subscription's watcher was told so far, [`rising`] how those NOTIFYs
//! are numbered, [`inboxes`] and [`outbox`] what the queues keep. [`no_dead_end`] says that from each of them all that was sent can be told.
//! No function here does anything: each is a theorem over definitions.
//!
//! What it isn't: it knows no thread and no queue. That the calls of a crew take just these steps is read off their
//! contracts, and is no theorem; what holds once a crew was joined is in `crew::laws`, and doesn't rest on this. Begin with
//! `specs/World`, then `specs/Laws`. Worked worlds are computed in `proofs/WorkedWorlds`.
#![tactic(auto)]

ghost use Rattle.schedules.specs.Laws.{InboxLaw, OutboxLaw, WorldLaw, RisingLaw, NoDeadEndLaw};

/// Of each worker's inbox: what was taken and what is held are, port by port and in order, what the port sent.
pub fn inboxes()
    ensures { InboxLaw }
{}

/// Of the outbox: what the taker got and what is held are, worker by worker and in order, what the worker posted.
pub fn outbox()
    ensures { OutboxLaw }
{}

/// Whatever the order of the steps, the NOTIFYs of a subscription among those posted are the first that its life tells over the
/// events that its worker took, and those that the taker got are the first of these.
pub fn world()
    ensures { WorldLaw }
{}

/// The NOTIFYs of a subscription that the taker got are numbered 1, 2, 3 and so on, and none follows a terminated one.
pub fn rising()
    ensures { RisingLaw }
{}

/// Whatever steps came before, some steps of the workers and the taker, by which none quits, lead to a world in which each worker took all
/// that was sent to it, and the taker got all that the notifier makes of that, but for workers that had quit.
pub fn no_dead_end()
    ensures { NoDeadEndLaw }
{}
