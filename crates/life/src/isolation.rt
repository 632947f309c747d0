//! Isolation: what a subscription's watcher is told depends on the subscription's own events alone.
//!
//! Those are its SUBSCRIBE or REFER, what comes in its dialog, what changes its mailbox or its transfer, the time, and the
//! planned stop. [`alone`] says that all that its watcher is told, but for the tag, is what it would be told of these;
//! [`same`] that in two runs in which they are the same it is told the same; [`together`] that with several workers they
//! come to one. [`one_counter`] names a notifier that breaks this. Each function here is a theorem over definitions.
//!
//! What the laws ask is that its requests aren't taken for somebody else's (`specs/Apart`), which [`again`] shows of
//! whoever retransmits. What they don't promise is a place: a full table keeps a new subscription out. Begin with
//! `specs/Own`, `specs/IsolationLaws` and `specs/Together`; `proofs/WorkedAlone` computes what goes wrong without a premise.
ghost use Rattle.life.specs.IsolationLaws.{AloneLaw, AgainLaw, SameLaw, OwnKeysLaw, OutsLaw};
ghost use Rattle.life.specs.Notifiers.{IsolatedLaw, OneCounterLaw};
ghost use Rattle.life.specs.Together.{TogetherLaw, NowhereElseLaw};

/// What the watcher of a subscription is told of all events is what it would be told of the subscription's own events alone,
/// as the first of a notifier with the same limits and the same of its resource.
pub fn alone()
    ensures { AloneLaw }
{}

/// All NOTIFYs that a notifier sends with a subscription's tag are those that its own events alone give.
pub fn outs()
    ensures { OutsLaw }
{}

/// Where a subscription's own events in two runs are the same but for its tag, its watcher is told the same: whatever else
/// happened in either run, and whichever worker and serial it had.
pub fn same()
    ensures { SameLaw }
{}

/// What the notifier sends is isolated: in two runs in which a subscription's own events are the same but for its tag, the NOTIFYs
/// to its watcher have the same numbers, states and bodies, and go to the same addresses.
pub fn isolated()
    ensures { IsolatedLaw }
{}

/// Not every notifier is: one that numbers the NOTIFYs of all subscriptions by one counter isn't.
pub fn one_counter()
    ensures { OneCounterLaw }
{}

/// A request that a subscription could hear doesn't matter to it when it comes again.
pub fn again()
    ensures { AgainLaw }
{}

/// The first law where no two requests have one key.
pub fn by_keys()
    ensures { OwnKeysLaw }
{}

/// With several workers, what concerns a subscription that was born at the home of its request goes to the worker where it was
/// born.
pub fn together()
    ensures { TogetherLaw }
{}

/// With several workers, no other gets anything that concerns such a subscription, but what goes to all.
pub fn nowhere_else()
    ensures { NowhereElseLaw }
{}
