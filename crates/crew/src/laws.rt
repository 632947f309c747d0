//! What follows for each port and for each report, and what the taker of a joined crew got, by [`crate::Crew::join`]'s report alone.
//!
//! Of the end of a crew the outs that the taker got of a worker are those of a one-thread notifier for the events that the worker
//! handled. [`life`] says so of each subscription in its own words, [`whole`] that no other NOTIFY with its tag came from any
//! worker, and [`alone`] that neither the number of workers nor any other event shows in it; [`nowhere_else`] says that no other
//! worker took anything that concerns it but ticks and the planned stop. What the taker may rely on at any moment before,
//! [`world`] says. No function here does anything: each is a theorem over definitions.
//!
//! A crew may go on from saved books ([`crate::Crew::go_on`]). Then [`goes_on`] says that what went out before, and what the taker got
//! since, is what one notifier sends for all events, as if its process had only been slow. A law with the clauses `anew` and `on` says
//! its sentence of new desks, and of desks that went on, over what came before and since.
//!
//! Begin with `specs/Laws`, then `specs/Whole`, `specs/Elsewhere` and `specs/GoesOn`.
ghost use Rattle.crew.specs.AtHome.{NewLaw, SendLaw, TickLaw, CloseLaw};
ghost use Rattle.crew.specs.One.{OnePortLaw};
ghost use Rattle.crew.specs.OneHome.{OneHomeLaw};
ghost use Rattle.crew.specs.OneSender.{OneSenderLaw};
ghost use Rattle.crew.specs.Elsewhere.{EveryPortLaw, NowhereElseLaw};
ghost use Rattle.crew.specs.GoesOn.{AloneGoesOnLaw, GoesOnLaw, LifeGoesOnLaw, OneHomeGoesOnLaw, RisingGoesOnLaw, WholeGoesOnLaw};
ghost use Rattle.crew.specs.Laws.{AllLaw, AloneLaw, LifeLaw};
ghost use Rattle.crew.specs.Whole.{RisingLaw, TookLaw, WholeLaw};

pub use schedules::world;

/// In a crew with one port, a worker that ended as Closed took what the port sent, handled all of it and the planned stop,
/// where there is one, and the taker got the outs of just that.
pub fn one_port()
    ensures { OnePortLaw }
{}

/// Of a port that was made by [`crate::Crew::start`], each event that was sent to a worker has its home there, ticks apart: so
/// it is of a new port, and each call of a port keeps it.
pub fn events_are_at_home()
    ensures new { NewLaw }
    ensures send { SendLaw }
    ensures tick { TickLaw }
    ensures close { CloseLaw }
{}

/// A worker that ended as Closed handled all events that it took, and the planned stop where there is one.
pub fn all()
    ensures { AllLaw }
{}

/// What went out of a worker's start before the crew went on, and what the taker got of it since, is what one notifier sends for all the
/// events, as if its process had only been slow: so the laws of `notifier::laws` hold over both lists.
pub fn goes_on()
    ensures { GoesOnLaw }
{}

/// The NOTIFYs of a subscription that the taker of a joined crew got are those of its life over the events that its worker
/// handled, one for one and in order.
pub fn life()
    ensures anew { LifeLaw }
    ensures on { LifeGoesOnLaw }
{}

/// What a taker got since it was made is of its own workers.
pub fn took()
    ensures { TookLaw }
{}

/// The NOTIFYs with a subscription's tag among all that the taker got since the crew's start, from whichever worker, are those
/// of its life: no other worker's NOTIFYs have that tag.
pub fn whole()
    ensures anew { WholeLaw }
    ensures on { WholeGoesOnLaw }
{}

/// Those NOTIFYs are numbered 1, 2, 3 and so on, and none follows a terminated one.
pub fn rising()
    ensures anew { RisingLaw }
    ensures on { RisingGoesOnLaw }
{}

/// What the taker got of a subscription is what it would be told of its own events alone, by one worker, as its first:
/// where its requests aren't taken for somebody else's (`life/specs/Apart`).
pub fn alone()
    ensures anew { AloneLaw }
    ensures on { AloneGoesOnLaw }
{}

/// No other worker took anything that concerns a subscription but ticks and the planned stop, where it was born at the home of its
/// request, and every port of the crew was handed to `Crew::join`: whatever the number of workers, it is told by one.
pub fn nowhere_else()
    ensures { NowhereElseLaw }
{}

/// The ports of a new crew, each closed and handed in, have all seats.
pub fn every_port()
    ensures { EveryPortLaw }
{}

/// The same of each subscription that was born of what a worker took, by the run of the crew alone: that the request it was born of
/// has its home there follows.
pub fn one_home()
    ensures anew { OneHomeLaw }
    ensures on { OneHomeGoesOnLaw }
{}

/// Where one port sent all of a subscription's own events, its worker took them in that port's order, whatever other ports there
/// are. The planned stop of a setup, which no port sends, comes behind them. ([`crate::Port::shut`] sends an event of its own.)
pub fn one_sender()
    ensures { OneSenderLaw }
{}
