//! What a worker begins with, as contracts see it.
ghost use Rattle.std.specs.Prelude.{◌≡◌};
ghost use Rattle.std.specs.Borrow.{ftrue};
ghost use Rattle.std.specs.Coded.{codes};
ghost use Rattle.package.specs.Code.{coded_contents};
ghost use Rattle.notifier.specs.Standing.{Standing};

use notifier::Desk;
use package::Package;
use std::marker::Model;

/// How a desk stood, which only contracts see. It has no bytes, so it crosses threads and outlives the desk.
#[derive(Drop)]
pub struct StandingToken {
    pub ghost stands: { Standing } by { Prim.hlevel (codes, coded_contents) },
}

impl Model for StandingToken {
    ghost also_owns = { λ _. ftrue };
}

/// What shows how a desk stands.
pub trait HasStanding {
    ghost stands: { Self → Standing };
}

impl StandingToken {
    /// The token of how this desk stands.
    pub fn of<M: HasStanding>(desk: &M) -> StandingToken
        ensures { result.stands ≡ M.stands desk.now }
    {
        StandingToken {}
    }
}

impl<P: Package> HasStanding for Desk<P> {
    ghost use Rattle.crew.specs.Desks.{standing_of};

    ghost stands = { λ d. standing_of P.seen d };
}
