//! What holds of desks that go on, over the definitions alone.

ghost use Rattle.resumption.specs.Reloaded.{StayLaw, NobodyNoticesLaw};
ghost use Rattle.resumption.specs.Told.{ForgottenLaw, GoneLaw};

/// A reload is a start from the journal of what ran till then, with other mailboxes: the subscriptions of those that stay stand as they stood,
/// and where all stay nothing is sent that was not sent before.
pub fn a_reload_is_a_start()
    ensures stay { StayLaw }
    ensures nobody_notices { NobodyNoticesLaw }
{}

/// What was told of transfers that no subscription watches makes nothing of the packages. So a desk that goes on forgets it, and a keeper may.
pub fn what_nobody_watches_is_forgotten()
    ensures watched { ForgottenLaw }
    ensures gone { GoneLaw }
{}
