//! What was sent out of a subscription.
ghost use Rattle.feeds.specs.Laws.{EmittedGoesOnLaw, EmittedLaw};

/// Each out that was got of a crew's workers met a fate: it was sent, written or held back, or this failed. Of these outs, the NOTIFYs with a
/// subscription's tag are just those of its life, in order. What this law asks of fates the contracts of `notifyd udp` and of `serve`
/// promise. Of a crew that went on from saved books it holds behind what went out before.
pub fn emitted()
    ensures anew { EmittedLaw }
    ensures on { EmittedGoesOnLaw }
{}
