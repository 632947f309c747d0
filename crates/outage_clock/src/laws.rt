//! Laws of whole runs, over the definitions alone.

ghost use Rattle.outage_clock.specs.Runs.{NeverFalls, NeverFaster, LosesAtMost, EachOutageLosesAtMost, IsRealTime};

/// The moments of a clock never fall.
pub fn never_falls()
    ensures { NeverFalls }
{}

/// No clock runs faster than what it reads.
pub fn never_faster()
    ensures { NeverFaster }
{}

/// However often sends fail: while the process doesn't stand still, a clock loses at most its limit, and as much again as it gives.
pub fn loses_at_most()
    ensures { LosesAtMost }
{}

/// In one outage a clock loses at most its limit.
pub fn each_outage_loses_at_most()
    ensures { EachOutageLosesAtMost }
{}

/// Where no send fails, and the process doesn't stand still, it is the clock that it reads.
pub fn is_real_time()
    ensures { IsRealTime }
{}
