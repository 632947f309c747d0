//! Laws of whole runs, over the definitions alone.

ghost use Rattle.transactions.specs.Runs.{EachComesInTime, EachRepeatIsDue, NoneIsPassedOver, NextIsInTime};

/// Whatever calls were made, in whatever order and at whatever moments: a NOTIFY that is sent again was kept, with exactly this
/// address and these bytes, and since then came no final answer to it and no 481 to its tag. It comes 500, 1,500, 3,500, 7,500, .. milliseconds after its first
/// send at the earliest, at most ten times, and never 32,000 milliseconds after it or later (RFC 3261 section 17.1.2.2).
pub fn each_repeat()
    ensures { EachRepeatIsDue }
{}

/// An open NOTIFY comes again in time. Where no provisional answer came, timer E fires 500 milliseconds behind the first send, and
/// twice as long behind each further one, up to 4,000. Where one came, it fires 4,000 milliseconds behind the last send at the latest, and
/// timer F 32,000 behind the first (RFC 3261 section 17.1.2.2).
pub fn each_comes_in_time()
    ensures { EachComesInTime }
{}

/// No open transaction is forgotten: where its time has come, one is due whose time came no later, and the next moment comes no
/// later than that of any.
pub fn none_is_forgotten()
    ensures due { NoneIsPassedOver }
    ensures next { NextIsInTime }
{}
