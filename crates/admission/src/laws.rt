//! Laws of whole runs, and of each verdict, over the definitions alone.
ghost use Rattle.admission.specs.Owners.{OwnersAlone};
ghost use Rattle.admission.specs.Runs.{AtMostBurstAndRate, NoneBelowIsRefused, NoneElseIsBarred};

/// Whatever came before, in whatever order and at whatever moments: of datagrams that come in the order of time at most the burst and the rate
/// times the time that they take are let through of each source.
pub fn each_source_gets_at_most_its_rate()
    ensures { AtMostBurstAndRate }
{}

/// A source whose datagrams stay within the burst and the rate in each stretch of time has all of them let through, whatever others send,
/// while the table has room for it.
pub fn no_source_below_its_rate_is_refused()
    ensures { NoneBelowIsRefused }
{}

/// Whatever wrong passwords are shown elsewhere, of whatever users and at whatever moments: a source from which none came is barred with no
/// user.
pub fn nobody_is_barred_by_what_others_guess()
    ensures { NoneElseIsBarred }
{}

/// A request in a dialog of which it is known who made it is let through for that user alone, as far as users differ in their numbers:
/// it shows credentials that are accepted, and whose user has the owner's number.
pub fn a_dialog_is_its_owners_alone()
    ensures { OwnersAlone }
{}
