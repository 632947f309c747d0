//! Laws of restarts, over the definitions alone.

ghost use Rattle.restarts.specs.Laws.{StandsLaw, SendsLaw, AgainLaw, UnansweredLaw, PartLaw, AheadLaw, NumbersLaw, SerialsLaw, NoteLaw};

/// Where a desk goes on from what a notifier left after some events, over the events since, it stands where one desk stands after
/// all of them; and for any further events it sends what that one sends.
pub fn a_restart_goes_on()
    ensures stands { StandsLaw }
    ensures sends { SendsLaw }
{}

/// What is sent again was sent before, and no answer stands behind it: its subscription lives, and there it is unanswered.
pub fn what_is_sent_again()
    ensures again { AgainLaw }
    ensures unanswered { UnansweredLaw }
{}

/// A book from which rows were taken out may go on if the whole book may.
pub fn a_part_goes_on()
    ensures { PartLaw }
{}

/// A book whose numbers were let rise may go on if it may as it was. No row of it gives a number again that it had given, and no
/// serial, so no tag, is given again.
pub fn a_leap_goes_on()
    ensures may { AheadLaw }
    ensures numbers { NumbersLaw }
    ensures serials { SerialsLaw }
{}

/// What is known of a row of a desk, at the moment of its book, is what is noted with a NOTIFY at that moment.
pub fn what_is_known_of_a_row()
    ensures { NoteLaw }
{}
