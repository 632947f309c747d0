//! Laws of the four headers, each the contract of a function that does nothing.
ghost use Rattle.event_headers.specs.Headers.{IsEvent, EventFits, IsState, StateFits, IsExpires, Fits, IsAccept, RangesFit, IsExact};
ghost use Rattle.event_headers.specs.Laws.{EventIsReadAgain, StateIsReadAgain, ExpiresIsReadAgain, AcceptIsReadAgain};

/// Each text says exactly one Event value, or Grammar.
pub fn event_says_one()
    ensures { IsExact IsEvent EventFits }
{}

/// Each text says exactly one Subscription-State value, or Grammar, or TooLarge.
pub fn state_says_one()
    ensures { IsExact IsState StateFits }
{}

/// Each text says exactly one Expires value, or Grammar, or TooLarge.
pub fn expires_says_one()
    ensures { IsExact IsExpires Fits }
{}

/// Each text says exactly one list of ranges, or Grammar.
pub fn accept_says_one()
    ensures { IsExact IsAccept RangesFit }
{}

/// An Event value that is written is read as the same value.
pub fn event_is_read_again()
    ensures { EventIsReadAgain }
{}

/// A Subscription-State value that is written is read as the same value.
pub fn state_is_read_again()
    ensures { StateIsReadAgain }
{}

/// Seconds that are written are read as the same number.
pub fn expires_is_read_again()
    ensures { ExpiresIsReadAgain }
{}

/// Ranges that are written are read as the same ranges.
pub fn accept_is_read_again()
    ensures { AcceptIsReadAgain }
{}
