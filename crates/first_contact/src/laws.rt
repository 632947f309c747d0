//! Laws of whole runs, over the definitions alone.

ghost use Rattle.first_contact.specs.Runs.{EachInOrder, NoneAfterItsEnd, OneAtMost, NoneVanishes, KnownIsAnswered};
ghost use Rattle.first_contact.specs.Sends.{EachDialogInOrder};

/// Whatever calls were made, in whatever order: what is let through of a dialog was offered, comes in the order in which it was
/// offered, and each once. After the end of a dialog none comes that was offered before it.
pub fn each_in_order()
    ensures order { EachInOrder }
    ensures of_all { EachDialogInOrder }
    ensures ended { NoneAfterItsEnd }
{}

/// As long as no answer of an address is known, one NOTIFY of a dialog is let through to it at most, where its dialog could begin.
pub fn one_at_most()
    ensures { OneAtMost }
{}

/// Each NOTIFY that was offered is let through, or dropped, or waits.
pub fn none_vanishes()
    ensures { NoneVanishes }
{}

/// An address counts as known only where a NOTIFY of the dialog was let through to it, and a final answer to that one came that does
/// not say that the dialog is gone.
pub fn known_is_answered()
    ensures { KnownIsAnswered }
{}
