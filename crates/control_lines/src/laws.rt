//! Laws over the definitions alone.

ghost use Rattle.control_lines.specs.Dumped.{EachIsToldOnce, StayDistinct};

/// Who asks for all pages of the counts, each behind the mailbox that the page before names last, is told each mailbox's lines once.
/// The law asks that no two mailboxes have one name, and so it is whatever is added and told.
pub fn each_is_told_once()
    ensures once { EachIsToldOnce }
    ensures distinct { StayDistinct }
{}
