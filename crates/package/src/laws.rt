//! Laws over the definitions alone: changes one by one leave what is told by the whole list.
ghost use Rattle.package.specs.Run.{ContentLaw, KindLaw};

/// After a list of changes a mailbox has of each class the counts of the last change to it, and a transfer has the first
/// final status since it is held (the first Begin after the last Forget), or without one the last.
pub fn the_last_counts()
    ensures { ContentLaw }
{}

/// No change alters a package's name or content type, or the kind of its contents.
pub fn kinds_stay()
    ensures { KindLaw }
{}
