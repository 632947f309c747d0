//! What the files say of each worker, whatever calls came.
ghost use Rattle.keeper.specs.Laws.{TheCurrentFileSaysWhatCame, WhatWaitsWasNotHandled, TheNextFileSaysWhatCameSince, BothFilesSayAllEvents, OneStepOfEachIsKept, FewStepsAreKept};

/// The current file says of each worker what it said before, and behind that each event that the worker handled since and each line that
/// was answered for it, once each, in its order.
pub fn the_current_file_says_what_came()
    ensures { TheCurrentFileSaysWhatCame }
{}

/// Of the lines for a worker those wait that were answered and not handled.
pub fn what_waits_was_not_handled()
    ensures { WhatWaitsWasNotHandled }
{}

/// The next file says of each worker the book that it handed over, and behind that each event that it handled since.
pub fn the_next_file_says_what_came_since()
    ensures { TheNextFileSaysWhatCameSince }
{}

/// An older file and the one that was begun behind it are read as one: of each worker all events that it handled, once each, in its order.
pub fn both_files_say_all_events()
    ensures { BothFilesSayAllEvents }
{}

/// Of each transfer one step is kept at most. Once those are forgotten that nobody watches, no more are kept than of transfers that live, and one for
/// each event that came since.
pub fn few_steps_are_kept()
    ensures once { OneStepOfEachIsKept }
    ensures few { FewStepsAreKept }
{}
