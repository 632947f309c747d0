//! Laws of runs, over the definitions alone.
ghost use Rattle.std.specs.Prelude.{◌≡◌, List, ◌∷◌, [], ◌++◌};
ghost use Rattle.notifier_model.specs.Book.{Book, step, verdict};
ghost use Rattle.notifier_model.specs.Cases.{first_case};
ghost use Rattle.notifier_model.specs.Limits.{Limits as LimitsSeen};
ghost use Rattle.notifier_model.specs.Run.{run, made};
ghost use Rattle.notifier_model.specs.Start.{Start};

use crate::event::Event;
use sip_read::Request;

/// One event more is one step more.
pub fn run_grows()
    ensures book { (start : Start) (es : List Event) (e : Event) → run start (es ++ e ∷ [])
        ≡ (step start.place (run start es) e).book }
    ensures outs { (start : Start) (es : List Event) (e : Event) → made start (es ++ e ∷ []) ≡ made start es
        ++ (step start.place (run start es) e).outs }
{}

/// What to do with a request is the first case of one list that applies (RFC 6665 section 4.2.1).
pub fn first_case_decides()
    ensures { (limits : LimitsSeen) (b : Book) (r : Request) → first_case limits b r ≡ verdict limits b r }
{}
