//! Laws of runs, over the definitions alone: how they grow, and what the watcher of each subscription is told.

ghost use Rattle.std.specs.Prelude.{◌≡◌, List, ◌++◌, Result};
ghost use Rattle.notifier_model.specs.Book.{Book};
ghost use Rattle.notifier_model.specs.Run.{run, made, run_from, made_from};
ghost use Rattle.notifier_model.specs.Start.{Start};
ghost use Rattle.snapshots.specs.Books.{book_text, IsSaved, Reads};
ghost use Rattle.notifier.specs.Written.{saved_of, IsReadAs};

use notifier_model::event::Event;
use notifier_model::saved::Saved;
use snapshots::book::BookError;

/// A run over two lists of events is one over the first, and then one over the second from the book that the first left: so a desk
/// that goes on from a saved book does what the desk would have done that was saved.
pub fn a_run_goes_on()
    ensures book { (start : Start) (es fs : List Event) → run start (es ++ fs) ≡ run_from start.place (run start es) fs }
    ensures outs { (start : Start) (es fs : List Event) → made start (es ++ fs)
        ≡ made start es ++ made_from start.place (run start es) fs }
{}

/// What a desk saves is read again as its book, or memory is wanting. That `IsSaved` holds of it, `Desk::save` promises.
pub fn what_a_desk_saves_is_read_again()
    ensures { (book : Book) (read : Result Saved BookError) → IsSaved (saved_of book)
        → Reads read (book_text (saved_of book)) → IsReadAs (saved_of book) read }
{}

pub use life::{
    born, contents, counts, ends_once, fresh, gone, in_time, life, moments, moved, no_other,
    numbered, rising, silent, status, terminated, told, touched, transfer, unanswered, unwatched,
};
pub use notifier_model::laws::run_grows;
