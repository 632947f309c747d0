//! Laws of the forms, each the contract of a function that does nothing.
ghost use Rattle.snapshots.specs.Forms.{IsForm, TornIsNone};
ghost use Rattle.snapshots.specs.Books.{saved_text, saved_at, IsSaved, book_text};
ghost use Rattle.snapshots.specs.Messages.{head_text, head_at, IsHead};
ghost use Rattle.snapshots.specs.Rows.{row_text, row_at, IsRow};
ghost use Rattle.snapshots.specs.Events.{event_text, event_at, IsEvent};

/// What is written of a row is read again, whatever follows it, and what is read is what was written.
pub fn rows_are_read_again()
    ensures { IsForm row_text IsRow row_at }
{}

/// What is written of a book is read again, whatever follows it, and what is read is what was written.
pub fn books_are_read_again()
    ensures { IsForm saved_text IsSaved saved_at }
{}

/// The same of what requests and responses both have.
pub fn heads_are_read_again()
    ensures { IsForm head_text IsHead head_at }
{}

/// The same of events.
pub fn events_are_read_again()
    ensures { IsForm event_text IsEvent event_at }
{}

/// A book that was cut short is none.
pub fn a_torn_book_is_none()
    ensures { TornIsNone book_text IsSaved }
{}

/// An event that was cut short is none.
pub fn a_torn_event_is_none()
    ensures { TornIsNone event_text IsEvent }
{}
