//! What a service with a journal keeps of its workers: what each was told so far, and the bytes of records that wait to be written.
//!
//! It writes no file. Workers hand it each event that they handled, and the thread that takes control lines each line that it is about to
//! answer `ok`: each gives a record behind the bytes of the current file. Now and then a next file is begun: it gets the book of each worker,
//! and behind that the worker's events, too; once each book stands there it is the current file. Begin with [`Keeper`], `specs/Told` and
//! `specs/Keeping`. [`laws`] says what the files say of each worker, whatever calls came.
#![tactic(auto)]

mod comparison;
mod error;
mod keeper;
mod kept;
pub mod laws;
mod made_book;
mod mailboxes;
mod steps;
mod waiting;

pub use error::Unkept;
pub use keeper::Keeper;
pub use made_book::MadeBook;
pub use sip_text::NoMemory;
