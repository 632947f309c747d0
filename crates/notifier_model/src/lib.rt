//! What a notifier does, as definitions, without a desk that does it (RFC 6665).
//!
//! The types of what comes to a desk and what it sends, its limits, its place, and what it keeps of each subscription; and
//! the definitions of what each [`Event`] does: `step` of `specs/Book` reads as a table of cases, `specs/Run` joins steps to
//! whole runs, and [`laws`] says how runs grow. [`homes`] says which of several workers an event goes to. Whole worked runs
//! are computed in `proofs/WorkedRuns`. What it isn't: no function here handles an event.
//!
//! Begin with `specs/Book`, then `specs/Rows` (what an event makes of each subscription) and `specs/Requests` (the tests on
//! one request, in the order in which they are looked for).
#![tactic(auto)]

pub mod birth;
pub mod event;
pub mod homes;
pub mod laws;
pub mod limits;
pub mod place;
pub mod refusal;
pub mod row;
pub mod saved;
pub mod uri;

pub use birth::{Birth, Newborn};
pub use event::{Event, Note, NotifyOut, Out};
pub use limits::Limits;
pub use place::{Place, Setup};
pub use refusal::Refusal;
pub use saved::Saved;
pub use uri::user_part;
