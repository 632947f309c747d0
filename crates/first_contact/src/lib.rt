//! First contact: to an address that has not answered a NOTIFY of a dialog yet, one NOTIFY of it is under way at most.
//!
//! ```text
//!   offer (let through)
//!     |
//!     v
//!   +---------+  answer: final, from there       +-------+
//!   | waiting |--------------------------------->| known |
//!   +---------+  (all that wait are let through) +-------+
//!     | ^  |                                       | ^
//!     | |  |                                       | +-- offer: let through
//!     | +--+ offer: it waits behind the others,    |
//!     | |  |   or is dropped where there is no room|
//!     | +--+ answer: final, from elsewhere (the    |
//!     |        first that waits is let through)    |
//!     +--- given up; 481 to the tag; closed -------+---> gone (all that wait are dropped)
//!
//!   answer: final, from elsewhere, where none waits: gone, so the next one that is offered is let through as the first again
//!   offer to another address, in any state: let through, all that wait are dropped, waiting
//! ```
//!
//! An answer comes from there where its IP address is the one to which the NOTIFY went. Whoever began a dialog can answer its NOTIFYs: so an
//! answer from elsewhere says nothing of the address to which the dialog moved. Who so answers for another address draws one NOTIFY there for
//! each answer; only one who forges the answer's source, too, opens the address. A phone that answers by another address than its own gets
//! all that waits, one after the other.
//!
//! All that is offered behind a first NOTIFY waits, in order: of one dialog [`MOST`] at most, and of all dialogs as many as
//! [`Contacts::new`] says. Once half as many wait, one waits only where none of its dialog does: so who has few dialogs leaves half of the places
//! to others. Whoever makes NOTIFYs needn't know of that, as long as it takes a NOTIFY that nobody answered within 32 seconds as one
//! that was lost: what waits is sent before the one under way is given up, or dropped then, or when the dialog is closed.
//!
//! It sends nothing, reads no clock and starts no thread. A call's time does not grow with what is known of other dialogs. Memory is taken for
//! a dialog that begins, and for NOTIFYs that wait.
//!
//! Begin with [`Contacts`], then `specs/Steps`: what each call makes of what is known of one dialog, lets through and drops, and
//! `specs/Runs`: what that says of whole runs.
#![tactic(auto)]

mod contact;
mod contacts;
pub mod laws;
mod table;

pub use contact::{MOST, Notice, Offered, Passed, Room};
pub use table::Contacts;
