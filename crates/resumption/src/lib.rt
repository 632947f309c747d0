//! How the desks of a service go on from what its journal says: as they stood, with other mailboxes and limits, or not at all.
//!
//! [`read_files`] reads what the files of a journal say together, [`replay`] has the desks go on over all that their workers had handled, and [`renew`]
//! says what becomes of them where the service is another than it was. A reload of a service that runs is one, too (`specs/Reloaded`). Begin
//! with [`replay`].
#![tactic(auto)]

pub mod changed;
pub mod desks;
pub mod found;
pub mod laws;
pub mod terms;
pub mod told;

pub use changed::{Renewed, Wish, renew, saved, shut_all, told_of_all};
pub use desks::{Halt, Replayed, Worked, replay};
pub use found::{Found, Reading, read_files};
pub use sip_text::NoMemory;
pub use terms::Terms;
pub use told::{add_mails, held_names, told_with};
