//! What is known of all dialogs, as it is stored.
ghost use Rattle.std.specs.Prelude.{◌≤◌};
ghost use Rattle.std.specs.HashMap.{hash_map_len};

use crate::contact::Contact;
use std::alloc::Global;
use std::collections::HashMap;

/// What is known of the dialogs whose NOTIFYs are offered.
#[derive(Drop)]
pub struct Contacts {
    pub(crate) alloc: Global,
    /// Of how many dialogs something is known at most.
    pub(crate) limit: u32,
    /// How many NOTIFYs wait at most.
    pub(crate) places: u32,
    /// How many wait.
    pub(crate) waiting: u32,
    pub(crate) known: HashMap<String, Contact>,
    ghost bounded: { hash_map_len known ≤ limit },
    ghost few: { waiting ≤ places },
}
