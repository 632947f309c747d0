//! Which rows are asked for.
ghost use Rattle.std.specs.Prelude.{◌≡◌, ◌↔◌, IfOk, IsTrue};
ghost use Rattle.watchers.specs.Pages.{is_same};

use sip_text::{NoMemory, Text};
use std::alloc::Global;

/// Which rows are asked for.
#[derive(Debug, Drop)]
pub struct Inquiry {
    /// Those of this mailbox, or all.
    pub mailbox: Option<Text>,
    /// Those before this place, or all where it is 0.
    pub place: u64,
}

/// Whether both are the same mailbox, or none.
fn is_same(one: &Option<Text>, other: &Option<Text>) -> bool
    ensures { result ≡ is_same one.now other.now }
{
    match one {
        Some(one) => match other {
            Some(other) => one.is(other.as_str()),
            None => false,
        },
        None => other.is_none(),
    }
}

impl Inquiry {
    /// Another for the same rows.
    pub fn copy(&self, alloc: Global) -> Result<Inquiry, NoMemory>
        ensures { IfOk result (λ q. q ≡ self.now) }
    {
        let mailbox = match &self.mailbox {
            Some(mailbox) => Some(mailbox.copy(alloc)?),
            None => None,
        };
        Ok(Inquiry {
            mailbox,
            place: self.place,
        })
    }

    /// Whether it asks for the same rows as this one.
    #[tactic(auto, using(crate::proofs::Same::same_inquiry))]
    pub fn is(&self, other: &Inquiry) -> bool
        ensures { IsTrue result ↔ (self.now ≡ other.now) }
    {
        self.place == other.place && is_same(&self.mailbox, &other.mailbox)
    }
}
