//! A third package, of presence (RFC 3856).
ghost use Rattle.std.specs.Prelude.{codes};

use message_summary::Mailboxes;
use package::{Change, ClosingCell, Outcome, Package};
use sip_text::NoMemory;
use std::alloc::Global;

/// What it tells of a resource is what mailboxes tell of one of which no class was set. It knows no change.
#[derive(Drop)]
pub(crate) struct Presence {
    mailboxes: Mailboxes,
}

impl Presence {
    /// It holds alice alone.
    pub(crate) fn new(alloc: Global) -> Result<Presence, NoMemory> {
        let mut names = Vec::new(alloc);
        names.push(String::from_str(alloc, "alice")?)?;
        let mailboxes = Mailboxes::new(alloc, names, ClosingCell::new(alloc)?)?;
        Ok(Presence { mailboxes })
    }
}

impl Package for Presence {
    ghost seen = { λ p. record { name = codes "presence"; content_type = codes "application/pidf+xml"; contents = (⟦<Mailboxes as Package>⟧.seen p.mailboxes).contents } };

    fn event(&self) -> &str {
        "presence"
    }

    fn content_type(&self) -> &str {
        "application/pidf+xml"
    }

    fn holds(&self, resource: &str) -> bool {
        self.mailboxes.holds(resource)
    }

    fn change(&mut self, _alloc: Global, _change: &Change) -> Result<Outcome, NoMemory> {
        Ok(Outcome::Unknown)
    }

    fn body(&self, alloc: Global, resource: &str) -> Result<Option<Vec<u8>>, NoMemory> {
        self.mailboxes.body(alloc, resource)
    }

    fn is_over(&self, resource: &str) -> bool {
        self.mailboxes.is_over(resource)
    }
}
