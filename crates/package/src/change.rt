//! Changes of what a package holds.
ghost use Rattle.std.specs.Prelude.{◌≡◌};
ghost use Rattle.package.specs.Changes.{event_of_change};

use crate::mail_change::MailChange;
use crate::progress::Progress;
use sip_text::Text;

/// What may change in a package.
#[derive(Debug, Drop)]
pub enum Change {
    /// A mailbox has new counts.
    Mail(MailChange),
    /// A transfer with this tag begins.
    Begin(Text),
    /// A transfer goes on.
    Step(Progress),
    /// Nobody asks for the transfer with this tag any more.
    Forget(Text),
}

impl Change {
    /// The name of the package that it is for: `message-summary` for `Mail`, `refer` for the rest.
    pub fn event(&self) -> &'static str
        ensures { result.now ≡ event_of_change self.now }
    {
        match self {
            Change::Mail(_) => "message-summary",
            Change::Begin(_) | Change::Step(_) | Change::Forget(_) => "refer",
        }
    }
}

/// What a package answers to a change.
#[derive(Clone, Copy, Debug, PartialEq, Eq, Drop)]
pub enum Outcome {
    /// The resource's content is another one now.
    Changed,
    /// The content was so already, a final status stands, or the transfer that is to begin is held. Nothing changed.
    Same,
    /// The package doesn't hold the resource, or the change is for another package. Nothing changed.
    Unknown,
}
