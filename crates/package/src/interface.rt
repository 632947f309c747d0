//! What a notifier sees of an event package.
ghost use Rattle.std.specs.Prelude.{◌≡◌, IfOk, OnErr, option_map, is_some, IsOk, IsTrue};
ghost use Rattle.sip_text.specs.Tokens.{is_token};
ghost use Rattle.package.specs.Texts.{is_printable};
ghost use Rattle.package.specs.Content.{Seen, KeepsKind, held, is_finished};
ghost use Rattle.package.specs.Changes.{change_of, is_forget};
ghost use Rattle.package.specs.Bodies.{body_of};

use crate::change::{Change, Outcome};
use sip_text::NoMemory;
use std::alloc::Global;

/// An event package. It is seen as a name and a content type, which no call changes, and a finite map from the resources
/// that it holds to their contents.
pub trait Package: Send + Drop {
    /// Its name, its content type, and what it holds of each resource.
    ghost seen: { Self → Seen };

    /// Its name: the event type of RFC 6665 section 8.2.1, a token. A package named `message-summary` holds counts alone,
    /// one named `refer` statuses alone. It takes no memory.
    fn event(&self) -> &str
        ensures value { result.now ≡ (seen self.now).name }
        ensures token { IsTrue (is_token (seen self.now).name) }
        ensures kind { KeepsKind (seen self.now) };

    /// The Content-Type of its bodies, without control characters. It takes no memory.
    fn content_type(&self) -> &str
        ensures value { result.now ≡ (seen self.now).content_type }
        ensures printable { IsTrue (is_printable (seen self.now).content_type) };

    /// Whether it holds this resource. It takes no memory.
    fn holds(&self, resource: &str) -> bool
        ensures { result ≡ is_some (held (seen self.now).contents resource.now) };

    /// Takes in a change. Changed changes the content of the named resource alone; Same, Unknown and NoMemory leave all
    /// as it was. `Forget` never answers NoMemory.
    fn change(&mut self, alloc: Global, change: &Change) -> Result<Outcome, NoMemory>
        ensures ok { IfOk result (λ outcome. (outcome, seen self.new) ≡ change_of (seen self.old) change.now) }
        ensures err { OnErr result (seen self.new ≡ seen self.old) }
        ensures forget { IsTrue (is_forget change.now) → IsOk result };

    /// The body that tells all that is held of this resource, or None where it isn't held.
    fn body(&self, alloc: Global, resource: &str) -> Result<Option<Vec<u8>>, NoMemory>
        ensures { IfOk result (λ body. option_map (λ bytes. bytes.items) body
            ≡ option_map body_of (held (seen self.now).contents resource.now)) };

    /// Whether this resource has a final status, so that nothing more is to come of it. It takes no memory.
    fn is_over(&self, resource: &str) -> bool
        ensures { result ≡ is_finished (held (seen self.now).contents resource.now) };
}

/// A boxed package is the package in the box.
impl Package for Box<dyn Package> {
    ghost seen = { λ b. (Package-box b).seen b.value };

    fn event(&self) -> &str {
        (**self).event()
    }

    fn content_type(&self) -> &str {
        (**self).content_type()
    }

    fn holds(&self, resource: &str) -> bool {
        (**self).holds(resource)
    }

    fn change(&mut self, alloc: Global, change: &Change) -> Result<Outcome, NoMemory> {
        (**self).change(alloc, change)
    }

    fn body(&self, alloc: Global, resource: &str) -> Result<Option<Vec<u8>>, NoMemory> {
        (**self).body(alloc, resource)
    }

    fn is_over(&self, resource: &str) -> bool {
        (**self).is_over(resource)
    }
}
