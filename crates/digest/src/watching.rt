//! Who may watch which mailbox.
ghost use Rattle.std.specs.Prelude.{◌≡◌, ◌↔◌, ◌&&◌, IsTrue, bytes_eq};
ghost use Rattle.std.specs.List.{list_any};
ghost use Rattle.digest.specs.Watching.{MayWatch};

use sip_text::Text;

/// Whether the user was allowed this mailbox.
fn is_allowed(user: &str, mailbox: &str, further: &[(Text, Text)]) -> bool
    ensures { result ≡ list_any (λ pair. bytes_eq pair.0 user.now && bytes_eq pair.1 mailbox.now) further.now }
{
    further.iter().any(|(allowed, watched)| allowed.is(user) && watched.is(mailbox))
}

/// Whether the user may watch the mailbox: it has the user's name, or `further` has the two together, the user first.
pub fn may_watch(user: &str, mailbox: &str, further: &[(Text, Text)]) -> bool
    ensures { IsTrue result ↔ MayWatch user.now mailbox.now further.now }
{
    user == mailbox || is_allowed(user, mailbox, further)
}
