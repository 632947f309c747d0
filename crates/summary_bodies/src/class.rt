//! The classes of messages, as lines name them.
ghost use Rattle.std.specs.Prelude.{◌≡◌};
ghost use Rattle.summary_bodies.specs.Summaries as spec;

use package::Class;

/// What the name of a line stands for (RFC 3458 section 2). Its case is ignored.
#[derive(Clone, Copy)]
pub(crate) enum Context {
    /// Messages of this class.
    Kept(Class),
    /// Messages of no class, which no mailbox of this server counts.
    Unclassed,
}

/// What this name of a line stands for, if it is one.
pub(crate) fn context_named(name: &[u8]) -> Option<Context>
    ensures { result ≡ spec.context_of name.now }
{
    if name.eq_ignore_ascii_case(b"voice-message") {
        Some(Context::Kept(Class::Voice))
    } else if name.eq_ignore_ascii_case(b"fax-message") {
        Some(Context::Kept(Class::Fax))
    } else if name.eq_ignore_ascii_case(b"pager-message") {
        Some(Context::Kept(Class::Pager))
    } else if name.eq_ignore_ascii_case(b"multimedia-message") {
        Some(Context::Kept(Class::Multimedia))
    } else if name.eq_ignore_ascii_case(b"text-message") {
        Some(Context::Kept(Class::Text))
    } else if name.eq_ignore_ascii_case(b"none") {
        Some(Context::Unclassed)
    } else {
        None
    }
}
