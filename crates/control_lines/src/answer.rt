//! What a service answers to a control line.
ghost use Rattle.std.specs.Prelude.{◌≡◌, ◌↔◌, IsTrue};
ghost use Rattle.control_lines.specs.Lines as spec;
ghost use Rattle.control_lines.specs.Lines.{answer_text, IsYes};

/// What a service answers to a control line, but for what a question is told.
#[derive(Clone, Copy, Debug, PartialEq, Eq, Drop)]
pub enum ControlAnswer {
    /// The event is in its worker's inbox, or, of a CLOSE, the service closes.
    Done,
    /// The line is none that a service takes.
    BadLine,
    /// No worker has this mailbox.
    UnknownMailbox,
    /// The service takes no more.
    Closed,
    /// Out of memory while the line was read or while what it asks was written.
    NoMemory,
    /// The thread that knows what the line asks has not told it in time.
    Busy,
}

impl ControlAnswer {
    /// As it is sent.
    pub fn text(self) -> &'static str
        ensures { result.now ≡ answer_text self }
    {
        match self {
            ControlAnswer::Done => "ok",
            ControlAnswer::BadLine => "bad line",
            ControlAnswer::UnknownMailbox => "unknown mailbox",
            ControlAnswer::Closed => "closed",
            ControlAnswer::NoMemory => "out of memory",
            ControlAnswer::Busy => "busy",
        }
    }
}

/// Whether these bytes of an answer say that all went well: `ok`, alone or with further lines.
pub(crate) fn is_yes(octets: &[u8]) -> bool
    ensures { IsTrue result ↔ IsYes octets.now }
{
    matches!(octets, [b'o', b'k'] | [b'o', b'k', b'\n', ..])
}

/// Whether they begin as an `ok` with lines behind it.
fn has_lines(octets: &[u8]) -> bool
    ensures { result ≡ spec.has_lines octets.now }
{
    match octets {
        [a, b, c, ..] => *a == b'o' && (*b == b'k' && *c == b'\n'),
        _ => false,
    }
}

/// Whether they begin as a `no` with what refuses a RELOAD behind it.
fn has_reason(octets: &[u8]) -> bool
    ensures { result ≡ spec.has_reason octets.now }
{
    match octets {
        [a, b, c, ..] => *a == b'n' && (*b == b'o' && *c == b'\n'),
        _ => false,
    }
}

/// Whether these bytes are an answer of a service. They are no line then, and nobody answers them: so two services that hear each
/// other fall silent.
pub fn is_answer(octets: &[u8]) -> bool
    ensures { result ≡ spec.is_answer octets.now }
{
    has_lines(octets)
        || has_reason(octets)
        || octets == b"ok".as_slice()
        || octets == b"bad line".as_slice()
        || octets == b"unknown mailbox".as_slice()
        || octets == b"closed".as_slice()
        || octets == b"out of memory".as_slice()
        || octets == b"busy".as_slice()
}
