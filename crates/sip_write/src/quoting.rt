//! Quoted strings in a text that is read from its front.
ghost use Rattle.std.specs.Prelude.{◌≡◌};
ghost use Rattle.sip_write.specs.Via.{quoting_after};

/// Where a place in a text stands (RFC 3261 section 25.1, quoted-string).
#[derive(Clone, Copy, Debug, PartialEq, Eq)]
pub enum Quoting {
    /// Outside quoted strings.
    Outside,
    /// In a quoted string.
    Inside,
    /// In a quoted string, behind a backslash, which takes the next character along.
    Escaped,
}

impl Quoting {
    /// Where the place behind this character stands.
    pub fn after(self, character: u8) -> Quoting
        ensures { result ≡ quoting_after self character }
    {
        match (self, character) {
            (Quoting::Outside, b'"') => Quoting::Inside,
            (Quoting::Outside, _) => Quoting::Outside,
            (Quoting::Inside, b'"') => Quoting::Outside,
            (Quoting::Inside, b'\\') => Quoting::Escaped,
            (Quoting::Inside, _) | (Quoting::Escaped, _) => Quoting::Inside,
        }
    }
}
