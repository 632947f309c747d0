//! Tests on texts that name something or stand in a line.
ghost use Rattle.std.specs.Prelude.{◌≡◌};
ghost use Rattle.package.specs.Texts as spec;

/// Whether it is one or more bytes, none of them a space or a control character.
pub fn is_word(text: &str) -> bool
    ensures { result ≡ spec.is_word text.now }
{
    !text.is_empty() && is_unbroken(text)
}

fn is_unbroken(text: &str) -> bool
    ensures { result ≡ spec.is_unbroken text.now }
{
    text.bytes().all(|byte| byte > 32 && byte != 127)
}

/// Whether it has no control character: no byte 0 to 31 or 127.
pub fn is_printable(text: &str) -> bool
    ensures { result ≡ spec.is_printable text.now }
{
    text.bytes().all(|byte| byte >= 32 && byte != 127)
}
