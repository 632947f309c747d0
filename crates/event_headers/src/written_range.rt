//! A range of Accept that borrows from the text.
ghost use Rattle.sip_text.specs.Grammar.{IsToken};

/// A range as it stands in the text: two tokens.
#[derive(Clone, Copy)]
pub struct WrittenRange<'a> {
    pub main: &'a str,
    pub sub: &'a str,
    ghost are_tokens: { IsToken main.now × IsToken sub.now },
}
