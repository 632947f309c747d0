//! What is shown of any octets, over the definitions alone.
ghost use Rattle.shown_text.specs.Laws.{IsPrintable, IsOneWord, IsShort};

/// Whatever a text is, what is shown of it is printable ASCII: it has no control character, C1 included, no end of a line and no mark that
/// turns a text around.
pub fn only_printable_octets_are_shown()
    ensures { IsPrintable }
{}

/// What is shown as one word has no blank and no quote.
pub fn a_word_is_one_word()
    ensures { IsOneWord }
{}

/// A text of `n` octets at most is shown as four times as many, and three dots.
pub fn what_is_shown_is_short()
    ensures { IsShort }
{}
