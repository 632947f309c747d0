//! Lines of a table. In a text `\r`, `\n` and `\t` are what they are in Rust, `\d` is a delete (127), `\s` a space, and
//! before anything else a backslash leaves it as it is.
use sip_text::NoMemory;
use std::alloc::{AllocError, Global};
use std::io;

/// What stands before that which must come.
pub(crate) const BAR: &str = " | ";

/// A line of a scene: a word, what stands behind it, and what must come of it.
#[derive(Clone, Copy)]
pub(crate) struct Line<'a> {
    pub(crate) word: &'a str,
    pub(crate) text: &'a str,
    pub(crate) wanted: &'a str,
}

/// None where a line lacks a word, a text or what is wanted.
pub(crate) fn line_of(line: &str) -> Option<Line<'_>> {
    let (done, wanted) = line.split_once(BAR)?;
    let (word, text) = done.split_once(' ')?;
    Some(Line { word, text, wanted })
}

/// The number that a word is.
pub(crate) fn number_of(word: &str) -> Option<u32> {
    word.parse::<u32>().ok()
}

/// What a text means.
pub(crate) fn meant(alloc: Global, text: &str) -> Result<String, NoMemory> {
    let mut out = String::new(alloc);
    let mut is_behind_backslash = false;
    for letter in text.chars() {
        if letter == '\\' && !is_behind_backslash {
            is_behind_backslash = true;
            continue;
        }
        out.push(match letter {
            'r' if is_behind_backslash => '\r',
            'n' if is_behind_backslash => '\n',
            't' if is_behind_backslash => '\t',
            'd' if is_behind_backslash => '\u{7f}',
            's' if is_behind_backslash => ' ',
            _ => letter,
        })?;
        is_behind_backslash = false;
    }
    Ok(out)
}

/// Whether a test gives the word that is wanted.
pub(crate) fn is_answer(answer: bool, wanted: &str) -> bool {
    wanted == if answer { "yes" } else { "no" }
}

/// A refused growth as main tells it.
pub(crate) fn error_of(_refused: NoMemory) -> io::Error {
    io::Error::from(AllocError)
}

/// Says whether an example goes as it should.
pub(crate) fn tell(
    rt: &impl Print,
    example: &str,
    is_so: Result<bool, NoMemory>,
) -> io::Result<()> {
    match is_so {
        Ok(true) => println!(rt; "{example}: as it should"),
        Ok(false) => println!(rt; "{example}: NOT AS IT SHOULD"),
        Err(refused) => Err(error_of(refused)),
    }
}
