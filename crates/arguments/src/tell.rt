//! The arguments of `notifyd tell`.
ghost use Rattle.std.specs.Prelude.{◌≡◌, IfOk, IfErr, string_bytes};
ghost use Rattle.arguments.specs.declared.tell.TellCall.{TellCall};
ghost use Rattle.arguments.specs.declared.tell.TellError.TheVariants.{NoMemory};
ghost use Rattle.arguments.specs.Tell.{joined, IsTellCall, AnswersTell};
ghost use Rattle.arguments.specs.TellReading.{line_call, read_tell, GivesTell};

use crate::setting::is_dashed;
use sip_text::{Addr, NoMemory as NoRoom, Text};
use std::alloc::{AllocError, Global};
use thiserror::Error;

/// What `notifyd tell` is to say.
#[derive(Debug, Drop)]
pub struct TellCall {
    /// Where the server's control lines come in, unless at its default.
    pub control: Option<Addr>,
    pub line: Text,
}

/// Why the words behind `notifyd tell` could not be read.
#[derive(Clone, Copy, Debug, PartialEq, Eq, Error)]
pub enum TellError {
    /// They are no call of it.
    #[error("usage: notifyd tell [--control <a.b.c.d:port>] <line>; notifyd tell [--control <a.b.c.d:port>] - [--progress] [--progress-bar]; notifyd tell --json [--control <a.b.c.d:port>] STATUS")]
    Bad,
    /// An allocation failed: out of memory.
    #[error("out of memory")]
    NoMemory,
}

impl From<NoRoom> for TellError {
    ghost from_gives = { λ _ e. e ≡ NoMemory };

    fn from(_refused: NoRoom) -> TellError {
        TellError::NoMemory
    }
}

impl From<AllocError> for TellError {
    ghost from_gives = { λ _ e. e ≡ NoMemory };

    fn from(_refused: AllocError) -> TellError {
        TellError::NoMemory
    }
}

/// The words with a space between each.
fn joined(alloc: Global, first: &Text, rest: &[Text]) -> Result<String, TellError>
    ensures line { IfOk result (λ line. string_bytes line ≡ joined first.now rest.now) }
    ensures no_memory { IfErr result (λ e. e ≡ TellError.NoMemory) }
{
    let mut line = String::from_str(alloc, first.as_str())?;
    for word in rest {
        line.push_str(" ")?;
        line.push_str(word.as_str())?;
    }
    Ok(line)
}

/// A line for the server at this address.
#[tactic(auto, unfolding(crate::specs::TellReading::line_call))]
fn line_call(alloc: Global, control: Option<Addr>, words: &[Text]) -> Result<TellCall, TellError>
    ensures { GivesTell result (line_call control words.now) }
{
    let [first, rest @ ..] = words else {
        return Err(TellError::Bad);
    };
    if is_dashed(first.as_str()) {
        return Err(TellError::Bad);
    }
    let line = Text::new(joined(alloc, first, rest)?);
    Ok(TellCall { control, line })
}

#[tactic(auto, unfolding(crate::specs::TellReading::read_tell))]
fn read_tell(alloc: Global, words: &[Text]) -> Result<TellCall, TellError>
    ensures { GivesTell result (read_tell words.now) }
{
    match words {
        [flag, value, line @ ..] if flag.is("--control") => {
            match Addr::of(value.as_str().as_bytes()) {
                Some(addr) => line_call(alloc, Some(addr), line),
                None => Err(TellError::Bad),
            }
        }
        _ => line_call(alloc, None, words),
    }
}

/// What the words behind `tell` ask for.
pub fn parse_tell(alloc: Global, words: &[Text]) -> Result<TellCall, TellError>
    // What is answered is what the words mean.
    ensures found { IfOk result (IsTellCall words.now) }
    // What the words mean is answered, unless memory runs out.
    ensures only { (call : TellCall) → IsTellCall words.now call → AnswersTell result call }
{
    read_tell(alloc, words)
}
