//! The program's arguments.
ghost use Rattle.std.specs.Prelude.{◌≡◌, IfOk, IfErr, Some};
ghost use Rattle.arguments.specs.declared.arguments.Arguments.{Arguments};
ghost use Rattle.arguments.specs.declared.arguments.ArgumentsError.TheVariants.{NoMemory};
ghost use Rattle.arguments.specs.Arguments.{default_arguments, AreArguments, AnswersArguments};
ghost use Rattle.arguments.specs.ArgumentsReading.{crew_at, stop_at, script_at, read_arguments, GivesArguments};

use crate::value::{between, seed_bytes};
use sip_text::{NoMemory as NoRoom, Text, Values};
use std::alloc::{AllocError, AllocFailed, Global};
use thiserror::Error;

/// How many workers there are at most.
pub(crate) const MOST_WORKERS: u32 = 256;

/// What the program was asked to do.
#[derive(Debug, Drop)]
pub struct Arguments {
    /// From which the words of local tags are drawn.
    pub seed: [u8; 32],
    /// Whether the script ends with a planned stop.
    pub stop: bool,
    /// 1 to 256.
    pub workers: u32,
    /// One or more.
    pub mailboxes: Values<Text>,
}

/// Why arguments could not be read.
#[derive(Clone, Copy, Debug, PartialEq, Eq, Error)]
pub enum ArgumentsError {
    /// They are none of the program's: a wrong word, a number out of its range, no mailbox.
    #[error("bad arguments")]
    Bad,
    /// An allocation failed: out of memory.
    #[error("out of memory")]
    NoMemory,
}

impl From<NoRoom> for ArgumentsError {
    ghost from_gives = { λ _ e. e ≡ NoMemory };

    fn from(_refused: NoRoom) -> ArgumentsError {
        ArgumentsError::NoMemory
    }
}

impl From<AllocError> for ArgumentsError {
    ghost from_gives = { λ _ e. e ≡ NoMemory };

    fn from(_refused: AllocError) -> ArgumentsError {
        ArgumentsError::NoMemory
    }
}

impl<T: Drop> From<AllocFailed<T>> for ArgumentsError {
    ghost from_gives = { λ _ e. e ≡ NoMemory };

    fn from(_refused: AllocFailed<T>) -> ArgumentsError {
        ArgumentsError::NoMemory
    }
}

/// Copies of these texts.
pub(crate) fn copy_texts(alloc: Global, texts: &[Text]) -> Result<Vec<Text>, ArgumentsError>
    ensures copied { IfOk result (λ copies. copies.items ≡ texts.now) }
    ensures no_memory { IfErr result (λ e. e ≡ ArgumentsError.NoMemory) }
{
    let mut copies = Vec::new(alloc);
    for text in texts {
        copies.push(text.copy(alloc)?)?;
    }
    Ok(copies)
}

/// The workers and the mailboxes.
#[tactic(auto, unfolding(crate::specs::ArgumentsReading::crew_at))]
fn read_crew(
    alloc: Global,
    seed: [u8; 32],
    stop: bool,
    words: &[Text],
) -> Result<Arguments, ArgumentsError>
    ensures { GivesArguments result (crew_at seed stop words.now) }
{
    let [word, mailboxes @ ..] = words else {
        return Err(ArgumentsError::Bad);
    };
    let Some(workers) = between(1, MOST_WORKERS, word.as_str().as_bytes()) else {
        return Err(ArgumentsError::Bad);
    };
    if mailboxes.is_empty() {
        return Err(ArgumentsError::Bad);
    }
    let mailboxes = copy_texts(alloc, mailboxes)?;
    Ok(Arguments {
        seed,
        stop,
        workers,
        mailboxes: Values::new(mailboxes),
    })
}

/// What stands behind the seed.
#[tactic(auto, unfolding(crate::specs::ArgumentsReading::stop_at))]
fn read_stop(alloc: Global, seed: [u8; 32], words: &[Text]) -> Result<Arguments, ArgumentsError>
    ensures { GivesArguments result (stop_at seed words.now) }
{
    match words {
        [flag, words @ ..] if flag.is("--stop") => read_crew(alloc, seed, true, words),
        _ => read_crew(alloc, seed, false, words),
    }
}

/// What stands behind the first word.
#[tactic(auto, unfolding(crate::specs::ArgumentsReading::script_at))]
fn read_script_call(alloc: Global, words: &[Text]) -> Result<Arguments, ArgumentsError>
    ensures { GivesArguments result (script_at words.now) }
{
    match words {
        [flag, digits, words @ ..] if flag.is("--seed") => match seed_bytes(digits.as_str()) {
            Some(seed) => read_stop(alloc, seed, words),
            None => Err(ArgumentsError::Bad),
        },
        _ => read_stop(alloc, [0; 32], words),
    }
}

/// What no arguments mean.
fn default_arguments(alloc: Global) -> Result<Arguments, ArgumentsError>
    ensures { GivesArguments result (Some default_arguments) }
{
    let mut mailboxes = Vec::new(alloc);
    mailboxes.push(Text::of(alloc, "alice")?)?;
    Ok(Arguments {
        seed: [0; 32],
        stop: false,
        workers: 1,
        mailboxes: Values::new(mailboxes),
    })
}

#[tactic(auto, unfolding(crate::specs::ArgumentsReading::read_arguments))]
fn read_arguments(alloc: Global, words: &[Text]) -> Result<Arguments, ArgumentsError>
    ensures { GivesArguments result (read_arguments words.now) }
{
    match words {
        [] => default_arguments(alloc),
        [program, words @ ..] if program.is("script") => read_script_call(alloc, words),
        _ => Err(ArgumentsError::Bad),
    }
}

/// What the words behind the program's name ask for.
pub fn parse_arguments(alloc: Global, words: &[Text]) -> Result<Arguments, ArgumentsError>
    // What is answered is what the words mean.
    ensures found { IfOk result (AreArguments words.now) }
    // What the words mean is answered, unless memory runs out.
    ensures only { (a : Arguments) → AreArguments words.now a → AnswersArguments result a }
{
    read_arguments(alloc, words)
}
