//! Control lines of a running service.
ghost use Rattle.std.specs.Prelude.{◌≡◌, false, None};
ghost use Rattle.control_lines.specs.Lines as spec;
ghost use Rattle.control_lines.specs.Lines.{Asks, is_answer, is_reload};
ghost use Rattle.control_lines.specs.Questions.{question_in};

use crate::answer::is_answer;
use crate::question::{Question, parse_question};
use package::Change;
use scripts::{Control, ScriptError, bare_line, one_reading, parse_control};
use std::alloc::Global;

/// What a control line asks of a running service.
#[derive(Debug, Drop)]
pub enum Asked {
    /// To take in what a mailbox holds now, or how far a transfer has come.
    Change(Change),
    /// To end.
    Close,
    /// To read its files again, and to go on with what they say.
    Reload,
    /// To be told something.
    Question(Question),
    /// Nothing, and no answer: it is an answer itself.
    Nothing,
    /// Nothing that it does: the line is none, or a TICK, where a service has its own clock.
    Bad,
    /// Out of memory while it was read.
    NoMemory,
}

/// Whether the bytes ask to read the files again, with a LF at the end or without.
#[tactic(auto, unfolding(crate::specs::Lines::is_reload))]
fn is_reload(octets: &[u8]) -> bool
    ensures { result ≡ spec.is_reload octets.now }
{
    match bare_line(octets) {
        Some(line) => line == b"RELOAD".as_slice(),
        None => false,
    }
}

/// The line of a script that the bytes are, where they are no answer, no RELOAD, and ask no question.
#[tactic(auto, using(crate::proofs::Lines::tick_no_line, crate::proofs::Lines::none_no_line, crate::proofs::Lines::no_memory_no_close))]
fn hear_control(alloc: Global, octets: &[u8]) -> Asked
    requires no_answer { is_answer octets.now ≡ false }
    requires no_reload { is_reload octets.now ≡ false }
    requires no_question { question_in octets.now ≡ None }
    ensures { Asks octets.now result }
{
    one_reading();
    match parse_control(alloc, octets) {
        Ok(Control::Change(change)) => Asked::Change(change),
        Ok(Control::Close) => Asked::Close,
        Ok(Control::Tick(_)) => Asked::Bad,
        Err(ScriptError::NoMemory) => Asked::NoMemory,
        Err(ScriptError::BadScript | ScriptError::Device) => Asked::Bad,
    }
}

/// What the bytes of a datagram ask for. Without memory, too, an answer asks for nothing, a RELOAD is one, a CLOSE closes, and a
/// question of one word is one.
pub fn hear_line(alloc: Global, octets: &[u8]) -> Asked
    ensures { Asks octets.now result }
{
    if is_answer(octets) {
        return Asked::Nothing;
    }
    if is_reload(octets) {
        return Asked::Reload;
    }
    match parse_question(alloc, octets) {
        Ok(Some(question)) => Asked::Question(question),
        Ok(None) => hear_control(alloc, octets),
        Err(_) => Asked::NoMemory,
    }
}
