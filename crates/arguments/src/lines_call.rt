//! The arguments of `notifyd tell -`.
ghost use Rattle.std.specs.Prelude.{◌≡◌, MatchOption};
ghost use Rattle.sip_text.specs.Bytes.{Finds};
ghost use Rattle.arguments.specs.declared.lines_call.LinesCall.{LinesCall};
ghost use Rattle.arguments.specs.LinesCall.{IsLinesCall};
ghost use Rattle.arguments.specs.LinesReading as spec;

use sip_text::{Addr, Text};

/// What `notifyd tell -` is to do with the lines of standard input.
#[derive(Clone, Copy, Debug, PartialEq, Eq)]
pub struct LinesCall {
    /// Where the server's control lines come in, unless at its default.
    pub control: Option<Addr>,
    /// Whether PROGRESS lines are told, too.
    pub takes_progress: bool,
    /// Whether it is told how many lines were done, also where standard error is no terminal.
    pub tells_counts: bool,
}

/// What stands behind `-`.
#[tactic(auto, unfolding(crate::specs::LinesReading::switches))]
fn switches(words: &[Text]) -> Option<(bool, bool)>
    ensures { Finds (λ x. x) result (spec.switches words.now) }
{
    match words {
        [] => Some((false, false)),
        [word] if word.is("--progress") => Some((true, false)),
        [word] if word.is("--progress-bar") => Some((false, true)),
        [word, next] if word.is("--progress") && next.is("--progress-bar") => Some((true, true)),
        _ => None,
    }
}

/// A call for the server at this address.
#[tactic(auto, unfolding(crate::specs::LinesReading::call_at))]
fn call_at(control: Option<Addr>, words: &[Text]) -> Option<LinesCall>
    ensures { Finds (λ x. x) result (spec.call_at control words.now) }
{
    let [dash, rest @ ..] = words else {
        return None;
    };
    if !dash.is("-") {
        return None;
    }
    let (takes_progress, tells_counts) = switches(rest)?;
    Some(LinesCall {
        control,
        takes_progress,
        tells_counts,
    })
}

#[tactic(auto, unfolding(crate::specs::LinesReading::read_lines_call))]
fn read_lines_call(words: &[Text]) -> Option<LinesCall>
    ensures { Finds (λ x. x) result (spec.read_lines_call words.now) }
{
    match words {
        [flag, value, rest @ ..] if flag.is("--control") => {
            let addr = Addr::of(value.as_str().as_bytes())?;
            call_at(Some(addr), rest)
        }
        _ => call_at(None, words),
    }
}

/// What the words behind `tell` ask for, where they ask for the lines of standard input to be told.
pub fn parse_lines_call(words: &[Text]) -> Option<LinesCall>
    ensures { MatchOption result ((call : LinesCall) → ¬ (IsLinesCall words.now call)) (IsLinesCall words.now) }
{
    read_lines_call(words)
}
