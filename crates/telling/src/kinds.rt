//! Which lines are asked.
ghost use Rattle.std.specs.Prelude.{◌≡◌, ◌↔◌, List, ℕ, false, IsTrue, IfOk};
ghost use Rattle.telling.specs.Input.{Holds, Fits};
ghost use Rattle.telling.specs.Kinds.{IsBlank, IsKind};

use crate::input::InputLine;
use package::Change;
use scripts::{Control, ScriptError, one_reading, parse_control};
use sip_text::NoMemory;
use std::alloc::Global;

/// What a line is.
#[derive(Clone, Copy, Debug, PartialEq, Eq)]
pub enum LineKind {
    /// It says nothing: it is empty, or a comment, which begins with `#`.
    Blank,
    /// It is asked.
    Told,
    /// It is refused, and not asked.
    Untold,
}

/// Whether a line says nothing.
fn is_blank(line: &[u8]) -> bool
    ensures { IsTrue result ↔ IsBlank line.now }
{
    matches!(line, [] | [b'#', ..])
}

/// The kind of a line that fits and is not blank.
fn told_kind(alloc: Global, line: &[u8], takes_progress: bool) -> Result<LineKind, NoMemory>
    ensures { Fits line.now → ¬ (IsBlank line.now) → IfOk result (IsKind takes_progress line.now) }
{
    one_reading();
    match parse_control(alloc, line) {
        Ok(Control::Change(Change::Mail(_))) => Ok(LineKind::Told),
        Ok(Control::Change(Change::Step(_))) if takes_progress => Ok(LineKind::Told),
        Ok(Control::Change(_) | Control::Tick(_) | Control::Close) => Ok(LineKind::Untold),
        Err(ScriptError::NoMemory) => Err(NoMemory),
        Err(ScriptError::BadScript | ScriptError::Device) => Ok(LineKind::Untold),
    }
}

/// The kind of a line.
pub(crate) fn line_kind(
    alloc: Global,
    line: &InputLine,
    takes_progress: bool,
) -> Result<LineKind, NoMemory>
    ensures { (whole : List ℕ) → Holds whole line.now.octets.items line.now.is_cut
        → IfOk result (IsKind takes_progress whole) }
{
    if line.is_cut {
        return Ok(LineKind::Untold);
    }
    if is_blank(line.octets.as_slice()) {
        return Ok(LineKind::Blank);
    }
    told_kind(alloc, line.octets.as_slice(), takes_progress)
}
