//! Reads scripts and control lines.
ghost use Rattle.std.specs.Prelude.{◌≡◌, ◌≢◌, ℕ, List, IfOk, IfErr, Ok};
ghost use Rattle.scripts.specs.declared.script.Control.TheVariants as control;
ghost use Rattle.scripts.specs.declared.script.Block.{Block};
ghost use Rattle.scripts.specs.declared.script.Control.{Control};
ghost use Rattle.scripts.specs.Script.{IsScript, IsControlLine, Answers, IsExactScript, IsExactControlLine};

use crate::block::all_blocks;
use crate::error::ScriptError;
use crate::line::control_line;
use crate::script::{Block, Control};
use std::alloc::Global;

/// The blocks of the script that the bytes are, in order, in one pass.
pub fn parse_script(alloc: Global, bytes: &[u8]) -> Result<Vec<Block>, ScriptError>
    // What is answered is what the bytes say.
    ensures found { IfOk result (λ blocks. IsScript bytes.now blocks.items) }
    // What the bytes say is answered, unless memory runs out: only bytes that are no script are a bad one.
    ensures only { (blocks : List Block) → IsScript bytes.now blocks → Answers (λ v. v.items) result blocks }
    ensures no_device { IfErr result (λ e. e ≢ ScriptError.Device) }
{
    all_blocks(alloc, bytes)
}

/// The control line that the bytes are, with its LF or without.
pub fn parse_control(alloc: Global, bytes: &[u8]) -> Result<Control, ScriptError>
    ensures found { IfOk result (IsControlLine bytes.now) }
    ensures only { (c : Control) → IsControlLine bytes.now c → Answers (λ x. x) result c }
    // A CLOSE needs no memory.
    ensures close { IsControlLine bytes.now control.Close → result ≡ Ok control.Close }
    ensures no_device { IfErr result (λ e. e ≢ ScriptError.Device) }
{
    control_line(alloc, bytes)
}

/// A law on the grammars: bytes are a script, or a control line, in one way at most, or in none.
pub fn one_reading()
    ensures script { (bytes : List ℕ) → IsExactScript bytes }
    ensures control_line { (bytes : List ℕ) → IsExactControlLine bytes }
{}
