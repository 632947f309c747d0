//! Reads a whole script.
ghost use Rattle.std.specs.Prelude.{◌≡◌, ◌≢◌, ◌≤◌, length, IfOk, OnOk, Err};
ghost use Rattle.std.specs.Io.KnownBytes.{Consumes, IsAtEnd};
ghost use Rattle.transport.specs.Devices.{one_more, GaveMore};

use crate::error::ScriptError;
use std::alloc::Global;
use std::io::Read;
use transport::Source;

/// The most bytes that a script may have.
pub const MOST_BYTES: usize = 1_048_576;

/// How many bytes a read may give.
const PIECE: usize = 4096;

/// All that the reader gives up to its end, at most `MOST_BYTES` bytes. More are a bad script, and a failed read is a
/// device fault, also one that a signal cut short. It reads at most `MOST_BYTES + 1` times. Room grows with what was read.
/// After an error some bytes may be gone from the reader.
pub fn read_script<R: Read>(alloc: Global, source: &mut Source<R>) -> Result<Vec<u8>, ScriptError>
    // What is answered is what the reader gave, and it has no more.
    ensures whole { IfOk result (λ bytes.
        Consumes (R.remaining source.old.reader) (R.remaining source.new.reader) bytes.items) }
    ensures end { OnOk result (IsAtEnd (R.remaining source.new.reader)) }
    ensures fits { IfOk result (λ bytes. length bytes.items ≤ 1048576) }

    ensures too_long { result ≡ Err ScriptError.BadScript →
        GaveMore 1048576 (R.remaining source.old.reader) (R.remaining source.new.reader) }
    ensures device { result ≡ Err ScriptError.Device → source.new.failures ≡ one_more source.old.failures }
    ensures no_failure { result ≢ Err ScriptError.Device → source.new.failures ≡ source.old.failures }
{
    let mut script = Vec::new(alloc);
    let mut piece = [0u8; PIECE];
    for _ in 0..MOST_BYTES + 1 {
        let Ok(count) = source.read(&mut piece) else {
            return Err(ScriptError::Device);
        };
        if count == 0 {
            return Ok(script);
        }
        if count > MOST_BYTES - script.len() {
            return Err(ScriptError::BadScript);
        }
        script.extend_from_slice(piece.split_at(count).0)?;
    }
    Err(ScriptError::BadScript)
}
