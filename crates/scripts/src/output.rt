//! Writes a whole page.
ghost use Rattle.std.specs.Prelude.{◌≡◌, true, IfErr, OnOk, OnErr};
ghost use Rattle.std.specs.Io.KnownBytes.{Appends};
ghost use Rattle.transport.specs.Devices.{one_more, AppendsFront};

use crate::error::ScriptError;
use std::io::Write;
use transport::Sink;

/// Writes all of the page and flushes it. A failed write or flush is a device fault, and so is a write that takes no byte;
/// a front of the page went out then.
pub fn write_page<W: Write>(sink: &mut Sink<W>, page: &[u8]) -> Result<(), ScriptError>
    ensures whole { OnOk result (Appends (W.contents sink.old.writer) (W.contents sink.new.writer) page.now) }
    ensures flushed { OnOk result (sink.new.is_flushed ≡ true) }
    ensures no_failure { OnOk result (sink.new.failures ≡ sink.old.failures) }

    ensures device { IfErr result (λ e. e ≡ ScriptError.Device) }
    ensures failure { OnErr result (sink.new.failures ≡ one_more sink.old.failures) }
    ensures front { OnErr result (AppendsFront (W.contents sink.old.writer) (W.contents sink.new.writer) page.now) }
{
    let mut sent = 0;
    while sent < page.len() {
        let rest = page.split_at(sent).1;
        let Ok(count) = sink.write(rest) else {
            return Err(ScriptError::Device);
        };
        if count == 0 {
            return Err(ScriptError::Device);
        }
        sent += count;
    }
    match sink.flush() {
        Ok(()) => Ok(()),
        Err(_) => Err(ScriptError::Device),
    }
}
