//! What writes the lines of transfers.
ghost use Rattle.std.specs.Prelude.{◌≡◌, true, OnOk, OnErr};
ghost use Rattle.std.specs.Io.KnownBytes.{Appends};
ghost use Rattle.transport.specs.Devices.{one_more, AppendsFront};
ghost use Rattle.scripts.specs.Page.{start_text};

use std::io::Write;
use transport::Sink;

/// A line was not written whole, or not flushed.
#[derive(Clone, Copy)]
pub(crate) struct Unwritten;

/// Writes all of these bytes.
fn write_whole<F: Write>(sink: &mut Sink<F>, bytes: &[u8]) -> Result<(), Unwritten>
    ensures whole { OnOk result (Appends (F.contents sink.old.writer) (F.contents sink.new.writer) bytes.now) }
    ensures no_failure { OnOk result (sink.new.failures ≡ sink.old.failures) }
    ensures front { OnErr result (AppendsFront (F.contents sink.old.writer) (F.contents sink.new.writer) bytes.now) }
    ensures failure { OnErr result (sink.new.failures ≡ one_more sink.old.failures) }
{
    let mut written = 0;
    while written < bytes.len() {
        let rest = bytes.split_at(written).1;
        let Ok(count) = sink.write(rest) else {
            return Err(Unwritten);
        };
        if count == 0 {
            return Err(Unwritten);
        }
        written += count;
    }
    Ok(())
}

/// Writes the line of a transfer that starts, and flushes it.
pub(crate) fn write_start<F: Write>(
    sink: &mut Sink<F>,
    tag: &str,
    refer_to: &str,
) -> Result<(), Unwritten>
    ensures whole { OnOk result
        (Appends (F.contents sink.old.writer) (F.contents sink.new.writer) (start_text tag.now refer_to.now)) }
    ensures flushed { OnOk result (sink.new.is_flushed ≡ true) }
    ensures no_failure { OnOk result (sink.new.failures ≡ sink.old.failures) }
    ensures front { OnErr result
        (AppendsFront (F.contents sink.old.writer) (F.contents sink.new.writer) (start_text tag.now refer_to.now)) }
    ensures failure { OnErr result (sink.new.failures ≡ one_more sink.old.failures) }
{
    write_whole(sink, b"START ")?;
    write_whole(sink, tag.as_bytes())?;
    write_whole(sink, b" ")?;
    write_whole(sink, refer_to.as_bytes())?;
    write_whole(sink, b"\n")?;
    match sink.flush() {
        Ok(()) => Ok(()),
        Err(_) => Err(Unwritten),
    }
}
