//! A script read to the end of its reader, and a page written, over readers and writers that end, fail or never end.

use crate::devices::{Drain, Drip, Fault};
use scripts::{ScriptError, read_script, write_page};
use std::alloc::Global;
use std::io;
use transport::{Sink, Source};

/// The bytes that a script may have.
const MOST_BYTES: usize = 1_048_576;

/// Readers by how many bytes they give a read, and in all.
const READERS: [(&str, usize, usize); 5] = [
    ("a byte a read", 1, 0),
    ("a byte a read", 1, 1),
    ("a byte a read", 1, 5000),
    ("a script as long as it may be", 4096, MOST_BYTES),
    ("a byte longer", 4096, MOST_BYTES + 1),
];

/// Tells how many bytes were read, or why none were. How many reads are left to the reader.
fn tell_length(rt: &(impl Print + AllocGlobal), reader: &str, drip: Drip<'_>) -> io::Result<u32> {
    let mut source = Source::new(drip);
    let bytes = read_script(rt.alloc(), &mut source);
    let told = match &bytes {
        Ok(bytes) => println!(rt; "{reader}: {} bytes", bytes.len()),
        Err(error) => println!(rt; "{reader}: {error}"),
    };
    drop(bytes);
    told?;
    Ok(source.reader().left)
}

/// Tells of readers that end.
fn tell_readers(rt: &(impl Print + AllocGlobal)) -> io::Result<()> {
    let bytes = vec![in rt.alloc(); b'x'; MOST_BYTES + 1]?;
    for (reader, most, length) in READERS {
        let drip = Drip {
            rest: bytes.split_at(bytes.len().min(length)).0,
            most,
            left: u32::MAX,
            is_endless: false,
        };
        tell_length(rt, reader, drip)?;
    }
    Ok(())
}

/// A reader that gives so many line feeds, a byte a read, and then fails.
fn feeds_of(left: u32) -> Drip<'static> {
    Drip {
        rest: b"",
        most: 1,
        left,
        is_endless: true,
    }
}

/// How many of 300 readers, each of which fails a read later than the one before, are a device fault with one failure.
fn device_faults(alloc: Global) -> u32 {
    let mut count = 0u32;
    for left in 0..300 {
        let mut source = Source::new(feeds_of(left));
        let error = read_script(alloc, &mut source).err();
        if error == Some(ScriptError::Device) && source.failures() == 1 {
            count = count.saturating_add(1);
        }
    }
    count
}

/// Ten bytes.
const PAGE: &[u8] = b"0123456789";

/// What may be wrong with a writer.
const FAULTS: [(&str, Fault); 3] = [
    ("a write fails", Fault::Fails),
    ("a write takes nothing", Fault::TakesNone),
    ("a flush fails", Fault::FlushFails),
];

/// Tells of a page that is written by three bytes a write, to a writer with this fault after so many writes.
fn tell_written(
    rt: &(impl Print + AllocGlobal),
    name: &str,
    fault: Fault,
    left: u32,
) -> io::Result<()> {
    let mut sink = Sink::new(Drain {
        taken: Vec::new(rt.alloc()),
        most: 3,
        left,
        fault,
    });
    let error = write_page(&mut sink, PAGE).err();
    let taken = sink.writer().taken.as_slice();
    println!(rt;
        "{name} after {left} writes: done {}, device fault {}, {} failures, flushed {}, {} bytes, a front {}",
        error.is_none(),
        error == Some(ScriptError::Device),
        sink.failures(),
        sink.is_flushed(),
        taken.len(),
        PAGE.starts_with(taken)
    )
}

/// Tells of a fault after up to five writes.
fn tell_fault(rt: &(impl Print + AllocGlobal), name: &str, fault: Fault) -> io::Result<()> {
    for left in 0..6 {
        tell_written(rt, name, fault, left)?;
    }
    Ok(())
}

/// Tells of readers, and of writers.
pub(crate) fn tell_all(rt: &(impl Print + AllocGlobal)) -> io::Result<()> {
    tell_readers(rt)?;
    let left = tell_length(rt, "a reader that never ends", feeds_of(u32::MAX))?;
    println!(rt; "it is left after {} reads", u32::MAX - left)?;
    println!(rt; "device faults of 300 reads: {}", device_faults(rt.alloc()))?;
    for (name, fault) in FAULTS {
        tell_fault(rt, name, fault)?;
    }
    Ok(())
}
