//! Readers and writers that count their failures, so that a contract can tell when a device failed.
ghost use Rattle.std.specs.Prelude.{◌≡◌, true, false, is_ok};
ghost use Rattle.std.specs.Io.{ReadsAtMost, WritesAtMost};
ghost use Rattle.std.specs.Io.KnownBytes.{ReadConsumes, WriteAppends, Keeps};
ghost use Rattle.transport.specs.Devices.{failures_after, failures_after_write};

use std::io;
use std::io::{Read, Write};
use std::marker::Model;

/// A reader that counts its failures. Only its reads move the count.
#[derive(Drop)]
pub struct Source<R> {
    reader: R,
    failures: u64,
}

impl<R> Model for Source<R> {
    ghost use Rattle.transport.specs.Devices.{SourceSeen};

    ghost Value = { SourceSeen R };

    ghost view = { λ s. record { reader = s.reader; failures = s.failures } };
}

impl<R> Source<R> {
    /// This reader, which hasn't failed yet.
    pub fn new(reader: R) -> Source<R>
        ensures { result ≡ record { reader = reader; failures = 0 } }
    {
        Source {
            reader,
            failures: 0,
        }
    }

    /// The reader.
    pub fn reader(&self) -> &R
        ensures { result.now ≡ self.now.reader }
    {
        &self.reader
    }

    /// How many reads failed. It stays at 2^64 - 1 once there.
    pub fn failures(&self) -> u64
        ensures { result ≡ self.now.failures }
    {
        self.failures
    }
}

impl<R: Read> Read for Source<R> {
    ghost remaining = { λ s. R.remaining s.reader };

    fn read(&mut self, buf: &mut [u8]) -> io::Result<usize>
        ensures bound { ReadsAtMost result buf.new }
        ensures bytes { ReadConsumes (R.remaining self.old.reader) (R.remaining self.new.reader) result buf.new }
        ensures counted { self.new.failures ≡ failures_after result self.old.failures }
    {
        match self.reader.read(buf) {
            Ok(count) => Ok(count),
            Err(fault) => {
                self.failures = self.failures.saturating_add(1);
                Err(fault)
            }
        }
    }
}

/// A writer that counts its failures, and knows whether its last call was a flush that succeeded. Only its writes and flushes move these.
#[derive(Drop)]
pub struct Sink<W> {
    writer: W,
    failures: u64,
    is_flushed: bool,
}

impl<W> Model for Sink<W> {
    ghost use Rattle.transport.specs.Devices.{SinkSeen};

    ghost Value = { SinkSeen W };

    ghost view = { λ s. record { writer = s.writer; failures = s.failures; is_flushed = s.is_flushed } };
}

impl<W> Sink<W> {
    /// This writer, which hasn't failed yet.
    pub fn new(writer: W) -> Sink<W>
        ensures { result ≡ record { writer = writer; failures = 0; is_flushed = false } }
    {
        Sink {
            writer,
            failures: 0,
            is_flushed: false,
        }
    }

    /// The writer.
    pub fn writer(&self) -> &W
        ensures { result.now ≡ self.now.writer }
    {
        &self.writer
    }

    /// How many writes and flushes failed, with the writes that took none of some bytes. It stays at 2^64 - 1 once there.
    pub fn failures(&self) -> u64
        ensures { result ≡ self.now.failures }
    {
        self.failures
    }

    /// Whether the last call of it was a flush that succeeded.
    pub fn is_flushed(&self) -> bool
        ensures { result ≡ self.now.is_flushed }
    {
        self.is_flushed
    }
}

impl<W: Write> Write for Sink<W> {
    ghost contents = { λ s. W.contents s.writer };

    fn write(&mut self, buf: &[u8]) -> io::Result<usize>
        ensures bound { WritesAtMost result buf.now }
        ensures bytes { WriteAppends (W.contents self.old.writer) (W.contents self.new.writer) result buf.now }
        ensures counted { self.new.failures ≡ failures_after_write buf.now result self.old.failures }
        ensures unflushed { self.new.is_flushed ≡ false }
    {
        self.is_flushed = false;
        let outcome = self.writer.write(buf);
        match outcome {
            Ok(0) if !buf.is_empty() => {
                self.failures = self.failures.saturating_add(1);
                Ok(0)
            }
            Ok(count) => Ok(count),
            Err(fault) => {
                self.failures = self.failures.saturating_add(1);
                Err(fault)
            }
        }
    }

    fn flush(&mut self) -> io::Result<()>
        ensures bytes { Keeps (W.contents self.old.writer) (W.contents self.new.writer) }
        ensures counted { self.new.failures ≡ failures_after result self.old.failures }
        ensures flushed { self.new.is_flushed ≡ is_ok result }
    {
        let outcome = self.writer.flush();
        self.is_flushed = outcome.is_ok();
        match outcome {
            Ok(()) => Ok(()),
            Err(fault) => {
                self.failures = self.failures.saturating_add(1);
                Err(fault)
            }
        }
    }
}
