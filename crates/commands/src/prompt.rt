//! Standard output, as a service writes the lines of transfers there: each whole and at once, or not at all, so that who doesn't read
//! keeps nobody waiting.

ghost use Rattle.std.specs.Prelude.{◌≡◌, [], OnOk};
ghost use Rattle.std.specs.Io.{WritesAtMost};
ghost use Rattle.std.specs.Io.KnownBytes.{Appends};

use arrayvec::ArrayVec;
use libc::net as c;
use libc::types::pollfd;
use sip_text::NoMemory;
use std::alloc::Global;
use std::io;
use std::io::{ErrorKind, Write};
use std::sync::Arc;
use std::sync::atomic::{AtomicBool, Ordering};

/// How many octets a line has at most: a pipe that takes any takes so many (PIPE_BUF).
const LONGEST: usize = 4096;

/// How many milliseconds who reads is waited for at the end of a service.
const PATIENCE: i32 = 2000;

/// Whether somebody reads standard output, within so many milliseconds, so that a line may be written there without waiting.
fn has_room(milliseconds: i32) -> bool {
    let mut outputs = [pollfd {
        fd: libc::STDOUT_FILENO,
        events: c::POLLOUT,
        revents: 0,
    }];
    c::poll(&mut outputs, milliseconds) > 0
}

/// Whether who doesn't read is waited for: not while the service runs.
#[derive(Drop)]
pub(crate) struct Patience {
    waits: Arc<AtomicBool, Global>,
}

impl Patience {
    /// Nobody is waited for.
    pub(crate) fn new(alloc: Global) -> Result<Patience, NoMemory> {
        let waits = Arc::new(alloc, AtomicBool::new(false))?;
        Ok(Patience { waits })
    }

    /// The same once more.
    pub(crate) fn further(&self) -> Result<Patience, NoMemory> {
        let waits = Arc::try_clone(&self.waits)?;
        Ok(Patience { waits })
    }

    /// From now on who reads is waited for.
    pub(crate) fn wait(&self) {
        self.waits.store(true, Ordering::SeqCst);
    }

    fn is_over(&self) -> bool {
        !self.waits.load(Ordering::SeqCst)
    }
}

/// A writer to standard output that keeps a line until it is flushed, and then writes it where there is room. A line that is too long, or
/// for which there is no room, is an error, and goes. While who reads is waited for it writes all as it comes, and is an error where there is
/// no room for two seconds.
#[derive(Drop)]
pub(crate) struct Prompt<F> {
    writer: F,
    line: ArrayVec<u8, LONGEST>,
    patience: Patience,
}

impl<F: Write + Drop> Prompt<F> {
    /// One over this writer, which is standard output.
    pub(crate) fn new(writer: F, patience: &Patience) -> Result<Prompt<F>, NoMemory> {
        Ok(Prompt {
            writer,
            line: ArrayVec::new(),
            patience: patience.further()?,
        })
    }

    /// Writes the line, if there is one, where there is room for it.
    fn write_line(&mut self) -> io::Result<()>
        ensures whole { OnOk result (Appends (F.contents self.old.writer) (F.contents self.new.writer) self.old.line.items) }
    {
        if self.line.is_empty() {
            return Ok(());
        }
        if !has_room(0) {
            return Err(io::Error::from(ErrorKind::WouldBlock));
        }
        self.writer.write_all(self.line.as_slice())
    }

    /// Writes as much as there is room for, once there is some.
    fn write_patiently(&mut self, buf: &[u8]) -> io::Result<usize>
        ensures bound { WritesAtMost result buf.now }
    {
        if !has_room(PATIENCE) {
            return Err(io::Error::from(ErrorKind::WouldBlock));
        }
        self.writer.write(&buf[..buf.len().min(LONGEST)])
    }
}

impl<F: Write + Drop> Write for Prompt<F> {
    fn write(&mut self, buf: &[u8]) -> io::Result<usize> {
        if !self.patience.is_over() {
            return self.write_patiently(buf);
        }
        if self.line.try_extend_from_slice(buf).is_err() {
            self.line.clear();
            return Err(io::Error::from(ErrorKind::InvalidInput));
        }
        Ok(buf.len())
    }

    fn flush(&mut self) -> io::Result<()>
        ensures whole { OnOk result (Appends (F.contents self.old.writer) (F.contents self.new.writer) self.old.line.items) }
        ensures gone { self.new.line.items ≡ [] }
    {
        let written = self.write_line();
        self.line.clear();
        match written {
            Ok(()) => self.writer.flush(),
            Err(error) => Err(error),
        }
    }
}
