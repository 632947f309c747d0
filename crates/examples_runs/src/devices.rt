//! Readers and writers that fail.

use std::io;
use std::io::{ErrorKind, Read, Write};

/// A reader that gives so many bytes a read at most, and fails after so many reads. Where `is_endless`, it goes on with line feeds.
#[derive(Drop)]
pub(crate) struct Drip<'a> {
    pub(crate) rest: &'a [u8],
    pub(crate) most: usize,
    pub(crate) left: u32,
    pub(crate) is_endless: bool,
}

impl<'a> Read for Drip<'a> {
    fn read(&mut self, buf: &mut [u8]) -> io::Result<usize> {
        if self.left == 0 {
            return Err(io::Error::from(ErrorKind::BrokenPipe));
        }
        self.left -= 1;
        if self.rest.is_empty() && self.is_endless {
            let mut more: &[u8] = b"\n";
            return more.read(buf);
        }
        let count = self.rest.len().min(self.most).min(buf.len());
        let (mut first, rest) = self.rest.split_at(count);
        self.rest = rest;
        first.read(buf)
    }
}

/// What is wrong with a writer.
#[derive(Clone, Copy)]
pub(crate) enum Fault {
    Fails,
    TakesNone,
    FlushFails,
}

/// A writer that takes at most so many bytes a write, so often, and then has a fault; where flushes fail, each does.
#[derive(Drop)]
pub(crate) struct Drain {
    pub(crate) taken: Vec<u8>,
    pub(crate) most: usize,
    pub(crate) left: u32,
    pub(crate) fault: Fault,
}

impl Write for Drain {
    fn write(&mut self, buf: &[u8]) -> io::Result<usize> {
        match self.fault {
            Fault::Fails if self.left == 0 => Err(io::Error::from(ErrorKind::BrokenPipe)),
            Fault::TakesNone if self.left == 0 => Ok(0),
            _ => {
                self.left = self.left.saturating_sub(1);
                self.taken.write(buf.split_at(buf.len().min(self.most)).0)
            }
        }
    }

    fn flush(&mut self) -> io::Result<()> {
        match self.fault {
            Fault::FlushFails => Err(io::Error::from(ErrorKind::BrokenPipe)),
            _ => Ok(()),
        }
    }
}
