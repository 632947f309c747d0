//! One file of a journal.
ghost use Rattle.std.specs.Prelude.{◌≡◌, ◌≤◌, OnErr};

use std::fs::File;
use std::io;
use std::io::Write;

/// One file of a journal, which is open for append.
#[derive(Drop)]
pub struct Volume {
    file: File,
    number: u64,
    length: u64,
}

impl Volume {
    /// The file with this number, `journal.N`. It is open for append, and its whole records have so many bytes.
    pub fn new(file: File, number: u64, length: u64) -> Volume
        ensures number { result.number ≡ number }
        ensures length { result.length ≡ length }
    {
        Volume {
            file,
            number,
            length,
        }
    }

    /// Its number.
    pub(crate) fn number(&self) -> u64
        ensures { result ≡ self.now.number }
    {
        self.number
    }

    /// How many bytes its whole records have.
    pub(crate) fn length(&self) -> u64
        ensures { result ≡ self.now.length }
    {
        self.length
    }

    /// Another handle of the same file.
    pub(crate) fn handle(&self) -> io::Result<File> {
        self.file.try_clone()
    }

    /// Leaves a torn byte behind the whole records: those that belong there are nowhere. Who reads the file sees by that that its end is
    /// lost. A byte that nobody wrote takes no room on a full disk.
    pub(crate) fn tear(&self) -> io::Result<()> {
        self.file.set_len(self.length.saturating_add(1))
    }

    /// Appends whole records, all of them or none: where the system doesn't take all, the file is cut back to what it had. What is read
    /// ends at the first torn record.
    pub fn append(&mut self, records: &[u8]) -> io::Result<()>
        ensures number { self.new.number ≡ self.old.number }
        ensures longer { self.old.length ≤ self.new.length }
        ensures unchanged { OnErr result (self.new.length ≡ self.old.length) }
    {
        if records.is_empty() {
            return Ok(());
        }
        match self.file.write_all(records) {
            Ok(()) => {
                self.length = self.length.saturating_add(records.len() as u64);
                Ok(())
            }
            Err(error) => {
                let _ = self.file.set_len(self.length);
                Err(error)
            }
        }
    }
}
