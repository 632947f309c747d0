//! Files that are read line by line.
ghost use Rattle.std.specs.Prelude.{◌≡◌, List, ℕ, IfOk, IfErr, OnOk};
ghost use Rattle.std.specs.Io.Buffered.{reader_remaining};
ghost use Rattle.std.specs.IoError.{error_kind};
ghost use Rattle.plans.specs.declared.error.PlanError.{PlanError};
ghost use Rattle.plans.specs.declared.error.PlanError.TheVariants as error;
ghost use Rattle.plans.specs.Lines.{IsLineText, IsTaken};
ghost use Rattle.plans.specs.Refused.{IsUnread};

use crate::error::PlanError;
use sip_text::Text;
use std::alloc::Global;
use std::io::{BufRead, BufReader, ErrorKind};
use std::rt::Files;
use std::{fs, io};

/// The mark that some editors put in front of a file (RFC 3629 section 6).
const MARK: &str = "\u{feff}";

/// A line of a file, without its line feed, and the first one without a mark in front.
#[derive(Clone, Copy)]
pub(crate) struct FileLine<'a> {
    /// The path of the file.
    pub(crate) path: &'a Text,
    /// Which line it is, from 1 on.
    pub(crate) number: u64,
    pub(crate) text: &'a str,
}

impl<'a> FileLine<'a> {
    /// The line with this number. The mark in front of the first one is no part of it.
    fn new(path: &'a Text, number: u64, line: &'a str) -> FileLine<'a>
        ensures path { result.path.now ≡ path.now }
        ensures number { result.number ≡ number }
        ensures text { IsLineText number line.now result.text.now }
    {
        let text = match line.strip_prefix(MARK) {
            Some(rest) if number == 1 => rest,
            _ => line,
        };
        FileLine { path, number, text }
    }
}

/// What the lines of a file are taken into, one after the other.
pub(crate) trait TakesLines {
    /// What is so of it after any lines.
    ghost is_sound: { Self → Type 0 };

    /// What a line, without the mark in front, makes of it.
    ghost takes: { Self → List ℕ → Self → Type 0 };

    /// Why the file at this path is refused.
    ghost refuses: { List ℕ → PlanError → Type 0 };

    /// Takes in a line.
    fn take_line(&mut self, alloc: Global, line: FileLine<'_>) -> Result<(), PlanError>
        requires sound { is_sound self.old }
        ensures sound { OnOk result (is_sound self.new) }
        ensures taken { OnOk result (takes self.old line.entry.text.now self.new) }
        ensures refused { IfErr result (refuses line.entry.path.now) };

    /// A file that can't be read is refused.
    ghost unread: { (path : List ℕ) (e : PlanError) → IsUnread path e → refuses path e };
}

/// Why the file at this path can't be read, where it failed so. Running out of memory is no fault of the file.
fn unread(alloc: Global, path: &Text, fault: &io::Error) -> PlanError
    ensures unread { IsUnread path.now result }
    ensures memory { error_kind fault.now ≡ ErrorKind.OutOfMemory → result ≡ error.NoMemory }
{
    if fault.kind() == ErrorKind::OutOfMemory {
        return PlanError::NoMemory;
    }
    match path.copy(alloc) {
        Ok(path) => PlanError::File(path),
        Err(_) => PlanError::NoMemory,
    }
}

/// Takes in what a reader gives, line by line: each line of it, in order, and no other.
fn take_lines<B: BufRead + Drop, T: TakesLines>(
    alloc: Global,
    reader: B,
    path: &Text,
    taker: &mut T,
) -> Result<(), PlanError>
    requires sound { T.is_sound taker.old }
    ensures sound { OnOk result (T.is_sound taker.new) }
    ensures taken { OnOk result (IsTaken T.takes (B.remaining reader) taker.old taker.new) }
    ensures refused { IfErr result (T.refuses path.now) }
{
    let mut number = 0u64;
    for line in reader.lines(alloc) {
        let line = match line {
            Ok(line) => line,
            Err(fault) => return Err(unread(alloc, path, &fault)),
        };
        number = number.saturating_add(1);
        taker.take_line(alloc, FileLine::new(path, number, line.as_str()))?;
    }
    Ok(())
}

/// A reader of the file at this path, from its start on.
fn file_reader<R: Files + AllocGlobal>(rt: &R, path: &Text) -> io::Result<BufReader<R::File>>
    ensures whole { IfOk result (λ reader. (file : R.File) × (reader_remaining R.File.remaining reader ≡ R.File.remaining file)) }
{
    let file = fs::open(rt, path.as_str())?;
    let reader = BufReader::new(rt.alloc(), file)?;
    Ok(reader)
}

/// Takes in the lines of the file at this path, in order. An error where it can't be read, and at the first line that is refused.
pub(crate) fn take_file<R: Files + AllocGlobal, T: TakesLines>(
    rt: &R,
    path: &Text,
    taker: &mut T,
) -> Result<(), PlanError>
    requires sound { T.is_sound taker.old }
    ensures sound { OnOk result (T.is_sound taker.new) }
    ensures taken { OnOk result ((file : R.File) × IsTaken T.takes (R.File.remaining file) taker.old taker.new) }
    ensures refused { IfErr result (T.refuses path.now) }
{
    let alloc = rt.alloc();
    let reader = match file_reader(rt, path) {
        Ok(reader) => reader,
        Err(fault) => return Err(unread(alloc, path, &fault)),
    };
    take_lines(alloc, reader, path, taker)?;
    Ok(())
}
