//! Tables: a line of one has what is tried, in two columns, what is wanted, and why.
//!
//! The datagram of a line in the table NAME of short datagrams is its first column with a CRLF, the usual lines in `NAME.usual`,
//! and the second column. The wanted text is that of all fields or a whole answer; where it begins with a line end it is some
//! lines of that. In each column `\r`, `\n`, `\t` and `\0` are what they are in Rust, `\1` is a byte 1, `\a` a bell (7), `\d` a
//! delete (127), `\y` the byte 255, and before anything else a backslash leaves it as it is.

use crate::messages::headers::value_told;
use crate::messages::look::{Look, as_text, look_at, no_memory};
use crate::messages::written::Example;
use sip_text::NoMemory;
use std::alloc::Global;
use std::rt::Files;
use std::{fs, io};

/// What a table is about.
#[derive(Clone, Copy)]
enum About {
    /// Datagrams in files of their own.
    Whole,
    /// Short datagrams, looked at in this way.
    Short(Look),
    /// Values of headers.
    Values,
}

/// The tables.
const TABLES: [(&str, About); 6] = [
    ("table", About::Whole),
    ("errors", About::Short(Look::Fields)),
    ("lines", About::Short(Look::Fields)),
    ("torture", About::Short(Look::Fields)),
    ("vias", About::Short(Look::Written(Example::NotFound))),
    ("headers", About::Values),
];

/// What stands between a line's columns.
const BETWEEN: &str = " | ";

/// The first column of a line, the second, and what is wanted.
type Row<'a> = (&'a str, &'a str, &'a str);

/// The columns of a line. None where it has too few.
fn row_of(line: &str) -> Option<Row<'_>> {
    let (first, rest) = line.split_once(BETWEEN)?;
    let (second, rest) = rest.split_once(BETWEEN)?;
    let (wanted, _why) = rest.split_once(BETWEEN)?;
    Some((first, second, wanted))
}

/// Appends what a column means.
fn append_meant(column: &str, out: &mut Vec<u8>) -> Result<(), NoMemory> {
    let mut is_behind_backslash = false;
    for &byte in column.as_bytes() {
        if byte == b'\\' && !is_behind_backslash {
            is_behind_backslash = true;
            continue;
        }
        out.push(match byte {
            b'r' if is_behind_backslash => b'\r',
            b'n' if is_behind_backslash => b'\n',
            b't' if is_behind_backslash => b'\t',
            b'0' if is_behind_backslash => 0,
            b'1' if is_behind_backslash => 1,
            b'a' if is_behind_backslash => 7,
            b'd' if is_behind_backslash => 127,
            b'y' if is_behind_backslash => 255,
            _ => byte,
        })?;
        is_behind_backslash = false;
    }
    Ok(())
}

/// What is told of a line. The file of a whole datagram, or the usual lines, are handed in.
fn told_of(alloc: Global, about: About, row: Row<'_>, file: &[u8]) -> Result<String, NoMemory> {
    let (first, second, _) = row;
    let mut out = Vec::new(alloc);
    match about {
        About::Whole => look_at(alloc, file, Look::Summary),
        About::Short(look) => {
            append_meant(first, &mut out)?;
            out.extend_from_slice(b"\r\n")?;
            out.extend_from_slice(file)?;
            append_meant(second, &mut out)?;
            look_at(alloc, out.as_slice(), look)
        }
        About::Values => {
            append_meant(second, &mut out)?;
            value_told(alloc, first, out.as_slice())
        }
    }
}

/// Whether what is told is what is wanted. What begins with a line end is wanted as lines of it, anything else as the whole.
fn is_meant(alloc: Global, told: &str, wanted: &str) -> Result<bool, NoMemory> {
    let mut out = Vec::new(alloc);
    append_meant(wanted, &mut out)?;
    let wanted = as_text(out.as_slice());
    Ok(match wanted.strip_prefix('\n') {
        Some(first) => told.starts_with(first) || told.contains(wanted),
        None => told == wanted,
    })
}

/// The file that a line, or all lines of its table, need: its whole datagram, or the usual lines.
fn file_of(
    rt: &(impl Files + AllocGlobal),
    about: About,
    table: &str,
    first: &str,
) -> io::Result<Vec<u8>> {
    match about {
        About::Whole => fs::read(rt, format!(in rt.alloc(); "{first}.dat")?),
        About::Short(_) => fs::read(rt, format!(in rt.alloc(); "{table}.usual")?),
        About::Values => Ok(Vec::new(rt.alloc())),
    }
}

/// What is told of a line that has all columns.
fn told_of_row(
    rt: &(impl Files + AllocGlobal),
    about: About,
    table: &str,
    row: Row<'_>,
) -> io::Result<String> {
    let file = file_of(rt, about, table, row.0)?;
    told_of(rt.alloc(), about, row, file.as_slice()).map_err(no_memory)
}

/// Tells of a line.
fn tell_line(
    rt: &(impl Files + Print + AllocGlobal),
    about: About,
    table: &str,
    line: &str,
) -> io::Result<()> {
    let Some(row) = row_of(line) else {
        return println!(rt; "no line of the table: {line}");
    };
    let (first, second, wanted) = row;
    let told = told_of_row(rt, about, table, row)?;
    let is_so = is_meant(rt.alloc(), told.as_str(), wanted).map_err(no_memory)?;
    let (outcome, read) = if is_so {
        ("as the table says", "")
    } else {
        ("READ AS ", told.as_str())
    };
    println!(rt; "{first} | {second}: {outcome}{read}")
}

/// Tells of each line of a table.
fn tell_table(
    rt: &(impl Files + Print + AllocGlobal),
    about: About,
    table: &str,
) -> io::Result<()> {
    let text = fs::read_to_string(rt, table)?;
    for line in text.lines() {
        tell_line(rt, about, table, line)?;
    }
    Ok(())
}

/// Tells of all tables.
pub(crate) fn tell_all(rt: &(impl Files + Print + AllocGlobal)) -> io::Result<()> {
    for (table, about) in TABLES {
        tell_table(rt, about, table)?;
    }
    Ok(())
}
