//! What the files of a journal say together.

use crate::terms::Terms;
use journal::{Contents, Generation, Header, Record, chained, read_generation, records};
use sip_text::{NoMemory, Text, Values};
use std::alloc::Global;

/// More workers than a number of four bytes counts are in no file.
const MOST_WORKERS: usize = 4_294_967_295;

/// How many bytes at the front of a file are read for its header, which has some hundred.
const FRONT: usize = 4_096;

/// What a file of a journal says, with the one before.
#[derive(Drop)]
pub struct Found {
    pub generation: Generation,
    /// Under what its desks worked.
    pub terms: Terms,
    /// The second of the notifier in which its books were written.
    pub begun: u64,
    /// Where its whole records end.
    pub whole: u64,
    /// Whether something stands behind them: then what was written last may be lost.
    pub is_torn: bool,
    /// Whether it follows the file before: its workers go on from the books that stand there.
    pub follows: bool,
}

/// What came of reading a file.
#[derive(Drop)]
pub enum Reading {
    Found(Found),
    /// It isn't whole, or a program of another version wrote it.
    Nothing {
        /// Whether something stands behind its whole records.
        is_torn: bool,
    },
}

/// What a file begins with.
fn first_header(found: &Contents) -> Option<&Header> {
    match found.records.as_slice().first() {
        Some(Record::Header(header)) => Some(header),
        _ => None,
    }
}

/// Whether two files were written by one service, or by one that went on from the other.
fn is_same(newer: &Header, older: &Header) -> bool {
    newer.version.is(older.version.as_str())
        && newer.workers == older.workers
        && newer.seed == older.seed
        && newer.contact == older.contact
        && newer.boot.is(older.boot.as_str())
}

/// What these records say, where a program of this version wrote them.
fn said(alloc: Global, version: &Text, records: Values<Record>) -> Option<Generation> {
    read_generation(alloc, version.as_str(), records).ok()
}

/// Whether what an older file holds belongs before a file that begins with this header. Its first bytes tell, so no more are read.
fn is_before(alloc: Global, header: &Header, older: &[u8]) -> Result<bool, NoMemory> {
    let front = older.len().min(FRONT);
    let (front, _behind) = older.split_at(front);
    let contents = records(alloc, front)?;
    match first_header(&contents) {
        Some(older) => Ok(is_same(header, older)),
        None => Ok(false),
    }
}

/// The control lines among these records, and the others, each in their order.
fn without_lines(
    alloc: Global,
    records: Vec<Record>,
) -> Result<(Vec<Record>, Vec<Record>), NoMemory> {
    let mut lines = Vec::new(alloc);
    let mut others = Vec::new(alloc);
    for entry in records {
        if matches!(&entry, Record::Line(_)) {
            lines.push(entry)?;
        } else {
            others.push(entry)?;
        }
    }
    Ok((lines, others))
}

/// The records of a file, with these behind its header.
fn behind_header(
    alloc: Global,
    records: Vec<Record>,
    lines: Vec<Record>,
) -> Result<Vec<Record>, NoMemory> {
    let mut all = Vec::new(alloc);
    let mut lines = lines;
    let mut rest = records.into_iter();
    if let Some(header) = rest.next() {
        all.push(header)?;
    }
    all.append(&mut lines)?;
    for entry in rest {
        all.push(entry)?;
    }
    Ok(all)
}

/// What two files say together, where the newer one follows the older: each worker goes on from its older book, and lines of both are looked at. Only the
/// newer file tells which lines were handled, so those of the older one are read with it, as if they stood before its books.
fn together(
    alloc: Global,
    version: &Text,
    older: Vec<Record>,
    newer: Vec<Record>,
) -> Result<Option<Generation>, NoMemory> {
    let (lines, older) = without_lines(alloc, older)?;
    let newer = behind_header(alloc, newer, lines)?;
    let Some(newer) = said(alloc, version, Values::new(newer)) else {
        return Ok(None);
    };
    let Some(older) = said(alloc, version, Values::new(older)) else {
        return Ok(None);
    };
    if older.accounts.as_slice().len() > MOST_WORKERS {
        return Ok(None);
    }
    Ok(chained(alloc, older, newer).ok())
}

/// What a file says by itself.
fn alone(alloc: Global, version: &Text, records: Values<Record>) -> Option<(Generation, bool)> {
    Some((said(alloc, version, records)?, false))
}

/// What a file says: by itself, or with the one before where it follows that. And whether it does.
fn both(
    alloc: Global,
    version: &Text,
    contents: Contents,
    newer: &[u8],
    older: &[u8],
) -> Result<Option<(Generation, bool)>, NoMemory> {
    let belongs = match first_header(&contents) {
        Some(header) => is_before(alloc, header, older)?,
        None => false,
    };
    let found = contents.records;
    if !belongs {
        return Ok(alone(alloc, version, found));
    }
    let before = records(alloc, older)?.records.into_vec();
    if let Some(generation) = together(alloc, version, before, found.into_vec())? {
        return Ok(Some((generation, true)));
    }
    Ok(alone(alloc, version, records(alloc, newer)?.records))
}

/// Under what desks worked that a file tells of, if a program of this version wrote it, and how it says so.
fn written_under(
    alloc: Global,
    version: &str,
    found: &Contents,
) -> Result<Option<(Text, Terms)>, NoMemory> {
    let Some(header) = first_header(found) else {
        return Ok(None);
    };
    match Terms::of(alloc, version, header.version.as_str())? {
        Some(terms) => Ok(Some((header.version.copy(alloc)?, terms))),
        None => Ok(None),
    }
}

/// The greatest second of the books among these records.
fn second_of_books(records: &[Record]) -> u64 {
    let mut second = 0u64;
    for entry in records {
        if let Record::Book(book) = entry {
            second = second.max(book.saved.clock);
        }
    }
    second
}

/// What a file says, with the one before where it follows that.
pub fn read_files(
    alloc: Global,
    version: &str,
    newer: &[u8],
    older: &[u8],
) -> Result<Reading, NoMemory> {
    let contents = records(alloc, newer)?;
    let whole = contents.whole;
    let begun = second_of_books(contents.records.as_slice());
    let is_torn = whole < newer.len();
    let Some((written, terms)) = written_under(alloc, version, &contents)? else {
        return Ok(Reading::Nothing { is_torn });
    };
    let Some((generation, follows)) = both(alloc, &written, contents, newer, older)? else {
        return Ok(Reading::Nothing { is_torn });
    };
    Ok(Reading::Found(Found {
        generation,
        terms,
        begun,
        whole: whole as u64,
        is_torn,
        follows,
    }))
}
