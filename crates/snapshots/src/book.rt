//! A whole book, written and read.
ghost use Rattle.std.specs.Prelude.{◌≡◌, ◌++◌, Option, Some, None, Result, IfOk, OnOk};
ghost use Rattle.sip_text.specs.Bytes.{Finds, Gives};
ghost use Rattle.snapshots.specs.Forms.{AreBytes, bytes_text, bytes_at};
ghost use Rattle.snapshots.specs.Books.{IsKey, IsKept, IsSaved, IsBook, key_text, key_at, kept_text, kept_at, saved_text, saved_at, book_text, behind, Reads};

use crate::form::{Form, cut_bytes, put_bytes};
use notifier_model::Saved;
use notifier_model::row::{Kept, Key, Row};
use sip_text::{NoMemory, Octets, Text, Values};
use std::alloc::Global;
use thiserror::Error;

/// Why bytes give no book.
#[derive(Clone, Copy, Debug, PartialEq, Eq, Error)]
pub enum BookError {
    /// A growth was refused.
    #[error("out of memory")]
    NoMemory,
    /// The first line is another.
    #[error("not a book of version 1")]
    OtherVersion,
    /// They were cut off, or were written by nobody.
    #[error("a book that can't be read")]
    Bad,
}

impl From<NoMemory> for BookError {
    ghost use Rattle.snapshots.specs.declared.book.BookError.TheVariants as error;

    ghost from_gives = { λ _ e. e ≡ error.NoMemory };

    fn from(_: NoMemory) -> BookError {
        BookError::NoMemory
    }
}

impl Form for Octets {
    ghost text = { bytes_text };

    ghost at = { bytes_at };

    ghost Fits = { AreBytes };

    fn fits(&self) {
        let octets = self.as_slice();
        let _length = octets.len();
    }

    fn put(&self, _alloc: Global, out: &mut Vec<u8>) -> Result<(), NoMemory> {
        put_bytes(self.as_slice(), out)
    }

    fn cut(alloc: Global, bytes: &[u8]) -> Result<Option<(Octets, &[u8])>, NoMemory> {
        let Some((octets, rest)) = cut_bytes(bytes) else {
            return Ok(None);
        };
        let octets = Vec::from_slice(alloc, octets)?;
        Ok(Some((Octets::new(octets), rest)))
    }
}

impl Form for Key {
    ghost text = { key_text };

    ghost at = { key_at };

    ghost Fits = { IsKey };

    fn fits(&self) {
        self.branch.fits();
        self.sent_by.fits();
        self.method.fits();
    }

    fn put(&self, alloc: Global, out: &mut Vec<u8>) -> Result<(), NoMemory> {
        self.branch.put(alloc, out)?;
        self.sent_by.put(alloc, out)?;
        self.method.put(alloc, out)?;
        Ok(())
    }

    #[tactic(auto, unfolding(crate::specs::Books::key_at))]
    fn cut(alloc: Global, bytes: &[u8]) -> Result<Option<(Key, &[u8])>, NoMemory> {
        let Some((parts, rest)) = <(Text, (Text, Text))>::cut(alloc, bytes)? else {
            return Ok(None);
        };
        let (branch, (sent_by, method)) = parts;
        let key = Key {
            branch,
            sent_by,
            method,
        };
        Ok(Some((key, rest)))
    }
}

impl Form for Kept {
    ghost text = { kept_text };

    ghost at = { kept_at };

    ghost Fits = { IsKept };

    fn fits(&self) {
        self.key.fits();
        self.bytes.fits();
    }

    fn put(&self, alloc: Global, out: &mut Vec<u8>) -> Result<(), NoMemory> {
        self.key.put(alloc, out)?;
        self.bytes.put(alloc, out)?;
        Ok(())
    }

    #[tactic(auto, unfolding(crate::specs::Books::kept_at))]
    fn cut(alloc: Global, bytes: &[u8]) -> Result<Option<(Kept, &[u8])>, NoMemory> {
        let Some((parts, rest)) = <(Key, Octets)>::cut(alloc, bytes)? else {
            return Ok(None);
        };
        let (key, octets) = parts;
        Ok(Some((Kept { key, bytes: octets }, rest)))
    }
}

impl Form for Saved {
    ghost text = { saved_text };

    ghost at = { saved_at };

    ghost Fits = { IsSaved };

    fn fits(&self) {
        self.clock.fits();
        self.next.fits();
        self.rows.fits();
        self.ring.fits();
    }

    fn put(&self, alloc: Global, out: &mut Vec<u8>) -> Result<(), NoMemory> {
        self.clock.put(alloc, out)?;
        self.next.put(alloc, out)?;
        self.rows.put(alloc, out)?;
        self.ring.put(alloc, out)?;
        Ok(())
    }

    #[tactic(auto, unfolding(crate::specs::Books::saved_at))]
    fn cut(alloc: Global, bytes: &[u8]) -> Result<Option<(Saved, &[u8])>, NoMemory> {
        let Some((parts, rest)) = <(u64, (u64, (Values<Row>, Values<Kept>)))>::cut(alloc, bytes)?
        else {
            return Ok(None);
        };
        let (clock, (next, (rows, ring))) = parts;
        let saved = Saved {
            clock,
            next,
            rows,
            ring,
        };
        Ok(Some((saved, rest)))
    }
}

/// What stands behind the first line of a book, which says what it is, and which version.
#[tactic(auto, unfolding(crate::specs::Books::behind))]
pub fn cut_first_line(bytes: &[u8]) -> Option<&[u8]>
    ensures { Finds (λ x. x.now) result (behind bytes.now) }
{
    if !bytes.starts_with(b"tipongahe book 1\n") {
        return None;
    }
    Some(&bytes[17..])
}

/// Appends a book. After an error a part of it may stand there.
pub fn write_book(alloc: Global, saved: &Saved, out: &mut Vec<u8>) -> Result<(), NoMemory>
    ensures { OnOk result (out.new.items ≡ out.old.items ++ book_text saved.now) }
{
    out.extend_from_slice(b"tipongahe book 1\n")?;
    saved.put(alloc, out)
}

/// The bytes of a book: a reader gets this book of them.
pub fn book_bytes(alloc: Global, saved: &Saved) -> Result<Vec<u8>, NoMemory>
    ensures { IfOk result (λ bytes. IsBook bytes.items saved.now) }
{
    let mut bytes = Vec::new(alloc);
    saved.fits();
    write_book(alloc, saved, &mut bytes)?;
    Ok(bytes)
}

/// Reads a book: all of it, or nothing.
pub fn read_book(alloc: Global, bytes: &[u8]) -> Result<Saved, BookError>
    ensures { Reads result bytes.now }
{
    let Some(rest) = cut_first_line(bytes) else {
        return Err(BookError::OtherVersion);
    };
    let Some((saved, rest)) = Saved::cut(alloc, rest)? else {
        return Err(BookError::Bad);
    };
    if !rest.is_empty() {
        return Err(BookError::Bad);
    }
    Ok(saved)
}
