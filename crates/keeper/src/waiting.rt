//! Bytes that wait to be written.
ghost use Rattle.std.specs.Prelude.{◌≡◌, ◌+◌, ◌≤◌, ◌++◌, [], true, length, if◌then◌else◌, vec_len, vec_capacity, OnOk, OnErr};

use sip_text::NoMemory;
use std::alloc::Global;

/// The bytes that wait to be written behind the current file, and behind the next one.
#[derive(Drop)]
pub(crate) struct Waiting {
    pub current: Vec<u8>,
    pub next: Vec<u8>,
}

/// Appends bytes for which there is room.
fn append(out: &mut Vec<u8>, bytes: &[u8])
    requires room { vec_len out.old + length bytes.now ≤ vec_capacity out.old }
    ensures { out.new.items ≡ out.old.items ++ bytes.now }
{
    let Ok(()) = out.extend_from_slice(bytes) else {
        unreachable!()
    };
}

impl Waiting {
    /// Nothing waits.
    pub(crate) fn new(alloc: Global) -> Waiting
        ensures current { result.current.items ≡ [] }
        ensures next { result.next.items ≡ [] }
    {
        Waiting {
            current: Vec::new(alloc),
            next: Vec::new(alloc),
        }
    }

    /// Makes room for so many bytes behind the current file, and behind the next one where it is to have them.
    pub(crate) fn reserve(&mut self, count: usize, both: bool) -> Result<(), NoMemory>
        ensures current { self.new.current.items ≡ self.old.current.items }
        ensures next { self.new.next.items ≡ self.old.next.items }
        ensures room { OnOk result (vec_len self.new.current + count ≤ vec_capacity self.new.current) }
        ensures next_room { OnOk result (both ≡ true → vec_len self.new.next + count ≤ vec_capacity self.new.next) }
    {
        self.current.reserve(count)?;
        if both {
            self.next.reserve(count)?;
        }
        Ok(())
    }

    /// Appends a record to the current file, and to the next one where it is to have it.
    pub(crate) fn append(&mut self, record: &[u8], both: bool)
        requires room { vec_len self.old.current + length record.now ≤ vec_capacity self.old.current }
        requires next_room { both ≡ true → vec_len self.old.next + length record.now ≤ vec_capacity self.old.next }
        ensures current { self.new.current.items ≡ self.old.current.items ++ record.now }
        ensures next { self.new.next.items ≡ (if both then self.old.next.items ++ record.now else self.old.next.items) }
    {
        append(&mut self.current, record);
        if both {
            append(&mut self.next, record);
        }
    }

    /// Appends a record to the next file. Where nothing waits there it isn't copied.
    pub(crate) fn put_next(&mut self, record: Vec<u8>) -> Result<(), NoMemory>
        ensures current { self.new.current.items ≡ self.old.current.items }
        ensures next { OnOk result (self.new.next.items ≡ self.old.next.items ++ record.items) }
        ensures unchanged { OnErr result (self.new.next.items ≡ self.old.next.items) }
    {
        if self.next.is_empty() {
            self.next = record;
            return Ok(());
        }
        self.next.extend_from_slice(record.as_slice())?;
        Ok(())
    }

    /// The next file is the current one, and none is next.
    pub(crate) fn turn(&mut self, alloc: Global)
        ensures current { self.new.current.items ≡ self.old.next.items }
        ensures next { self.new.next.items ≡ [] }
    {
        self.current = std::mem::replace(&mut self.next, Vec::new(alloc));
    }

    /// What waited is written.
    pub(crate) fn clear(&mut self)
        ensures current { self.new.current.items ≡ [] }
        ensures next { self.new.next.items ≡ [] }
    {
        self.current.clear();
        self.next.clear();
    }
}
