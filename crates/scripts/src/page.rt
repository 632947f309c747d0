//! What a server prints of a run, line by line.
ghost use Rattle.std.specs.Prelude.{◌≡◌, ℕ, List, [], ◌++◌, length, take, OnOk, OnErr};
ghost use Rattle.scripts.specs.Script.{lf};
ghost use Rattle.scripts.specs.Page.{unread_text, worker_text, answer_text, notify_text, start_text};

use sip_read::Addr;
use sip_text::NoMemory;
use std::alloc::{AllocError, Global};
use std::marker::Model;

/// A page, as far as it is written. Contracts see the list of its bytes.
#[derive(Debug, Drop)]
pub struct Page {
    bytes: Vec<u8>,
}

impl Model for Page {
    ghost Value = { List ℕ };

    ghost view = { λ p. p.bytes.items };
}

impl Page {
    /// An empty page. It takes no memory.
    pub fn new(alloc: Global) -> Page
        ensures { result ≡ [] }
    {
        Page {
            bytes: Vec::new(alloc),
        }
    }

    /// The bytes so far.
    pub fn as_slice(&self) -> &[u8]
        ensures { result.now ≡ self.now }
    {
        self.bytes.as_slice()
    }

    /// Appends a SIP block that can't be read: its number among the SIP blocks, from 1, and the number of the error. Where
    /// memory runs out the page is as it was.
    pub fn unread(&mut self, alloc: Global, number: u64, error: u8) -> Result<(), NoMemory>
        ensures ok { OnOk result (self.new ≡ self.old ++ unread_text number error) }
        ensures err { OnErr result (self.new ≡ self.old) }
    {
        let line = format!(in alloc; "UNREAD {number} {error}\n")?;
        self.bytes.extend_from_slice(line.as_bytes())?;
        Ok(())
    }

    /// Appends a worker that ended: how many events it handled, and how many outs it made. Where memory runs out the page is
    /// as it was.
    pub fn worker(
        &mut self,
        alloc: Global,
        worker: u32,
        handled: u64,
        made: u64,
    ) -> Result<(), NoMemory>
        ensures ok { OnOk result (self.new ≡ self.old ++ worker_text worker handled made) }
        ensures err { OnErr result (self.new ≡ self.old) }
    {
        let line = format!(in alloc; "WORKER {worker} {handled} {made} closed\n")?;
        self.bytes.extend_from_slice(line.as_bytes())?;
        Ok(())
    }

    /// Appends an answer to a request, and where it goes. Where memory runs out the page is as it was.
    pub fn answer(&mut self, alloc: Global, addr: Addr, octets: &[u8]) -> Result<(), NoMemory>
        ensures ok { OnOk result (self.new ≡ self.old ++ answer_text addr octets.now) }
        ensures err { OnErr result (self.new ≡ self.old) }
    {
        let addr = addr.text(alloc)?;
        let length = octets.len();
        let head = format!(in alloc; "ANSWER {addr} {length}\n")?;
        self.add(head.as_str(), octets)
    }

    /// Appends a NOTIFY: its local tag, its number, and where it goes. Where memory runs out the page is as it was.
    pub fn notify(
        &mut self,
        alloc: Global,
        tag: &str,
        number: u32,
        addr: Addr,
        octets: &[u8],
    ) -> Result<(), NoMemory>
        ensures ok { OnOk result (self.new ≡ self.old ++ notify_text tag.now number addr octets.now) }
        ensures err { OnErr result (self.new ≡ self.old) }
    {
        let addr = addr.text(alloc)?;
        let length = octets.len();
        let head = format!(in alloc; "NOTIFY {tag} {number} {addr} {length}\n")?;
        self.add(head.as_str(), octets)
    }

    /// Appends a transfer that begins: its tag, and the address that it goes to. Where memory runs out the page is as it was.
    pub fn start(&mut self, alloc: Global, tag: &str, refer_to: &str) -> Result<(), NoMemory>
        ensures ok { OnOk result (self.new ≡ self.old ++ start_text tag.now refer_to.now) }
        ensures err { OnErr result (self.new ≡ self.old) }
    {
        let line = format!(in alloc; "START {tag} {refer_to}\n")?;
        self.bytes.extend_from_slice(line.as_bytes())?;
        Ok(())
    }

    /// Appends a head, octets and an LF, or nothing.
    fn add(&mut self, head: &str, octets: &[u8]) -> Result<(), NoMemory>
        ensures ok { OnOk result (self.new ≡ self.old ++ (head.now ++ (octets.now ++ lf))) }
        ensures err { OnErr result (self.new ≡ self.old) }
    {
        let start = self.bytes.len();
        match append(&mut self.bytes, head, octets) {
            Ok(()) => Ok(()),
            Err(refused) => {
                self.bytes.truncate(start);
                Err(NoMemory::from(refused))
            }
        }
    }
}

/// Appends a head, octets and an LF, as far as there is room.
fn append(bytes: &mut Vec<u8>, head: &str, octets: &[u8]) -> Result<(), AllocError>
    ensures ok { OnOk result (bytes.new.items ≡ bytes.old.items ++ (head.now ++ (octets.now ++ lf))) }
    ensures err { OnErr result (take (length bytes.old.items) bytes.new.items ≡ bytes.old.items) }
{
    bytes.extend_from_slice(head.as_bytes())?;
    bytes.extend_from_slice(octets)?;
    bytes.push(b'\n')?;
    Ok(())
}
