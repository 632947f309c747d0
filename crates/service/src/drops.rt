//! What the system dropped at the sockets of a service for want of room.
ghost use Rattle.std.specs.Prelude.{◌≡◌, string_bytes, IfOk, OnOk, OnErr};
ghost use Rattle.service.specs.Drops as spec;

use sip_text::{Addr, NoMemory};
use std::alloc::Global;
use std::fs;
use std::io::{BufRead, BufReader};
use std::rt::Files;
use std::sync::OnceLock;
use std::sync::atomic::{AtomicU64, Ordering};

/// Where Linux tells of the UDP sockets of this network, a line for each.
const SOCKETS: &str = "/proc/self/net/udp";

/// How many of its lines are read at most.
const LINES: usize = 65_536;

/// No count is so high.
const UNKNOWN: u64 = u64::MAX;

/// The address as such a line has it: its octets as a number of this machine, and its port, in hexadecimal digits.
fn name(alloc: Global, addr: Addr) -> Result<String, NoMemory>
    ensures { IfOk result (λ name. string_bytes name ≡ spec.socket_name addr) }
{
    let ip = u32::from_le_bytes(addr.ip);
    let port = addr.port;
    let name = format!(in alloc; "{ip:08X}:{port:04X}")?;
    Ok(name)
}

/// How much was dropped at the socket of this name, if this line is its: its second word is the name, and its last one the count.
fn drop_count(line: &str, name: &str) -> Option<u64> {
    let mut words = line.split_whitespace();
    if words.nth(1)? != name {
        return None;
    }
    words.last()?.parse().ok()
}

/// A socket, and what the system dropped there.
#[derive(Drop)]
pub(crate) struct Drops {
    /// The counter's name.
    counter: &'static str,
    /// The socket's name in such a line, once it is known.
    name: OnceLock<String>,
    /// How many datagrams the system dropped since it was opened, since too many waited there; or UNKNOWN.
    count: AtomicU64,
}

impl Drops {
    /// Of a socket that isn't known yet, counted by this name.
    pub(crate) fn new(counter: &'static str) -> Drops
        ensures { result.counter.now ≡ counter.now }
    {
        Drops {
            counter,
            name: OnceLock::new(),
            count: AtomicU64::new(UNKNOWN),
        }
    }

    /// The socket has this address.
    pub(crate) fn watch(&self, alloc: Global, place: Addr) -> Result<(), NoMemory> {
        if let Err(other) = self.name.try_set(name(alloc, place)?) {
            drop(other);
        }
        Ok(())
    }

    /// Takes in a line, if it is of this socket.
    fn take(&self, line: &str) {
        let Some(name) = self.name.get() else {
            return;
        };
        if let Some(count) = drop_count(line, name.as_str()) {
            self.count.store(count, Ordering::SeqCst);
        }
    }

    /// Appends what was dropped until the last look, where the system told that.
    pub(crate) fn add_line(&self, alloc: Global, text: &mut String) -> Result<(), NoMemory>
        // Which count it is no contract can tell: the system does, and another thread reads it.
        ensures line { OnOk result (spec.AddsLine self.now.counter.now (string_bytes text.old) (string_bytes text.new)) }
        ensures unchanged { OnErr result (string_bytes text.new ≡ string_bytes text.old) }
    {
        let count = self.count.load(Ordering::SeqCst);
        if count == UNKNOWN {
            return Ok(());
        }
        let counter = self.counter;
        let line = format!(in alloc; "{counter} {count}\n")?;
        text.push_str(line.as_str())?;
        Ok(())
    }
}

/// Looks at what the system dropped at these sockets. Where it doesn't tell that the last look counts.
pub(crate) fn look_at_drops<R: Files>(rt: &R, alloc: Global, sockets: &[Drops]) {
    let Ok(table) = fs::open(rt, SOCKETS) else {
        return;
    };
    let Ok(reader) = BufReader::new(alloc, table) else {
        return;
    };
    for line in reader.lines(alloc).take(LINES) {
        let Ok(line) = line else {
            return;
        };
        for socket in sockets {
            socket.take(line.as_str());
        }
    }
}
