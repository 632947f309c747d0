//! Wires in memory, for tests.
ghost use Rattle.std.specs.Prelude.{◌≡◌, ◌≤◌, ◌++◌, ◌∷◌, ◌||◌, [], false, length, max, reverse, None, Some, MatchResult};
ghost use Rattle.transport.specs.Devices.{one_more};
ghost use Rattle.transport.specs.Ears.{is_lost};
ghost use Rattle.transport.specs.Wires.{datagram};

use crate::datagram::Datagram;
use crate::ear::{Ear, ReceiveFault};
use crate::wire::{Wire, WireFault};
use sip_text::{Addr, NoMemory, Octets};
use std::alloc::Global;
use std::sync::Wait;

/// The number of the fault where none is left: EBADF, that of a descriptor that is closed.
const NONE_LEFT: u32 = 9;

/// The number of a fault that passes: ENOBUFS, where the system has no room.
const NO_ROOM: u32 = 105;

/// A wire in memory, which tells what it gave and took. It gives the datagrams that it was made with, in order, and fails where
/// none is left, or memory runs out; a receive and a send can be set to fail.
#[derive(Drop)]
pub struct MemoryWire {
    alloc: Global,
    // the next one last
    coming: Vec<Datagram>,
    given: Vec<Datagram>,
    taken: Vec<Datagram>,
    failures: u64,
    row: u64,
    most: u64,
    is_lost: bool,
    // how many receives and sends are left up to the one that fails
    receives: Option<u64>,
    sends: Option<u64>,
}

/// Counts a call, and tells whether it is the one that is to fail.
fn is_due(left: &mut Option<u64>) -> bool {
    match *left {
        Some(0) => {
            *left = None;
            true
        }
        Some(count) => {
            *left = Some(count - 1);
            false
        }
        None => false,
    }
}

impl MemoryWire {
    /// A wire that is to give these datagrams.
    pub fn new(alloc: Global, mut coming: Vec<Datagram>) -> MemoryWire
        ensures coming { result.coming.items ≡ reverse coming.items }
        ensures given { result.given.items ≡ [] }
        ensures taken { result.taken.items ≡ [] }
        ensures failures { result.failures ≡ 0 }
        ensures row { result.row ≡ 0 }
        ensures most { result.most ≡ 0 }
        ensures lost { result.is_lost ≡ false }
        ensures receives { result.receives ≡ None }
        ensures sends { result.sends ≡ None }
    {
        coming.reverse();
        MemoryWire {
            alloc,
            coming,
            given: Vec::new(alloc),
            taken: Vec::new(alloc),
            failures: 0,
            row: 0,
            most: 0,
            is_lost: false,
            receives: None,
            sends: None,
        }
    }

    /// Has a receive fail, after so many others.
    pub fn fail_receive(&mut self, after: u64)
        ensures given { self.new.given ≡ self.old.given }
        ensures taken { self.new.taken ≡ self.old.taken }
        ensures failures { self.new.failures ≡ self.old.failures }
        ensures set { self.new ≡ record self.old { receives = Some after } }
    {
        self.receives = Some(after);
    }

    /// Has a send fail, after so many others.
    pub fn fail_send(&mut self, after: u64)
        ensures given { self.new.given ≡ self.old.given }
        ensures taken { self.new.taken ≡ self.old.taken }
        ensures failures { self.new.failures ≡ self.old.failures }
        ensures set { self.new ≡ record self.old { sends = Some after } }
    {
        self.sends = Some(after);
    }

    /// The datagrams that it has given, in order.
    pub fn given(&self) -> &[Datagram]
        ensures { result.now ≡ self.now.given.items }
    {
        self.given.as_slice()
    }

    /// The datagrams that it has taken, in order.
    pub fn taken(&self) -> &[Datagram]
        ensures { result.now ≡ self.now.taken.items }
    {
        self.taken.as_slice()
    }

    /// Counts a failure.
    fn fail(&mut self) -> WireFault
        ensures given { self.new.given ≡ self.old.given }
        ensures taken { self.new.taken ≡ self.old.taken }
        ensures failures { self.new.failures ≡ one_more self.old.failures }
        ensures row { self.new.row ≡ self.old.row }
        ensures most { self.new.most ≡ self.old.most }
        ensures lost { self.new.is_lost ≡ self.old.is_lost }
    {
        self.failures = self.failures.saturating_add(1);
        WireFault
    }

    /// Counts a receive in time that failed so.
    fn miss(&mut self, number: Option<u32>) -> ReceiveFault
        ensures given { self.new.given ≡ self.old.given }
        ensures taken { self.new.taken ≡ self.old.taken }
        ensures failures { self.new.failures ≡ one_more self.old.failures }
        ensures row { self.new.row ≡ one_more self.old.row }
        ensures most { self.new.most ≡ max self.old.most (one_more self.old.row) }
        ensures lost { self.new.is_lost ≡ (self.old.is_lost || is_lost result) }
    {
        let fault = ReceiveFault { number };
        let _ = self.fail();
        self.row = self.row.saturating_add(1);
        self.most = self.most.max(self.row);
        self.is_lost = self.is_lost || fault.is_lost();
        fault
    }

    /// Counts a receive in time that didn't fail.
    fn hear(&mut self)
        ensures given { self.new.given ≡ self.old.given }
        ensures taken { self.new.taken ≡ self.old.taken }
        ensures failures { self.new.failures ≡ self.old.failures }
        ensures row { self.new.row ≡ 0 }
        ensures most { self.new.most ≡ self.old.most }
        ensures lost { self.new.is_lost ≡ self.old.is_lost }
    {
        self.row = 0;
    }
}

impl Wire for MemoryWire {
    ghost given = { λ w. Some w.given.items };

    ghost taken = { λ w. Some w.taken.items };

    ghost failures = { λ w. w.failures };

    fn recv<R: Wait>(&mut self, _rt: &R, octets: &mut [u8]) -> Result<(usize, Addr), WireFault> {
        if is_due(&mut self.receives) {
            return Err(self.fail());
        }
        let Some(
            Datagram {
                peer,
                octets: coming,
            },
        ) = self.coming.pop()
        else {
            return Err(self.fail());
        };
        let length = fill(octets, coming.as_slice());
        match keep(self.alloc, &mut self.given, peer, &octets[..length]) {
            Ok(()) => Ok((length, peer)),
            Err(_) => Err(self.fail()),
        }
    }

    fn send<R: Wait>(&mut self, _rt: &R, to: Addr, octets: &[u8]) -> Result<(), WireFault> {
        if is_due(&mut self.sends) {
            return Err(self.fail());
        }
        match keep(self.alloc, &mut self.taken, to, octets) {
            Ok(()) => Ok(()),
            Err(_) => Err(self.fail()),
        }
    }
}

impl Ear for MemoryWire {
    ghost misses = { λ w. record { row = w.row; most = w.most; lost = w.is_lost } };

    fn place(&self) -> Option<Addr> {
        None
    }

    fn row(&self) -> u64 {
        self.row
    }

    fn recv_in_time<R: Wait>(
        &mut self,
        _rt: &R,
        octets: &mut [u8],
    ) -> Result<Option<(usize, Addr)>, ReceiveFault> {
        if is_due(&mut self.receives) {
            return Err(self.miss(Some(NO_ROOM)));
        }
        let Some(
            Datagram {
                peer,
                octets: coming,
            },
        ) = self.coming.pop()
        else {
            return Err(self.miss(Some(NONE_LEFT)));
        };
        let length = fill(octets, coming.as_slice());
        if keep(self.alloc, &mut self.given, peer, &octets[..length]).is_err() {
            return Err(self.miss(None));
        }
        self.hear();
        Ok(Some((length, peer)))
    }
}

/// Keeps a copy of a datagram as the last of these.
fn keep(alloc: Global, kept: &mut Vec<Datagram>, peer: Addr, octets: &[u8]) -> Result<(), NoMemory>
    ensures { MatchResult result
        (λ _. kept.new.items ≡ kept.old.items ++ datagram peer octets.now ∷ [])
        (λ _. kept.new.items ≡ kept.old.items) }
{
    let copy = Vec::from_slice(alloc, octets)?;
    kept.push(Datagram {
        peer,
        octets: Octets::new(copy),
    })?;
    Ok(())
}

/// Copies as many bytes as there is room for, and tells how many.
fn fill(room: &mut [u8], bytes: &[u8]) -> usize
    ensures { result ≤ length room.new }
{
    let length = room.len().min(bytes.len());
    room[..length].copy_from_slice(&bytes[..length]);
    length
}
