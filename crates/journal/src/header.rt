//! What a file begins with.
ghost use Rattle.std.specs.Prelude.{◌≡◌};
ghost use Rattle.sip_text.specs.Bytes.{Finds};
ghost use Rattle.journal.specs.Records.{header_text, header_at, seed_of, IsHeader};

use sip_text::{Addr, NoMemory, Octets, Text};
use snapshots::form::{Form, put_bytes};
use std::alloc::Global;

/// What a file begins with: what wrote it, and where.
#[derive(Drop)]
pub struct Header {
    /// The version of the program that wrote it.
    pub version: Text,
    /// How many workers it had.
    pub workers: u32,
    /// From which the digits of its local tags are drawn.
    pub seed: [u8; 32],
    /// Where its datagrams came in.
    pub listen: Addr,
    /// Where phones reached it.
    pub contact: Addr,
    /// Which start of the machine it ran in: whether that one still lasts tells whether the file's end may be lost.
    pub boot: Text,
}

/// The seed that these bytes are, where they are 32.
#[tactic(auto, unfolding(crate::specs::Records::seed_of))]
fn seed_from(bytes: &[u8]) -> Option<[u8; 32]>
    ensures { Finds (λ x. x) result (seed_of bytes.now) }
{
    match <[u8; 32]>::try_from(bytes) {
        Ok(seed) => Some(seed),
        Err(_) => None,
    }
}

type HeaderParts = (Text, (u32, (Octets, (Addr, (Addr, Text)))));

impl Form for Header {
    ghost text = { header_text };

    ghost at = { header_at };

    ghost Fits = { IsHeader };

    fn fits(&self) {
        self.version.fits();
        self.workers.fits();
        let _seed = self.seed;
        self.listen.fits();
        self.contact.fits();
        self.boot.fits();
    }

    fn put(&self, alloc: Global, out: &mut Vec<u8>) -> Result<(), NoMemory> {
        self.version.put(alloc, out)?;
        self.workers.put(alloc, out)?;
        put_bytes(&self.seed, out)?;
        self.listen.put(alloc, out)?;
        self.contact.put(alloc, out)?;
        self.boot.put(alloc, out)?;
        Ok(())
    }

    #[tactic(auto, unfolding(crate::specs::Records::header_at, crate::specs::Records::header_of))]
    fn cut(alloc: Global, bytes: &[u8]) -> Result<Option<(Header, &[u8])>, NoMemory> {
        let Some((parts, rest)) = HeaderParts::cut(alloc, bytes)? else {
            return Ok(None);
        };
        let (version, (workers, (seed, (listen, (contact, boot))))) = parts;
        let Some(seed) = seed_from(seed.as_slice()) else {
            return Ok(None);
        };
        let header = Header {
            version,
            workers,
            seed,
            listen,
            contact,
            boot,
        };
        Ok(Some((header, rest)))
    }
}
