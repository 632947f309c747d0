//! The hashes of digest authentication.
ghost use Rattle.std.specs.Prelude.{◌≡◌, IfOk};
ghost use Rattle.digest.specs.Algorithms.{algorithm_text, hexed};

use md5::Md5;
use sha2::Sha256;
use sip_text::{NoMemory, Text};
use std::alloc::Global;

/// A hash of digest authentication (RFC 8760 section 2.1).
#[derive(Clone, Copy, Debug, PartialEq, Eq, Drop)]
pub enum Algorithm {
    /// `MD5`.
    Md5,
    /// `SHA-256`.
    Sha256,
}

impl Algorithm {
    /// The word that names it.
    pub fn name(self) -> &'static str
        ensures { result.now ≡ algorithm_text self }
    {
        match self {
            Algorithm::Md5 => "MD5",
            Algorithm::Sha256 => "SHA-256",
        }
    }

    /// H(text): its hash in hex digits, in small letters. Its error is want of memory.
    pub fn hexed(self, alloc: Global, text: &str) -> Result<Text, NoMemory>
        ensures { IfOk result (λ t. t ≡ hexed self text.now) }
    {
        let digits = match self {
            Algorithm::Md5 => {
                let digest = <Md5 as md5::Digest>::digest(text.as_bytes());
                hex::encode(alloc, digest.as_slice())?
            }
            Algorithm::Sha256 => {
                let digest = <Sha256 as sha2::Digest>::digest(text.as_bytes());
                hex::encode(alloc, digest.as_slice())?
            }
        };
        Ok(Text::new(digits))
    }
}
