//! What a datagram shows of who asks.
ghost use Rattle.std.specs.Prelude.{◌≡◌, IfOk};
ghost use Rattle.digest.specs.declared.credentials.Credentials.{Credentials as CredentialsSeen};
ghost use Rattle.admission.specs.declared.shown.Shown.TheVariants as shown;
ghost use Rattle.admission.specs.Authorization.{Shows, IsShown};

use crate::authorization::authorization;
use digest::{Credentials, CredentialsError};
use sip_text::{NoMemory, Text};
use std::alloc::Global;

/// What a datagram shows of who asks.
#[derive(Debug, Drop)]
pub(crate) enum Shown {
    /// These credentials.
    Credentials(Credentials),
    /// None.
    Absent,
    /// Some that can't be read.
    Malformed,
}

/// What the datagram shows of who asks, where this is our realm. Its only error is out of memory.
pub(crate) fn show(alloc: Global, own: &Option<Text>, octets: &[u8]) -> Result<Shown, NoMemory>
    ensures is { IfOk result (IsShown own.now octets.now) }
    ensures only { IfOk result (λ s. (c : CredentialsSeen) → Shows own.now octets.now c → s ≡ shown.Credentials c) }
{
    let Some(text) = authorization(alloc, own, octets)? else {
        return Ok(Shown::Absent);
    };
    match Credentials::read(alloc, text.as_str()) {
        Ok(credentials) => Ok(Shown::Credentials(credentials)),
        Err(CredentialsError::NoMemory) => Err(NoMemory),
        Err(_) => Ok(Shown::Malformed),
    }
}
