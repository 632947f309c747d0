//! The body of a NOTIFY on a transfer: a status line (RFC 3515 section 2.4.5, RFC 3420).
ghost use Rattle.std.specs.Prelude.{◌≡◌, IfOk, string_bytes};
ghost use Rattle.package.specs.Bodies.{status_body};

use crate::status::TransferStatus;
use sip_text::NoMemory;
use std::alloc::Global;

/// How many bytes a body has room for beside the reason: the version, a code, two spaces and CRLF, so that it grows once.
const ROOM: usize = 14;

/// The status line that tells how far a transfer has come.
pub fn write_body(alloc: Global, status: &TransferStatus) -> Result<String, NoMemory>
    ensures { IfOk result (λ text. string_bytes text ≡ status_body status.now.code status.now.reason) }
{
    let code = status.code;
    let reason = status.reason.as_str();
    let mut out = String::with_capacity(alloc, reason.len() + ROOM)?;
    write!(out, "SIP/2.0 {code} {reason}\r\n")?;
    Ok(out)
}
