//! The numbers and words of errors and statuses.

use event_headers::HeaderError;
use sip_read::ReadError;
use sip_write::Status;
use std::io;

/// All statuses that are written.
const STATUSES: [Status; 14] = [
    Status::Ok,
    Status::Accepted,
    Status::BadRequest,
    Status::Forbidden,
    Status::NotFound,
    Status::MethodNotAllowed,
    Status::NotAcceptable,
    Status::UnsupportedUriScheme,
    Status::BadExtension,
    Status::IntervalTooBrief,
    Status::CallDoesNotExist,
    Status::BadEvent,
    Status::ServerInternalError,
    Status::ServiceUnavailable,
];

/// Tells the numbers of errors, and the number and the words of each status.
pub(crate) fn tell_all(rt: &impl Print) -> io::Result<()> {
    let error = ReadError::NoMemory;
    println!(rt;
        "grammar {}, too large {}, no memory {}\nerror {}: {error}",
        HeaderError::Grammar.number(),
        HeaderError::TooLarge.number(),
        HeaderError::NoMemory.number(),
        error.number()
    )?;
    for status in STATUSES {
        println!(rt; "{} {}", status.code(), status.phrase())?;
    }
    Ok(())
}
