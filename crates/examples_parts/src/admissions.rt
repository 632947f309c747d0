//! Worked examples of digest authentication, and of who is heard. Of each a line says what came of it; of a 401 and a 403 the bytes follow. The
//! nonces and responses were made by Python's hashlib.
//!
//! - [`vectors`] has the examples of RFC 2617 section 3.5, RFC 7616 section 3.9.1 and RFC 2069 section 2.4 (with the response of its erratum).
//!   The hashes of their passwords and their responses were checked by Python's hashlib.
//! - [`values`] has values of `Authorization`, most of them wrong in one thing, each with the number of its error.
//! - [`visits`] has requests that a guard judges, and its challenges.
//! - [`datagrams`] has datagrams that an admission judges.

mod datagrams;
mod people;
mod values;
mod vectors;
mod visits;

use std::io;
use std::random::RandomSource;

/// Tells of every example.
pub(crate) fn tell_all(rt: &(impl Print + AllocGlobal + RandomSource)) -> io::Result<()> {
    vectors::tell_all(rt)?;
    values::tell_all(rt)?;
    visits::tell_all(rt)?;
    datagrams::tell_all(rt)
}
