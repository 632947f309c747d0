//! The form in which a service's log is written.

use crate::moments::utc;
use crate::record::{LOST, Record};
use sip_text::{NoMemory, text_of};
use std::alloc::Global;
use std::rt::Clock;
use std::time::SystemTime;

/// The form of a log's lines.
#[derive(Clone, Copy, Debug, PartialEq, Eq)]
pub enum Form {
    /// For people: a line of text.
    Plain,
    /// For machines: a JSON object, at so many milliseconds after 1970 began. None: the clock can't be read.
    Json(Option<u64>),
}

/// How many milliseconds have passed since 1970 began, by the system's clock. None where that can't be read.
pub fn milliseconds<R: Clock>(rt: &R) -> Option<u64> {
    let now = SystemTime::now(rt).ok()?;
    let passed = now.duration_since(SystemTime::UNIX_EPOCH).ok()?;
    let seconds = passed.as_secs().checked_mul(1000)?;
    seconds.checked_add(u64::from(passed.subsec_millis()))
}

impl Form {
    /// That of a line that is written now.
    pub fn now<R: Clock>(rt: &R, is_json: bool) -> Form {
        if is_json {
            Form::Json(milliseconds(rt))
        } else {
            Form::Plain
        }
    }
}

/// The line of a record at this moment, or what stands for it.
fn machine_line(
    alloc: Global,
    moment: Option<u64>,
    record: &Record<'_>,
) -> Result<Vec<u8>, NoMemory> {
    match moment.and_then(utc) {
        Some(time) => record.line(alloc, Some(time.as_str())),
        None => record.line(alloc, None),
    }
}

/// Writes a line as one piece: in two, lines of several threads might mix.
fn write_line<R: Eprint>(rt: &R, line: &[u8]) {
    let _ = rt.eprint(text_of(line).unwrap_or(LOST));
}

/// Writes a record on standard error, in this form. What can't be written is dropped.
pub fn tell<R: Eprint>(rt: &R, alloc: Global, form: Form, record: &Record<'_>) {
    match form {
        Form::Plain => {
            let _ = eprintln!(rt; "notifyd: {record}");
        }
        Form::Json(moment) => match machine_line(alloc, moment, record) {
            Ok(line) => write_line(rt, line.as_slice()),
            Err(NoMemory) => write_line(rt, LOST.as_bytes()),
        },
    }
}
