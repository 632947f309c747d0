//! A line for each request that is answered, and for each NOTIFY that nobody answered, for whoever looks why a phone isn't served.

use crate::logging::has_room;
use crate::not_taken::Loss;
use crate::shared::Shared;
use log_lines::{Dialog, Record, Request};
use sip_text::{Addr, NoMemory, text_of};
use std::alloc::Global;
use transactions::Open;

/// Behind this a To has its tag.
const TAG: &str = ";tag=";

/// The value of the first header line with this name, as messages are written: the name, a colon and a space. Empty where none is.
fn header<'a>(message: &'a str, name: &str) -> &'a str {
    for line in message.lines() {
        if let Some((found, value)) = line.split_once(": ") {
            if found == name {
                return value;
            }
        }
    }
    ""
}

/// The word behind the first space: the status code of a first line, the method of a CSeq. Empty where none is.
fn second_word(line: &str) -> &str {
    line.split(' ').nth(1).unwrap_or("")
}

/// An answer that goes to this address.
#[derive(Clone, Copy)]
pub(crate) struct Answer<'a> {
    pub(crate) to: Addr,
    pub(crate) octets: &'a [u8],
    /// Whom its request was sent to.
    pub(crate) whom: &'a str,
}

/// Whom a request was sent to, and behind that the tag of the answer's To, as a To has it.
fn whom(alloc: Global, whom: &str, answer: &str) -> Result<String, NoMemory> {
    let mut text = String::from_str(alloc, whom)?;
    let mut parts = header(answer, "To").split(TAG);
    let _before = parts.next();
    if let Some(tag) = parts.last() {
        text.push_str(TAG)?;
        text.push_str(tag)?;
    }
    Ok(text)
}

/// Says on standard error to whom this answer goes, to which method, whom that was sent to, and the status code. A line that nobody
/// reads is dropped.
pub(crate) fn log_answer<R: Eprint>(rt: &R, shared: &Shared, answer: Answer<'_>) {
    if !has_room() {
        return;
    }
    let Some(text) = text_of(answer.octets) else {
        return;
    };
    let Ok(user) = whom(shared.alloc(), answer.whom, text) else {
        return;
    };
    let request = Request::Answered {
        address: answer.to,
        method: second_word(header(text, "CSeq")),
        user: user.as_str(),
        code: second_word(text).parse::<u64>().unwrap_or(0),
    };
    shared.tell(rt, &Record::Request(request));
}

/// A NOTIFY that nobody answered.
#[derive(Clone, Copy)]
pub(crate) struct Unanswered<'a> {
    pub(crate) due: &'a Open,
    /// What its subscription watches: `-` where that has no row.
    pub(crate) resource: &'a str,
}

impl<'a> Unanswered<'a> {
    /// It as it is told.
    pub(crate) fn loss(self) -> Loss<'a> {
        let Unanswered { due, resource } = self;
        Loss {
            to: due.to,
            code: None,
            dialog: Dialog {
                mailbox: resource,
                tag: due.tag.as_str(),
            },
        }
    }
}

/// Says on standard error to whom a NOTIFY was sent that nobody answered, of which mailbox and which dialog. A line that nobody reads is
/// dropped.
pub(crate) fn log_unanswered<R: Eprint>(rt: &R, shared: &Shared, unanswered: Unanswered<'_>) {
    if !has_room() {
        return;
    }
    let Unanswered { due, resource } = unanswered;
    let request = Request::Unanswered {
        address: due.to,
        mailbox: resource,
        tag: due.tag.as_str(),
    };
    shared.tell(rt, &Record::Request(request));
}
