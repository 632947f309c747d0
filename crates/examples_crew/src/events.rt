//! What phones and the voicemail system send.

use crate::error::RunError;
use crate::page::Page;
use feeds::{Heard, hear_sip};
use notifier_model::Event;
use package::{Class, MailChange};
use sip_text::Addr;
use std::alloc::Global;

/// The address that each request comes from.
pub(crate) const PHONE: Addr = Addr {
    ip: [127, 0, 0, 1],
    port: 5070,
};

/// The SUBSCRIBE of a phone for this mailbox, with this Call-ID: in the dialog with this tag of the notifier, or in none yet.
/// Its branch is of the Call-ID and the CSeq number.
pub(crate) fn subscribe<'a>(
    alloc: Global,
    mailbox: &'a str,
    call: &'a str,
    tag: &'a str,
) -> Result<Event, RunError> {
    let (name, cseq) = if tag.is_empty() {
        ("", "1")
    } else {
        (";tag=", "2")
    };
    let mut page = Page::new(alloc);
    page.say_all(&["SUBSCRIBE sip:", mailbox, "@127.0.0.1 SIP/2.0\r\n"]);
    page.say_all(&[
        "Via: SIP/2.0/UDP 127.0.0.1:5070;branch=z9hG4bK",
        call,
        "-",
        cseq,
    ]);
    page.say("\r\nMax-Forwards: 70\r\nFrom: <sip:phone@127.0.0.1>;tag=f\r\n");
    page.say_all(&["To: <sip:", mailbox, "@127.0.0.1>", name, tag]);
    page.say_all(&["\r\nCall-ID: ", call, "\r\nCSeq: ", cseq, " SUBSCRIBE\r\n"]);
    page.say("Contact: <sip:phone@127.0.0.1:5070>\r\nEvent: message-summary\r\n");
    page.say("Content-Length: 0\r\n\r\n");
    match hear_sip(alloc, PHONE, page.text()?.as_bytes()) {
        Heard::Event(event) => Ok(event),
        Heard::Unread | Heard::Close => Err(RunError::NoEvent),
    }
}

/// So many new messages of this class in this mailbox.
pub(crate) fn mail(
    alloc: Global,
    mailbox: &str,
    class: Class,
    new_count: u32,
) -> Result<Event, RunError> {
    let name = String::from_str(alloc, mailbox)?;
    match MailChange::new(name, class, new_count, 0, 0, 0) {
        Some(change) => Ok(Event::Mail(change)),
        None => Err(RunError::NoEvent),
    }
}
