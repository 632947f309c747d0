//! Answers to a request, and NOTIFYs to the subscriber who sent one. What is written takes its values from the request as it was
//! read, and else from here.

use crate::messages::look::as_text;
use event_headers::{EventValue, StateValue};
use sip_read::{Addr, Head, Request};
use sip_text::{Field, NoMemory};
use sip_write::{Answer, NotifyText, Status, write_notify, write_response};
use std::alloc::Global;

const ME: Addr = Addr {
    ip: [127, 0, 0, 1],
    port: 5060,
};

const TAG: &str = "w0-1-76b8e0ada0f13d90";

/// What is written.
#[derive(Clone, Copy)]
pub(crate) enum Example {
    /// A subscription is accepted, with Contact and Expires.
    Accepted,
    /// A transfer is granted without a subscription, which is told.
    WithoutSubscription,
    /// A subscription for too short a time is told the shortest.
    TooBrief,
    /// There is nobody; the request came from port 40000.
    NotFound,
    /// Routes and lower Vias stand on lines of their own, and a tag stays.
    Routed,
    /// Methods are joined by commas.
    Methods,
    /// Packages are joined by commas.
    Packages,
    /// Option tags are joined by commas.
    Options,
    /// The same with a tag, to a request from port 40000.
    TaggedOptions,
    /// The first NOTIFY of a mailbox.
    OfMailbox,
    /// The third NOTIFY of a transfer: a route set stands between Max-Forwards and From.
    OfTransfer,
    /// A NOTIFY of a transfer that goes on.
    OfOpenTransfer,
}

/// What is told where a refused growth did not leave the bytes as they were.
pub(crate) const LEFT: &str = "bytes were left behind";

/// An answer with no line but those that every answer has, that there is nobody.
fn bare(head: &Head, port: u16) -> Answer<'_> {
    let source = Addr {
        ip: [127, 0, 0, 1],
        port,
    };
    Answer::bare(head, source, None, Status::NotFound)
}

/// The answer of an example that grants something, from the address of this server and with its tag.
fn grant_of(example: Example, request: &Request) -> Answer<'_> {
    let mut answer = bare(&request.head, 5070);
    answer.status = Status::Accepted;
    answer.tag = Some(TAG);
    answer.contact = Some(ME);
    match example {
        Example::WithoutSubscription => answer.without_subscription = true,
        Example::Routed => answer.record_routes = request.record_routes.as_slice(),
        _ => {
            answer.status = Status::Ok;
            answer.expires = Some(3600);
        }
    }
    answer
}

/// The answer of an example that refuses; to the other examples that there is nobody.
fn refusal_of(example: Example, head: &Head) -> Answer<'_> {
    let is_far = matches!(example, Example::TaggedOptions | Example::NotFound);
    let mut answer = bare(head, if is_far { 40000 } else { 5070 });
    match example {
        Example::TooBrief => {
            answer.status = Status::IntervalTooBrief;
            answer.tag = Some("w0-0");
            answer.min_expires = Some(60);
        }
        Example::Methods => {
            answer.status = Status::MethodNotAllowed;
            answer.allow = Some(&["SUBSCRIBE", "REFER"]);
        }
        Example::Packages => {
            answer.status = Status::BadEvent;
            answer.allow_events = Some(&["message-summary", "refer"]);
        }
        Example::Options => {
            answer.status = Status::BadExtension;
            answer.unsupported = Some(&["foo", "bar"]);
        }
        Example::TaggedOptions => {
            answer.status = Status::BadExtension;
            answer.tag = Some("w0-0");
            answer.unsupported = Some(&["foo", "bar"]);
        }
        _ => {}
    }
    answer
}

/// The state of an example's subscription.
fn state_of(alloc: Global, example: Example) -> Result<StateValue, NoMemory> {
    match example {
        Example::OfMailbox => StateValue::worded(alloc, "active", Some(3600), None, None),
        Example::OfOpenTransfer => StateValue::worded(alloc, "active", Some(180), None, None),
        _ => StateValue::worded(alloc, "terminated", None, Some("noresource"), None),
    }
}

/// The NOTIFY of an example: the first of a mailbox, else the third of a transfer, with the routes of its request.
fn notify_of<'a>(
    example: Example,
    request: &'a Request,
    event: &'a EventValue,
    state: &'a StateValue,
) -> NotifyText<'a> {
    let mut text = NotifyText {
        target: "sip:alice@127.0.0.1:5070",
        routes: request.record_routes.as_slice(),
        me: ME,
        local: "<sip:bob@127.0.0.1>",
        local_tag: TAG,
        remote: "<sip:alice@127.0.0.1>;tag=f1",
        call_id: "c7",
        number: 3,
        event,
        state,
        content_type: "message/sipfrag;version=2.0",
        body: b"SIP/2.0 200 OK\r\n",
    };
    if let Example::OfMailbox = example {
        text.local = "<sip:alice@127.0.0.1>";
        text.call_id = "c1";
        text.number = 1;
        text.content_type = "application/simple-message-summary";
        text.body = b"Messages-Waiting: no\r\n";
    }
    text
}

/// Appends a NOTIFY about the event of a request. Nothing, where it has none.
fn append_notify(
    alloc: Global,
    example: Example,
    request: &Request,
    out: &mut Vec<u8>,
) -> Result<(), NoMemory> {
    let Field::Value(event) = &request.event else {
        return Ok(());
    };
    let state = state_of(alloc, example)?;
    write_notify(alloc, &notify_of(example, request, event, &state), out)
}

/// Appends what an example writes.
fn append(
    alloc: Global,
    example: Example,
    request: &Request,
    out: &mut Vec<u8>,
) -> Result<(), NoMemory> {
    match example {
        Example::OfMailbox | Example::OfTransfer | Example::OfOpenTransfer => {
            append_notify(alloc, example, request, out)
        }
        Example::Accepted | Example::WithoutSubscription | Example::Routed => {
            write_response(alloc, &grant_of(example, request), out)
        }
        _ => write_response(alloc, &refusal_of(example, &request.head), out),
    }
}

/// What an example writes behind a byte that stays, as a text. Where memory is short, the bytes are as they were.
pub(crate) fn written_for(
    alloc: Global,
    example: Example,
    request: &Request,
) -> Result<String, NoMemory> {
    let mut out = Vec::from_slice(alloc, b">")?;
    let appended = append(alloc, example, request, &mut out);
    if appended.is_err() && out.as_slice() == b">".as_slice() {
        return Err(NoMemory);
    }
    match as_text(out.as_slice()).strip_prefix('>') {
        Some(written) if appended.is_ok() => Ok(String::from_str(alloc, written)?),
        _ => Ok(String::from_str(alloc, LEFT)?),
    }
}
