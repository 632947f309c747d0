//! What a datagram is read as: in one line, or field by field, a message line by line, or the number of its error and what the
//! error says.
use event_headers::{EventValue, Range};
use sip_read::{Head, Message, ReadError, Request};
use sip_text::{Field, Text, Values};
use std::alloc::{AllocError, Global};
use std::fmt;
use std::fmt::{Formatter, Write};

#[derive(Clone, Copy)]
struct Reading<'a>(&'a Result<Message, ReadError>);

impl fmt::Display for Reading<'_> {
    fn fmt<W: Write>(&self, f: &mut Formatter<W>) -> fmt::Result {
        match self.0 {
            Ok(Message::Request(request)) => write_request(f, request),
            Ok(Message::Response(response)) => {
                let reason = response.reason.as_str();
                writeln!(f, "response {} {reason}", response.status)?;
                write_head(f, &response.head)
            }
            Err(error) => writeln!(f, "error {}: {error}", error.number()),
        }
    }
}

fn some_text(text: &Option<Text>) -> &str {
    match text {
        Some(text) => text.as_str(),
        None => "none",
    }
}

fn field_text(field: &Field<Text>) -> &str {
    match field {
        Field::Value(text) => text.as_str(),
        Field::Absent => "absent",
        Field::Bad => "bad",
    }
}

fn write_texts<W: Write>(f: &mut Formatter<W>, name: &str, texts: &Values<Text>) -> fmt::Result {
    for text in texts.as_slice() {
        writeln!(f, "{name} {}", text.as_str())?;
    }
    Ok(())
}

fn write_head<W: Write>(f: &mut Formatter<W>, head: &Head) -> fmt::Result {
    write_texts(f, "via", &head.vias)?;
    let rport = if head.top.bare_rport { "bare" } else { "none" };
    writeln!(
        f,
        "sent by {}\nbranch {}\nrport {rport}\nfrom {}\nfrom tag {}\nto {}\nto tag {}\ncall-id {}\ncseq {} {}",
        head.top.sent_by.as_str(),
        some_text(&head.top.branch),
        head.from.text.as_str(),
        some_text(&head.from.tag),
        head.to.text.as_str(),
        some_text(&head.to.tag),
        head.call_id.as_str(),
        head.cseq,
        head.cseq_method.as_str()
    )
}

fn write_event<W: Write>(f: &mut Formatter<W>, event: &Field<EventValue>) -> fmt::Result {
    match event {
        Field::Value(event) => {
            let id = event.id().unwrap_or("none");
            writeln!(f, "event {} {id}", event.package())
        }
        Field::Absent => writeln!(f, "event absent"),
        Field::Bad => writeln!(f, "event bad"),
    }
}

fn write_accept<W: Write>(f: &mut Formatter<W>, accept: &Field<Values<Range>>) -> fmt::Result {
    match accept {
        Field::Value(ranges) => {
            write!(f, "accept")?;
            for range in ranges.as_slice() {
                write!(f, " {}/{}", range.main(), range.sub())?;
            }
            writeln!(f)
        }
        Field::Absent => writeln!(f, "accept absent"),
        Field::Bad => writeln!(f, "accept bad"),
    }
}

/// What stands in the lines of a request between those of its head and its routes.
fn write_fields<W: Write>(f: &mut Formatter<W>, request: &Request) -> fmt::Result {
    write_event(f, &request.event)?;
    write_accept(f, &request.accept)?;
    writeln!(
        f,
        "contact {}\nrefer-to {}\nexpires {:?}\nrefer-sub {:?}",
        field_text(&request.contact),
        field_text(&request.refer_to),
        request.expires,
        request.refer_sub
    )
}

/// Its body as a text, if it is one.
fn write_request<W: Write>(f: &mut Formatter<W>, request: &Request) -> fmt::Result {
    let method = request.method.as_str();
    writeln!(f, "request {method} {}", request.uri.as_str())?;
    write_head(f, &request.head)?;
    write_fields(f, request)?;
    write_texts(f, "require", &request.require)?;
    write_texts(f, "record-route", &request.record_routes)?;
    let body = request.body.as_slice();
    match str::from_utf8(body) {
        Ok(text) => writeln!(f, "body {text:?}"),
        Err(_) => writeln!(f, "body {body:?}"),
    }
}

/// The fields of what was read, a line each.
pub(crate) fn fields_of(
    alloc: Global,
    read: &Result<Message, ReadError>,
) -> Result<String, AllocError> {
    format!(in alloc; "{}", Reading(read))
}

/// What was read in one line: of a message its parts, else why it is refused.
pub(crate) fn summary_of(
    alloc: Global,
    read: &Result<Message, ReadError>,
) -> Result<String, AllocError> {
    match read {
        Ok(Message::Request(request)) => {
            format!(in alloc;
                "{}, {} Via, CSeq {} {}, Contact {}, body of {}",
                request.method.as_str(),
                request.head.vias.as_slice().len(),
                request.head.cseq,
                request.head.cseq_method.as_str(),
                field_text(&request.contact),
                request.body.as_slice().len()
            )
        }
        Ok(Message::Response(response)) => {
            format!(in alloc;
                "answer {}, {} Via, CSeq {} {}",
                response.status,
                response.head.vias.as_slice().len(),
                response.head.cseq,
                response.head.cseq_method.as_str()
            )
        }
        Err(error) => format!(in alloc; "refused: {error}"),
    }
}
