//! Whichever growth is refused, each call answers that memory is short, and the bytes before stay. `rt try --fail-alloc N` refuses
//! the growths in turn; each line here says true in each such run.

use crate::messages::headers::add_value;
use crate::messages::look::{Look, look_at};
use crate::messages::written::{Example, LEFT};
use event_headers::HeaderError;
use sip_text::NoMemory;
use std::alloc::Global;
use std::io;

/// A request with a value in each field but Expires and Refer-Sub.
const REQUEST: &str = "SUBSCRIBE sip:a@b SIP/2.0\r\n\
    v: SIP/2.0/UDP h;rport;branch=z\r\n ,SIP/2.0/UDP i\r\n\
    f: sip:a@b;tag=f\r\n\
    t: sip:a@b;tag=t\r\n\
    i: x\r\n\
    CSeq: 1 SUBSCRIBE\r\n\
    m: <sip:a@b>;p=1\r\n\
    r: <sip:c@d>\r\n\
    o: a;id=b\r\n\
    Accept: a/b;q=1\r\n\
    Accept: c/d\r\n\
    Require: p,q\r\n\
    Record-Route: <sip:r;lr>;p\r\n\
    \r\nxy";

/// Its fields.
const FIELDS: &str = "request SUBSCRIBE sip:a@b\n\
    via SIP/2.0/UDP h;rport;branch=z\n\
    via SIP/2.0/UDP i\n\
    sent by h\n\
    branch z\n\
    rport bare\n\
    from sip:a@b;tag=f\n\
    from tag f\n\
    to sip:a@b;tag=t\n\
    to tag t\n\
    call-id x\n\
    cseq 1 SUBSCRIBE\n\
    event a b\n\
    accept a/b c/d\n\
    contact sip:a@b\n\
    refer-to sip:c@d\n\
    expires Absent\n\
    refer-sub Absent\n\
    require p\n\
    require q\n\
    record-route <sip:r;lr>;p\n\
    body \"xy\"\n";

/// A request to be answered, and one to be told about.
const ANSWERED: &str = "SUBSCRIBE sip:alice@127.0.0.1 SIP/2.0\r\n\
    Via: SIP/2.0/UDP 10.0.0.9;rport\r\n\
    From: <sip:alice@127.0.0.1>;tag=f1\r\n\
    To: <sip:alice@127.0.0.1>\r\n\
    Call-ID: c1\r\n\
    CSeq: 1 SUBSCRIBE\r\n\
    Event: refer\r\n\
    Record-Route: <sip:p1;lr>\r\n\
    \r\n";

const SHORT: &str = "error 7: out of memory\n";

/// Whether a reading is whole, or memory was short.
fn is_read(alloc: Global) -> bool {
    match look_at(alloc, REQUEST.as_bytes(), Look::Fields) {
        Ok(told) => told.as_str() == FIELDS || told.as_str() == SHORT,
        Err(NoMemory) => true,
    }
}

/// Whether something is written, or the bytes before it stay.
fn is_written(alloc: Global, example: Example) -> bool {
    match look_at(alloc, ANSWERED.as_bytes(), Look::Written(example)) {
        Ok(told) => !told.is_empty() && told.as_str() != LEFT,
        Err(NoMemory) => true,
    }
}

/// Whether a value is written behind bytes, or memory was short and those bytes stay as they were.
fn keeps(alloc: Global, tried: &str, value: &str) -> bool {
    let Ok(mut out) = Vec::from_slice(alloc, b"kept") else {
        return true;
    };
    let mut says = String::new(alloc);
    match add_value(alloc, tried, value.as_bytes(), &mut says, &mut out).err() {
        None => true,
        Some(error) => error == HeaderError::NoMemory && out.as_slice() == b"kept".as_slice(),
    }
}

/// Values: what each is, what is tried of it, and its text.
const VALUES: [(&str, &str, &str); 6] = [
    ("an Event", "event", "refer;x=1;id=93"),
    ("a numbered Event", "numbered", ""),
    (
        "a Subscription-State",
        "state",
        "terminated;reason=timeout;retry-after=5",
    ),
    ("a worded Subscription-State", "ended", ""),
    ("an Expires", "expires", "3600"),
    ("an Accept", "accept", "*/*, text/plain;q=1"),
];

/// Tells whether each was done, or changed nothing.
pub(crate) fn tell_all(rt: &(impl Print + AllocGlobal)) -> io::Result<()> {
    let alloc = rt.alloc();
    let is_read = is_read(alloc);
    let is_answered = is_written(alloc, Example::TaggedOptions);
    let is_notified = is_written(alloc, Example::OfOpenTransfer);
    println!(rt;
        "read, or memory was short: {is_read}\nanswered, or the bytes stay: {is_answered}\nnotified, or the bytes stay: {is_notified}"
    )?;
    for (name, tried, value) in VALUES {
        let is_so = keeps(alloc, tried, value);
        println!(rt; "{name}, or the bytes stay: {is_so}")?;
    }
    Ok(())
}
