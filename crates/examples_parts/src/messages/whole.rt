//! Whole messages: all that is read of them, and what is written to them, each beside a file that says what is wanted.

use crate::messages::look::{Look, look_at, no_memory};
use crate::messages::written::Example;
use std::rt::Files;
use std::{fs, io};

/// A datagram, how it is looked at, and the file that says what is then told. The same answers and NOTIFY are read and written.
const MESSAGES: [(&str, Look, &str); 16] = [
    ("subscribe.dat", Look::Fields, "subscribe.read"),
    ("answer.dat", Look::Fields, "answer.read"),
    ("notify.dat", Look::Fields, "notify.read"),
    ("too_brief.dat", Look::Fields, "too_brief.read"),
    ("refer.dat", Look::Fields, "refer.read"),
    // compact names, a folded Event, a name in small letters and no length say what long names say, each line in one piece
    ("compact.dat", Look::Fields, "compact.read"),
    ("plain.dat", Look::Fields, "compact.read"),
    (
        "subscribe.dat",
        Look::Written(Example::Accepted),
        "answer.dat",
    ),
    (
        "subscribe.dat",
        Look::Written(Example::WithoutSubscription),
        "without_subscription.dat",
    ),
    (
        "subscribe.dat",
        Look::Written(Example::TooBrief),
        "too_brief.dat",
    ),
    (
        "subscribe.dat",
        Look::Written(Example::Methods),
        "methods.dat",
    ),
    (
        "subscribe.dat",
        Look::Written(Example::Packages),
        "packages.dat",
    ),
    (
        "subscribe.dat",
        Look::Written(Example::Options),
        "options.dat",
    ),
    (
        "subscribe.dat",
        Look::Written(Example::OfMailbox),
        "notify.dat",
    ),
    (
        "routed.dat",
        Look::Written(Example::Routed),
        "routed_answer.dat",
    ),
    (
        "transfer.dat",
        Look::Written(Example::OfTransfer),
        "transfer_notify.dat",
    ),
];

/// Tells of a datagram whether what is told is what the file says, and of how many bytes that file is.
fn tell(
    rt: &(impl Files + Print + AllocGlobal),
    datagram: &str,
    look: Look,
    wanted: &str,
) -> io::Result<()> {
    let bytes = fs::read(rt, datagram)?;
    let text = fs::read_to_string(rt, wanted)?;
    let told = look_at(rt.alloc(), bytes.as_slice(), look).map_err(no_memory)?;
    if told.as_str() == text.as_str() {
        println!(rt; "{datagram}: as {wanted} says, {} bytes", text.len())
    } else {
        println!(rt; "{datagram}: NOT AS {wanted} SAYS: {told}")
    }
}

/// Tells of all of them.
pub(crate) fn tell_all(rt: &(impl Files + Print + AllocGlobal)) -> io::Result<()> {
    for (datagram, look, wanted) in MESSAGES {
        tell(rt, datagram, look, wanted)?;
    }
    Ok(())
}
