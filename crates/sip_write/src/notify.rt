//! NOTIFYs.
ghost use Rattle.std.specs.Prelude.{◌≡◌, ◌++◌, IfOk, OnOk, OnErr};
ghost use Rattle.sip_write.specs.Notify.{notify_text};
ghost use Rattle.sip_write.specs.Views.{notify_view};

use crate::page::{Page, texts_room};
use event_headers::{EventValue, StateValue};
use sip_read::Addr;
use sip_text::{NoMemory, Octets, Text};
use std::alloc::Global;

/// Room for what stands around the values of a NOTIFY: names of headers, addresses and numbers.
const FRAME: usize = 400;

/// What a NOTIFY says (RFC 6665 section 4.2.2).
#[derive(Drop)]
pub struct NotifyText<'a> {
    /// The Request-URI: the subscriber's Contact.
    pub target: &'a str,
    /// The route set, in order.
    pub routes: &'a [Text],
    /// The address of this server.
    pub me: Addr,
    /// The party of this server, without its tag.
    pub local: &'a str,
    /// The tag of this server: it tells the subscription.
    pub local_tag: &'a str,
    /// The party of the subscriber, as written.
    pub remote: &'a str,
    /// The Call-ID of the subscription.
    pub call_id: &'a str,
    /// The number of its CSeq.
    pub number: u32,
    /// The event package, and the id.
    pub event: &'a EventValue,
    /// The state of the subscription.
    pub state: &'a StateValue,
    /// The media type of the body.
    pub content_type: &'a str,
    /// The body.
    pub body: &'a [u8],
}

/// About how many bytes a NOTIFY has: enough for the usual one.
fn room_of(n: &NotifyText<'_>) -> usize {
    let texts = [
        n.target,
        n.local,
        n.local_tag,
        n.local_tag,
        n.remote,
        n.call_id,
        n.event.package(),
        n.state.word(),
        n.content_type,
    ];
    let mut room = FRAME.saturating_add(n.body.len());
    for text in texts.iter() {
        room = room.saturating_add(text.len());
    }
    room.saturating_add(texts_room(n.routes))
}

/// A NOTIFY (RFC 6665 section 4.2.2), in bytes.
pub fn notice(alloc: Global, n: &NotifyText<'_>) -> Result<Octets, NoMemory>
    ensures { IfOk result (λ octets. octets ≡ notify_text (notify_view n.now)) }
{
    let mut page = Page::new(alloc, room_of(n));
    page.put("NOTIFY ");
    page.put(n.target);
    page.put(" SIP/2.0");
    page.end_line();
    page.put_name("Via");
    page.put("SIP/2.0/UDP ");
    page.put_addr(&n.me);
    page.put(";branch=z9hG4bK-");
    page.put(n.local_tag);
    page.put("-");
    page.put_number(u64::from(n.number));
    page.end_line();
    page.put_header("Max-Forwards", "70");
    page.put_headers("Route", n.routes);
    page.put_party("From", n.local, Some(n.local_tag));
    page.put_header("To", n.remote);
    page.put_call(n.call_id, n.number, "NOTIFY");
    page.put_contact(&n.me);
    page.put_name("Event");
    page.put(n.event.package());
    page.put_parameter("id", n.event.id());
    page.end_line();
    page.put_name("Subscription-State");
    page.put(n.state.word());
    page.put_seconds_parameter("expires", n.state.expires());
    page.put_parameter("reason", n.state.reason());
    page.put_seconds_parameter("retry-after", n.state.retry_after());
    page.end_line();
    page.put_header("Content-Type", n.content_type);
    page.put_count("Content-Length", n.body.len() as u64);
    page.end_line();
    page.put_bytes(n.body);
    page.octets()
}

/// Appends a NOTIFY. After [`NoMemory`] `out` has the items that it had.
pub fn write_notify(alloc: Global, n: &NotifyText<'_>, out: &mut Vec<u8>) -> Result<(), NoMemory>
    ensures ok { OnOk result (out.new.items ≡ out.old.items ++ notify_text (notify_view n.now)) }
    ensures err { OnErr result (out.new.items ≡ out.old.items) }
{
    let octets = notice(alloc, n)?;
    out.extend_from_slice(octets.as_slice())?;
    Ok(())
}
