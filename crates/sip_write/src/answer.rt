//! Answers.
ghost use Rattle.std.specs.Prelude.{◌≡◌, ◌++◌, IfOk, OnOk, OnErr, codes, decimal, option_map, map};
ghost use Rattle.event_headers.specs.Written.{comma_joined};
ghost use Rattle.sip_write.specs.Lines.{joined, header_of, contact_text};
ghost use Rattle.sip_write.specs.Answer.{answer_text, bare, via_lines, added_tag, option_lines, refer_sub_text};
ghost use Rattle.sip_write.specs.Pages.{Puts};
ghost use Rattle.sip_write.specs.Views.{answer_view};

use crate::page::{Page, texts_room};
use crate::status::Status;
use crate::via::put_top_via;
use sip_read::{Addr, Head, Party};
use sip_text::{NoMemory, Octets, Text};
use std::alloc::Global;

/// Room for what stands around the values of an answer: names of headers, addresses and numbers.
const FRAME: usize = 320;

/// An answer to a request (RFC 3261 section 8.2.6).
#[derive(Drop)]
pub struct Answer<'a> {
    /// That of the request.
    pub head: &'a Head,
    /// Where the request came from.
    pub source: Addr,
    /// The number and the words of the first line.
    pub status: Status,
    /// The tag that a To without one gets.
    pub tag: Option<&'a str>,
    /// Copied from a request that makes a dialog (RFC 3261 section 12.1.1).
    pub record_routes: &'a [Text],
    /// The address of this server.
    pub contact: Option<Addr>,
    /// Seconds granted.
    pub expires: Option<u32>,
    /// The fewest seconds that may be asked (RFC 3261 section 20.23).
    pub min_expires: Option<u32>,
    /// Methods (RFC 3261 section 20.5).
    pub allow: Option<&'a [&'a str]>,
    /// Event packages (RFC 6665 section 8.2.2).
    pub allow_events: Option<&'a [&'a str]>,
    /// Option tags (RFC 3261 section 20.40).
    pub unsupported: Option<&'a [&'a str]>,
    /// Whether a REFER was granted without a subscription (RFC 4488 section 4).
    pub without_subscription: bool,
}

impl<'a> Answer<'a> {
    /// One without any of the optional lines. A To without a tag gets this one.
    pub fn bare(head: &'a Head, source: Addr, tag: Option<&'a str>, status: Status) -> Answer<'a>
        ensures { answer_view result ≡ bare head.now source (option_map (λ t. t.now) tag.entry) status }
    {
        Answer {
            head,
            source,
            status,
            tag,
            record_routes: &[],
            contact: None,
            expires: None,
            min_expires: None,
            allow: None,
            allow_events: None,
            unsupported: None,
            without_subscription: false,
        }
    }
}

/// Puts the Via lines.
fn put_vias(page: &mut Page, head: &Head, source: &Addr)
    ensures { Puts page.old (joined (via_lines source.now head.now.top head.now.vias)) page.new }
{
    if let [first, others @ ..] = head.vias.as_slice() {
        put_top_via(page, first.as_str(), &head.top, source);
        page.put_headers("Via", others);
    }
}

/// The tag that the To gets.
fn tag_to_add<'a>(to: &Party, tag: Option<&'a str>) -> Option<&'a str>
    ensures { option_map (λ t. t.now) result ≡ added_tag to.now.tag (option_map (λ t. t.now) tag.entry) }
{
    match &to.tag {
        Some(_) => None,
        None => tag,
    }
}

fn put_contact_of(page: &mut Page, contact: Option<Addr>)
    ensures { Puts page.old (joined (header_of (codes "Contact") (option_map contact_text contact))) page.new }
{
    if let Some(me) = contact {
        page.put_contact(&me);
    }
}

fn put_seconds(page: &mut Page, name: &str, seconds: Option<u32>)
    ensures { Puts page.old (joined (header_of name.now (option_map decimal seconds))) page.new }
{
    if let Some(seconds) = seconds {
        page.put_count(name, u64::from(seconds));
    }
}

fn put_list_of(page: &mut Page, name: &str, texts: Option<&[&str]>)
    ensures { Puts page.old (joined (header_of name.now
        (option_map comma_joined (option_map (λ ts. map (λ t. t.now) ts.now) texts.entry)))) page.new }
{
    if let Some(texts) = texts {
        page.put_list(name, texts);
    }
}

/// Puts the line of a REFER that was granted without a subscription.
fn put_refer_sub(page: &mut Page, without_subscription: bool)
    ensures { Puts page.old (joined (header_of (codes "Refer-Sub") (refer_sub_text without_subscription))) page.new }
{
    if without_subscription {
        page.put_header("Refer-Sub", "false");
    }
}

/// Puts the lines that only some answers have.
fn put_options(page: &mut Page, a: &Answer<'_>)
    ensures { Puts page.old (joined (option_lines (answer_view a.now))) page.new }
{
    put_contact_of(page, a.contact);
    put_seconds(page, "Expires", a.expires);
    put_seconds(page, "Min-Expires", a.min_expires);
    put_list_of(page, "Allow", a.allow);
    put_list_of(page, "Allow-Events", a.allow_events);
    put_list_of(page, "Unsupported", a.unsupported);
    put_refer_sub(page, a.without_subscription);
}

/// About how many bytes an answer has: enough for the usual one.
fn room_of(a: &Answer<'_>) -> usize {
    let head = a.head;
    FRAME
        .saturating_add(texts_room(head.vias.as_slice()))
        .saturating_add(texts_room(a.record_routes))
        .saturating_add(head.from.text.as_str().len())
        .saturating_add(head.to.text.as_str().len())
        .saturating_add(head.call_id.as_str().len())
        .saturating_add(head.cseq_method.as_str().len())
}

/// An answer (RFC 3261 section 8.2.6), in bytes.
pub fn response(alloc: Global, a: &Answer<'_>) -> Result<Octets, NoMemory>
    ensures { IfOk result (λ octets. octets ≡ answer_text (answer_view a.now)) }
{
    let head = a.head;
    let mut page = Page::new(alloc, room_of(a));
    page.put("SIP/2.0 ");
    page.put_number(u64::from(a.status.code()));
    page.put(" ");
    page.put(a.status.phrase());
    page.end_line();
    put_vias(&mut page, head, &a.source);
    page.put_headers("Record-Route", a.record_routes);
    page.put_header("From", head.from.text.as_str());
    page.put_party("To", head.to.text.as_str(), tag_to_add(&head.to, a.tag));
    page.put_call(head.call_id.as_str(), head.cseq, head.cseq_method.as_str());
    put_options(&mut page, a);
    page.put_header("Content-Length", "0");
    page.end_line();
    page.octets()
}

/// Appends an answer. After [`NoMemory`] `out` has the items that it had.
pub fn write_response(alloc: Global, a: &Answer<'_>, out: &mut Vec<u8>) -> Result<(), NoMemory>
    ensures ok { OnOk result (out.new.items ≡ out.old.items ++ answer_text (answer_view a.now)) }
    ensures err { OnErr result (out.new.items ≡ out.old.items) }
{
    let octets = response(alloc, a)?;
    out.extend_from_slice(octets.as_slice())?;
    Ok(())
}
