//! The top Via of an answer (RFC 3261 section 18.2.1, RFC 3581 section 4).
ghost use Rattle.std.specs.Prelude.{◌≡◌, ◌≢◌, ◌∷◌, [], ◌≤◌, ◌<◌, ◌&&◌, not, List, length, take, drop, codes, bytes_eq};
ghost use Rattle.std.specs.List.{prefix_len, position_or_len, flat_map};
ghost use Rattle.sip_write.specs.Lines.{joined, header};
ghost use Rattle.sip_write.specs.Via.{top_via_text, marked_parameter, parts_of, is_lead as is_lead_byte, is_received as is_received_parameter, is_bare_rport as is_bare_rport_parameter, lead_of, behind_lead, ends_name, is_colon, host_of};
ghost use Rattle.sip_write.specs.Cutting.{first_cut};
ghost use Rattle.sip_write.specs.Pages.{Puts};
ghost use Rattle.sip_write.specs.declared.quoting.Quoting.TheVariants as quoting;

use crate::address::{IP_LEN, ip_in};
use crate::page::Page;
use crate::quoting::Quoting;
use sip_read::{Addr, Via};
use sip_text::{Class, kept_len, split_front};

/// How much of the text stands before the first semicolon outside quoted strings.
fn uncut_len(text: &[u8]) -> usize
    ensures { result ≡ first_cut quoting.Outside text.now }
{
    let mut quoting = Quoting::Outside;
    for (i, character) in text.iter().enumerate() {
        if quoting == Quoting::Outside && *character == b';' {
            return i;
        }
        quoting = quoting.after(*character);
    }
    text.len()
}

/// How many characters the semicolon of a parameter and the blanks around it are.
fn lead_len(parameter: &[u8]) -> usize
    ensures value { result ≡ prefix_len is_lead_byte parameter.now }
    ensures bound { result ≤ length parameter.now }
{
    parameter
        .iter()
        .take_while(|character| Class::Space.contains(**character) || **character == b';')
        .count()
}

/// How long the name at the front is.
fn name_len(text: &[u8]) -> usize
    ensures value { result ≡ position_or_len ends_name text.now }
    ensures bound { result ≤ length text.now }
{
    text.iter()
        .take_while(|character| !(Class::Space.contains(**character) || **character == b'='))
        .count()
}

/// How long the host is.
fn host_len(sent_by: &[u8]) -> usize
    ensures value { result ≡ position_or_len is_colon sent_by.now }
    ensures bound { result ≤ length sent_by.now }
{
    sent_by
        .iter()
        .take_while(|character| **character != b':')
        .count()
}

/// Whether a Via asks for no port and has this address as its host.
fn names(top: &Via, ip: &[u8]) -> bool
    ensures { result ≡ (not top.now.bare_rport && bytes_eq (host_of top.now.sent_by) ip.now) }
{
    let sent_by = top.sent_by.as_str().as_bytes();
    let host = sent_by.split_at(host_len(sent_by)).0;
    !top.bare_rport && host == ip
}

/// The semicolon of a parameter and the blanks around it.
fn lead(parameter: &[u8]) -> &[u8]
    ensures { result.now ≡ lead_of parameter.now }
{
    parameter.split_at(lead_len(parameter)).0
}

/// What stands behind them.
fn behind(parameter: &[u8]) -> &[u8]
    ensures { result.now ≡ behind_lead parameter.now }
{
    parameter.split_at(lead_len(parameter)).1
}

fn is_received(parameter: &[u8]) -> bool
    ensures { result ≡ is_received_parameter parameter.now }
{
    let own = behind(parameter);
    let name = own.split_at(name_len(own)).0;
    name.eq_ignore_ascii_case(b"received")
}

fn is_bare_rport(parameter: &[u8]) -> bool
    ensures { result ≡ is_bare_rport_parameter parameter.now }
{
    behind(parameter).eq_ignore_ascii_case(b"rport")
}

/// Puts a parameter, but none that is named `received`, and the source port at a bare `rport`.
fn put_parameter(page: &mut Page, parameter: &[u8], source: &Addr)
    ensures { Puts page.old (marked_parameter source.now parameter.now) page.new }
{
    if is_received(parameter) {
        return;
    }
    if is_bare_rport(parameter) {
        page.put_bytes(lead(parameter));
        page.put("rport=");
        page.put_number(u64::from(source.port));
        return;
    }
    page.put_bytes(parameter);
}

/// How long the front is: the text before the first parameter.
fn front_len(text: &[u8]) -> usize
    ensures whole { parts_of text.now
        ≡ record { front = take result text.now; parameters = (parts_of (drop result text.now)).parameters } }
    ensures rest { (parts_of (drop result text.now)).front ≡ [] }
    ensures bound { result ≤ length text.now }
{
    let uncut = uncut_len(text);
    if uncut == text.len() {
        return uncut;
    }
    kept_len(text.split_at(uncut).0)
}

/// How long the parameter at the front is, with its semicolon and the blanks around it.
fn parameter_len(text: &[u8]) -> usize
    requires front { (parts_of text.now).front ≡ [] }
    requires some { text.now ≢ [] }
    ensures whole { (parts_of text.now).parameters
        ≡ take result text.now ∷ (parts_of (drop result text.now)).parameters }
    ensures rest { (parts_of (drop result text.now)).front ≡ [] }
    ensures bound { result ≤ length text.now }
    ensures some { 0 < result }
{
    let lead = split_front(Class::Space, text).0.len() + 1;
    lead + front_len(text.split_at(lead).1)
}

/// Puts the parameters, marked.
fn put_parameters(page: &mut Page, text: &[u8], source: &Addr)
    requires front { (parts_of text.now).front ≡ [] }
    ensures { Puts page.old (flat_map (marked_parameter source.now) (parts_of text.now).parameters) page.new }
{
    let mut rest = text;
    while !rest.is_empty() {
        let (parameter, others) = rest.split_at(parameter_len(rest));
        put_parameter(page, parameter, source);
        rest = others;
    }
}

/// Puts the top Via line: the value as it is where it names the source and asks for no port, else with the source written into it.
pub fn put_top_via(page: &mut Page, text: &str, top: &Via, source: &Addr)
    ensures { Puts page.old (joined (header (codes "Via") (top_via_text source.now top.now text.now) ∷ [])) page.new }
{
    page.put_name("Via");
    let mut room = [0; IP_LEN];
    if names(top, ip_in(source.ip, &mut room)) {
        page.put(text);
        page.end_line();
        return;
    }
    let value = text.as_bytes();
    let (front, parameters) = value.split_at(front_len(value));
    page.put_bytes(front);
    put_parameters(page, parameters, source);
    page.put(";received=");
    page.put_ip(source.ip);
    page.end_line();
}
