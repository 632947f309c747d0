//! A datagram as a message: its first line (RFC 3261 sections 7.1 and 7.2), and how its header lines are cut and named: where a line ends, lines
//! that others continue (RFC 3261 section 7.3.1), a line's name and value, and which header it is of.
ghost use Rattle.std.specs.Prelude.{◌≡◌, ◌<◌, codes, Result, Err, ◌≤◌, Some, None, length, drop, MatchOption, IfSome, OnOk};
ghost use Rattle.std.specs.Str.{str_eq_ignore_ascii_case, byte};
ghost use Rattle.sip_text.specs.Bytes.{Finds, is_line_byte, Gives};
ghost use Rattle.sip_read.specs.declared.error.ReadError.{ReadError};
ghost use Rattle.sip_read.specs.declared.error.ReadError.TheVariants as errors;
ghost use Rattle.sip_read.specs.declared.message.Message.{Message};
ghost use Rattle.sip_read.specs.FirstLineComputed.{version_at, status_line, first_at};
ghost use Rattle.sip_read.specs.Message.{Says, Wrong, Answers, IsReading};
ghost use Rattle.sip_read.specs.Views.{first as first_view, first_pair};
ghost use Rattle.std.specs.List.{prefix_len};
ghost use Rattle.sip_text.specs.Reading.{after_byte, trimmed};
ghost use Rattle.sip_read.specs.Headers.{is_name, header_named};
ghost use Rattle.sip_read.specs.LinesComputed.{begins_space, joined, continued_of, unfolded_of, line_at, header_of, header_line};
ghost use Rattle.sip_read.specs.LineViews.{line_seen, unfolded_seen};

use crate::error::ReadError;
use crate::gathered::Gathered;
use crate::message::Message;
use httparse::is_header_value;
use memchr::memchr;
use sip_text::{
    Class, NoMemory, after_byte, all_in, capped_number, kept_len, skip_spaces, span_at, text_of,
    trim, word_at,
};
use std::alloc::Global;

/// How long the line at the front is, where a CR follows it.
///
/// The first CR ends it, if each byte before that may stand in a line. These are the bytes of a header's value in HTTP, too. Both looks
/// compare 16 bytes or more at a time.
#[tactic(auto, using(crate::proofs::LineEnds::line_ends))]
fn line_len(text: &[u8]) -> Option<usize>
    ensures value { MatchOption result (after_byte (byte "\r") (drop (prefix_len is_line_byte text.now) text.now) ≡ None)
        (λ n. n ≡ prefix_len is_line_byte text.now) }
    ensures bound { IfSome result (λ n. n ≤ length text.now) }
{
    let count = memchr(b'\r', text)?;
    if is_header_value(text.split_at(count).0) {
        Some(count)
    } else {
        None
    }
}

/// A line at the front, and what stands behind its CRLF.
#[tactic(auto, unfolding(crate::specs::LinesComputed::line_at))]
pub fn line_at(text: &[u8]) -> Option<(&[u8], &[u8])>
    ensures { Finds (λ x. (x.0.now, x.1.now)) result (line_at text.now) }
{
    let (line, rest) = text.split_at(line_len(text)?);
    let rest = after_byte(b'\n', after_byte(b'\r', rest)?)?;
    Some((line, rest))
}

/// A header line in one piece. One that isn't continued stands in the datagram, and takes no memory.
#[derive(Drop)]
pub struct Line<'a> {
    first: &'a [u8],
    /// The whole line, where others continue the first one.
    unfolded: Option<Vec<u8>>,
}

impl Line<'_> {
    /// Its octets, without its end.
    pub fn as_slice(&self) -> &[u8]
        ensures { result.now ≡ line_seen self.now }
    {
        match &self.unfolded {
            Some(whole) => whole.as_slice(),
            None => self.first,
        }
    }
}

fn begins_space(text: &[u8]) -> bool
    ensures { result ≡ begins_space text.now }
{
    match text {
        [first, ..] => Class::Space.contains(*first),
        [] => false,
    }
}

/// Adds a continuation line: the line break and the spaces on both sides of it become one space.
fn join(line: &mut Vec<u8>, piece: &[u8]) -> Result<(), NoMemory>
    ensures { OnOk result (line.new.items ≡ joined line.old.items piece.now) }
{
    line.truncate(kept_len(line.as_slice()));
    line.push(b' ')?;
    line.extend_from_slice(skip_spaces(piece))?;
    Ok(())
}

/// The line that begins with this piece, and what stands behind its continuation lines.
fn joined_lines<'a>(
    alloc: Global,
    first: &[u8],
    text: &'a [u8],
) -> Result<Option<(Vec<u8>, &'a [u8])>, NoMemory>
    ensures { Gives (λ x. (x.0.items, x.1.now)) result (continued_of first.now text.now) }
{
    let mut line = Vec::from_slice(alloc, first)?;
    let mut rest = text;
    while begins_space(rest) {
        let Some((piece, after)) = line_at(rest) else {
            return Ok(None);
        };
        join(&mut line, piece)?;
        rest = after;
    }
    Ok(Some((line, rest)))
}

/// A line that begins with this piece, and what stands behind it. Only a line that is continued is copied.
#[tactic(auto, unfolding(crate::specs::LinesComputed::unfolded_of))]
pub fn unfolded_of<'a>(
    alloc: Global,
    first: &'a [u8],
    text: &'a [u8],
) -> Result<Option<(Line<'a>, &'a [u8])>, NoMemory>
    ensures { Gives unfolded_seen result (unfolded_of first.now text.now) }
{
    if begins_space(first) {
        return Ok(None);
    }
    if !begins_space(text) {
        return Ok(Some((
            Line {
                first,
                unfolded: None,
            },
            text,
        )));
    }
    match joined_lines(alloc, first, text)? {
        Some((whole, rest)) => Ok(Some((
            Line {
                first,
                unfolded: Some(whole),
            },
            rest,
        ))),
        None => Ok(None),
    }
}

/// The name and the value of a header line. Apart from its caller, the loop over the name takes half as long for each byte.
#[inline(never)]
#[tactic(auto, unfolding(crate::specs::LinesComputed::header_of))]
pub fn header_of(line: &[u8]) -> Option<(&[u8], &[u8])>
    ensures { Finds (λ x. (x.0.now, x.1.now)) result (header_of line.now) }
{
    let (name, rest) = span_at(Class::Token, line)?;
    let value = after_byte(b':', skip_spaces(rest))?;
    Some((name, trim(value)))
}

/// Which header a line is of, as far as the reader keeps its value.
#[derive(Clone, Copy)]
pub enum Header {
    Via,
    From,
    To,
    CallId,
    CSeq,
    ContentLength,
    Contact,
    Event,
    Expires,
    Accept,
    ReferTo,
    ReferSub,
    Require,
    RecordRoute,
    /// Any other header, also one without a compact name of ours.
    Other,
}

/// Whether it is this name. Names ignore case. Lengths are compared here, at the call: they tell most names apart.
#[inline(always)]
#[tactic(auto, using(crate::proofs::Names::other_length))]
fn is_same(name: &[u8], other: &[u8]) -> bool
    ensures { result ≡ str_eq_ignore_ascii_case name.now other.now }
{
    name.len() == other.len() && name.eq_ignore_ascii_case(other)
}

/// Whether it is this name or its compact form.
#[inline(always)]
fn is_name(name: &[u8], long: &[u8], compact: &[u8]) -> bool
    ensures { result ≡ is_name name.now long.now compact.now }
{
    is_same(name, long) || is_same(name, compact)
}

/// The header that a name stands for, in any case of its letters (RFC 3261 section 7.3.3, RFC 6665 section 8.2, RFC 3515 section 2.1,
/// RFC 4488 section 4).
fn header_named(name: &[u8]) -> Header
    ensures { result ≡ header_named name.now }
{
    if is_name(name, b"via", b"v") {
        Header::Via
    } else if is_name(name, b"from", b"f") {
        Header::From
    } else if is_name(name, b"to", b"t") {
        Header::To
    } else if is_name(name, b"call-id", b"i") {
        Header::CallId
    } else if is_same(name, b"cseq") {
        Header::CSeq
    } else if is_name(name, b"content-length", b"l") {
        Header::ContentLength
    } else if is_name(name, b"contact", b"m") {
        Header::Contact
    } else if is_name(name, b"event", b"o") {
        Header::Event
    } else if is_same(name, b"expires") {
        Header::Expires
    } else if is_same(name, b"accept") {
        Header::Accept
    } else if is_name(name, b"refer-to", b"r") {
        Header::ReferTo
    } else if is_same(name, b"refer-sub") {
        Header::ReferSub
    } else if is_same(name, b"require") {
        Header::Require
    } else if is_same(name, b"record-route") {
        Header::RecordRoute
    } else {
        Header::Other
    }
}

/// The header of a line that begins with its name as the RFCs write it and a colon, as almost all do, and what follows the colon. Their
/// first octets are compared at once, which takes a third of the time of reading the name.
fn usual_line(line: &[u8]) -> Option<(Header, &[u8])>
    ensures { IfSome result (λ x. header_line line.now ≡ Some (x.0, trimmed x.1.now)) }
{
    if let Some(rest) = line.strip_prefix(b"Via:") {
        Some((Header::Via, rest))
    } else if let Some(rest) = line.strip_prefix(b"From:") {
        Some((Header::From, rest))
    } else if let Some(rest) = line.strip_prefix(b"To:") {
        Some((Header::To, rest))
    } else if let Some(rest) = line.strip_prefix(b"Call-ID:") {
        Some((Header::CallId, rest))
    } else if let Some(rest) = line.strip_prefix(b"CSeq:") {
        Some((Header::CSeq, rest))
    } else if let Some(rest) = line.strip_prefix(b"Contact:") {
        Some((Header::Contact, rest))
    } else if let Some(rest) = line.strip_prefix(b"Event:") {
        Some((Header::Event, rest))
    } else if let Some(rest) = line.strip_prefix(b"Content-Length:") {
        Some((Header::ContentLength, rest))
    } else if let Some(rest) = line.strip_prefix(b"Max-Forwards:") {
        Some((Header::Other, rest))
    } else if let Some(rest) = line.strip_prefix(b"Expires:") {
        Some((Header::Expires, rest))
    } else if let Some(rest) = line.strip_prefix(b"Accept:") {
        Some((Header::Accept, rest))
    } else {
        None
    }
}

/// The header that a line is of, and its value. Apart from its caller: within it, reading takes a hundredth longer.
#[inline(never)]
#[tactic(auto, unfolding(crate::specs::LinesComputed::header_line))]
pub fn header_line(line: &[u8]) -> Option<(Header, &[u8])>
    ensures { Finds (λ x. (x.0, x.1.now)) result (header_line line.now) }
{
    if let Some((header, rest)) = usual_line(line) {
        return Some((header, trim(rest)));
    }
    let (name, value) = header_of(line)?;
    Some((header_named(name), value))
}

/// What the first line says.
#[derive(Clone, Copy)]
pub enum First<'a> {
    Request { method: &'a str, uri: &'a str },
    Status { code: u16, reason: &'a str },
}

/// Whether it is the version of SIP. Case is ignored, and capitals are compared first: almost all write them.
fn is_version(word: &[u8]) -> bool
    ensures { result ≡ str_eq_ignore_ascii_case word.now (codes "SIP/2.0") }
{
    match word {
        b"SIP/2.0" => true,
        _ => word.eq_ignore_ascii_case(b"SIP/2.0"),
    }
}

/// What follows the version of a status line and a space.
#[tactic(auto, unfolding(crate::specs::FirstLineComputed::version_at))]
fn version_at(line: &[u8]) -> Option<&[u8]>
    ensures { Finds (λ x. x.now) result (version_at line.now) }
{
    let (name, rest) = span_at(Class::Token, line)?;
    let (version, rest) = span_at(Class::Token, after_byte(b'/', rest)?)?;
    let behind = after_byte(b' ', rest)?;
    if name.eq_ignore_ascii_case(b"SIP") && version.eq_ignore_ascii_case(b"2.0") {
        Some(behind)
    } else {
        None
    }
}

/// The status line that the line is.
#[tactic(auto, unfolding(crate::specs::FirstLineComputed::status_line))]
fn status_line(line: &[u8]) -> Option<First<'_>>
    ensures { Finds first_view result (status_line line.now) }
{
    let (digits, rest) = span_at(Class::Digit, version_at(line)?)?;
    let reason = text_of(after_byte(b' ', rest)?)?;
    let code = capped_number(digits);
    if digits.len() == 3 && code >= 100 && code <= 699 && all_in(Class::Shown, reason.as_bytes()) {
        Some(First::Status {
            code: code as u16,
            reason,
        })
    } else {
        None
    }
}

/// The first line, and what follows it. Behind its first token a request line has a space, and a status line a slash.
#[tactic(auto, unfolding(crate::specs::FirstLineComputed::first_at))]
fn first_at(bytes: &[u8]) -> Option<(First<'_>, &[u8])>
    ensures { Finds first_pair result (first_at bytes.now) }
{
    let (line, section) = line_at(bytes)?;
    let (method, rest) = word_at(Class::Token, line)?;
    let Some(rest) = after_byte(b' ', rest) else {
        let status = status_line(line)?;
        return Some((status, section));
    };
    let (uri, rest) = word_at(Class::Uri, rest)?;
    let version = after_byte(b' ', rest)?;
    if is_version(version) {
        Some((First::Request { method, uri }, section))
    } else {
        None
    }
}

/// Reads a datagram (RFC 3261 sections 7, 18 and 20).
///
/// The message holds texts of its own. What it takes of the datagram's length is linear. See [`ReadError`] for the order in which errors
/// are looked for.
pub fn read(alloc: Global, bytes: &[u8]) -> Result<Message, ReadError>
    // What is answered is so.
    ensures found { IsReading bytes.now result }
    // What is so is answered, unless a growth is refused.
    ensures only { (r : Result Message ReadError) → Says bytes.now r → Answers (λ m. m) result r }
    // What is too long, or no SIP, is told without memory.
    ensures long { Wrong bytes.now errors.TooLong → result ≡ Err errors.TooLong }
    ensures foreign { Wrong bytes.now errors.NotSip → result ≡ Err errors.NotSip }
{
    if bytes.len() > 65535 {
        return Err(ReadError::TooLong);
    }
    let Some((first, section)) = first_at(bytes) else {
        return Err(ReadError::NotSip);
    };
    // Filled in place: what the lines say is large, and moved once.
    let mut gathered = Gathered::new(alloc);
    let rest = gathered.add_lines(alloc, section)?;
    gathered.finish(alloc, first, rest)
}
