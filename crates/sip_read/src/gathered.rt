//! What the header lines say, header by header, and the message that they make with the first line and the body.
ghost use Rattle.sip_read.specs.Message.{Answers};
ghost use Rattle.std.specs.Prelude.{◌≡◌, ◌<◌, option_map, IfOk, OnOk};
ghost use Rattle.sip_text.specs.Bytes.{is_in};
ghost use Rattle.sip_text.specs.Reading.{all_of, elements_of};
ghost use Rattle.sip_text.specs.declared.scan.Class.TheVariants as class;
ghost use Rattle.sip_read.specs.declared.datagram.Header.TheVariants as headers;
ghost use Rattle.sip_read.specs.GatheredComputed.{nothing, capped, with_element, with_field, with_items, gather};
ghost use Rattle.sip_read.specs.Items.{item};
ghost use Rattle.sip_read.specs.ItemsComputed.{element_at, line_items, line_values};
ghost use Rattle.sip_read.specs.LineAnswers.{Takes};
ghost use Rattle.sip_read.specs.MessageComputed.{head_of, request_of, doubled, body_of, message_of};
ghost use Rattle.sip_read.specs.OnceComputed.{once_more, is_several, field_of};
ghost use Rattle.sip_read.specs.Views.{fields_seen, gathered_seen, first as first_view};

use crate::datagram::{First, Header, header_line, line_at, unfolded_of};
use crate::error::{HeaderName, ReadError};
use crate::message::{Boxed, Head, Message, Party, Request, Response, Via};
use crate::value::{
    Listed, Sequence, accept_of, call_id_of, contact_of, event_of, expires_of, hop_at, party_of,
    refer_sub_of, route_at, sequence_of,
};
use event_headers::{EventValue, Range};
use sip_text::{
    Class, Field, NoMemory, Octets, Text, Values, after_comma, all_of, capped_number, is_text,
    some_copy, word_at,
};
use std::alloc::Global;

/// What the lines of one header say: no line, the value of the one line, or several lines.
#[derive(Drop)]
pub enum Once<T> {
    Absent,
    One(T),
    Several,
}

impl<T: Drop> Once<T> {
    /// A further line has this value. In its callers: called, it makes reading take a fortieth longer.
    #[inline(always)]
    pub fn add(&mut self, value: T)
        ensures { self.new ≡ once_more self.old value }
    {
        *self = match self {
            Once::Absent => Once::One(value),
            _ => Once::Several,
        };
    }

    pub fn is_several(&self) -> bool
        ensures { result ≡ is_several self.now }
    {
        matches!(self, Once::Several)
    }
}

impl<T: Drop> Once<Option<T>> {
    /// What a header says that may stand, each line of which has a value or is bad.
    fn field(self) -> Field<T>
        ensures { result ≡ field_of self }
    {
        match self {
            Once::Absent => Field::Absent,
            Once::One(Some(value)) => Field::Value(value),
            Once::One(None) | Once::Several => Field::Bad,
        }
    }
}

/// What the lines say that only a request's reader asks for.
pub struct Fields {
    pub event: Once<Option<EventValue>>,
    pub expires: Once<Option<u32>>,
    /// All Accept lines, joined with commas.
    pub accept: Option<Vec<u8>>,
    pub contact: Once<Option<Text>>,
    pub refer_to: Once<Option<Text>>,
    pub refer_sub: Once<Option<bool>>,
    pub require: Vec<Text>,
    pub record_routes: Vec<Text>,
}

/// By hand, so that all that lets go of them calls this one function, and none proves the ways through each field.
impl Drop for Fields {
    fn drop(self) {
        let Fields {
            event: _,
            expires: _,
            accept: _,
            contact: _,
            refer_to: _,
            refer_sub: _,
            require: _,
            record_routes: _,
        } = self;
    }
}

impl Fields {
    /// Takes in an Accept line, behind a comma where it isn't the first.
    pub fn add_accept(&mut self, alloc: Global, value: &[u8]) -> Result<(), NoMemory>
        ensures { OnOk result (fields_seen self.new ≡ with_field (fields_seen self.old) (item headers.Accept value.now)) }
    {
        match &mut self.accept {
            Some(joined) => {
                joined.push(b',')?;
                joined.extend_from_slice(value)?;
            }
            None => self.accept = Some(Vec::from_slice(alloc, value)?),
        }
        Ok(())
    }

    /// The request of these and its other parts. Apart from its caller: within it, reading takes a fortieth longer.
    #[inline(never)]
    pub fn request(
        self,
        alloc: Global,
        head: Head,
        method: &str,
        uri: &str,
        body: &[u8],
    ) -> Result<Request, NoMemory>
        ensures { IfOk result (λ r. r ≡ request_of method.now uri.now head (fields_seen self) body.now) }
    {
        let method = Text::of(alloc, method)?;
        let uri = Text::of(alloc, uri)?;
        let accept = match &self.accept {
            Some(joined) => accept_of(alloc, joined.as_slice())?,
            None => Field::Absent,
        };
        let body = Octets::new(Vec::from_slice(alloc, body)?);
        let Fields {
            event,
            expires,
            accept: _,
            contact,
            refer_to,
            refer_sub,
            require,
            record_routes,
        } = self;
        Ok(Request {
            method,
            uri,
            head,
            event: event.field(),
            expires: expires.field(),
            accept,
            contact: contact.field(),
            refer_to: refer_to.field(),
            refer_sub: refer_sub.field(),
            require: Values::new(require),
            record_routes: Values::new(record_routes),
            body,
        })
    }
}

/// What the lines say that each message has. Each value is a text of its own.
#[derive(Drop)]
pub struct HeadLines {
    pub vias: Vec<Text>,
    pub top: Option<Via>,
    pub from: Once<Party>,
    pub to: Once<Party>,
    pub call_id: Once<Text>,
    pub cseq: Once<Sequence>,
}

impl HeadLines {
    /// The head, or the first header that no line has. Several lines are refused before.
    #[tactic(auto, unfolding(crate::specs::MessageComputed::head_of))]
    pub fn head(self) -> Result<Head, ReadError>
        ensures { result ≡ head_of self.vias.items self.top self.from self.to self.call_id self.cseq }
    {
        let HeadLines {
            vias,
            top,
            from,
            to,
            call_id,
            cseq,
        } = self;
        let top = top.ok_or(ReadError::Missing(HeaderName::Via))?;
        let Once::One(from) = from else {
            return Err(ReadError::Missing(HeaderName::From));
        };
        let Once::One(to) = to else {
            return Err(ReadError::Missing(HeaderName::To));
        };
        let Once::One(call_id) = call_id else {
            return Err(ReadError::Missing(HeaderName::CallId));
        };
        let Once::One(cseq) = cseq else {
            return Err(ReadError::Missing(HeaderName::CSeq));
        };
        Ok(Head {
            vias: Values::new(vias),
            top,
            from,
            to,
            call_id,
            cseq: cseq.number,
            cseq_method: cseq.method,
        })
    }
}

/// What the lines say, as far as they were read.
#[derive(Drop)]
pub struct Gathered {
    pub head: HeadLines,
    /// The number, or 2^32 where it is greater.
    pub content_length: Once<u64>,
    pub fields: Fields,
}

/// The number that a Content-Length is, or 2^32 where it is greater.
fn length_of(value: &[u8]) -> Result<u64, ReadError>
    ensures { Takes (λ n. n) result (option_map capped (all_of (is_in class.Digit) value.now)) }
{
    let digits = all_of(Class::Digit, value).ok_or(ReadError::BadLine)?;
    Ok(capped_number(digits))
}

impl Gathered {
    pub fn new(alloc: Global) -> Gathered
        ensures { gathered_seen result ≡ nothing }
    {
        Gathered {
            head: HeadLines {
                vias: Vec::new(alloc),
                top: None,
                from: Once::Absent,
                to: Once::Absent,
                call_id: Once::Absent,
                cseq: Once::Absent,
            },
            content_length: Once::Absent,
            fields: Fields {
                event: Once::Absent,
                expires: Once::Absent,
                accept: None,
                contact: Once::Absent,
                refer_to: Once::Absent,
                refer_sub: Once::Absent,
                require: Vec::new(alloc),
                record_routes: Vec::new(alloc),
            },
        }
    }

    /// Takes in the element of a list at the front. What follows it. In its caller: called, it makes reading take a hundredth longer.
    #[inline(always)]
    #[tactic(auto, unfolding(crate::specs::ItemsComputed::token_at, sip_text::specs::Reading::word_at))]
    fn add_element<'a>(
        &mut self,
        alloc: Global,
        listed: Listed,
        text: &'a [u8],
    ) -> Result<&'a [u8], ReadError>
        ensures { Takes (λ r. (gathered_seen self.new, r.now)) result
            (with_element (gathered_seen self.old) (element_at listed text.now)) }
    {
        match listed {
            Listed::Via => {
                let (hop, rest) = hop_at(text).ok_or(ReadError::BadLine)?;
                self.head.vias.push(Text::of(alloc, hop.text)?)?;
                if self.head.top.is_none() {
                    self.head.top = Some(Via {
                        sent_by: Text::of(alloc, hop.sent_by)?,
                        branch: some_copy(alloc, hop.branch)?,
                        bare_rport: hop.bare_rport,
                    });
                }
                Ok(rest)
            }
            Listed::Require => {
                let (token, rest) = word_at(Class::Token, text).ok_or(ReadError::BadLine)?;
                self.fields.require.push(Text::of(alloc, token)?)?;
                Ok(rest)
            }
            Listed::RecordRoute => {
                let (route, rest) = route_at(alloc, text)?.ok_or(ReadError::BadLine)?;
                self.fields.record_routes.push(Text::of(alloc, route)?)?;
                Ok(rest)
            }
        }
    }

    /// Takes in the elements of a list.
    fn add_elements(&mut self, alloc: Global, listed: Listed, value: &[u8]) -> Result<(), ReadError>
        ensures { Takes (λ done. gathered_seen self.new) result
            (option_map (with_items (gathered_seen self.old)) (elements_of (element_at listed) value.now)) }
    {
        let mut rest = value;
        loop {
            let after = self.add_element(alloc, listed, rest)?;
            if after.is_empty() {
                return Ok(());
            }
            let Some(next) = after_comma(after) else {
                return Err(ReadError::BadLine);
            };
            rest = next;
        }
    }

    /// Takes in the value of a line of this header.
    fn add_value(&mut self, alloc: Global, header: Header, value: &[u8]) -> Result<(), ReadError>
        ensures { Takes (λ done. gathered_seen self.new) result
            (option_map (with_items (gathered_seen self.old)) (line_values header value.now)) }
    {
        match header {
            Header::Via => self.add_elements(alloc, Listed::Via, value)?,
            Header::From => self.head.from.add(party_of(alloc, value)?),
            Header::To => self.head.to.add(party_of(alloc, value)?),
            Header::CallId => self.head.call_id.add(call_id_of(alloc, value)?),
            Header::CSeq => self.head.cseq.add(sequence_of(alloc, value)?),
            Header::ContentLength => self.content_length.add(length_of(value)?),
            Header::Contact => self.fields.contact.add(contact_of(alloc, value)?),
            Header::Event => self.fields.event.add(event_of(alloc, value)?),
            Header::Expires => self.fields.expires.add(expires_of(value)?),
            Header::Accept => self.fields.add_accept(alloc, value)?,
            Header::ReferTo => self.fields.refer_to.add(contact_of(alloc, value)?),
            Header::ReferSub => self.fields.refer_sub.add(refer_sub_of(alloc, value)?),
            Header::Require => self.add_elements(alloc, Listed::Require, value)?,
            Header::RecordRoute => self.add_elements(alloc, Listed::RecordRoute, value)?,
            Header::Other => {}
        }
        Ok(())
    }

    /// Takes in a header line.
    #[tactic(auto, using(crate::proofs::Gatherings::line_is, crate::proofs::Gatherings::no_line), unfolding(crate::specs::ItemsComputed::line_items))]
    fn add_line(&mut self, alloc: Global, line: &[u8]) -> Result<(), ReadError>
        ensures { Takes (λ done. gathered_seen self.new) result
            (option_map (with_items (gathered_seen self.old)) (line_items line.now)) }
    {
        if !is_text(line) {
            return Err(ReadError::BadLine);
        }
        let (header, value) = header_line(line).ok_or(ReadError::BadLine)?;
        self.add_value(alloc, header, value)
    }

    /// Takes in the header lines at the front, up to the empty line. What follows that.
    pub fn add_lines<'a>(&mut self, alloc: Global, text: &'a [u8]) -> Result<&'a [u8], ReadError>
        ensures { Takes (λ r. (gathered_seen self.new, r.now)) result (gather (gathered_seen self.old) text.now) }
    {
        let mut rest = text;
        loop {
            let Some((first, after)) = line_at(rest) else {
                return Err(ReadError::BadLine);
            };
            if first.is_empty() {
                return Ok(after);
            }
            let Some((line, after)) = unfolded_of(alloc, first, after)? else {
                return Err(ReadError::BadLine);
            };
            self.add_line(alloc, line.as_slice())?;
            rest = after;
        }
    }
}

/// What the Content-Length leaves of what follows the empty line. Several lines are refused before.
fn body_of(content_length: Once<u64>, rest: &[u8]) -> Result<&[u8], ReadError>
    ensures { Answers (λ x. x.now) result (body_of content_length rest.now) }
{
    match content_length {
        Once::One(count) => {
            let count = count as usize;
            if rest.len() < count {
                Err(ReadError::ShortBody)
            } else {
                Ok(rest.split_at(count).0)
            }
        }
        Once::Absent | Once::Several => Ok(rest),
    }
}

impl Gathered {
    /// The first header that may stand once and stands in several lines.
    fn doubled(&self) -> Option<HeaderName>
        ensures { result ≡ doubled (gathered_seen self.now) }
    {
        if self.head.from.is_several() {
            Some(HeaderName::From)
        } else if self.head.to.is_several() {
            Some(HeaderName::To)
        } else if self.head.call_id.is_several() {
            Some(HeaderName::CallId)
        } else if self.head.cseq.is_several() {
            Some(HeaderName::CSeq)
        } else if self.content_length.is_several() {
            Some(HeaderName::ContentLength)
        } else {
            None
        }
    }

    /// The message of a first line, of what the header lines say, and of what follows the empty line.
    #[tactic(auto, unfolding(crate::specs::MessageComputed::message_of))]
    pub fn finish(self, alloc: Global, first: First<'_>, rest: &[u8]) -> Result<Message, ReadError>
        ensures { Answers (λ m. m) result (message_of (first_view first.entry) (gathered_seen self) rest.now) }
    {
        if let Some(name) = self.doubled() {
            return Err(ReadError::Twice(name));
        }
        let Gathered {
            head,
            content_length,
            fields,
        } = self;
        let head = head.head()?;
        let body = body_of(content_length, rest)?;
        match first {
            First::Request { method, uri } => {
                let request = fields.request(alloc, head, method, uri, body)?;
                Ok(Message::Request(Boxed::new(alloc, request)?))
            }
            First::Status { code, reason } => {
                let reason = Text::of(alloc, reason)?;
                let response = Response {
                    status: code,
                    reason,
                    head,
                };
                Ok(Message::Response(Boxed::new(alloc, response)?))
            }
        }
    }
}
