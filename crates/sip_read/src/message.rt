//! SIP messages as values (RFC 3261 section 7).
ghost use Rattle.std.specs.Prelude.{◌≡◌, IfOk};

use event_headers::{EventValue, Range};
use sip_text::{Field, NoMemory, Octets, Text, Values};
use std::alloc::Global;
use std::marker::Model;
use std::ops::Deref;

/// The parts of a message's first Via value that decide (RFC 3261 section 20.42, RFC 3581).
#[derive(Debug, Drop)]
pub struct Via {
    /// Host and port of who sent the request, as written.
    pub sent_by: Text,
    /// The value of the first `branch` parameter, where it has one.
    pub branch: Option<Text>,
    /// Whether a parameter `rport` stands there without a value.
    pub bare_rport: bool,
}

/// A From or To (RFC 3261 sections 20.20 and 20.39).
#[derive(Debug, Drop)]
pub struct Party {
    /// The whole value as written, in one line.
    pub text: Text,
    pub tag: Option<Text>,
}

/// What requests and responses both have.
#[derive(Debug)]
pub struct Head {
    /// All Via values as written, the top one first.
    pub vias: Values<Text>,
    pub top: Via,
    pub from: Party,
    pub to: Party,
    pub call_id: Text,
    /// The number of the CSeq, below 2^31.
    pub cseq: u32,
    pub cseq_method: Text,
}

/// By hand, so that all that lets go of one calls this one function, and none proves the ways through each field.
impl Drop for Head {
    fn drop(self) {
        let Head {
            vias: _,
            top: _,
            from: _,
            to: _,
            call_id: _,
            cseq: _,
            cseq_method: _,
        } = self;
    }
}

/// A request (RFC 3261 section 7.1), with the headers that a notifier looks at.
#[derive(Debug)]
pub struct Request {
    pub method: Text,
    pub uri: Text,
    pub head: Head,
    pub event: Field<EventValue>,
    /// Seconds.
    pub expires: Field<u32>,
    pub accept: Field<Values<Range>>,
    /// The address alone.
    pub contact: Field<Text>,
    /// The address alone.
    pub refer_to: Field<Text>,
    /// Whether the one who sent a REFER wants a subscription (RFC 4488 section 4).
    pub refer_sub: Field<bool>,
    pub require: Values<Text>,
    /// Record-Route values as written, in order.
    pub record_routes: Values<Text>,
    pub body: Octets,
}

/// By hand, as a [`Head`]'s.
impl Drop for Request {
    fn drop(self) {
        let Request {
            method: _,
            uri: _,
            head: _,
            event: _,
            expires: _,
            accept: _,
            contact: _,
            refer_to: _,
            refer_sub: _,
            require: _,
            record_routes: _,
            body: _,
        } = self;
    }
}

/// A response (RFC 3261 section 7.2).
#[derive(Debug)]
pub struct Response {
    /// 100 to 699.
    pub status: u16,
    pub reason: Text,
    pub head: Head,
}

/// By hand, as a [`Head`]'s.
impl Drop for Response {
    fn drop(self) {
        let Response {
            status: _,
            reason: _,
            head: _,
        } = self;
    }
}

/// A value behind one pointer, so that it is small where it travels: a queue moves 8 bytes, however large the value is. Contracts see the
/// value itself.
#[derive(Debug, Drop)]
pub struct Boxed<T> {
    inner: Box<T>,
}

impl<T> Model for Boxed<T> {
    ghost Value = { T };

    ghost view = { λ b. b.inner.value };
}

impl<T: Drop> Boxed<T> {
    /// The value, in memory of its own. Where there is none it is dropped. Put into its callers, it copies the value once.
    #[inline(always)]
    pub fn new(alloc: Global, value: T) -> Result<Boxed<T>, NoMemory>
        ensures value { IfOk result (λ b. b ≡ value) }
    {
        let inner = Box::new(alloc, value)?;
        Ok(Boxed { inner })
    }
}

impl<T> Boxed<T> {
    /// The value that it was made from. It takes no memory.
    pub fn into_inner(self) -> T
        ensures value { result ≡ self }
    {
        let Boxed { inner } = self;
        Box::into_inner(inner)
    }
}

impl<T> Deref for Boxed<T> {
    type Target = T;

    ghost deref_gives = { λ b value. value ≡ b };

    fn deref(&self) -> &T
        ensures value { result.now ≡ self.now }
    {
        &self.inner
    }
}

/// What a datagram is. What it says stands behind one pointer.
#[derive(Debug, Drop)]
pub enum Message {
    Request(Boxed<Request>),
    Response(Boxed<Response>),
}
