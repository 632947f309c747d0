//! What datagrams say.
ghost use Rattle.std.specs.Prelude.{◌≡◌, ℕ, List, MatchResult};
ghost use Rattle.transport.specs.Wires.{datagram};
ghost use Rattle.sip_read.specs.Message.{IsReading};
ghost use Rattle.feeds.specs.Heard.{event_of, SipSays, ControlSays, Says};

use notifier_model::Event;
use scripts::{Control, parse_control};
use sip_read::{Message, ReadError, read};
use sip_text::Addr;
use std::alloc::Global;

/// What is spoken on a wire.
#[derive(Clone, Copy, Debug, PartialEq, Eq)]
pub enum Language {
    /// SIP messages (RFC 3261 section 7).
    Sip,
    /// Lines that control a running server, one in a datagram.
    Control,
}

/// What a datagram says.
#[derive(Debug, Drop)]
pub enum Heard {
    /// What happened: an event for the workers.
    Event(Event),
    /// Nothing that can be read, or there was no memory to read it.
    Unread,
    /// The server takes no more.
    Close,
}

/// What a SIP datagram from this source says that was read so.
pub fn hear_message(source: Addr, message: Result<Message, ReadError>) -> Heard
    ensures says { (octets : List ℕ) → IsReading octets message → SipSays source octets result }
    ensures heard { MatchResult message (λ m. result ≡ Heard.Event (event_of source m)) (λ _. result ≡ Heard.Unread) }
{
    match message {
        Ok(Message::Request(request)) => Heard::Event(Event::Request(source, request)),
        Ok(Message::Response(response)) => Heard::Event(Event::Reply(response)),
        Err(_) => Heard::Unread,
    }
}

/// What a SIP datagram says: the message that it is. It never closes a server.
pub fn hear_sip(alloc: Global, source: Addr, octets: &[u8]) -> Heard
    ensures { SipSays source octets.now result }
{
    hear_message(source, read(alloc, octets))
}

/// What a control line says, with its LF or without.
pub fn hear_control(alloc: Global, octets: &[u8]) -> Heard
    ensures { ControlSays octets.now result }
{
    match parse_control(alloc, octets) {
        Ok(Control::Change(change)) => Event::of(change).map_or(Heard::Unread, Heard::Event),
        Ok(Control::Tick(time)) => Heard::Event(Event::Tick(time)),
        Ok(Control::Close) => Heard::Close,
        Err(_) => Heard::Unread,
    }
}

/// What a datagram says in this language.
pub fn hear(alloc: Global, language: Language, source: Addr, octets: &[u8]) -> Heard
    ensures { Says language (datagram source octets.now) result }
{
    match language {
        Language::Sip => hear_sip(alloc, source, octets),
        Language::Control => hear_control(alloc, octets),
    }
}
