//! What comes to a desk, and what it sends.
ghost use Rattle.std.specs.Prelude.{◌≡◌};
ghost use Rattle.notifier_model.specs.Sent.{notify_of};
ghost use Rattle.notifier_model.specs.Told.{told_event};

use package::{Change, MailChange, Progress};
use sip_read::{Addr, Boxed, Request, Response};
use sip_text::{Octets, Text};
use std::mem::size_of;

/// What comes to a desk. It is small, since it is moved several times on its way there.
#[derive(Debug)]
pub enum Event {
    /// A request, with the address that it came from.
    Request(Addr, Boxed<Request>),
    /// A response.
    Reply(Boxed<Response>),
    /// A mailbox has new counts.
    Mail(MailChange),
    /// A transfer goes on.
    Progress(Progress),
    /// Time goes on to this second. Seconds are counted from the start.
    Tick(u64),
    /// The notifier stops as planned: each live subscription ends, and may be made again at once (RFC 6665 section
    /// 4.1.3).
    Shut,
}

impl Event {
    /// The event that a change is which a notifier may be told: new counts, or how far a transfer has come. That a transfer begins
    /// follows from its REFER, and that nobody asks for it any more from the end of its usage: both are None.
    pub fn of(change: Change) -> Option<Event>
        ensures { result ≡ told_event change }
    {
        match change {
            Change::Mail(change) => Some(Event::Mail(change)),
            Change::Step(progress) => Some(Event::Progress(progress)),
            Change::Begin(_) | Change::Forget(_) => None,
        }
    }
}

/// By hand, so that all that lets go of an event calls this one function, and none proves the ways through each field.
impl Drop for Event {
    fn drop(self) {
        match self {
            Event::Request(_, _)
            | Event::Reply(_)
            | Event::Mail(_)
            | Event::Progress(_)
            | Event::Tick(_)
            | Event::Shut => {}
        }
    }
}

/// What is known of a subscription with a NOTIFY of it, so that nobody reads it back out of the bytes.
#[derive(Debug, Drop)]
pub struct Note {
    /// Who watches: the subscriber's address with its parameters, as its From has it, without the tag.
    pub watcher: Text,
    /// What is watched: the mailbox that the Request-URI of its SUBSCRIBE names, or the tag of its transfer.
    pub resource: Text,
    /// The remote target of its dialog, the subscriber's Contact (RFC 3261 section 12.1.1).
    pub target: Text,
    /// The Call-ID of its dialog (RFC 3261 section 12).
    pub call_id: Text,
    /// How many seconds are left of it, unless it is refreshed: none where it is over.
    pub left: Option<u32>,
}

/// What a desk sends. It is small, as an event is: what is short in a NOTIFY stands first, and shares 16 bytes with the mark of the variant.
#[derive(Debug)]
pub enum Out {
    /// An answer to a request.
    Answer {
        to: Addr,
        bytes: Octets,
    },
    /// A NOTIFY of the subscription with this local tag, with what is known of that.
    Notify {
        to: Addr,
        number: u32,
        terminated: bool,
        tag: Text,
        note: Boxed<Note>,
        bytes: Octets,
    },
    /// The transfer with this tag may start, to this URI.
    Start {
        tag: Text,
        refer_to: Text,
    },
}

/// How many bytes an event has at most.
const EVENT_BYTES: usize = 64;

/// How many bytes an out has at most.
const OUT_BYTES: usize = 72;

const _: () = prove!(size_of::<Event>() <= EVENT_BYTES);

const _: () = prove!(size_of::<Out>() <= OUT_BYTES);

/// By hand, as an [`Event`]'s.
impl Drop for Out {
    fn drop(self) {
        match self {
            Out::Answer { to: _, bytes: _ }
            | Out::Start {
                tag: _,
                refer_to: _,
            } => {}
            Out::Notify {
                to: _,
                number: _,
                terminated: _,
                tag: _,
                note: _,
                bytes: _,
            } => {}
        }
    }
}

/// A NOTIFY as it goes out.
#[derive(Debug, Drop)]
pub struct NotifyOut {
    /// The local tag of its subscription's dialog.
    pub tag: Text,
    /// The number of its CSeq.
    pub number: u32,
    pub to: Addr,
    pub bytes: Octets,
}

impl Out {
    /// The NOTIFY that it is, if it is one. Any other is dropped.
    pub fn into_notify(self) -> Option<NotifyOut>
        ensures notify { result ≡ notify_of self }
    {
        match self {
            Out::Notify {
                to,
                number,
                terminated: _,
                tag,
                note: _,
                bytes,
            } => Some(NotifyOut {
                tag,
                number,
                to,
                bytes,
            }),
            Out::Answer { to: _, bytes: _ }
            | Out::Start {
                tag: _,
                refer_to: _,
            } => None,
        }
    }
}
