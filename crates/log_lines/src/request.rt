//! Lines on single requests.
ghost use Rattle.std.specs.Prelude.{◌≡◌, ◌++◌, Some, OnOk};
ghost use Rattle.log_lines.specs.Objects.{request_what, request_members};
ghost use Rattle.log_lines.specs.Plain.{plain_request};

use crate::not_taken::Dialog;
use crate::object::Object;
use crate::place::Place;
use shown_text::Shown;
use sip_text::{Addr, NoMemory};
use std::fmt;
use std::fmt::{Display, Formatter};

/// A line on a request.
#[derive(Clone, Copy)]
pub enum Request<'a> {
    /// A request was answered.
    Answered {
        /// Where it came from, and the answer goes.
        address: Addr,
        /// Its method.
        method: &'a str,
        /// The answer's To: whom the request was sent to (RFC 3261 section 8.2.6.2).
        user: &'a str,
        /// The status code.
        code: u64,
    },
    /// Nobody answered a NOTIFY.
    Unanswered {
        /// Where it was sent.
        address: Addr,
        /// What its subscription watches.
        mailbox: &'a str,
        /// The local tag of its dialog.
        tag: &'a str,
    },
    /// A password wasn't looked at: too many wrong ones came.
    Barred {
        /// Where the request came from.
        address: Addr,
        /// Whose password it was.
        user: &'a str,
    },
}

impl Display for Request<'_> {
    ghost output = { λ r. Some (plain_request r) };

    fn fmt<W: fmt::Write>(&self, f: &mut Formatter<W>) -> fmt::Result {
        match *self {
            Request::Answered {
                address,
                method,
                user,
                code,
            } => {
                let place = Place(address);
                let method = Shown::words(method.as_bytes());
                let user = Shown::words(user.as_bytes());
                write!(f, "{place} {method} {user} {code}")
            }
            Request::Unanswered {
                address,
                mailbox,
                tag,
            } => {
                let place = Place(address);
                let dialog = Dialog { mailbox, tag };
                write!(f, "{place} NOTIFY {dialog} unanswered")
            }
            Request::Barred { address, user } => {
                let place = Place(address);
                let user = Shown::word(user.as_bytes());
                write!(f, "barred user={user} source={place}")
            }
        }
    }
}

impl Request<'_> {
    /// The word that says which line it is.
    pub fn what(&self) -> &'static str
        ensures { result.now ≡ request_what self.now }
    {
        match self {
            Request::Answered { .. } => "answered",
            Request::Unanswered { .. } => "unanswered",
            Request::Barred { .. } => "barred",
        }
    }

    /// Adds what it says to an object.
    pub(crate) fn add_members(&self, object: &mut Object) -> Result<(), NoMemory>
        ensures before { object.new.writer.before ≡ object.old.writer.before }
        ensures tokens { OnOk result (object.new.writer.tokens ≡ object.old.writer.tokens ++ request_members self.now) }
    {
        match *self {
            Request::Answered {
                address,
                method,
                user,
                code,
            } => {
                object.place("address", address)?;
                object.text("method", method)?;
                object.text("user", user)?;
                object.number("code", code)
            }
            Request::Unanswered {
                address,
                mailbox,
                tag,
            } => {
                object.place("address", address)?;
                object.word("method", "NOTIFY")?;
                object.text("mailbox", mailbox)?;
                object.text("tag", tag)
            }
            Request::Barred { address, user } => {
                object.place("address", address)?;
                object.one_word("user", user)
            }
        }
    }
}
