//! Lines on what goes wrong, once a minute each.
ghost use Rattle.std.specs.Prelude.{◌≡◌, ◌++◌, Some, OnOk};
ghost use Rattle.log_lines.specs.Objects.{trouble_what, trouble_members};
ghost use Rattle.log_lines.specs.Plain.{plain_trouble};

use crate::not_taken::NotTaken;
use crate::object::Object;
use crate::outage::Outage;
use crate::place::Place;
use shown_text::Shown;
use sip_text::{Addr, NoMemory};
use std::fmt;
use std::fmt::{Display, Formatter};

/// A line on what went wrong since the last one like it.
#[derive(Clone, Copy)]
pub enum Trouble<'a> {
    /// Time isn't counted.
    Outage(Outage),
    /// Something was dropped or refused.
    Counted {
        /// How often.
        more: u64,
        /// The name of its counter in STATUS.
        counter: &'a str,
        /// What happened.
        text: &'a str,
    },
    /// Something was not sent or written.
    Failed {
        /// How often.
        more: u64,
        /// The name of its counter in STATUS.
        counter: &'a str,
        /// What happened.
        text: &'a str,
    },
    /// The same, where the system told why.
    FailedSince {
        /// How often.
        more: u64,
        /// The name of its counter in STATUS.
        counter: &'a str,
        /// What happened.
        text: &'a str,
        /// The system's words on the last one.
        cause: &'a str,
    },
    /// A receive failed.
    ReceiveFailed {
        /// Where it listened.
        address: Addr,
        /// The system's words.
        cause: &'a str,
    },
    /// Phones didn't take NOTIFYs.
    NotTaken(NotTaken<'a>),
}

impl Display for Trouble<'_> {
    ghost output = { λ t. Some (plain_trouble t) };

    fn fmt<W: fmt::Write>(&self, f: &mut Formatter<W>) -> fmt::Result {
        match *self {
            Trouble::Outage(outage) => write!(f, "{outage}"),
            Trouble::Counted { more, text, .. } | Trouble::Failed { more, text, .. } => {
                write!(f, "{more} {text}")
            }
            Trouble::FailedSince {
                more,
                text,
                cause,
                ..
            } => {
                let cause = Shown::passage(cause.as_bytes());
                write!(f, "{more} {text}, the last since: {cause}")
            }
            Trouble::ReceiveFailed { address, cause } => {
                let place = Place(address);
                let cause = Shown::passage(cause.as_bytes());
                write!(f, "a receive at {place} failed: {cause}")
            }
            Trouble::NotTaken(not_taken) => write!(f, "{not_taken}"),
        }
    }
}

impl Trouble<'_> {
    /// The word that says which line it is.
    pub fn what(&self) -> &'static str
        ensures { result.now ≡ trouble_what self.now }
    {
        match self {
            Trouble::Outage(outage) => outage.what(),
            Trouble::Counted { .. } => "counted",
            Trouble::Failed { .. } | Trouble::FailedSince { .. } => "not_done",
            Trouble::ReceiveFailed { .. } => "receive_failed",
            Trouble::NotTaken(not_taken) => not_taken.what(),
        }
    }

    /// Adds what it says to an object.
    pub(crate) fn add_members(&self, object: &mut Object) -> Result<(), NoMemory>
        ensures before { object.new.writer.before ≡ object.old.writer.before }
        ensures tokens { OnOk result (object.new.writer.tokens ≡ object.old.writer.tokens ++ trouble_members self.now) }
    {
        match *self {
            Trouble::Outage(outage) => outage.add_members(object),
            Trouble::Counted { more, counter, .. } | Trouble::Failed { more, counter, .. } => {
                object.word("counter", counter)?;
                object.number("more", more)
            }
            Trouble::FailedSince {
                more,
                counter,
                cause,
                ..
            } => {
                object.word("counter", counter)?;
                object.number("more", more)?;
                object.passage("cause", cause)
            }
            Trouble::ReceiveFailed { address, cause } => {
                object.place("address", address)?;
                object.passage("cause", cause)
            }
            Trouble::NotTaken(not_taken) => not_taken.add_members(object),
        }
    }
}
