//! Lines as a service begins.
ghost use Rattle.std.specs.Prelude.{◌≡◌, ◌++◌, Some, OnOk};
ghost use Rattle.log_lines.specs.Objects.{beginning_what, beginning_members, course_word};
ghost use Rattle.log_lines.specs.Plain.{plain_beginning, course_text};

use crate::object::Object;
use crate::place::Place;
use shown_text::Shown;
use sip_text::{Addr, NoMemory};
use std::fmt;
use std::fmt::{Display, Formatter};

/// How it stands with a journal.
#[derive(Clone, Copy, Debug, PartialEq, Eq)]
pub enum Course {
    /// The service goes on from it.
    GoesOn,
    /// The same, with other options.
    GoesOnRenewed,
    /// The same, but what was written last may be lost.
    GoesOnWithoutLast,
    /// Its subscriptions end: who knows them doesn't know the service.
    EndsSubscriptions,
    /// It can't be read.
    Unreadable,
    /// It can't be gone on from.
    Unfit,
    /// It can't be written.
    Unwritable,
}

impl Course {
    /// As people read it.
    fn text(self) -> &'static str
        ensures { result.now ≡ course_text self }
    {
        match self {
            Course::GoesOn => "goes on from it",
            Course::GoesOnRenewed => "goes on from it, with other options",
            Course::GoesOnWithoutLast => "goes on from it, but for what was written last",
            Course::EndsSubscriptions => {
                "its subscriptions end: another seed, contact or number of workers"
            }
            Course::Unreadable => "can't be read, and is put aside",
            Course::Unfit => "can't be gone on from, and is put aside",
            Course::Unwritable => "can't be written, so nothing is kept",
        }
    }

    /// As a machine reads it.
    fn word(self) -> &'static str
        ensures { result.now ≡ course_word self }
    {
        match self {
            Course::GoesOn => "goes_on",
            Course::GoesOnRenewed => "goes_on_renewed",
            Course::GoesOnWithoutLast => "goes_on_without_last",
            Course::EndsSubscriptions => "ends_subscriptions",
            Course::Unreadable => "unreadable",
            Course::Unfit => "unfit",
            Course::Unwritable => "unwritable",
        }
    }
}

/// A line as a service begins.
#[derive(Clone, Copy)]
pub enum Beginning<'a> {
    /// It listens.
    Listening {
        /// For SIP.
        address: Addr,
        /// For control lines.
        control: Addr,
        workers: u64,
        mailboxes: u64,
    },
    /// Other machines may reach this control address.
    ControlReachable {
        control: Addr,
    },
    /// The system gives a socket less room than was asked for.
    SmallBuffer {
        /// The option that names the socket's address.
        option: &'a str,
        /// How much it gives.
        octets: u64,
        /// How much was asked for.
        asked: u64,
    },
    /// How it stands with the journal in this folder.
    Journal {
        folder: &'a str,
        course: Course,
    },
}

impl Display for Beginning<'_> {
    ghost output = { λ b. Some (plain_beginning b) };

    fn fmt<W: fmt::Write>(&self, f: &mut Formatter<W>) -> fmt::Result {
        match *self {
            Beginning::Listening {
                address,
                control,
                workers,
                mailboxes,
            } => {
                let place = Place(address);
                let desk = Place(control);
                write!(f, "listening at {place}, control at {desk}")?;
                write!(f, ", {workers} workers, {mailboxes} mailboxes")
            }
            Beginning::ControlReachable { control } => {
                let place = Place(control);
                write!(
                    f,
                    "warning: other machines may reach the control address {place}"
                )
            }
            Beginning::SmallBuffer {
                option,
                octets,
                asked,
            } => write!(
                f,
                "the system gives the socket of {option} room for {octets} octets, not for {asked}"
            ),
            Beginning::Journal { folder, course } => {
                let text = course.text();
                let folder = Shown::passage(folder.as_bytes());
                write!(f, "journal {folder}: {text}")
            }
        }
    }
}

impl Beginning<'_> {
    /// The word that says which line it is.
    pub fn what(&self) -> &'static str
        ensures { result.now ≡ beginning_what self.now }
    {
        match self {
            Beginning::Listening { .. } => "listening",
            Beginning::ControlReachable { .. } => "control_reachable",
            Beginning::SmallBuffer { .. } => "small_buffer",
            Beginning::Journal { .. } => "journal",
        }
    }

    /// Adds what it says to an object.
    pub(crate) fn add_members(&self, object: &mut Object) -> Result<(), NoMemory>
        ensures before { object.new.writer.before ≡ object.old.writer.before }
        ensures tokens { OnOk result (object.new.writer.tokens ≡ object.old.writer.tokens ++ beginning_members self.now) }
    {
        match *self {
            Beginning::Listening {
                address,
                control,
                workers,
                mailboxes,
            } => {
                object.place("address", address)?;
                object.place("control", control)?;
                object.number("workers", workers)?;
                object.number("mailboxes", mailboxes)
            }
            Beginning::ControlReachable { control } => object.place("control", control),
            Beginning::SmallBuffer {
                option,
                octets,
                asked,
            } => {
                object.word("option", option)?;
                object.number("octets", octets)?;
                object.number("asked", asked)
            }
            Beginning::Journal { folder, course } => {
                object.passage("folder", folder)?;
                object.word("course", course.word())
            }
        }
    }
}
