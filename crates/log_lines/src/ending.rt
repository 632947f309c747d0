//! Lines as a service ends, or doesn't run.
ghost use Rattle.std.specs.Prelude.{◌≡◌, ◌++◌, Some, OnOk};
ghost use Rattle.log_lines.specs.Objects.{ending_what, ending_members};
ghost use Rattle.log_lines.specs.Plain.{plain_ending};

use crate::object::Object;
use shown_text::Shown;
use sip_text::NoMemory;
use std::fmt;
use std::fmt::{Display, Formatter};

/// What was counted by a name.
#[derive(Clone, Copy)]
pub struct Count<'a> {
    pub name: &'a str,
    pub count: u64,
}

/// A line as a service ends, or where none runs.
#[derive(Clone, Copy)]
pub enum Ending<'a> {
    /// This worker ran out of memory.
    OutOfMemory {
        worker: u64,
    },
    /// It ended.
    Ended {
        /// What it counted, as people read it.
        text: &'a str,
        /// What it counted.
        counters: &'a [Count<'a>],
    },
    /// No service runs.
    Refused {
        /// The exit status.
        status: u64,
        /// Why.
        text: &'a str,
    },
}

impl Display for Ending<'_> {
    ghost output = { λ e. Some (plain_ending e) };

    fn fmt<W: fmt::Write>(&self, f: &mut Formatter<W>) -> fmt::Result {
        match *self {
            Ending::OutOfMemory { worker } => {
                write!(
                    f,
                    "worker {worker} ran out of memory, and so the service closed"
                )
            }
            Ending::Ended { text, .. } => write!(f, "ended: {text}"),
            Ending::Refused { text, .. } => {
                let text = Shown::passage(text.as_bytes());
                write!(f, "{text}")
            }
        }
    }
}

impl Ending<'_> {
    /// The word that says which line it is.
    pub fn what(&self) -> &'static str
        ensures { result.now ≡ ending_what self.now }
    {
        match self {
            Ending::OutOfMemory { .. } => "worker_out_of_memory",
            Ending::Ended { .. } => "ended",
            Ending::Refused { .. } => "not_running",
        }
    }

    /// Adds what it says to an object.
    pub(crate) fn add_members(&self, object: &mut Object) -> Result<(), NoMemory>
        ensures before { object.new.writer.before ≡ object.old.writer.before }
        ensures tokens { OnOk result (object.new.writer.tokens ≡ object.old.writer.tokens ++ ending_members self.now) }
    {
        match *self {
            Ending::OutOfMemory { worker } => object.number("worker", worker),
            Ending::Ended { counters, .. } => object.counts("counters", counters),
            Ending::Refused { status, text } => {
                object.number("status", status)?;
                object.passage("text", text)
            }
        }
    }
}
