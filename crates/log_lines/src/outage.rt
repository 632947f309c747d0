//! Lines on time that a service doesn't count.
ghost use Rattle.std.specs.Prelude.{◌≡◌, ◌++◌, Some, OnOk};
ghost use Rattle.log_lines.specs.Objects.{outage_what, outage_members};
ghost use Rattle.log_lines.specs.Plain.{plain_outage};

use crate::object::Object;
use sip_text::NoMemory;
use std::fmt;
use std::fmt::{Display, Formatter};

/// Time that isn't counted. All are whole seconds.
#[derive(Clone, Copy)]
pub enum Outage {
    /// Each send fails. From now on time isn't counted, for so long at most.
    Began { most: u64 },
    /// A send succeeded. So much was not counted.
    Ended { seconds: u64 },
    /// Each send still fails, but time counts again. So much did not.
    TooLong { seconds: u64 },
    /// The process stood still for so long, which isn't counted.
    StoodStill { seconds: u64 },
}

impl Display for Outage {
    ghost output = { λ o. Some (plain_outage o) };

    fn fmt<W: fmt::Write>(&self, f: &mut Formatter<W>) -> fmt::Result {
        match *self {
            Outage::Began { most } => write!(
                f,
                "every send fails: time isn't counted until one succeeds, for {most} seconds at most"
            ),
            Outage::Ended { seconds } => {
                write!(f, "sends succeed again: {seconds} seconds were not counted")
            }
            Outage::TooLong { seconds } => write!(
                f,
                "every send still fails: time counts again, {seconds} seconds were not counted"
            ),
            Outage::StoodStill { seconds } => write!(
                f,
                "the process stood still: {seconds} seconds are not counted"
            ),
        }
    }
}

impl Outage {
    /// The word that says which line it is.
    pub(crate) fn what(&self) -> &'static str
        ensures { result.now ≡ outage_what self.now }
    {
        match self {
            Outage::Began { .. } => "outage_began",
            Outage::Ended { .. } => "outage_ended",
            Outage::TooLong { .. } => "outage_too_long",
            Outage::StoodStill { .. } => "stood_still",
        }
    }

    /// Adds what it says to an object.
    pub(crate) fn add_members(&self, object: &mut Object) -> Result<(), NoMemory>
        ensures before { object.new.writer.before ≡ object.old.writer.before }
        ensures tokens { OnOk result (object.new.writer.tokens ≡ object.old.writer.tokens ++ outage_members self.now) }
    {
        match *self {
            Outage::Began { most } => object.number("most", most),
            Outage::Ended { seconds }
            | Outage::TooLong { seconds }
            | Outage::StoodStill { seconds } => object.number("seconds", seconds),
        }
    }
}
