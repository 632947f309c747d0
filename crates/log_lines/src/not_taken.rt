//! Lines on NOTIFYs that phones didn't take.
ghost use Rattle.std.specs.Prelude.{◌≡◌, ◌++◌, Some, OnOk};
ghost use Rattle.log_lines.specs.Objects.{not_taken_what, not_taken_members, code_member, dialog_members};
ghost use Rattle.log_lines.specs.Plain.{plain_not_taken, plain_dialog, plain_code, not_taken_so};

use crate::object::Object;
use crate::place::Place;
use shown_text::Shown;
use sip_text::{Addr, NoMemory};
use std::fmt;
use std::fmt::{Display, Formatter};

/// The subscription that a NOTIFY is of.
#[derive(Clone, Copy)]
pub struct Dialog<'a> {
    /// What it watches.
    pub mailbox: &'a str,
    /// The local tag of its dialog.
    pub tag: &'a str,
}

/// So many NOTIFYs were not taken.
#[derive(Clone, Copy)]
pub struct NotTaken<'a> {
    pub more: u64,
    /// Where the last of them was sent.
    pub address: Addr,
    /// With which status code it was refused. None: nobody answered it.
    pub code: Option<u16>,
    /// Its subscription. None: they are those behind one that was told with its own.
    pub dialog: Option<Dialog<'a>>,
}

impl Display for Dialog<'_> {
    ghost output = { λ d. Some (plain_dialog d) };

    fn fmt<W: fmt::Write>(&self, f: &mut Formatter<W>) -> fmt::Result {
        let mailbox = Shown::words(self.mailbox.as_bytes());
        let tag = Shown::words(self.tag.as_bytes());
        write!(f, "{mailbox};tag={tag}")
    }
}

/// The status code of a refusal, at the end of a line.
#[derive(Clone, Copy)]
struct RefusedWith(Option<u16>);

impl Display for RefusedWith {
    ghost output = { λ r. Some (plain_code r.0) };

    fn fmt<W: fmt::Write>(&self, f: &mut Formatter<W>) -> fmt::Result {
        match self.0 {
            Some(code) => write!(f, " with {code}"),
            None => Ok(()),
        }
    }
}

impl Display for NotTaken<'_> {
    ghost output = { λ n. Some (plain_not_taken n) };

    fn fmt<W: fmt::Write>(&self, f: &mut Formatter<W>) -> fmt::Result {
        let so = self.so();
        let more = self.more;
        let place = Place(self.address);
        let code = RefusedWith(self.code);
        match self.dialog {
            Some(dialog) => write!(
                f,
                "{so} {more} NOTIFYs, the last of them from {dialog} at {place}{code}"
            ),
            None => write!(
                f,
                "{so} {more} more NOTIFYs, the last of them at {place}{code}"
            ),
        }
    }
}

impl NotTaken<'_> {
    /// In which way they were not taken, as people read it.
    fn so(&self) -> &'static str
        ensures { result.now ≡ not_taken_so self.now.code }
    {
        match self.code {
            Some(_) => "phones refused",
            None => "nobody answered",
        }
    }

    /// The word that says which line it is.
    pub(crate) fn what(&self) -> &'static str
        ensures { result.now ≡ not_taken_what self.now.code }
    {
        match self.code {
            Some(_) => "refused",
            None => "given_up",
        }
    }

    /// Adds the status code to an object, where there is one.
    fn add_code(&self, object: &mut Object) -> Result<(), NoMemory>
        ensures before { object.new.writer.before ≡ object.old.writer.before }
        ensures tokens { OnOk result (object.new.writer.tokens ≡ object.old.writer.tokens ++ code_member self.now.code) }
    {
        match self.code {
            Some(code) => object.number("code", u64::from(code)),
            None => Ok(()),
        }
    }

    /// Adds the subscription to an object, where there is one.
    fn add_dialog(&self, object: &mut Object) -> Result<(), NoMemory>
        ensures before { object.new.writer.before ≡ object.old.writer.before }
        ensures tokens { OnOk result (object.new.writer.tokens ≡ object.old.writer.tokens ++ dialog_members self.now.dialog) }
    {
        match self.dialog {
            Some(dialog) => {
                object.text("mailbox", dialog.mailbox)?;
                object.text("tag", dialog.tag)
            }
            None => Ok(()),
        }
    }

    /// Adds what it says to an object.
    pub(crate) fn add_members(&self, object: &mut Object) -> Result<(), NoMemory>
        ensures before { object.new.writer.before ≡ object.old.writer.before }
        ensures tokens { OnOk result (object.new.writer.tokens ≡ object.old.writer.tokens ++ not_taken_members self.now) }
    {
        object.number("more", self.more)?;
        object.place("address", self.address)?;
        self.add_code(object)?;
        self.add_dialog(object)
    }
}
