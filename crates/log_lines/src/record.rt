//! What a line tells, and its line for machines.
ghost use Rattle.std.specs.Prelude.{◌≡◌, ◌++◌, ◌≤◌, codes, vec_len, option_map, Some, OnOk, IfOk};
ghost use Rattle.json.specs.Lex.{tokens};
ghost use Rattle.json.specs.Print.{print};
ghost use Rattle.log_lines.specs.Objects.{what as what_of, level as level_of, members, head, object as object_of};
ghost use Rattle.log_lines.specs.Lines.{line as line_of, IsOneLine, fits as is_short_line};
ghost use Rattle.log_lines.specs.Plain.{plain};

use crate::beginning::{Beginning, Course};
use crate::ending::Ending;
use crate::object::Object;
use crate::request::Request;
use crate::trouble::Trouble;
use sip_text::NoMemory;
use std::alloc::Global;
use std::fmt;
use std::fmt::{Display, Formatter};

/// How many octets a line has at most, with its end: so many a pipe takes at once (PIPE_BUF).
const LONGEST: usize = 4096;

/// The line that stands for one that can't be written: memory is wanting, or it is too long.
pub const LOST: &str = "{\"what\":\"lost\",\"level\":\"error\"}\n";

/// What a line of the log tells.
#[derive(Clone, Copy)]
pub enum Record<'a> {
    Beginning(Beginning<'a>),
    Request(Request<'a>),
    Trouble(Trouble<'a>),
    Ending(Ending<'a>),
}

/// The plain form.
impl Display for Record<'_> {
    ghost output = { λ r. Some (plain r) };

    fn fmt<W: fmt::Write>(&self, f: &mut Formatter<W>) -> fmt::Result {
        match self {
            Record::Beginning(beginning) => write!(f, "{beginning}"),
            Record::Request(request) => write!(f, "{request}"),
            Record::Trouble(trouble) => write!(f, "{trouble}"),
            Record::Ending(ending) => write!(f, "{ending}"),
        }
    }
}

/// Whether an object is one line, and no longer than a line may be.
fn fits(object: &[u8]) -> bool
    ensures { result ≡ is_short_line object.now }
{
    object.len() < LONGEST && !object.contains(&b'\n')
}

impl Record<'_> {
    /// The word that says which line it is.
    pub fn what(&self) -> &'static str
        ensures { result.now ≡ what_of self.now }
    {
        match self {
            Record::Beginning(beginning) => beginning.what(),
            Record::Request(request) => request.what(),
            Record::Trouble(trouble) => trouble.what(),
            Record::Ending(ending) => ending.what(),
        }
    }

    /// How bad it is, where it is.
    pub fn level(&self) -> Option<&'static str>
        ensures { option_map (λ l. l.now) result ≡ level_of self.now }
    {
        match self {
            Record::Beginning(
                Beginning::Listening { .. }
                | Beginning::Journal {
                    course: Course::GoesOn | Course::GoesOnRenewed | Course::GoesOnWithoutLast,
                    ..
                },
            )
            | Record::Request(_)
            | Record::Trouble(Trouble::Counted { .. } | Trouble::NotTaken(_))
            | Record::Ending(Ending::Ended { .. }) => None,
            Record::Beginning(_) | Record::Trouble(_) => Some("warning"),
            Record::Ending(_) => Some("error"),
        }
    }

    /// Adds what each line has.
    fn add_head(&self, object: &mut Object, time: Option<&str>) -> Result<(), NoMemory>
        ensures before { object.new.writer.before ≡ object.old.writer.before }
        ensures tokens { OnOk result (object.new.writer.tokens
            ≡ object.old.writer.tokens ++ head (option_map (λ t. t.now) time.entry) self.now) }
    {
        if let Some(time) = time {
            object.word("time", time)?;
        }
        object.word("what", self.what())?;
        if let Some(level) = self.level() {
            object.word("level", level)?;
        }
        Ok(())
    }

    /// Adds what it says to an object.
    fn add_members(&self, object: &mut Object) -> Result<(), NoMemory>
        ensures before { object.new.writer.before ≡ object.old.writer.before }
        ensures tokens { OnOk result (object.new.writer.tokens ≡ object.old.writer.tokens ++ members self.now) }
    {
        match self {
            Record::Beginning(beginning) => beginning.add_members(object),
            Record::Request(request) => request.add_members(object),
            Record::Trouble(trouble) => trouble.add_members(object),
            Record::Ending(ending) => ending.add_members(object),
        }
    }

    /// It as one JSON object (RFC 8259), at this time of day, where that is known. A JSON reader finds these very members in it.
    pub fn object(&self, alloc: Global, time: Option<&str>) -> Result<Vec<u8>, NoMemory>
        ensures text { IfOk result (λ o. o.items ≡ print (object_of (option_map (λ t. t.now) time.entry) self.now)) }
        ensures reads_back { IfOk result (λ o. tokens o.items ≡ object_of (option_map (λ t. t.now) time.entry) self.now) }
    {
        let mut object = Object::new(alloc)?;
        self.add_head(&mut object, time)?;
        self.add_members(&mut object)?;
        object.end()
    }

    /// Its line for machines: that object and a line feed, or [`LOST`] where a line has no room for it.
    pub fn line(&self, alloc: Global, time: Option<&str>) -> Result<Vec<u8>, NoMemory>
        ensures line { IfOk result (λ l. l.items ≡ line_of (option_map (λ t. t.now) time.entry) self.now) }
        ensures one { IfOk result (λ l. IsOneLine l.items) }
        ensures short { IfOk result (λ l. vec_len l ≤ 4096) }
    {
        let mut line = self.object(alloc, time)?;
        if !fits(line.as_slice()) {
            return Ok(Vec::from_slice(alloc, LOST.as_bytes())?);
        }
        line.push(b'\n')?;
        Ok(line)
    }
}
