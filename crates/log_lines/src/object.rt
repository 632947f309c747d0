//! A JSON object as it is written, a member at a time.
ghost use Rattle.std.specs.Prelude.{◌≡◌, [], ◌∷◌, ◌++◌, IfOk, OnOk};
ghost use Rattle.json.specs.Token.{begin_object, end_object};
ghost use Rattle.json.specs.Lex.{tokens};
ghost use Rattle.json.specs.Print.{print};
ghost use Rattle.log_lines.specs.Objects as spec;
ghost use Rattle.shown_text.specs.Shown as spec_shown;

use crate::ending::Count;
use json::Writer;
use shown_text::Shown;
use sip_text::{Addr, NoMemory};
use std::alloc::Global;

/// The room that most lines fit into.
const ROOM: usize = 512;

/// An object of which some members are written.
#[derive(Drop)]
pub(crate) struct Object {
    alloc: Global,
    writer: Writer,
}

impl Object {
    /// One without a member.
    pub(crate) fn new(alloc: Global) -> Result<Object, NoMemory>
        ensures before { IfOk result (λ o. o.writer.before ≡ []) }
        ensures tokens { IfOk result (λ o. o.writer.tokens ≡ begin_object ∷ []) }
    {
        let mut writer = Writer::new(Vec::with_capacity(alloc, ROOM)?);
        writer.begin_object()?;
        Ok(Object { alloc, writer })
    }

    /// Adds a word of this service's own.
    pub(crate) fn word(&mut self, name: &str, word: &str) -> Result<(), NoMemory>
        ensures before { self.new.writer.before ≡ self.old.writer.before }
        ensures tokens { OnOk result (self.new.writer.tokens ≡ self.old.writer.tokens ++ spec.word name.now word.now) }
    {
        self.writer.key(name)?;
        self.writer.string(word)?;
        Ok(())
    }

    /// Adds what is shown of a text.
    fn shown(&mut self, name: &str, shown: Shown<'_>) -> Result<(), NoMemory>
        ensures before { self.new.writer.before ≡ self.old.writer.before }
        ensures tokens { OnOk result (self.new.writer.tokens ≡ self.old.writer.tokens ++ spec.word name.now (spec_shown.text shown.entry)) }
    {
        let text = format!(in self.alloc; "{shown}")?;
        self.word(name, text.as_str())
    }

    /// Adds a text that a stranger may have written.
    pub(crate) fn text(&mut self, name: &str, text: &str) -> Result<(), NoMemory>
        ensures before { self.new.writer.before ≡ self.old.writer.before }
        ensures tokens { OnOk result (self.new.writer.tokens ≡ self.old.writer.tokens ++ spec.text name.now text.now) }
    {
        self.shown(name, Shown::words(text.as_bytes()))
    }

    /// Adds such a text as one word.
    pub(crate) fn one_word(&mut self, name: &str, text: &str) -> Result<(), NoMemory>
        ensures before { self.new.writer.before ≡ self.old.writer.before }
        ensures tokens { OnOk result (self.new.writer.tokens ≡ self.old.writer.tokens ++ spec.one_word name.now text.now) }
    {
        self.shown(name, Shown::word(text.as_bytes()))
    }

    /// Adds a text of the operator's or the system's.
    pub(crate) fn passage(&mut self, name: &str, text: &str) -> Result<(), NoMemory>
        ensures before { self.new.writer.before ≡ self.old.writer.before }
        ensures tokens { OnOk result (self.new.writer.tokens ≡ self.old.writer.tokens ++ spec.passage name.now text.now) }
    {
        self.shown(name, Shown::passage(text.as_bytes()))
    }

    /// Adds an address.
    pub(crate) fn place(&mut self, name: &str, place: Addr) -> Result<(), NoMemory>
        ensures before { self.new.writer.before ≡ self.old.writer.before }
        ensures tokens { OnOk result (self.new.writer.tokens ≡ self.old.writer.tokens ++ spec.place name.now place) }
    {
        let text = place.text(self.alloc)?;
        self.word(name, text.as_str())
    }

    /// Adds a number.
    pub(crate) fn number(&mut self, name: &str, number: u64) -> Result<(), NoMemory>
        ensures before { self.new.writer.before ≡ self.old.writer.before }
        ensures tokens { OnOk result (self.new.writer.tokens ≡ self.old.writer.tokens ++ spec.number name.now number) }
    {
        self.writer.key(name)?;
        self.writer.u64(number)?;
        Ok(())
    }

    /// Adds what was counted, each by its name.
    fn each(&mut self, counts: &[Count<'_>]) -> Result<(), NoMemory>
        ensures before { self.new.writer.before ≡ self.old.writer.before }
        ensures tokens { OnOk result (self.new.writer.tokens ≡ self.old.writer.tokens ++ spec.each counts.now) }
    {
        for count in counts {
            self.number(count.name, count.count)?;
        }
        Ok(())
    }

    /// Adds an object of what was counted.
    pub(crate) fn counts(&mut self, name: &str, counts: &[Count<'_>]) -> Result<(), NoMemory>
        ensures before { self.new.writer.before ≡ self.old.writer.before }
        ensures tokens { OnOk result (self.new.writer.tokens ≡ self.old.writer.tokens ++ spec.counts name.now counts.now) }
    {
        self.writer.key(name)?;
        self.writer.begin_object()?;
        self.each(counts)?;
        self.writer.end_object()?;
        Ok(())
    }

    /// Its text.
    pub(crate) fn end(self) -> Result<Vec<u8>, NoMemory>
        ensures text { IfOk result (λ v. v.items ≡ self.writer.before ++ print (self.writer.tokens ++ end_object ∷ [])) }
        ensures reads_back { IfOk result (λ _. tokens (print (self.writer.tokens ++ end_object ∷ [])) ≡ self.writer.tokens ++ end_object ∷ []) }
    {
        let Object { mut writer, .. } = self;
        writer.end_object()?;
        Ok(writer.into_inner())
    }
}
