//! The mailboxes that the settings of a service name, by themselves or by files.
ghost use Rattle.std.specs.Prelude.{◌≡◌, ◌++◌, ℕ, List, map, string_bytes, IfOk, IfErr, OnOk, IsTrue};
ghost use Rattle.std.specs.List.{All};
ghost use Rattle.control_lines.specs.Told.{is_held};
ghost use Rattle.arguments.specs.Settings.{IsMailbox};
ghost use Rattle.plans.specs.Plans as spec;
ghost use Rattle.plans.specs.Plans.{Names, AddsNames, AreMailboxesOf, AreNamed};
ghost use Rattle.plans.specs.Refused.{IsOfFile, IsOfSetting, IsOfOne};

use crate::error::PlanError;
use crate::line_file::{FileLine, TakesLines, take_file};
use arguments::{Setting, is_mailbox, line_mailboxes};
use indexmap::IndexSet;
use sip_text::{NoMemory, Text};
use std::alloc::Global;
use std::rt::Files;

/// Names, to which the lines of a file add.
impl TakesLines for Vec<Text> {
    ghost use Rattle.std.proofs.Common.{⊎_elim, subst, sym, refl};
    ghost use Rattle.std.specs.List.{All};
    ghost use Rattle.arguments.specs.Settings.{IsMailbox};
    ghost use Rattle.plans.specs.Plans.{AddsNames};
    ghost use Rattle.plans.specs.Refused.{IsOfFile};

    ghost is_sound = { λ names. All IsMailbox names.items };

    ghost takes = { λ old line new. AddsNames line old.items new.items };

    ghost refuses = { IsOfFile };

    fn take_line(&mut self, alloc: Global, line: FileLine<'_>) -> Result<(), PlanError>
        requires sound { All IsMailbox self.old.items }
        ensures sound { OnOk result (All IsMailbox self.new.items) }
        ensures taken { OnOk result (AddsNames line.entry.text.now self.old.items self.new.items) }
        ensures refused { IfErr result (IsOfFile line.entry.path.now) }
    {
        let mut more = match line_mailboxes(alloc, line.text) {
            Ok(more) => more,
            Err(error) => return Err(PlanError::Line(line.path.copy(alloc)?, line.number, error)),
        };
        self.append(&mut more)?;
        Ok(())
    }

    ghost unread = { λ path e is. ⊎_elim (λ file. subst (IsOfFile path) (sym file) refl) (λ memory. subst (IsOfFile path) (sym memory) tt) is };
}

/// The mailboxes that the file at this path names, in order.
fn file_mailboxes<R: Files + AllocGlobal>(rt: &R, path: &Text) -> Result<Vec<Text>, PlanError>
    ensures mailboxes { IfOk result (λ names. All IsMailbox names.items) }
    ensures told { IfOk result (λ names. (file : R.File) × AreMailboxesOf (R.File.remaining file) names.items) }
    ensures refused { IfErr result (IsOfFile path.now) }
{
    let mut names = Vec::new(rt.alloc());
    take_file(rt, path, &mut names)?;
    Ok(names)
}

/// The mailboxes that one setting names.
fn setting_names<R: Files + AllocGlobal>(rt: &R, setting: &Setting) -> Result<Vec<Text>, PlanError>
    ensures names { IfOk result (λ names. Names setting.now names.items) }
    ensures refused { IfErr result (IsOfSetting setting.now) }
{
    match setting {
        Setting::Mailbox(name) => {
            let mut names = Vec::new(rt.alloc());
            names.push(name.copy(rt.alloc())?)?;
            Ok(names)
        }
        Setting::MailboxFile(path) => file_mailboxes(rt, path),
        Setting::Address(..)
        | Setting::Number(..)
        | Setting::StateFile(_)
        | Setting::JournalFolder(_)
        | Setting::Sync(_)
        | Setting::PasswordFile(_)
        | Setting::Watch(..)
        | Setting::Rate(_)
        | Setting::Guesses(_)
        | Setting::Allow(..)
        | Setting::ControlAllow(..)
        | Setting::FeedFrom(..)
        | Setting::Seed(_)
        | Setting::Switch(_) => { Ok(Vec::new(rt.alloc())) }
    }
}

/// The mailboxes that the settings name, in order. A file that can't be read, or with a line that names no mailbox, is an
/// error.
pub(crate) fn named_mailboxes<R: Files + AllocGlobal>(
    rt: &R,
    settings: &[Setting],
) -> Result<Vec<Text>, PlanError>
    ensures names { IfOk result (λ names. AreNamed settings.now names.items) }
    ensures refused { IfErr result (IsOfOne settings.now) }
{
    let mut names = Vec::new(rt.alloc());
    for setting in settings {
        let mut more = setting_names(rt, setting)?;
        names.append(&mut more)?;
    }
    Ok(names)
}

/// These names as a set, which keeps them in order.
fn name_set(alloc: Global, names: Vec<Text>) -> Result<IndexSet<String>, NoMemory>
    ensures { IfOk result (λ set. map string_bytes set.keys ≡ spec.each_once names.items) }
{
    let mut set = IndexSet::new(alloc);
    for name in names {
        set.insert(name.into_string())?;
    }
    Ok(set)
}

/// These names, each once, where it comes first.
pub(crate) fn each_once(alloc: Global, names: Vec<Text>) -> Result<Vec<Text>, NoMemory>
    ensures { IfOk result (λ once. once.items ≡ spec.each_once names.items) }
{
    let mut once = Vec::new(alloc);
    for name in name_set(alloc, names)? {
        once.push(Text::new(name))?;
    }
    Ok(once)
}

/// Copies of these names as a set, which has each once. An error where there is no memory.
pub fn copied_names(alloc: Global, names: &[Text]) -> Result<IndexSet<String>, NoMemory>
    ensures { IfOk result (λ set. map string_bytes set.keys ≡ spec.each_once names.now) }
{
    let mut set = IndexSet::new(alloc);
    for name in names {
        set.insert(String::from_str(alloc, name.as_str())?)?;
    }
    Ok(set)
}

/// Whether this name is in the set.
pub fn has_name(set: &IndexSet<String>, name: &Text) -> bool
    ensures { result ≡ is_held (map string_bytes set.now.keys) name.now }
{
    set.contains(name.as_str())
}

/// Whether a name of which a line told is added to these: a file of mailboxes may hold it, there is room, and it isn't there yet.
fn is_further(set: &IndexSet<String>, name: &Text, most: usize) -> bool
    ensures mailbox { IsTrue result → IsMailbox name.now }
    ensures further { result ≡ spec.is_further most (map string_bytes set.now.keys) name.now }
{
    is_mailbox(name.as_str()) && set.len() < most && !has_name(set, name)
}

/// Those of these names that a file of mailboxes may hold and the others don't have, each once, as long as there are so many at most together.
fn further_names(
    alloc: Global,
    names: &[Text],
    told: Vec<Text>,
    most: usize,
) -> Result<Vec<Text>, NoMemory>
    ensures mailboxes { IfOk result (λ further. All IsMailbox further.items) }
    ensures told { IfOk result (λ further. spec.each_once (names.now ++ further.items) ≡ spec.with_told most (spec.each_once names.now) told.items) }
{
    let mut set = copied_names(alloc, names)?;
    let mut further = Vec::new(alloc);
    for name in told {
        if is_further(&set, &name, most) {
            set.insert(String::from_str(alloc, name.as_str())?)?;
            further.push(name)?;
        }
    }
    Ok(further)
}

/// These names, and behind them those of the others that a file of mailboxes may hold, each once, as long as there are so many at most.
pub(crate) fn with_further(
    alloc: Global,
    names: Vec<Text>,
    told: Vec<Text>,
    most: usize,
) -> Result<Vec<Text>, NoMemory>
    ensures mailboxes { IfOk result (λ all. (further : List (List ℕ)) × All IsMailbox further × (all.items ≡ spec.each_once (names.items ++ further))) }
    ensures told { IfOk result (λ all. all.items ≡ spec.with_told most (spec.each_once names.items) told.items) }
{
    let mut further = further_names(alloc, names.as_slice(), told, most)?;
    let mut all = names;
    all.append(&mut further)?;
    each_once(alloc, all)
}
