//! The MAIL lines of a file that are done before a service hears anything.
ghost use Rattle.std.specs.Prelude.{◌≡◌, ◌≢◌, IfOk, IfErr, OnOk};
ghost use Rattle.arguments.specs.Choices.{with_state, state_of};
ghost use Rattle.plans.specs.State.{Tells, IsNoChange, IsFault, Adds, AreFromLines, IsState};
ghost use Rattle.plans.specs.Refused.{IsOfState, IsOfNamedState};

use crate::error::{PlanError, StateFault};
use crate::line_file::{FileLine, TakesLines, take_file};
use crate::urgency::is_too_urgent;
use arguments::{Setting, is_blank};
use package::Change;
use scripts::{Control, ScriptError, parse_control};
use sip_text::{NoMemory, Text};
use std::alloc::Global;
use std::rt::Files;

/// What a line tells, without its line feed. An empty one and a comment, which begins with `#`, tell nothing.
fn line_change(alloc: Global, line: &str) -> Result<Option<Change>, ScriptError>
    ensures tells { IfOk result (Tells line.now) }
    ensures none { IfErr result (λ e. e ≢ ScriptError.NoMemory → IsNoChange line.now) }
{
    if is_blank(line) {
        return Ok(None);
    }
    match parse_control(alloc, line.as_bytes())? {
        Control::Change(Change::Mail(change)) => Ok(Some(Change::Mail(change))),
        Control::Change(_) | Control::Tick(_) | Control::Close => Err(ScriptError::BadScript),
    }
}

/// Why a line is no MAIL line.
fn line_fault(alloc: Global, line: &str) -> Result<StateFault, NoMemory>
    ensures { IfOk result (IsFault line.now) }
{
    if is_too_urgent(alloc, line)? {
        Ok(StateFault::TooUrgent)
    } else {
        Ok(StateFault::NoMail)
    }
}

/// Adds what a line of a file tells. A line that is no MAIL line is refused.
fn add_told(alloc: Global, changes: &mut Vec<Change>, line: FileLine<'_>) -> Result<(), PlanError>
    ensures added { OnOk result (Adds line.entry.text.now changes.old.items changes.new.items) }
    ensures refused { IfErr result (IsOfState line.entry.path.now) }
{
    match line_change(alloc, line.text) {
        Ok(Some(change)) => changes.push(change)?,
        Ok(None) => {}
        Err(ScriptError::NoMemory) => return Err(PlanError::NoMemory),
        Err(_) => {
            let fault = line_fault(alloc, line.text)?;
            return Err(PlanError::StateLine(line.path.copy(alloc)?, line.number, fault));
        }
    }
    Ok(())
}

/// Changes, to which the lines of a file add, in order.
impl TakesLines for Vec<Change> {
    ghost use Rattle.std.proofs.Common.{⊎_elim, subst, sym, refl};
    ghost use Rattle.plans.specs.State.{Adds, AreFromLines};
    ghost use Rattle.plans.specs.Refused.{IsOfState};

    ghost is_sound = { λ changes. AreFromLines changes.items };

    ghost takes = { λ old line new. Adds line old.items new.items };

    ghost refuses = { IsOfState };

    fn take_line(&mut self, alloc: Global, line: FileLine<'_>) -> Result<(), PlanError>
        requires sound { AreFromLines self.old.items }
        ensures sound { OnOk result (AreFromLines self.new.items) }
        ensures taken { OnOk result (Adds line.entry.text.now self.old.items self.new.items) }
        ensures refused { IfErr result (IsOfState line.entry.path.now) }
    {
        add_told(alloc, self, line)?;
        Ok(())
    }

    ghost unread = { λ path e is. ⊎_elim (λ file. subst (IsOfState path) (sym file) refl) (λ memory. subst (IsOfState path) (sym memory) tt) is };
}

/// The path of the file of changes after a setting: of two the last counts.
fn add_path(alloc: Global, path: &mut Option<Text>, setting: &Setting) -> Result<(), NoMemory>
    ensures { OnOk result (path.new ≡ with_state path.old setting.now) }
{
    match setting {
        Setting::StateFile(named) => *path = Some(named.copy(alloc)?),
        Setting::Address(..)
        | Setting::Number(..)
        | Setting::MailboxFile(_)
        | Setting::JournalFolder(_)
        | Setting::Sync(_)
        | Setting::PasswordFile(_)
        | Setting::Watch(..)
        | Setting::Rate(_)
        | Setting::Guesses(_)
        | Setting::Allow(..)
        | Setting::ControlAllow(..)
        | Setting::FeedFrom(..)
        | Setting::Seed(_)
        | Setting::Switch(_)
        | Setting::Mailbox(_) => {}
    }
    Ok(())
}

/// The path of the file of changes that the settings name, if they name one.
fn state_path(alloc: Global, settings: &[Setting]) -> Result<Option<Text>, NoMemory>
    ensures { IfOk result (λ path. path ≡ state_of settings.now) }
{
    let mut path = None;
    for setting in settings {
        add_path(alloc, &mut path, setting)?;
    }
    Ok(path)
}

/// The changes of the file that the settings name, if they name one.
pub(crate) fn told_changes<R: Files + AllocGlobal>(
    rt: &R,
    settings: &[Setting],
) -> Result<Vec<Change>, PlanError>
    ensures state { IfOk result (λ changes. IsState (state_of settings.now) changes.items) }
    ensures refused { IfErr result (IsOfNamedState settings.now) }
{
    match state_path(rt.alloc(), settings)? {
        Some(path) => {
            let mut changes = Vec::new(rt.alloc());
            take_file(rt, &path, &mut changes)?;
            Ok(changes)
        }
        None => Ok(Vec::new(rt.alloc())),
    }
}
