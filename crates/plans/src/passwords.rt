//! The users of a service and their passwords' hashes, from a file.
ghost use Rattle.std.specs.Prelude.{IfOk, IfErr, OnOk};
ghost use Rattle.digest.specs.Passwords.{Takes};
ghost use Rattle.plans.specs.Heard.{IsTable, AreUsers, AreUsersOf};
ghost use Rattle.plans.specs.Refused.{IsOfPasswords};

use crate::error::PlanError;
use crate::line_file::{FileLine, TakesLines, take_file};
use digest::{Passwords, PasswordsError};
use sip_text::Text;
use std::alloc::Global;
use std::rt::Files;

/// Users, to whom the lines of a file add.
impl TakesLines for Passwords {
    ghost use Rattle.std.proofs.Common.{⊎_elim, subst, sym, refl};
    ghost use Rattle.digest.specs.Passwords.{Takes};
    ghost use Rattle.plans.specs.Heard.{IsTable};
    ghost use Rattle.plans.specs.Refused.{IsOfPasswords};

    ghost is_sound = { IsTable };

    ghost takes = { Takes };

    ghost refuses = { IsOfPasswords };

    #[tactic(auto, using(crate::proofs::Heard::of_password, crate::proofs::Heard::table_more))]
    fn take_line(&mut self, alloc: Global, line: FileLine<'_>) -> Result<(), PlanError>
        requires sound { IsTable self.old }
        ensures sound { OnOk result (IsTable self.new) }
        ensures taken { OnOk result (Takes self.old line.entry.text.now self.new) }
        ensures refused { IfErr result (IsOfPasswords line.entry.path.now) }
    {
        match self.add_line(alloc, line.number, line.text) {
            Ok(()) => Ok(()),
            Err(PasswordsError::NoMemory) => Err(PlanError::NoMemory),
            Err(error) => Err(PlanError::PasswordLine(line.path.copy(alloc)?, error)),
        }
    }

    ghost unread = { λ path e is. ⊎_elim (λ file. subst (IsOfPasswords path) (sym file) refl) (λ memory. subst (IsOfPasswords path) (sym memory) tt) is };
}

/// The users of the file at this path. An error where it can't be read, has no user, and at the first line that is none of such a file.
#[tactic(auto, using(crate::proofs::Heard::table_none))]
pub(crate) fn file_users<R: Files + AllocGlobal>(
    rt: &R,
    path: &Text,
) -> Result<Passwords, PlanError>
    ensures users { IfOk result AreUsers }
    ensures told { IfOk result (λ users. (file : R.File) × AreUsersOf (R.File.remaining file) users) }
    ensures refused { IfErr result (IsOfPasswords path.now) }
{
    let alloc = rt.alloc();
    let mut passwords = Passwords::new(alloc);
    take_file(rt, path, &mut passwords)?;
    if passwords.realm.is_none() {
        return Err(PlanError::NoUsers(path.copy(alloc)?));
    }
    Ok(passwords)
}
