//! Why words and files ask for no service.
ghost use Rattle.std.specs.Prelude.{◌≡◌};
ghost use Rattle.plans.specs.declared.error.PlanError.TheVariants as error;
ghost use Rattle.plans.specs.Refused.{status_of, status_of_words};

use crate::ranged::Ranged;
use arguments::{ExitStatus, Flag, OptionsError};
use digest::PasswordsError;
use sip_text::{NoMemory, Text};
use std::alloc::{AllocError, AllocFailed};
use thiserror::Error;

/// Why a line of a file of changes is refused.
#[derive(Clone, Copy, Debug, PartialEq, Eq, Drop, Error)]
pub enum StateFault {
    /// It is no MAIL line.
    #[error("no MAIL line")]
    NoMail,
    /// It has the form of one, but more are urgent than there are.
    #[error("more are urgent than there are")]
    TooUrgent,
}

/// Why words and the files that they name ask for no service. The text is one line.
#[derive(Debug, Drop, Error)]
pub enum PlanError {
    /// The arguments ask for no service.
    #[error("{0}")]
    Options(OptionsError),
    /// A time isn't in the range that other times leave.
    #[error("times that don't go together: {0} (--min-time is the least, --max-time the greatest)")]
    Times(Ranged),
    /// Phones would be told 0.0.0.0: it is named for them, or the service listens there and none is.
    #[error("0.0.0.0 is no address for phones: --contact <a.b.c.d:port>")]
    NoContact,
    /// No mailbox is named.
    #[error("no mailbox: name some, or a file of them with --mailboxes <file>")]
    NoMailbox,
    /// Lines are to make mailboxes, and no journal keeps them.
    #[error("no journal: --any-mailbox needs --journal <folder>")]
    NoJournal,
    /// A file of lines can't be read, or isn't UTF-8 (RFC 3629).
    #[error("no such file, or it can't be read as UTF-8 text: {path}", path = .0.as_str())]
    File(Text),
    /// A line of a file of mailboxes names none.
    #[error("{path}, line {line}: {error}", path = .0.as_str(), line = .1, error = .2)]
    Line(Text, u64, OptionsError),
    /// A line of a file of changes is no MAIL line.
    #[error("{path}, line {line}: {fault} (MAIL <mailbox> <class> <new> <old> <urgent new> <urgent old>)", path = .0.as_str(), line = .1, fault = .2)]
    StateLine(Text, u64, StateFault),
    /// Something is said of users, and no file of their passwords is named.
    #[error("no passwords: --watch, --nonce-time and --old-digest need --passwords <file>")]
    NoPasswords,
    /// A line of a file of passwords is none. The text doesn't tell what stands there.
    #[error("{path}, {error}", path = .0.as_str(), error = .1)]
    PasswordLine(Text, PasswordsError),
    /// A file of passwords has no user.
    #[error("no user: {path} (a line each: user:realm:hash, as htdigest writes it)", path = .0.as_str())]
    NoUsers(Text),
    /// A user who may watch a further mailbox has no password.
    #[error("no password of the user of --watch: {user}", user = .0.as_str())]
    NoUser(Text),
    /// A further mailbox that a user may watch isn't one of the service's.
    #[error("no such mailbox of --watch: {mailbox}", mailbox = .0.as_str())]
    NoFurther(Text),
    /// The system gave no randomness.
    #[error("the system refused a thread, a socket, the clock or randomness")]
    System,
    /// An allocation failed: out of memory.
    #[error("out of memory")]
    NoMemory,
}

/// The exit status where the words can't be read. An address in another form may be a host that can't be found.
fn options_status(error: &OptionsError) -> u8
    ensures { result ≡ status_of_words error.now }
{
    match error {
        OptionsError::NoMemory => ExitStatus::OutOfMemory.code(),
        OptionsError::Bad(Flag::Address(_)) => ExitStatus::DeviceFault.code(),
        OptionsError::Bad(_)
        | OptionsError::Missing(_)
        | OptionsError::Unknown(_)
        | OptionsError::NoMailbox(_)
        | OptionsError::NoRange(_) => ExitStatus::BadArguments.code(),
    }
}

impl PlanError {
    /// The exit status of the program: 1 where the words ask for no service, 4 where memory ran out, and else 3, also where
    /// an address is in another form.
    pub fn status(&self) -> u8
        ensures { result ≡ status_of self.now }
    {
        match self {
            PlanError::Options(error) => options_status(error),
            PlanError::Times(_)
            | PlanError::NoContact
            | PlanError::NoMailbox
            | PlanError::NoJournal
            | PlanError::NoPasswords
            | PlanError::NoUser(_)
            | PlanError::NoFurther(_) => ExitStatus::BadArguments.code(),
            PlanError::Line(_, _, OptionsError::NoMemory) | PlanError::NoMemory => {
                ExitStatus::OutOfMemory.code()
            }
            PlanError::Line(..)
            | PlanError::File(_)
            | PlanError::StateLine(..)
            | PlanError::PasswordLine(..)
            | PlanError::NoUsers(_)
            | PlanError::System => ExitStatus::DeviceFault.code(),
        }
    }
}

impl From<OptionsError> for PlanError {
    ghost from_gives = { λ wrong e. e ≡ error.Options wrong };

    fn from(error: OptionsError) -> PlanError {
        PlanError::Options(error)
    }
}

impl From<NoMemory> for PlanError {
    ghost from_gives = { λ _ e. e ≡ error.NoMemory };

    fn from(_refused: NoMemory) -> PlanError {
        PlanError::NoMemory
    }
}

impl From<AllocError> for PlanError {
    ghost from_gives = { λ _ e. e ≡ error.NoMemory };

    fn from(_refused: AllocError) -> PlanError {
        PlanError::NoMemory
    }
}

impl<T: Drop> From<AllocFailed<T>> for PlanError {
    ghost from_gives = { λ _ e. e ≡ error.NoMemory };

    fn from(_refused: AllocFailed<T>) -> PlanError {
        PlanError::NoMemory
    }
}
