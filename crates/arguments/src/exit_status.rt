//! How a run of the program ended.
ghost use Rattle.std.specs.Prelude.{◌≡◌, ◌<◌, option_map};
ghost use Rattle.arguments.specs.ExitStatus.{code_of, line_of};

/// How a run of the program ended.
#[derive(Clone, Copy, Debug, PartialEq, Eq)]
pub enum ExitStatus {
    Done,
    /// The arguments ask for nothing that the program does.
    BadArguments,
    /// The bytes are no script, or too many.
    BadScript,
    /// A read, a write or a wire failed, a port could not be bound, or a thread could not be started.
    DeviceFault,
    /// An allocation failed, or a worker didn't come to the end of what was sent.
    OutOfMemory,
}

impl ExitStatus {
    /// The exit status of the program, 0 to 4.
    pub fn code(self) -> u8
        ensures { result ≡ code_of self }
    {
        match self {
            ExitStatus::Done => 0,
            ExitStatus::BadArguments => 1,
            ExitStatus::BadScript => 2,
            ExitStatus::DeviceFault => 3,
            ExitStatus::OutOfMemory => 4,
        }
    }

    /// The line for standard error, without its line feed, if there is one.
    pub fn line(self) -> Option<&'static str>
        ensures { option_map (λ line. line.now) result ≡ line_of self }
    {
        match self {
            ExitStatus::Done => None,
            ExitStatus::BadArguments => Some("notifyd: bad arguments"),
            ExitStatus::BadScript => Some("notifyd: bad script"),
            ExitStatus::DeviceFault => Some("notifyd: device fault"),
            ExitStatus::OutOfMemory => Some("notifyd: out of memory"),
        }
    }
}
