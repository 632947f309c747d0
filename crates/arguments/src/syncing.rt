//! When the journal is brought to the disk.

/// When what was written to the journal is brought to the disk. A process that is killed loses nothing, whatever it is: what was written is
/// in the system's hands then. A machine that loses its power loses what isn't on the disk.
#[derive(Clone, Copy, Debug, PartialEq, Eq)]
pub enum Syncing {
    /// When the system likes, mostly within half a minute. It costs nothing.
    Never,
    /// Every so many seconds, by a thread that delays no send.
    Each(u32),
    /// Before anything is sent of what was written, and before a line is answered `ok`: each awaits the disk, so what a phone saw is never lost.
    Always,
}
