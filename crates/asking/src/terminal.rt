//! Terminals.

/// Whether standard error is a terminal.
pub(crate) fn shows_errors() -> bool {
    libc::isatty(libc::STDERR_FILENO) == 1
}

/// Says on standard error that a script is read from standard input, where somebody may sit there and wait: it is a terminal.
pub fn say_what_is_read<R: Eprint>(rt: &R) {
    if libc::isatty(libc::STDIN_FILENO) == 1 {
        let _ = eprintln!(rt;
            "notifyd: reading a script from standard input, for a notifier of alice (notifyd --help lists what else it does)"
        );
    }
}
