//! The control lines by which a service is asked and told.
ghost use Rattle.std.specs.Prelude.{◌≡◌, IfOk, string_bytes};
ghost use Rattle.control_lines.specs.Pages.{counts_line};
ghost use Rattle.voicemail.specs.Served as spec;

use control_lines::write_counts;
use package::{Class, Counts};
use sip_text::NoMemory;
use std::alloc::Global;

/// The MAIL line of a class, with its LF.
pub(crate) fn mail_line(
    alloc: Global,
    mailbox: &str,
    class: Class,
    counts: Counts,
) -> Result<String, NoMemory>
    ensures { IfOk result (λ line. string_bytes line ≡ counts_line mailbox.now class counts) }
{
    let mut line = String::new(alloc);
    write_counts(&mut line, mailbox, class, counts)?;
    Ok(line)
}

/// The line that asks what a mailbox was last told.
pub(crate) fn show_line(alloc: Global, mailbox: &str) -> Result<String, NoMemory>
    ensures { IfOk result (λ line. string_bytes line ≡ spec.show_line mailbox.now) }
{
    let mut line = String::from_str(alloc, "SHOW ")?;
    line.push_str(mailbox)?;
    Ok(line)
}
