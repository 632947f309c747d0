//! Worked examples of both packages, of changes, of closings, of one subscription and of NOTIFYs that are sent again: of each
//! a line says whether it goes as it should.
//!
//! `data/mailboxes` and `data/transfers` have scenes of a package, written by RFC 3842, RFC 3515 and RFC 3420 and not by the
//! program: a title, the package with the closing that it leaves (its name, the resources that it held, its changes), and then
//! what is done or asked, line by line. Behind the bar of a line stands what it must give. `data/subscriptions` has scenes of
//! one subscription, by RFC 6665: a title, and then what befalls it, with the NOTIFY that tells of it behind the bar, or
//! whether it stays or is gone untold. `data/repeats` has scenes of NOTIFYs that were sent, by RFC 3261. What a backslash means
//! in a text, `table` says.
//!
//! Begin with `data/mailboxes` and `scenes`. `rt try --fail-alloc 1..` refuses each growth in turn: a line of a package's scene
//! is then tried once more and goes as it does with ample memory; elsewhere the program ends with an error.

mod closings;
mod making;
mod repeats;
mod scenes;
mod subscriptions;
mod table;

use crate::packages::closings::ending_counts;
use crate::packages::table::tell;
use std::rt::Files;
use std::{fs, io};

/// Plays each scene of a table. A blank line stands between two scenes.
fn tell_table(rt: &(impl Files + Print + AllocGlobal), name: &str) -> io::Result<()> {
    let table = fs::read_to_string(rt, name)?;
    for scene in table.split("\n\n") {
        let told = match name {
            "subscriptions" => subscriptions::tell_scene(rt, scene),
            "repeats" => repeats::tell_scene(rt, scene),
            _ => scenes::tell_twice(rt, scene),
        };
        told?;
    }
    Ok(())
}

/// Tells of every example.
pub(crate) fn tell_all(rt: &(impl Files + Print + AllocGlobal)) -> io::Result<()> {
    tell_table(rt, "mailboxes")?;
    tell_table(rt, "transfers")?;
    tell_table(rt, "subscriptions")?;
    tell_table(rt, "repeats")?;
    tell(
        rt,
        "an ending offers its name and what it counted",
        ending_counts(rt.alloc()),
    )
}
