//! Worked examples of the parts that stand below the notifier. Of each a line says what came of it, or whether it went as it should.
//!
//! - [`messages`]: datagrams as this profile's reader reads them, header values, and the answers and NOTIFYs that are written.
//! - [`admissions`]: digest authentication, and who is heard.
//! - [`packages`]: both packages, what a dropped one leaves, one subscription, and NOTIFYs that are sent again.
//!
//! A module's files stand in the folder of its name, what they read in `data`. There is nothing here that others build on.
#![tactic(auto)]

mod admissions;
mod messages;
mod packages;

use std::io;

fn main(rt: HostRuntime) -> io::Result<()> {
    println!(rt; "== messages")?;
    messages::tell_all(&rt)?;
    println!(rt; "== admissions")?;
    admissions::tell_all(&rt)?;
    println!(rt; "== packages")?;
    packages::tell_all(&rt)
}
