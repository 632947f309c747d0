//! The worked runs inside one process: what a call of the program from outside can't show.
//!
//! There is nothing here that others build on. `desks` and `memory` are for runs in which a growth is refused, `closings` for desks
//! that are dropped, `homes` for the workers to which events go; `pages` has runs with limits that no argument of `script` sets, over
//! packages in boxes, one of them neither mailboxes nor transfers; `streams` has readers and writers that end, fail or never end, and
//! `trials` the program over such `devices`. Begin with `data` and `pages`: a script, and
//! beside it the page that it must have.
#![tactic(auto)]

mod closings;
mod desks;
mod devices;
mod homes;
mod memory;
mod pages;
mod presence;
mod streams;
mod trials;

use std::io;

fn main(rt: HostRuntime) -> io::Result<()> {
    desks::tell_all(&rt)?;
    closings::tell_all(&rt)?;
    homes::tell_all(&rt)?;
    memory::tell_all(rt)?;
    streams::tell_all(&rt)?;
    pages::tell_all(&rt)?;
    trials::tell_all(rt)
}
