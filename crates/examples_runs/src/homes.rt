//! Which worker is the home of each event of a script: by a tag that names one, else by the hash of a key.

use crate::desks::heard;
use notifier_model::Event;
use notifier_model::homes::{home, is_for_all, key_hash};
use std::rt::Files;
use std::{fs, io};

/// The keys whose hashes are told: of two mailboxes, and of a Call-ID.
const KEYS: [&str; 3] = ["alice", "bob", "c7"];

/// Tells the home of each event among so many workers, of which there is one at least.
fn tell_among(rt: &impl Print, events: &[Event], workers: u32) -> io::Result<()> {
    print!(rt; "homes among {workers}:")?;
    for event in events {
        if workers > 0 && !is_for_all(event) {
            let worker = home(event, workers);
            print!(rt; " {worker}")?;
        }
    }
    println!(rt; "")
}

/// Tells the hashes of some keys, and the homes of the events of `data/homes.script`.
pub(crate) fn tell_all(rt: &(impl Files + Print + AllocGlobal)) -> io::Result<()> {
    for key in KEYS {
        let hash = key_hash(key);
        println!(rt; "the hash of {key}: {hash}")?;
    }
    let script = fs::read(rt, "homes.script")?;
    match heard(rt.alloc(), script.as_slice()) {
        Ok(events) => {
            tell_among(rt, events.as_slice(), 2)?;
            tell_among(rt, events.as_slice(), 3)
        }
        Err(_) => println!(rt; "homes: out of memory"),
    }
}
