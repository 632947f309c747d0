//! Runs over packages in boxes, one of them neither mailboxes nor transfers, and all but one with other limits than the program's.
//!
//! Each run NAME has its script in `data/NAME.script` and its page in `data/NAME.page`, with the line ends of SIP in their datagrams
//! alone. The pages were put together from the layouts of `docs/protocol.md`, and not by the program. For each run a line says
//! whether the notifier writes its page.

use crate::presence::Presence;
use arguments::loopback_setup;
use message_summary::Mailboxes;
use notifier_model::{Limits, Setup};
use package::{ClosingCell, Package};
use refer::Transfers;
use scripts::ScriptError;
use server::script_one;
use sip_text::NoMemory;
use std::alloc::Global;
use std::rt::Files;
use std::{fs, io};
use transport::{Sink, Source};

/// The limits of a run: the last number, the room of the table, the last serial, the room of the ring.
type Bounds = (u32, u32, u32, u32);

/// The runs.
const RUNS: [(&str, Bounds); 8] = [
    (
        "the_last_number_ends_a_subscription",
        (3, 1024, 4294967295, 64),
    ),
    (
        "a_refresh_may_be_the_last_number",
        (2, 1024, 4294967295, 64),
    ),
    (
        "a_full_table_takes_fetches_alone",
        (2147483647, 1, 4294967295, 64),
    ),
    ("used_up_serials_refuse_fetches_too", (2147483647, 1, 1, 64)),
    ("a_ring_of_one_forgets", (2147483647, 1024, 4294967295, 1)),
    (
        "a_full_table_takes_a_silent_refer",
        (2147483647, 1, 4294967295, 64),
    ),
    (
        "a_third_package_is_listed_and_asked",
        (2147483647, 1024, 4294967295, 64),
    ),
    ("a_transfer_may_end_at_its_birth", (1, 1024, 4294967295, 64)),
];

/// The setup of a run. None where a limit is out of its range.
fn setup_of(bounds: Bounds) -> Option<Setup> {
    let (max_cseq, table, serials, kept) = bounds;
    let limits = Limits::new(60, 86400, 3600, 180, max_cseq, table, serials, kept, 64, 64)?;
    Some(Setup {
        limits,
        ..loopback_setup(5060, [0; 32], false)
    })
}

/// Mailboxes, of which alice's is the only one.
pub(crate) fn mailbox_of_alice(alloc: Global) -> Result<Mailboxes, NoMemory> {
    let mut names = Vec::new(alloc);
    names.push(String::from_str(alloc, "alice")?)?;
    Mailboxes::new(alloc, names, ClosingCell::new(alloc)?)
}

/// Transfers, of which none is there yet.
pub(crate) fn new_transfers(alloc: Global) -> Result<Transfers, NoMemory> {
    Transfers::new(alloc, ClosingCell::new(alloc)?)
}

/// Whether a worker with this setup, the mailbox alice, transfers and presence writes this page of this script.
fn is_page_of(
    alloc: Global,
    setup: &Setup,
    script: &[u8],
    wanted: &[u8],
) -> Result<bool, ScriptError> {
    let mut boxes: Vec<Box<dyn Package>> = Vec::new(alloc);
    boxes.push(Box::new(alloc, mailbox_of_alice(alloc)?)?)?;
    boxes.push(Box::new(alloc, new_transfers(alloc)?)?)?;
    boxes.push(Box::new(alloc, Presence::new(alloc)?)?)?;
    let mut sink = Sink::new(Vec::new(alloc));
    script_one(alloc, &mut Source::new(script), &mut sink, setup, boxes)?;
    Ok(sink.writer().as_slice() == wanted)
}

/// Tells of a run whether the notifier writes its page.
fn tell(rt: &(impl Files + Print + AllocGlobal), name: &str, bounds: Bounds) -> io::Result<()> {
    let script = fs::read(rt, format!(in rt.alloc(); "{name}.script")?)?;
    let wanted = fs::read(rt, format!(in rt.alloc(); "{name}.page")?)?;
    let is_page = match setup_of(bounds) {
        Some(setup) => {
            is_page_of(rt.alloc(), &setup, script.as_slice(), wanted.as_slice()).unwrap_or(false)
        }
        None => false,
    };
    let outcome = if is_page { "its page" } else { "ANOTHER PAGE" };
    println!(rt; "{name}: {outcome}")
}

/// Tells of each run.
pub(crate) fn tell_all(rt: &(impl Files + Print + AllocGlobal)) -> io::Result<()> {
    for (name, bounds) in RUNS {
        tell(rt, name, bounds)?;
    }
    Ok(())
}
