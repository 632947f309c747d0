//! What the program's workers start from: what all have in common, and the mailboxes of each.
ghost use Rattle.std.specs.Prelude.{◌≡◌, ◌<◌, ◌∷◌, [], ◌++◌, map, string_bytes, IfOk, OnOk};
ghost use Rattle.arguments.specs.Setup as spec;

use notifier_model::homes::key_hash;
use notifier_model::{Limits, Setup};
use sip_read::Addr;
use sip_text::{NoMemory, Text};
use std::alloc::Global;

/// What the desks of the program stand on: their port, the seed, and whether a stop is planned.
pub fn loopback_setup(port: u16, seed: [u8; 32], stop: bool) -> Setup
    ensures { result ≡ spec.loopback_setup port seed stop }
{
    let Some(limits) = Limits::new(
        60, 86400, 3600, 180, 2147483647, 1024, 4294967295, 64, 64, 64,
    ) else {
        unreachable!();
    };
    Setup {
        limits,
        seed,
        me: Addr {
            ip: [127, 0, 0, 1],
            port,
        },
        stop,
    }
}

/// Adds the mailbox to the names, if its key goes to this one of the workers.
fn add_name(
    alloc: Global,
    names: &mut Vec<String>,
    mailbox: &Text,
    workers: u32,
    worker: u32,
) -> Result<(), NoMemory>
    requires { 0 < workers }
    ensures { OnOk result (map string_bytes names.new.items
        ≡ map string_bytes names.old.items ++ spec.dealt_names workers worker (mailbox.now ∷ [])) }
{
    if key_hash(mailbox.as_str()) % workers == worker {
        names.push(mailbox.copy(alloc)?.into_string())?;
    }
    Ok(())
}

/// The mailboxes, of these, whose keys go to this one of the workers.
pub fn dealt_names(
    alloc: Global,
    mailboxes: &[Text],
    workers: u32,
    worker: u32,
) -> Result<Vec<String>, NoMemory>
    requires { 0 < workers }
    ensures { IfOk result (λ names. map string_bytes names.items ≡ spec.dealt_names workers worker mailboxes.now) }
{
    let mut names = Vec::new(alloc);
    for mailbox in mailboxes {
        add_name(alloc, &mut names, mailbox, workers, worker)?;
    }
    Ok(names)
}
