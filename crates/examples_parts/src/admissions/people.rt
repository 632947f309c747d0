//! Who may ask for what.

use admission::{Admission, Authentication, Network, Rate, Rates};
use digest::{Guard, Nonces, Passwords};
use sip_text::{NoMemory, Text};
use std::alloc::Global;
use std::collections::hash_map::RandomState;
use std::num::NonZeroUsize;

/// Lines of a password file.
const LINES: [&str; 2] = [
    "alice:sip.example:deb39531009133a90725f6f8a5404fe9",
    "bob:sip.example:6f7a8879118f40504b0d4a0c326c60ba",
];

fn passwords(alloc: Global) -> Passwords {
    let mut passwords = Passwords::new(alloc);
    for (i, line) in LINES.iter().enumerate() {
        let _ = passwords.add_line(alloc, i as u64 + 1, line);
    }
    passwords
}

/// Alice may watch the mailbox sales beside her own.
fn authentication(alloc: Global) -> Result<Authentication, NoMemory> {
    let mut further = Vec::new(alloc);
    further.push((Text::of(alloc, "alice")?, Text::of(alloc, "sales")?))?;
    Ok(Authentication {
        guard: Guard {
            passwords: passwords(alloc),
            nonces: Nonces {
                secret: [7; 32],
                time: 60,
            },
            old_digest: false,
        },
        further,
        tag: Text::of(alloc, "w0-0")?,
    })
}

/// Sources of 192.0.2.0/24 are heard, four datagrams at once and one a second, at most two sources at once.
pub(crate) fn admission(alloc: Global, keys: RandomState) -> Result<Admission, NoMemory> {
    let mut networks = Vec::new(alloc);
    if let Some(network) = Network::of(b"192.0.2.0/24") {
        networks.push(network)?;
    }
    let rate = Rate {
        burst: 4,
        per_second: 1,
    };
    let rates = match NonZeroUsize::new(2) {
        Some(size) => Some(Rates::new(alloc, rate, size, keys)?),
        None => None,
    };
    Ok(Admission {
        networks,
        rates,
        authentication: Some(authentication(alloc)?),
        guesses: None,
        max_texts: None,
        per_source: None,
    })
}
