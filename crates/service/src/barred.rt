//! Who is barred since too many wrong passwords came, told on standard error.

use crate::logging::has_room;
use crate::shared::Shared;
use log_lines::{Record, Request};
use sip_text::{Addr, Text};

/// For how many milliseconds a source that was told isn't told again.
const MINUTE: u64 = 60_000;

/// So many sources are told a minute at most.
const MOST: usize = 64;

/// A source that was told.
#[derive(Clone, Copy)]
struct Told {
    ip: [u8; 4],
    /// When, in milliseconds. None: it is no source.
    moment: Option<u64>,
}

impl Told {
    /// Whether a minute has passed since.
    fn is_over(&self, now: u64) -> bool {
        match self.moment {
            Some(moment) => now.saturating_sub(moment) >= MINUTE,
            None => true,
        }
    }
}

/// The sources that were told lately.
#[derive(Drop)]
pub(crate) struct Barred {
    told: [Told; MOST],
}

impl Barred {
    /// Of a service that begins now.
    pub(crate) fn new() -> Barred {
        let nobody = Told {
            ip: [0, 0, 0, 0],
            moment: None,
        };
        Barred {
            told: [nobody; MOST],
        }
    }

    /// Whether this source was told within the last minute.
    fn knows(&self, ip: [u8; 4], now: u64) -> bool {
        self.told
            .iter()
            .any(|told| told.ip == ip && !told.is_over(now))
    }

    /// Whether the source is to be told at this moment, in milliseconds: it wasn't within the last minute, and fewer than 64 others were.
    pub(crate) fn is_news(&mut self, ip: [u8; 4], now: u64) -> bool {
        if self.knows(ip, now) {
            return false;
        }
        for told in &mut self.told {
            if told.is_over(now) {
                *told = Told {
                    ip,
                    moment: Some(now),
                };
                return true;
            }
        }
        false
    }
}

/// Says on standard error of which user and from where a request came whose password wasn't looked at. A line that nobody reads is dropped.
pub(crate) fn log_barred<R: Eprint>(rt: &R, shared: &Shared, user: &Text, source: Addr) {
    if !has_room() {
        return;
    }
    let request = Request::Barred {
        address: source,
        user: user.as_str(),
    };
    shared.tell(rt, &Record::Request(request));
}
