//! What is known of a live subscription.
ghost use Rattle.std.specs.Prelude.{◌≡◌, nat_le, if◌then◌else◌};
ghost use Rattle.watchers.specs.Rows as spec;

use crate::watchers::{GONE, REFUSED};
use sip_text::{Addr, Text};

/// A live subscription, as it is known with its NOTIFYs. Moments are milliseconds.
#[derive(Debug, Drop)]
pub struct Watcher {
    /// Who watches: the URI of the subscriber's address, as it was known with the NOTIFY with which its row began.
    pub watcher: Text,
    /// Its Contact, as the last NOTIFY was known to go there.
    pub contact: Text,
    /// The Call-ID of its dialog (RFC 3261 section 12), by which an answer to a NOTIFY is known as one of this dialog.
    pub call_id: Text,
    /// The user whose password it showed, where that was known with the NOTIFY with which its row began.
    pub user: Option<Text>,
    /// What it watches: the mailbox, or the tag of its transfer.
    pub mailbox: Text,
    /// Who asked for it: the IPv4 address to which that NOTIFY went, as a number.
    pub source: u32,
    /// Where the NOTIFYs go.
    pub to: Addr,
    /// The number of the last NOTIFY.
    pub sent: u32,
    /// The greatest number of a NOTIFY that was answered, 0 where none was.
    pub answered: u32,
    /// The status code of the last answer to that NOTIFY, 0 where none was answered.
    pub code: u16,
    /// The moment of the NOTIFY with which its row began.
    pub since: u64,
    /// The moment at which it ends unless it is refreshed.
    pub until: u64,
}

impl Watcher {
    /// A NOTIFY with this number went to this address, and tells that it lasts until this moment.
    pub(crate) fn renew(&mut self, number: u32, to: Addr, until: u64)
        ensures { self.new ≡ spec.renewed number to until self.old }
    {
        self.sent = number;
        self.to = to;
        self.until = until;
    }

    /// The NOTIFYs go to this Contact from now on.
    pub(crate) fn retarget(&mut self, contact: Text)
        ensures { self.new ≡ spec.retargeted contact self.old }
    {
        self.contact = contact;
    }

    /// The NOTIFY with this number was answered with this status code, if it went out.
    pub(crate) fn answer(&mut self, number: u32, code: u16)
        ensures { self.new ≡ (if nat_le number self.old.sent then spec.answered number code self.old else self.old) }
    {
        if number <= self.sent {
            if number >= self.answered {
                self.code = code;
            }
            self.answered = self.answered.max(number);
        }
    }

    /// Whether an answer with this status code refuses the NOTIFY with this number: it is neither a success nor a 481, and neither that
    /// NOTIFY nor a later one was answered before.
    pub fn is_refused(&self, number: u32, code: u16) -> bool
        ensures { result ≡ spec.is_refused number code self.now }
    {
        code >= REFUSED && code != GONE && self.answered < number && number <= self.sent
    }
}
