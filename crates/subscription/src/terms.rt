//! What a subscription was made with: its dialog, and what it tells of.

use event_headers::EventValue;
use sip_read::Addr;
use sip_text::{Text, Values};

/// The dialog of a subscription as the notifier sees it (RFC 3261 section 12). It has this one usage.
#[derive(Debug, Drop)]
pub struct Usage {
    pub call_id: Text,
    /// The notifier's own tag.
    pub local_tag: Text,
    /// The subscriber's tag, empty where it sent none.
    pub remote_tag: Text,
    /// The notifier's address with its parameters, without the tag.
    pub local: Text,
    /// The subscriber's address with its parameters.
    pub remote: Text,
    /// The URI to which NOTIFYs are sent.
    pub target: Text,
    /// The route set, as written in the request that made the dialog.
    pub routes: Values<Text>,
    /// The CSeq number of the request that made the dialog, or of the latest SUBSCRIBE that renewed it.
    pub remote_cseq: u32,
}

/// What a subscriber asked for, and where its NOTIFYs go.
#[derive(Debug, Drop)]
pub struct Want {
    pub event: EventValue,
    /// What it watches: a mailbox, or the tag of a transfer.
    pub resource: Text,
    /// The source of the latest accepted request.
    pub to: Addr,
    /// The number of the last NOTIFY that the dialog may have, at least 1.
    pub max_cseq: u32,
}
