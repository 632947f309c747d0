//! What a request makes.

use sip_text::Text;

/// What a request makes outside a dialog.
#[derive(Clone, Copy)]
pub enum Birth {
    /// A subscription that watches a resource, as a mailbox.
    Watch,
    /// A single look at one (RFC 6665 section 4.4.3).
    Fetch,
    /// A transfer, with a subscription that watches it (RFC 3515).
    Transfer,
    /// A transfer without a subscription (RFC 4488).
    Unwatched,
}

/// What a request makes: of which kind it is, its serial and its local tag.
#[derive(Drop)]
pub struct Newborn {
    pub kind: Birth,
    pub serial: u32,
    pub tag: Text,
}
