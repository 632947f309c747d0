//! What stays the same at a desk.

use crate::limits::Limits;
use sip_read::Addr;

/// What all desks of a notifier have in common.
#[derive(Clone, Copy, Debug)]
pub struct Setup {
    pub limits: Limits,
    /// From which the digits of local tags are drawn.
    pub seed: [u8; 32],
    /// The address of this server.
    pub me: Addr,
    /// Whether the last event of each worker is `Shut`. Whoever feeds a desk looks at it, the desk doesn't.
    pub stop: bool,
}

/// The place of a desk: the setup, and the number of its worker.
#[derive(Clone, Copy, Debug)]
pub struct Place {
    pub limits: Limits,
    pub seed: [u8; 32],
    pub me: Addr,
    pub stop: bool,
    pub worker: u32,
}
