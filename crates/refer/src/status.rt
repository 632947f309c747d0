//! How far a transfer has come.
ghost use Rattle.std.specs.Prelude.{◌≡◌, codes, bytes_eq, ◌==◌, ◌&&◌, ◌||◌, IfOk};
ghost use Rattle.package.specs.Content as content;

use package::Progress;
use sip_text::{NoMemory, Text};
use std::alloc::Global;

/// The status that a body tells.
#[derive(Debug, Drop)]
pub struct TransferStatus {
    /// 100 to 699.
    pub code: u16,
    pub reason: Text,
}

impl TransferStatus {
    /// The status that a transfer begins with.
    pub fn trying(alloc: Global) -> Result<TransferStatus, NoMemory>
        ensures { IfOk result (λ status. status ≡ record { code = 100; reason = codes "Trying" }) }
    {
        let reason = Text::of(alloc, "Trying")?;
        Ok(TransferStatus { code: 100, reason })
    }

    /// The status that a progress tells.
    pub fn told(alloc: Global, progress: &Progress) -> Result<TransferStatus, NoMemory>
        ensures { IfOk result (λ status. status ≡ record { code = progress.now.code; reason = progress.now.reason }) }
    {
        let reason = Text::of(alloc, progress.reason())?;
        Ok(TransferStatus {
            code: progress.code(),
            reason,
        })
    }

    /// Whether nothing more is to come.
    pub fn is_final(&self) -> bool
        ensures { result ≡ content.is_final self.now.code }
    {
        self.code >= 200
    }

    /// Whether this progress leaves it as it is: it is final, or the progress tells this very status.
    pub fn outlasts(&self, progress: &Progress) -> bool
        ensures { result ≡ (content.is_final self.now.code
            || ((self.now.code == progress.now.code) && bytes_eq self.now.reason progress.now.reason)) }
    {
        self.is_final() || (self.code == progress.code() && self.reason.is(progress.reason()))
    }
}
