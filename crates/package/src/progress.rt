//! How far a transfer has come.
ghost use Rattle.std.specs.Prelude.{◌≡◌, string_bytes, IfOk, SomeIff};
ghost use Rattle.package.specs.Values as values;
ghost use Rattle.package.specs.Values.{IsProgress};

use crate::texts::{is_printable, is_word};
use sip_text::{NoMemory, Text};
use std::alloc::Global;
use std::marker::Model;

/// How far a transfer has come: the status line of a response to it (RFC 3515 section 2.4.5).
#[derive(Debug, Drop)]
pub struct Progress {
    tag: Text,
    code: u16,
    reason: Text,
}

impl Model for Progress {
    ghost Value = { values.Progress };

    ghost view = { λ p. record { tag = p.tag; code = p.code; reason = p.reason } };

    ghost invariant = { λ p. IsProgress (record { tag = p.tag; code = p.code; reason = p.reason }) };
}

impl Progress {
    /// None exactly where the code isn't 100 to 699, the reason has a control character, or the tag is empty or has a
    /// space or a control character (a byte 0 to 31, or 127). It takes no memory.
    pub fn new(tag: String, code: u16, reason: String) -> Option<Progress>
        ensures { let progress : values.Progress = record {
          tag = string_bytes tag;
          code = code;
          reason = string_bytes reason;
        } in
            SomeIff result (IsProgress progress) progress }
    {
        if code < 100 || code > 699 || !is_printable(&reason) || !is_word(&tag) {
            return None;
        }
        Some(Progress {
            tag: Text::new(tag),
            code,
            reason: Text::new(reason),
        })
    }

    /// The tag that names the transfer.
    pub fn tag(&self) -> &str
        ensures value { result.now ≡ self.now.tag }
        ensures good { IsProgress self.now }
    {
        self.tag.as_str()
    }

    /// 100 to 699.
    pub fn code(&self) -> u16
        ensures { result ≡ self.now.code }
    {
        self.code
    }

    /// The reason phrase that stands beside the code.
    pub fn reason(&self) -> &str
        ensures { result.now ≡ self.now.reason }
    {
        self.reason.as_str()
    }

    /// The same progress once more.
    pub fn copy(&self, alloc: Global) -> Result<Progress, NoMemory>
        ensures { IfOk result (λ p. p ≡ self.now) }
    {
        let tag = self.tag.copy(alloc)?;
        let reason = self.reason.copy(alloc)?;
        Ok(Progress {
            tag,
            code: self.code,
            reason,
        })
    }
}
