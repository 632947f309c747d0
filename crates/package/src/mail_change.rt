//! New counts in a mailbox.
ghost use Rattle.std.specs.Prelude.{◌≡◌, string_bytes, IfOk, SomeIff};
ghost use Rattle.package.specs.Values as values;
ghost use Rattle.package.specs.Values.{IsMailChange};

use crate::counts::{Class, Counts};
use crate::texts::is_word;
use sip_text::{NoMemory, Text};
use std::alloc::Global;
use std::marker::Model;

/// The new counts of one class in a mailbox. Urgent messages are at most all of their kind.
#[derive(Debug, Drop)]
pub struct MailChange {
    mailbox: Text,
    class: Class,
    counts: Counts,
}

impl Model for MailChange {
    ghost Value = { values.MailChange };

    ghost view = { λ c. record { mailbox = c.mailbox; class = c.class; counts = c.counts } };

    ghost invariant = { λ c. IsMailChange (record { mailbox = c.mailbox; class = c.class; counts = c.counts }) };
}

impl MailChange {
    /// None exactly where an urgent count exceeds its total, or the mailbox's name is empty or has a space or a control
    /// character (a byte 0 to 31, or 127). It takes no memory.
    pub fn new(
        mailbox: String,
        class: Class,
        new_count: u32,
        old_count: u32,
        urgent_new: u32,
        urgent_old: u32,
    ) -> Option<MailChange>
        ensures { let counts : Counts = record {
          new_count = new_count;
          old_count = old_count;
          urgent_new = urgent_new;
          urgent_old = urgent_old;
        } in
            let change : values.MailChange = record {
              mailbox = string_bytes mailbox;
              class = class;
              counts = counts;
            } in
            SomeIff result (IsMailChange change) change }
    {
        if urgent_new > new_count || urgent_old > old_count || !is_word(&mailbox) {
            return None;
        }
        let mailbox = Text::new(mailbox);
        let counts = Counts {
            new_count,
            old_count,
            urgent_new,
            urgent_old,
        };
        Some(MailChange {
            mailbox,
            class,
            counts,
        })
    }

    /// The mailbox whose counts these are.
    pub fn mailbox(&self) -> &str
        ensures value { result.now ≡ self.now.mailbox }
        ensures good { IsMailChange self.now }
    {
        self.mailbox.as_str()
    }

    /// The class of messages whose counts these are.
    pub fn class(&self) -> Class
        ensures { result ≡ self.now.class }
    {
        self.class
    }

    /// All four counts.
    pub fn counts(&self) -> Counts
        ensures { result ≡ self.now.counts }
    {
        self.counts
    }

    /// How many messages are new.
    pub fn new_count(&self) -> u32
        ensures { result ≡ self.now.counts.new_count }
    {
        self.counts.new_count
    }

    /// How many messages are old.
    pub fn old_count(&self) -> u32
        ensures { result ≡ self.now.counts.old_count }
    {
        self.counts.old_count
    }

    /// How many of the new ones are urgent.
    pub fn urgent_new(&self) -> u32
        ensures { result ≡ self.now.counts.urgent_new }
    {
        self.counts.urgent_new
    }

    /// How many of the old ones are urgent.
    pub fn urgent_old(&self) -> u32
        ensures { result ≡ self.now.counts.urgent_old }
    {
        self.counts.urgent_old
    }

    /// The same change once more.
    pub fn copy(&self, alloc: Global) -> Result<MailChange, NoMemory>
        ensures { IfOk result (λ c. c ≡ self.now) }
    {
        let mailbox = self.mailbox.copy(alloc)?;
        Ok(MailChange {
            mailbox,
            class: self.class,
            counts: self.counts,
        })
    }
}
