//! Messages in a mailbox, counted by class.
ghost use Rattle.std.specs.Prelude.{◌≡◌};
ghost use Rattle.package.specs.Changes.{counts_of, with_counts, unset};

/// A class of messages (RFC 3458), in the order in which a body tells them.
#[derive(Clone, Copy, Debug, PartialEq, Eq, Drop)]
pub enum Class {
    Voice,
    Fax,
    Pager,
    Multimedia,
    Text,
}

/// How many messages of one class there are. Urgent messages are among the new or old ones.
#[derive(Clone, Copy, Debug, PartialEq, Eq)]
pub struct Counts {
    pub new_count: u32,
    pub old_count: u32,
    pub urgent_new: u32,
    pub urgent_old: u32,
}

/// The counts of each class that was ever set.
#[derive(Clone, Copy, Debug, PartialEq, Eq)]
pub struct MailCounts {
    pub voice: Option<Counts>,
    pub fax: Option<Counts>,
    pub pager: Option<Counts>,
    pub multimedia: Option<Counts>,
    pub text: Option<Counts>,
}

impl MailCounts {
    /// The counts of a mailbox of which no class was set.
    pub fn unset() -> MailCounts
        ensures { result ≡ unset }
    {
        MailCounts {
            voice: None,
            fax: None,
            pager: None,
            multimedia: None,
            text: None,
        }
    }

    /// The counts of this class, if it was ever set.
    pub fn of(&self, class: Class) -> Option<Counts>
        ensures { result ≡ counts_of class self.now }
    {
        match class {
            Class::Voice => self.voice,
            Class::Fax => self.fax,
            Class::Pager => self.pager,
            Class::Multimedia => self.multimedia,
            Class::Text => self.text,
        }
    }

    /// Sets the counts of this class.
    pub fn set(&mut self, class: Class, counts: Counts)
        ensures { self.new ≡ with_counts class counts self.old }
    {
        match class {
            Class::Voice => self.voice = Some(counts),
            Class::Fax => self.fax = Some(counts),
            Class::Pager => self.pager = Some(counts),
            Class::Multimedia => self.multimedia = Some(counts),
            Class::Text => self.text = Some(counts),
        }
    }
}
