//! The options of `notifyd serve` that have a value.
ghost use Rattle.std.specs.Prelude.{◌≡◌};
ghost use Rattle.sip_text.specs.Bytes.{Finds};
ghost use Rattle.arguments.specs.Flags as spec;
ghost use Rattle.arguments.specs.Flags.{address_flag_text, bound_text, flag_text};
ghost use Rattle.arguments.specs.Reading.{address_flag_of, time_of, count_of, size_of, number_of, bound_of, special_of, other_of, flag_named, joined_of};

use std::fmt;
use std::fmt::{Display, Formatter};

/// Where an address of the service is used.
#[derive(Clone, Copy, Debug, PartialEq, Eq, Drop)]
pub enum AddressFlag {
    /// `--listen`: where datagrams come in.
    Listen,
    /// `--contact`: where phones reach the service, if that is another address.
    Contact,
    /// `--control`: where control lines come in.
    Control,
    /// `--feed-listen`: where NOTIFYs of voicemail systems come in.
    Feed,
}

/// An option whose value is a number.
#[derive(Clone, Copy, Debug, PartialEq, Eq, Drop)]
pub enum Bound {
    Workers,
    MinTime,
    MaxTime,
    DefaultTime,
    ReferTime,
    MaxCseq,
    Table,
    Serials,
    Kept,
    Inbox,
    Outbox,
    Repeats,
    Open,
    Linger,
    Outage,
    MaxDatagram,
    ReceiveBuffer,
    NonceTime,
    PerSource,
    JournalBytes,
    MaxTexts,
    MaxMailboxes,
}

/// An option that has a value.
#[derive(Clone, Copy, Debug, PartialEq, Eq, Drop)]
pub enum Flag {
    Address(AddressFlag),
    Number(Bound),
    /// `--mailboxes`: a file that names mailboxes.
    MailboxFile,
    /// `--state`: a file of MAIL lines that are done before the first datagram of SIP is heard.
    StateFile,
    /// `--journal`: a folder with what a restart goes on from.
    JournalFolder,
    /// `--sync`: how often the journal is written to the disk.
    Sync,
    /// `--passwords`: a file of users and their passwords' hashes.
    PasswordFile,
    /// `--watch`: a further mailbox that a user may watch.
    Watch,
    /// `--rate`: how much of each source address is heard.
    Rate,
    /// `--guesses`: how many wrong passwords are looked at.
    Guesses,
    /// `--allow`: a network from which SIP is heard.
    Allow,
    /// `--control-allow`: a network from which control lines are heard.
    ControlAllow,
    /// `--feed-from`: a network from which NOTIFYs of voicemail systems are heard.
    FeedFrom,
    /// `--seed`: from which the words of local tags are drawn.
    Seed,
}

impl AddressFlag {
    /// As it is written.
    pub fn text(self) -> &'static str
        ensures { result.now ≡ address_flag_text self }
    {
        match self {
            AddressFlag::Listen => "--listen",
            AddressFlag::Contact => "--contact",
            AddressFlag::Control => "--control",
            AddressFlag::Feed => "--feed-listen",
        }
    }
}

impl Bound {
    /// As it is written.
    pub fn text(self) -> &'static str
        ensures { result.now ≡ bound_text self }
    {
        match self {
            Bound::Workers => "--workers",
            Bound::MinTime => "--min-time",
            Bound::MaxTime => "--max-time",
            Bound::DefaultTime => "--default-time",
            Bound::ReferTime => "--refer-time",
            Bound::MaxCseq => "--max-cseq",
            Bound::Table => "--table",
            Bound::Serials => "--serials",
            Bound::Kept => "--kept",
            Bound::Inbox => "--inbox",
            Bound::Outbox => "--outbox",
            Bound::Repeats => "--repeats",
            Bound::Open => "--open",
            Bound::Linger => "--linger",
            Bound::Outage => "--outage",
            Bound::MaxDatagram => "--max-datagram",
            Bound::ReceiveBuffer => "--receive-buffer",
            Bound::NonceTime => "--nonce-time",
            Bound::PerSource => "--per-source",
            Bound::JournalBytes => "--journal-bytes",
            Bound::MaxTexts => "--max-texts",
            Bound::MaxMailboxes => "--max-mailboxes",
        }
    }

    /// The least number that it takes.
    pub fn least(self) -> u32
        ensures { result ≡ spec.least self }
    {
        match self {
            Bound::Repeats | Bound::Linger | Bound::Outage => 0,
            Bound::MaxDatagram | Bound::MaxTexts => 512,
            Bound::ReceiveBuffer => 4096,
            Bound::JournalBytes => 65536,
            _ => 1,
        }
    }

    /// The greatest number that it takes.
    pub fn most(self) -> u32
        ensures { result ≡ spec.most self }
    {
        match self {
            Bound::Workers => 256,
            Bound::MinTime | Bound::Outage => 3600,
            Bound::MaxCseq => 2147483647,
            Bound::Table
            | Bound::Inbox
            | Bound::Outbox
            | Bound::Repeats
            | Bound::Open
            | Bound::PerSource => 65536,
            Bound::Kept => 4096,
            Bound::Linger => 32,
            Bound::MaxDatagram => 65507,
            Bound::MaxTexts => 65535,
            Bound::MaxMailboxes => 1000000,
            Bound::ReceiveBuffer | Bound::JournalBytes => 1073741824,
            Bound::NonceTime => 86400,
            Bound::MaxTime | Bound::DefaultTime | Bound::ReferTime | Bound::Serials => u32::MAX,
        }
    }
}

impl Flag {
    /// As it is written.
    pub fn text(self) -> &'static str
        ensures { result.now ≡ flag_text self }
    {
        match self {
            Flag::Address(which) => which.text(),
            Flag::Number(bound) => bound.text(),
            Flag::MailboxFile => "--mailboxes",
            Flag::StateFile => "--state",
            Flag::JournalFolder => "--journal",
            Flag::Sync => "--sync",
            Flag::PasswordFile => "--passwords",
            Flag::Watch => "--watch",
            Flag::Rate => "--rate",
            Flag::Guesses => "--guesses",
            Flag::Allow => "--allow",
            Flag::ControlAllow => "--control-allow",
            Flag::FeedFrom => "--feed-from",
            Flag::Seed => "--seed",
        }
    }
}

/// The option with the form of its value: `--workers <1 to 256>`.
impl Display for Flag {
    fn fmt<W: fmt::Write>(&self, f: &mut Formatter<W>) -> fmt::Result {
        let text = self.text();
        match *self {
            Flag::Address(_) => write!(f, "{text} <a.b.c.d:port>"),
            Flag::Number(bound) => {
                let (least, most) = (bound.least(), bound.most());
                write!(f, "{text} <{least} to {most}>")
            }
            Flag::MailboxFile | Flag::StateFile | Flag::PasswordFile => {
                write!(f, "{text} <file>")
            }
            Flag::JournalFolder => write!(f, "{text} <folder>"),
            Flag::Sync => write!(f, "{text} <1 to 3600, never or always>"),
            Flag::Watch => write!(f, "{text} <user:mailbox>"),
            Flag::Rate => write!(f, "{text} <a second>/<at once>, each 1 to 65536"),
            Flag::Guesses => write!(f, "{text} <at once>/<a minute>, each 1 to 65536"),
            Flag::Allow | Flag::ControlAllow | Flag::FeedFrom => {
                write!(f, "{text} <a.b.c.d/bits>")
            }
            Flag::Seed => write!(f, "{text} <64 hex digits>"),
        }
    }
}

#[tactic(auto, unfolding(crate::specs::Reading::address_flag_of))]
fn address_flag(word: &str) -> Option<AddressFlag>
    ensures { Finds (λ x. x) result (address_flag_of word.now) }
{
    if word == "--listen" {
        Some(AddressFlag::Listen)
    } else if word == "--contact" {
        Some(AddressFlag::Contact)
    } else if word == "--control" {
        Some(AddressFlag::Control)
    } else if word == "--feed-listen" {
        Some(AddressFlag::Feed)
    } else {
        None
    }
}

/// An option whose value is a time in seconds.
#[tactic(auto, unfolding(crate::specs::Reading::time_of))]
fn time_flag(word: &str) -> Option<Bound>
    ensures { Finds (λ x. x) result (time_of word.now) }
{
    if word == "--min-time" {
        Some(Bound::MinTime)
    } else if word == "--max-time" {
        Some(Bound::MaxTime)
    } else if word == "--default-time" {
        Some(Bound::DefaultTime)
    } else if word == "--refer-time" {
        Some(Bound::ReferTime)
    } else if word == "--linger" {
        Some(Bound::Linger)
    } else if word == "--outage" {
        Some(Bound::Outage)
    } else if word == "--nonce-time" {
        Some(Bound::NonceTime)
    } else {
        None
    }
}

/// An option whose value is a count.
#[tactic(auto, unfolding(crate::specs::Reading::count_of))]
fn count_flag(word: &str) -> Option<Bound>
    ensures { Finds (λ x. x) result (count_of word.now) }
{
    if word == "--workers" {
        Some(Bound::Workers)
    } else if word == "--max-cseq" {
        Some(Bound::MaxCseq)
    } else if word == "--table" {
        Some(Bound::Table)
    } else if word == "--serials" {
        Some(Bound::Serials)
    } else if word == "--kept" {
        Some(Bound::Kept)
    } else if word == "--inbox" {
        Some(Bound::Inbox)
    } else if word == "--outbox" {
        Some(Bound::Outbox)
    } else if word == "--repeats" {
        Some(Bound::Repeats)
    } else if word == "--open" {
        Some(Bound::Open)
    } else if word == "--per-source" {
        Some(Bound::PerSource)
    } else if word == "--max-mailboxes" {
        Some(Bound::MaxMailboxes)
    } else {
        None
    }
}

/// An option whose value is a size in octets.
#[tactic(auto, unfolding(crate::specs::Reading::size_of))]
fn size_flag(word: &str) -> Option<Bound>
    ensures { Finds (λ x. x) result (size_of word.now) }
{
    if word == "--max-datagram" {
        Some(Bound::MaxDatagram)
    } else if word == "--receive-buffer" {
        Some(Bound::ReceiveBuffer)
    } else if word == "--journal-bytes" {
        Some(Bound::JournalBytes)
    } else if word == "--max-texts" {
        Some(Bound::MaxTexts)
    } else {
        None
    }
}

/// An option whose value is a count or a size.
#[tactic(auto, unfolding(crate::specs::Reading::number_of))]
fn number_flag(word: &str) -> Option<Bound>
    ensures { Finds (λ x. x) result (number_of word.now) }
{
    match count_flag(word) {
        Some(bound) => Some(bound),
        None => size_flag(word),
    }
}

#[tactic(auto, unfolding(crate::specs::Reading::bound_of))]
fn bound_flag(word: &str) -> Option<Bound>
    ensures { Finds (λ x. x) result (bound_of word.now) }
{
    match time_flag(word) {
        Some(bound) => Some(bound),
        None => number_flag(word),
    }
}

/// An option whose value is neither an address nor a number.
#[tactic(auto, unfolding(crate::specs::Reading::special_of))]
fn special_flag(word: &str) -> Option<Flag>
    ensures { Finds (λ x. x) result (special_of word.now) }
{
    if word == "--mailboxes" {
        Some(Flag::MailboxFile)
    } else if word == "--state" {
        Some(Flag::StateFile)
    } else if word == "--journal" {
        Some(Flag::JournalFolder)
    } else if word == "--sync" {
        Some(Flag::Sync)
    } else if word == "--passwords" {
        Some(Flag::PasswordFile)
    } else if word == "--watch" {
        Some(Flag::Watch)
    } else if word == "--rate" {
        Some(Flag::Rate)
    } else if word == "--guesses" {
        Some(Flag::Guesses)
    } else if word == "--allow" {
        Some(Flag::Allow)
    } else if word == "--control-allow" {
        Some(Flag::ControlAllow)
    } else if word == "--feed-from" {
        Some(Flag::FeedFrom)
    } else if word == "--seed" {
        Some(Flag::Seed)
    } else {
        None
    }
}

/// An option whose value is no address.
#[tactic(auto, unfolding(crate::specs::Reading::other_of))]
fn other_flag(word: &str) -> Option<Flag>
    ensures { Finds (λ x. x) result (other_of word.now) }
{
    match special_flag(word) {
        Some(flag) => Some(flag),
        None => bound_flag(word).map(Flag::Number),
    }
}

/// The option that stands before the first `=` of the word, and the value behind it.
#[tactic(auto, unfolding(crate::specs::Reading::joined_of))]
pub(crate) fn joined_option(word: &str) -> Option<(Flag, &str)>
    ensures { Finds (λ x. (x.0, x.1.now)) result (joined_of word.now) }
{
    let (name, value) = word.split_once('=')?;
    let flag = flag_named(name)?;
    Some((flag, value))
}

/// The option that the word is.
#[tactic(auto, unfolding(crate::specs::Reading::flag_named))]
pub(crate) fn flag_named(word: &str) -> Option<Flag>
    ensures { Finds (λ x. x) result (flag_named word.now) }
{
    match address_flag(word) {
        Some(which) => Some(Flag::Address(which)),
        None => other_flag(word),
    }
}
