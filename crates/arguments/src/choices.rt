//! What `notifyd serve` does by its settings.
ghost use Rattle.std.specs.Prelude.{◌≡◌};
ghost use Rattle.std.specs.List.{list_any};
ghost use Rattle.arguments.specs.Choices as spec;
ghost use Rattle.arguments.specs.Choices.{default_choices, default_numbers, with_number, with_address, with_switch, after, TimesFit};

use crate::flag::{AddressFlag, Bound};
use crate::guesses::Guesses;
use crate::setting::Setting;
use crate::switch::Switch;
use crate::syncing::Syncing;
use admission::Rate;
use sip_text::Addr;

/// The numbers of the options; times are seconds. Which of them go together, `Limits::new` of the crate `notifier` decides.
#[derive(Clone, Copy, Debug)]
pub struct Numbers {
    /// None: one a processor.
    pub workers: Option<u32>,
    pub min_time: u32,
    pub max_time: u32,
    /// 3600 where no setting names it, as far as the least and the greatest time allow.
    pub default_time: u32,
    /// 180 where no setting names it, as far as the least and the greatest time allow.
    pub refer_time: u32,
    pub max_cseq: u32,
    pub table: u32,
    pub serials: u32,
    pub kept: u32,
    pub inbox: u32,
    pub outbox: u32,
    /// How many NOTIFYs at a time may wait for their answers and be sent again (RFC 3261 section 17.1.2). 0: each is sent once.
    pub repeats: u32,
    /// How many of them one subscription may have.
    pub per_subscription: u32,
    /// How long at most a planned stop waits for the answers to the last NOTIFYs.
    pub linger: u32,
    /// How long at most time isn't counted in which each send fails. 0: it is.
    pub outage: u32,
    /// How many octets a SIP datagram has at most that is read.
    pub max_datagram: u32,
    /// For how many octets of datagrams that wait the system is asked for room.
    pub receive_buffer: u32,
    /// For how long a nonce is good. None: as the program likes.
    pub nonce_time: Option<u32>,
    /// How many live subscriptions one source address may have. None: as many as it likes.
    pub per_source: Option<u32>,
    /// How many octets a file of the journal has at most before the next one is begun.
    pub journal_bytes: u32,
    /// How many octets of a request are kept at most.
    pub max_texts: u32,
    /// How many mailboxes there are at most where MAIL lines make further ones.
    pub max_mailboxes: u32,
}

/// What the service does, but for its mailboxes and who is heard.
#[derive(Clone, Copy, Debug)]
pub struct Choices {
    /// Where datagrams come in.
    pub listen: Addr,
    /// Where phones reach the service, if that is another address.
    pub contact: Option<Addr>,
    /// Where control lines come in.
    pub control: Addr,
    /// Where NOTIFYs of voicemail systems come in, if they are heard.
    pub feed: Addr,
    pub numbers: Numbers,
    /// From which the words of local tags are drawn. None: from the system's randomness.
    pub seed: Option<[u8; 32]>,
    /// Whether nobody is told at the end.
    pub keep_subscriptions: bool,
    /// Whether the package `refer` is left out.
    pub no_refer: bool,
    /// Whether the service closes where its standard input ends.
    pub until_input_ends: bool,
    /// How much of each source address is heard. None: all.
    pub rate: Option<Rate>,
    /// How many wrong passwords are looked at, where there is a file of passwords.
    pub guesses: Guesses,
    /// Whether a response without `qop` is taken, as clients of RFC 2069 make it.
    pub old_digest: bool,
    /// Whether each request that is answered is told on standard error.
    pub log_requests: bool,
    /// Whether each line on standard error is a JSON object.
    pub log_json: bool,
    /// When the journal is brought to the disk.
    pub sync: Syncing,
    /// Whether the first MAIL line of a mailbox makes it.
    pub any_mailbox: bool,
}

/// 127.0.0.1 with this port.
const fn loopback(port: u16) -> Addr
    ensures { result ≡ spec.loopback port }
{
    Addr {
        ip: [127, 0, 0, 1],
        port,
    }
}

/// Whether a setting names the time that is granted to who asks for none.
fn names_default_time(setting: &Setting) -> bool
    ensures { result ≡ spec.names_default_time setting.now }
{
    matches!(setting, Setting::Number(Bound::DefaultTime, _))
}

/// Whether a setting names the time that is granted to a REFER.
fn names_refer_time(setting: &Setting) -> bool
    ensures { result ≡ spec.names_refer_time setting.now }
{
    matches!(setting, Setting::Number(Bound::ReferTime, _))
}

/// Whether one of the settings names the time that is granted to who asks for none.
fn default_time_is_named(settings: &[Setting]) -> bool
    ensures { result ≡ list_any spec.names_default_time settings.now }
{
    settings.iter().any(|setting| names_default_time(setting))
}

/// Whether one of the settings names the time that is granted to a REFER.
fn refer_time_is_named(settings: &[Setting]) -> bool
    ensures { result ≡ list_any spec.names_refer_time settings.now }
{
    settings.iter().any(|setting| names_refer_time(setting))
}

impl Numbers {
    /// Those of a service of which nothing was said.
    fn defaults() -> Numbers
        ensures { result ≡ default_numbers }
    {
        Numbers {
            workers: None,
            min_time: 60,
            max_time: 3600,
            default_time: 3600,
            refer_time: 180,
            max_cseq: 2147483647,
            table: 16384,
            serials: 4294967295,
            kept: 4096,
            inbox: 1024,
            outbox: 1024,
            repeats: 16384,
            per_subscription: 1024,
            linger: 2,
            outage: 600,
            max_datagram: 8192,
            receive_buffer: 4194304,
            nonce_time: None,
            per_source: None,
            journal_bytes: 16777216,
            max_texts: 2048,
            max_mailboxes: 65536,
        }
    }

    fn set(&mut self, bound: Bound, number: u32)
        ensures { self.new ≡ with_number bound number self.old }
    {
        match bound {
            Bound::Workers => self.workers = Some(number),
            Bound::MinTime => self.min_time = number,
            Bound::MaxTime => self.max_time = number,
            Bound::DefaultTime => self.default_time = number,
            Bound::ReferTime => self.refer_time = number,
            Bound::MaxCseq => self.max_cseq = number,
            Bound::Table => self.table = number,
            Bound::Serials => self.serials = number,
            Bound::Kept => self.kept = number,
            Bound::Inbox => self.inbox = number,
            Bound::Outbox => self.outbox = number,
            Bound::Repeats => self.repeats = number,
            Bound::Open => self.per_subscription = number,
            Bound::Linger => self.linger = number,
            Bound::Outage => self.outage = number,
            Bound::MaxDatagram => self.max_datagram = number,
            Bound::ReceiveBuffer => self.receive_buffer = number,
            Bound::NonceTime => self.nonce_time = Some(number),
            Bound::PerSource => self.per_source = Some(number),
            Bound::JournalBytes => self.journal_bytes = number,
            Bound::MaxTexts => self.max_texts = number,
            Bound::MaxMailboxes => self.max_mailboxes = number,
        }
    }

    /// A time that is named as it is, and any other as the nearest to it that may be granted.
    fn fitting(&self, time: u32, is_named: bool) -> u32
        ensures { result ≡ spec.fitting self.now time is_named }
    {
        if is_named {
            time
        } else {
            time.min(self.max_time).max(self.min_time)
        }
    }

    /// With times that these settings don't name as they may be granted.
    fn fitted(self, settings: &[Setting]) -> Numbers
        ensures { result ≡ spec.fitted settings.now self }
    {
        let default_named = default_time_is_named(settings);
        let refer_named = refer_time_is_named(settings);
        Numbers {
            default_time: self.fitting(self.default_time, default_named),
            refer_time: self.fitting(self.refer_time, refer_named),
            ..self
        }
    }
}

impl Choices {
    /// What is done where nothing is set.
    fn defaults() -> Choices
        ensures { result ≡ default_choices }
    {
        Choices {
            listen: loopback(5060),
            contact: None,
            control: loopback(5061),
            feed: loopback(5062),
            numbers: Numbers::defaults(),
            seed: None,
            keep_subscriptions: false,
            no_refer: false,
            until_input_ends: false,
            rate: None,
            guesses: Guesses {
                burst: 5,
                per_minute: 20,
            },
            old_digest: false,
            log_requests: false,
            log_json: false,
            sync: Syncing::Each(1),
            any_mailbox: false,
        }
    }

    fn set_address(&mut self, which: AddressFlag, addr: Addr)
        ensures { self.new ≡ with_address which addr self.old }
    {
        match which {
            AddressFlag::Listen => self.listen = addr,
            AddressFlag::Contact => self.contact = Some(addr),
            AddressFlag::Control => self.control = addr,
            AddressFlag::Feed => self.feed = addr,
        }
    }

    fn set_switch(&mut self, switch: Switch)
        ensures { self.new ≡ with_switch switch self.old }
    {
        match switch {
            Switch::KeepSubscriptions => self.keep_subscriptions = true,
            Switch::NoRefer => self.no_refer = true,
            Switch::UntilInputEnds => self.until_input_ends = true,
            Switch::OldDigest => self.old_digest = true,
            Switch::LogRequests => self.log_requests = true,
            Switch::LogJson => self.log_json = true,
            Switch::AnyMailbox => self.any_mailbox = true,
        }
    }

    fn set(&mut self, setting: &Setting)
        ensures { self.new ≡ after self.old setting.now }
    {
        match setting {
            Setting::Address(which, addr) => self.set_address(*which, *addr),
            Setting::Number(bound, number) => self.numbers.set(*bound, *number),
            Setting::Seed(seed) => self.seed = Some(*seed),
            Setting::Switch(switch) => self.set_switch(*switch),
            Setting::Rate(rate) => self.rate = Some(*rate),
            Setting::Guesses(guesses) => self.guesses = *guesses,
            Setting::Sync(sync) => self.sync = *sync,
            Setting::MailboxFile(_)
            | Setting::StateFile(_)
            | Setting::JournalFolder(_)
            | Setting::PasswordFile(_)
            | Setting::Watch(..)
            | Setting::Allow(..)
            | Setting::ControlAllow(..)
            | Setting::FeedFrom(..)
            | Setting::Mailbox(_) => {}
        }
    }

    /// What the settings name; the last of one option counts.
    fn named(settings: &[Setting]) -> Choices
        ensures { result ≡ spec.named settings.now }
    {
        let mut choices = Choices::defaults();
        for setting in settings {
            choices.set(setting);
        }
        choices
    }

    /// What the settings ask for; the last of one option counts. The times that are granted to who asks for none and to a REFER follow
    /// the least and the greatest time where no setting names them.
    #[tactic(auto, using(crate::proofs::Times::times_fit))]
    pub fn of(settings: &[Setting]) -> Choices
        ensures choices { result ≡ spec.choices_of settings.now }
        // So the greatest time is enough by itself.
        ensures times { TimesFit settings.now result.numbers }
    {
        let mut choices = Choices::named(settings);
        choices.numbers = choices.numbers.fitted(settings);
        choices
    }
}
