//! What the words of `notifyd serve` say.
ghost use Rattle.std.specs.Prelude.{◌≡◌, ◌↔◌, List, None, IsTrue, IfOk, IfErr};
ghost use Rattle.sip_text.specs.Bytes.{Finds};
ghost use Rattle.arguments.specs.declared.setting.Setting.{Setting};
ghost use Rattle.arguments.specs.declared.setting.Setting.TheVariants as setting;
ghost use Rattle.arguments.specs.Settings.{is_user, IsMailbox, AreSettings, AreWrong, Answers};
ghost use Rattle.arguments.specs.Reading as spec;
ghost use Rattle.arguments.specs.Reading.{watch_of, pair_of, rate_of, guesses_of, sync_of, valued, named, alone, Reads};
ghost use Rattle.sip_text.specs.Reading.{begins};

use crate::error::OptionsError;
use crate::flag::{AddressFlag, Bound, Flag, flag_named, joined_option};
use crate::guesses::Guesses;
use crate::switch::{Switch, switch_named};
use crate::syncing::Syncing;
use crate::value::{between, seed_bytes};
use admission::{Network, Rate};
use package::texts::is_word;
use sip_text::{Addr, NoMemory, Text, cut_at};
use std::alloc::Global;

/// One thing that the words say.
#[derive(Debug, Drop)]
pub enum Setting {
    /// `--listen`, `--contact`, `--control` or `--feed-listen` with an address.
    Address(AddressFlag, Addr),
    /// An option with a number, from the least to the greatest that it takes.
    Number(Bound, u32),
    /// `--mailboxes` with the path of a file.
    MailboxFile(Text),
    /// `--state` with the path of a file.
    StateFile(Text),
    /// `--journal` with the path of a folder.
    JournalFolder(Text),
    /// `--sync` with the seconds from one to the next, or with `never` or `always`.
    Sync(Syncing),
    /// `--passwords` with the path of a file.
    PasswordFile(Text),
    /// `--watch` with a user and a further mailbox of that user.
    Watch(Text, Text),
    /// `--rate` with how much of each source address is heard.
    Rate(Rate),
    /// `--guesses` with how many wrong passwords are looked at.
    Guesses(Guesses),
    /// `--allow` with a network that is let in.
    Allow(Network),
    /// `--control-allow` with a network whose control lines are heard.
    ControlAllow(Network),
    /// `--feed-from` with a network whose voicemail systems are heard.
    FeedFrom(Network),
    /// `--seed` with 32 bytes.
    Seed([u8; 32]),
    /// An option without a value.
    Switch(Switch),
    /// The name of a mailbox.
    Mailbox(Text),
}

/// Two numbers with a slash between, each from 1 to 65536.
#[tactic(auto, unfolding(crate::specs::Reading::pair_of))]
fn read_pair(value: &[u8]) -> Option<(u32, u32)>
    ensures { Finds (λ x. x) result (pair_of value.now) }
{
    let (first, rest) = cut_at(b'/', value)?;
    let first = between(1, 65536, first)?;
    let second = between(1, 65536, rest)?;
    Some((first, second))
}

/// How many datagrams a second, and how many at once: `n/burst`.
#[tactic(auto, unfolding(crate::specs::Reading::rate_of))]
fn read_rate(value: &[u8]) -> Option<Rate>
    ensures { Finds (λ x. x) result (rate_of value.now) }
{
    let (per_second, burst) = read_pair(value)?;
    Some(Rate { burst, per_second })
}

/// How many wrong passwords at once, and how many a minute: `burst/n`.
#[tactic(auto, unfolding(crate::specs::Reading::guesses_of))]
fn read_guesses(value: &[u8]) -> Option<Guesses>
    ensures { Finds (λ x. x) result (guesses_of value.now) }
{
    let (burst, per_minute) = read_pair(value)?;
    Some(Guesses { burst, per_minute })
}

/// Seconds from 1 to 3600, or one of the words `never` and `always`.
#[tactic(auto, unfolding(crate::specs::Reading::sync_of))]
fn read_sync(value: &str) -> Option<Syncing>
    ensures { Finds (λ x. x) result (sync_of value.now) }
{
    if value == "never" {
        return Some(Syncing::Never);
    }
    if value == "always" {
        return Some(Syncing::Always);
    }
    let seconds = between(1, 3600, value.as_bytes())?;
    Some(Syncing::Each(seconds))
}

/// A user before the first colon, and a mailbox behind it.
#[tactic(auto, unfolding(crate::specs::Reading::watch_of))]
fn read_watch(value: &str) -> Option<(&str, &str)>
    ensures { Finds (λ x. (x.0.now, x.1.now)) result (watch_of value.now) }
{
    let (user, mailbox) = value.split_once(':')?;
    if is_mailbox(mailbox) {
        Some((user, mailbox))
    } else {
        None
    }
}

/// A user with a further mailbox.
fn watched(alloc: Global, user: &str, mailbox: &str) -> Result<Setting, NoMemory>
    ensures { IfOk result (λ s. s ≡ setting.Watch user.now mailbox.now) }
{
    let user = Text::of(alloc, user)?;
    let mailbox = Text::of(alloc, mailbox)?;
    Ok(Setting::Watch(user, mailbox))
}

/// What an option says whose value says this, if it says anything.
fn or_bad(flag: Flag, said: Option<Setting>) -> Result<Setting, OptionsError>
    ensures { Reads (λ x. x) result (spec.or_bad flag said) }
{
    said.ok_or(OptionsError::Bad(flag))
}

/// What an option with this value says.
#[tactic(auto, unfolding(crate::specs::Reading::valued))]
fn valued(alloc: Global, flag: Flag, value: &str) -> Result<Setting, OptionsError>
    ensures { Reads (λ x. x) result (valued flag value.now) }
{
    let bytes = value.as_bytes();
    match flag {
        Flag::Address(which) => {
            let addr = Addr::of(bytes);
            or_bad(flag, addr.map(|addr| Setting::Address(which, addr)))
        }
        Flag::Number(bound) => {
            let number = between(bound.least(), bound.most(), bytes);
            or_bad(flag, number.map(|number| Setting::Number(bound, number)))
        }
        Flag::MailboxFile => Ok(Setting::MailboxFile(Text::of(alloc, value)?)),
        Flag::StateFile => Ok(Setting::StateFile(Text::of(alloc, value)?)),
        Flag::JournalFolder => Ok(Setting::JournalFolder(Text::of(alloc, value)?)),
        Flag::Sync => or_bad(flag, read_sync(value).map(Setting::Sync)),
        Flag::PasswordFile => Ok(Setting::PasswordFile(Text::of(alloc, value)?)),
        Flag::Watch => match read_watch(value) {
            Some((user, mailbox)) => Ok(watched(alloc, user, mailbox)?),
            None => Err(OptionsError::Bad(flag)),
        },
        Flag::Rate => or_bad(flag, read_rate(bytes).map(Setting::Rate)),
        Flag::Guesses => or_bad(flag, read_guesses(bytes).map(Setting::Guesses)),
        Flag::Allow => or_bad(flag, Network::of(bytes).map(Setting::Allow)),
        Flag::ControlAllow => or_bad(flag, Network::of(bytes).map(Setting::ControlAllow)),
        Flag::FeedFrom => or_bad(flag, Network::of(bytes).map(Setting::FeedFrom)),
        Flag::Seed => or_bad(flag, seed_bytes(value).map(Setting::Seed)),
    }
}

/// Whether it has `-` in front.
pub(crate) fn is_dashed(word: &str) -> bool
    ensures { result ≡ begins 45 word.now }
{
    matches!(word.as_bytes(), [b'-', ..])
}

/// Whether it may stand before the `@` of an address as it is: no `@`, and no `:`, behind which a password stands.
fn is_user(word: &str) -> bool
    ensures { result ≡ is_user word.now }
{
    word.bytes().all(|byte| byte != b'@' && byte != b':')
}

/// Whether it may name a mailbox.
pub fn is_mailbox(word: &str) -> bool
    ensures is { IsTrue result ↔ IsMailbox word.now }
    ensures value { result ≡ spec.is_mailbox word.now }
{
    is_word(word) && is_user(word) && !is_dashed(word)
}

/// What a word says that is no option: the name of a mailbox.
#[tactic(auto, unfolding(crate::specs::Reading::named))]
fn named(alloc: Global, word: &Text) -> Result<Setting, OptionsError>
    ensures { Reads (λ x. x) result (named word.now) }
{
    let word = word.copy(alloc)?;
    if is_dashed(word.as_str()) {
        return Err(OptionsError::Unknown(word));
    }
    if is_word(word.as_str()) && is_user(word.as_str()) {
        Ok(Setting::Mailbox(word))
    } else {
        Err(OptionsError::NoMailbox(word))
    }
}

/// What a word says that has no value behind it.
#[tactic(auto, unfolding(crate::specs::Reading::alone))]
fn alone(alloc: Global, word: &Text) -> Result<Setting, OptionsError>
    ensures { Reads (λ x. x) result (alone word.now) }
{
    if let Some((flag, value)) = joined_option(word.as_str()) {
        return valued(alloc, flag, value);
    }
    match switch_named(word.as_str()) {
        Some(switch) => Ok(Setting::Switch(switch)),
        None => named(alloc, word),
    }
}

/// What the words say, in order.
fn read_settings(alloc: Global, words: &[Text]) -> Result<Vec<Setting>, OptionsError>
    ensures { Reads (λ v. v.items) result (spec.settings_from None words.now) }
{
    let mut settings = Vec::new(alloc);
    let mut waiting = None;
    for word in words {
        match waiting.take() {
            Some(flag) => {
                let setting = valued(alloc, flag, word.as_str())?;
                settings.push(setting)?;
            }
            None => match flag_named(word.as_str()) {
                Some(flag) => waiting = Some(flag),
                None => {
                    let other = alone(alloc, word)?;
                    settings.push(other)?;
                }
            },
        }
    }
    match waiting {
        Some(flag) => Err(OptionsError::Missing(flag)),
        None => Ok(settings),
    }
}

/// What the words behind `serve` say, in order.
pub fn parse_settings(alloc: Global, words: &[Text]) -> Result<Vec<Setting>, OptionsError>
    // What is answered is what the words say.
    ensures found { IfOk result (λ settings. AreSettings words.now settings.items) }
    // What the words say is answered, unless memory runs out.
    ensures only { (settings : List Setting) → AreSettings words.now settings → Answers (λ v. v.items) result settings }
    // An error names what is wrong first.
    ensures wrong { IfErr result (AreWrong words.now) }
{
    read_settings(alloc, words)
}
