//! Who is heard by the settings of a service: networks that are let in, with SIP or with control lines, and mailboxes that users may
//! watch beside their own. And the paths that they name beside those of mailboxes: a file of passwords, and a folder of a journal.
ghost use Rattle.std.specs.Prelude.{◌≡◌, IfOk, OnOk};
ghost use Rattle.arguments.specs.Choices as spec;
ghost use Rattle.arguments.specs.Choices.{with_network, with_control_network, with_feed_network, with_alone, with_watched, with_passwords, with_journal};

use crate::choices::Choices;
use crate::setting::Setting;
use admission::Network;
use sip_text::{NoMemory, Text};
use std::alloc::Global;

/// Adds the network that a setting lets in, if it names one.
fn add_network(networks: &mut Vec<Network>, setting: &Setting) -> Result<(), NoMemory>
    ensures { OnOk result (networks.new.items ≡ with_network networks.old.items setting.now) }
{
    if let Setting::Allow(network) = setting {
        networks.push(*network)?;
    }
    Ok(())
}

/// The networks that the settings let in, in order. Its only error is out of memory.
pub fn allowed_networks(alloc: Global, settings: &[Setting]) -> Result<Vec<Network>, NoMemory>
    ensures { IfOk result (λ networks. networks.items ≡ spec.allowed_networks settings.now) }
{
    let mut networks = Vec::new(alloc);
    for setting in settings {
        add_network(&mut networks, setting)?;
    }
    Ok(networks)
}

/// Adds the network whose control lines a setting lets in, if it names one.
fn add_control_network(heard: &mut Vec<Network>, setting: &Setting) -> Result<(), NoMemory>
    ensures { OnOk result (heard.new.items ≡ with_control_network heard.old.items setting.now) }
{
    if let Setting::ControlAllow(network) = setting {
        heard.push(*network)?;
    }
    Ok(())
}

/// The networks that settings name, whose control lines are heard, in order.
fn named_operators(alloc: Global, settings: &[Setting]) -> Result<Vec<Network>, NoMemory>
    ensures { IfOk result (λ networks. networks.items ≡ spec.named_operators settings.now) }
{
    let mut networks = Vec::new(alloc);
    for setting in settings {
        add_control_network(&mut networks, setting)?;
    }
    Ok(networks)
}

/// Adds this address alone to the networks that are named, where there are some.
fn add_alone(networks: &mut Vec<Network>, ip: [u8; 4]) -> Result<(), NoMemory>
    ensures { OnOk result (networks.new.items ≡ with_alone ip networks.old.items) }
{
    if !networks.is_empty() {
        networks.push(Network { ip, length: 32 })?;
    }
    Ok(())
}

/// The networks whose control lines are heard beside those of 127.0.0.0/8: those that settings name, in order, and the control
/// address itself, since this machine sends from it what it sends to it. Without one that is named none. Its only error is out of
/// memory.
pub fn control_networks(alloc: Global, settings: &[Setting]) -> Result<Vec<Network>, NoMemory>
    ensures { IfOk result (λ networks. networks.items ≡ spec.control_networks settings.now) }
{
    let mut networks = named_operators(alloc, settings)?;
    add_alone(&mut networks, Choices::of(settings).control.ip)?;
    Ok(networks)
}

/// Adds the network whose voicemail systems a setting lets in, if it names one.
fn add_feed_network(heard: &mut Vec<Network>, setting: &Setting) -> Result<(), NoMemory>
    ensures { OnOk result (heard.new.items ≡ with_feed_network heard.old.items setting.now) }
{
    if let Setting::FeedFrom(network) = setting {
        heard.push(*network)?;
    }
    Ok(())
}

/// The networks that settings name whose voicemail systems are heard, in order. Its only error is out of memory.
pub fn feed_networks(alloc: Global, settings: &[Setting]) -> Result<Vec<Network>, NoMemory>
    ensures { IfOk result (λ networks. networks.items ≡ spec.feed_networks settings.now) }
{
    let mut networks = Vec::new(alloc);
    for setting in settings {
        add_feed_network(&mut networks, setting)?;
    }
    Ok(networks)
}

/// Adds the user and the mailbox that a setting names together, if it does.
fn add_watched(
    alloc: Global,
    pairs: &mut Vec<(Text, Text)>,
    setting: &Setting,
) -> Result<(), NoMemory>
    ensures { OnOk result (pairs.new.items ≡ with_watched pairs.old.items setting.now) }
{
    if let Setting::Watch(user, mailbox) = setting {
        pairs.push((user.copy(alloc)?, mailbox.copy(alloc)?))?;
    }
    Ok(())
}

/// The mailboxes that users may watch beside their own, each behind its user, in order. Its only error is out of memory.
pub fn further_mailboxes(alloc: Global, settings: &[Setting]) -> Result<Vec<(Text, Text)>, NoMemory>
    ensures { IfOk result (λ pairs. pairs.items ≡ spec.further_mailboxes settings.now) }
{
    let mut pairs = Vec::new(alloc);
    for setting in settings {
        add_watched(alloc, &mut pairs, setting)?;
    }
    Ok(pairs)
}

/// The path of a folder of a journal behind a setting: of two the last counts.
fn add_folder(alloc: Global, path: &mut Option<Text>, setting: &Setting) -> Result<(), NoMemory>
    ensures { OnOk result (path.new ≡ with_journal path.old setting.now) }
{
    if let Setting::JournalFolder(named) = setting {
        *path = Some(named.copy(alloc)?);
    }
    Ok(())
}

/// The path of the folder of the journal that the settings name, if they name one. Its only error is out of memory.
pub fn journal_folder(alloc: Global, settings: &[Setting]) -> Result<Option<Text>, NoMemory>
    ensures { IfOk result (λ path. path ≡ spec.journal_folder settings.now) }
{
    let mut path = None;
    for setting in settings {
        add_folder(alloc, &mut path, setting)?;
    }
    Ok(path)
}

/// The path of a file of passwords behind a setting: of two the last counts.
fn add_path(alloc: Global, path: &mut Option<Text>, setting: &Setting) -> Result<(), NoMemory>
    ensures { OnOk result (path.new ≡ with_passwords path.old setting.now) }
{
    if let Setting::PasswordFile(named) = setting {
        *path = Some(named.copy(alloc)?);
    }
    Ok(())
}

/// The path of the file of passwords that the settings name, if they name one. Its only error is out of memory.
pub fn password_file(alloc: Global, settings: &[Setting]) -> Result<Option<Text>, NoMemory>
    ensures { IfOk result (λ path. path ≡ spec.password_file settings.now) }
{
    let mut path = None;
    for setting in settings {
        add_path(alloc, &mut path, setting)?;
    }
    Ok(path)
}
