//! Whose control lines are heard, and what operators tell of mailboxes.
ghost use Rattle.std.specs.Prelude.{◌≡◌, OnOk, OnErr};
ghost use Rattle.sip_text.specs.Reading.{begins};
ghost use Rattle.admission.specs.Verdicts as verdicts;
ghost use Rattle.service.specs.Taken as spec;
ghost use Rattle.service.specs.Taken.{told_of, operators_in};

use admission::Network;
use control_lines::ToldCounts;
use package::Change;
use sip_text::{Addr, NoMemory};
use std::alloc::Global;

/// This machine: 127.0.0.0/8 (RFC 1122 section 3.2.1.3).
fn loopback() -> Network
    ensures { result ≡ spec.loopback }
{
    Network {
        ip: [127, 0, 0, 0],
        length: 8,
    }
}

/// Whether the address is of one of these networks.
fn is_one_of(networks: &[Network], ip: [u8; 4]) -> bool
    ensures { result ≡ verdicts.is_one_of networks.now ip }
{
    networks.iter().any(|network| network.contains(ip))
}

/// This address alone.
fn alone(ip: [u8; 4]) -> Network
    ensures { result ≡ spec.alone ip }
{
    Network { ip, length: 32 }
}

/// Where a socket sends from that is bound to this address: 0.0.0.0 reaches this machine from 127.0.0.0/8.
fn network_at(ip: [u8; 4]) -> Network
    ensures { result ≡ spec.network_at ip }
{
    if alone([0, 0, 0, 0]).contains(ip) {
        loopback()
    } else {
        alone(ip)
    }
}

/// Whether what came from this source was sent by a socket that is bound to this address.
fn is_from(bound: Addr, source: Addr) -> bool
    ensures { result ≡ spec.is_from bound source }
{
    bound.port == source.port && network_at(bound.ip).contains(source.ip)
}

/// Whose control lines are heard.
#[derive(Drop)]
pub struct Operators {
    /// The addresses of the service's own sockets, whose datagrams are no lines.
    pub own: [Addr; 2],
    /// The networks whose lines are heard, beside this machine's: all are, where there is none.
    pub networks: Vec<Network>,
}

impl Operators {
    /// Whether it came from a socket of the service itself.
    fn is_own(&self, source: Addr) -> bool
        ensures { result ≡ spec.is_own self.now.own source }
    {
        self.own.iter().any(|bound| is_from(*bound, source))
    }

    /// Whether an address is one of those that are named, or this machine's, or none is named.
    fn names(&self, ip: [u8; 4]) -> bool
        ensures { result ≡ spec.is_named self.now.networks.items ip }
    {
        self.networks.is_empty() || loopback().contains(ip) || is_one_of(&self.networks, ip)
    }

    /// Whether control lines from this address are heard: those of this machine are, and those from one of the networks, or all, where none
    /// is named. None is that the service sends itself: so it never answers its own answers, or those of its other socket.
    pub(crate) fn hear(&self, source: Addr) -> bool
        ensures { result ≡ spec.is_heard (operators_in self.now) source }
    {
        !self.is_own(source) && self.names(source.ip)
    }
}

/// Whether the service has the mailbox that a change is of, if it is of one.
pub(crate) fn is_known(told: &ToldCounts, change: &Change) -> bool
    ensures { result ≡ spec.is_known told.now change.now }
{
    match change {
        Change::Mail(change) => told.place(change.mailbox()).is_some(),
        Change::Begin(_) | Change::Step(_) | Change::Forget(_) => true,
    }
}

/// How many bytes the name of a mailbox has at most that a line makes: so each answer about it fits a datagram by far.
const LONGEST_NAME: usize = 1024;

/// Whether it has `-` in front.
fn is_dashed(name: &str) -> bool
    ensures { result ≡ begins 45 name.now }
{
    matches!(name.as_bytes(), [b'-', ..])
}

/// Whether it has no `@` and no `:`, which end the user of an address (RFC 3261 section 19.1.1).
fn is_user(name: &str) -> bool
    ensures { result ≡ spec.is_user name.now }
{
    name.bytes().all(|byte| byte != b'@' && byte != b':')
}

/// Whether a line may make a mailbox of this name: a file of mailboxes may hold it, and it is no longer than [`LONGEST_NAME`].
fn may_be_named(name: &str) -> bool
    ensures { result ≡ spec.may_be_named name.now }
{
    name.len() <= LONGEST_NAME && is_user(name) && !is_dashed(name)
}

/// Whether a service that may have so many mailboxes by their MAIL lines makes that of this change: it has fewer, and its name may be one.
pub(crate) fn makes(most: u32, told: &ToldCounts, change: &Change) -> bool
    ensures { result ≡ spec.makes most told.now change.now }
{
    match change {
        Change::Mail(change) => told.len() < most as usize && may_be_named(change.mailbox()),
        Change::Begin(_) | Change::Step(_) | Change::Forget(_) => false,
    }
}

/// The service has the mailbox that a change is of from now on, if it is of one.
pub(crate) fn make(alloc: Global, told: &mut ToldCounts, change: &Change) -> Result<(), NoMemory>
    ensures made { OnOk result (told.new ≡ spec.made change.now told.old) }
    ensures unchanged { OnErr result (told.new ≡ told.old) }
{
    match change {
        Change::Mail(change) => told.add(alloc, change.mailbox()),
        Change::Begin(_) | Change::Step(_) | Change::Forget(_) => Ok(()),
    }
}

/// A mailbox was told what this change says of it, if it says something.
pub(crate) fn tell(told: &mut ToldCounts, change: &Change)
    ensures { told.new ≡ told_of change.now told.old }
{
    match change {
        Change::Mail(change) => told.tell(change),
        Change::Begin(_) | Change::Step(_) | Change::Forget(_) => {}
    }
}

/// The mailboxes were told what these changes say of them, in order.
pub(crate) fn tell_each(told: &mut ToldCounts, changes: &[Change])
    ensures { told.new ≡ spec.told_each told.old changes.now }
{
    for change in changes {
        tell(told, change);
    }
}
