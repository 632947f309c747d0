//! A set of transfers as an event package.
ghost use Rattle.std.specs.Prelude.{◌≡◌, IfOk, IsOk, OnErr, IsSome, IsTrue};
ghost use Rattle.indexmap.specs.IndexMap.{get_by_text};
ghost use Rattle.package.specs.Content.{finite_maps, contents_of, held, with_held, refer_package};
ghost use Rattle.package.specs.Changes.{begin_at, step_at, forget_at, change_of, is_forget};
ghost use Rattle.package.specs.Closings.{counted, new_ending};
ghost use Rattle.refer.specs.Transfers.{refer_type, new_transfers, content_of, transfer_change};

use crate::body::write_body;
use crate::status::TransferStatus;
use indexmap::IndexMap;
use package::{Change, ClosingCell, Ending, Outcome, Package, Progress};
use sip_text::{NoMemory, Text};
use std::alloc::Global;
use std::sync::Arc;

/// Transfers and how far they have come: the package `refer`.
pub struct Transfers {
    transfers: IndexMap<String, TransferStatus>,
    ending: Ending,
}

impl Transfers {
    /// Holds nothing. Its Closing goes to this cell.
    pub fn new(alloc: Global, cell: Arc<ClosingCell>) -> Result<Transfers, NoMemory>
        ensures seen { IfOk result (λ t. ⟦<Transfers as Package>⟧.seen t ≡ new_transfers) }
        ensures ending { IfOk result (λ t. t.ending ≡ new_ending refer_package cell.value) }
    {
        let ending = Ending::new(alloc, "refer", cell)?;
        Ok(Transfers {
            transfers: IndexMap::new(alloc),
            ending,
        })
    }

    /// Takes in a change, and counts it if it changes something.
    fn take_in(&mut self, alloc: Global, change: &Change) -> Result<Outcome, NoMemory>
        ensures ok { let before = contents_of content_of self.old.transfers.entries in
            IfOk result (λ outcome.
            (outcome, contents_of content_of self.new.transfers.entries) ≡ transfer_change before change.now) }
        ensures err { OnErr result
            (contents_of content_of self.new.transfers.entries ≡ contents_of content_of self.old.transfers.entries) }
        ensures forget { IsTrue (is_forget change.now) → IsOk result }
        ensures counted { IfOk result (λ outcome. self.new.ending ≡ counted outcome self.old.ending) }
        ensures uncounted { OnErr result (self.new.ending ≡ self.old.ending) }
    {
        let outcome = match change {
            Change::Mail(_) => Outcome::Unknown,
            Change::Begin(tag) => begin(alloc, &mut self.transfers, tag)?,
            Change::Step(progress) => step(alloc, &mut self.transfers, progress)?,
            Change::Forget(tag) => forget(&mut self.transfers, tag),
        };
        self.ending.count(outcome);
        Ok(outcome)
    }
}

/// Holds a transfer from now on, unless it is held.
fn begin(
    alloc: Global,
    transfers: &mut IndexMap<String, TransferStatus>,
    tag: &Text,
) -> Result<Outcome, NoMemory>
    ensures ok { let before = contents_of content_of transfers.old.entries in
        IfOk result (λ outcome.
        (outcome, contents_of content_of transfers.new.entries)
        ≡ begin_at finite_maps before tag.now (held before tag.now)) }
    ensures err { OnErr result (contents_of content_of transfers.new.entries
        ≡ contents_of content_of transfers.old.entries) }
{
    let name = tag.as_str();
    if transfers.contains_key(name) {
        return Ok(Outcome::Same);
    }
    let key = String::from_str(alloc, name)?;
    let status = TransferStatus::trying(alloc)?;
    transfers.insert(key, status)?;
    Ok(Outcome::Changed)
}

/// Puts a status in the place of that of a transfer that is held.
fn replace(transfers: &mut IndexMap<String, TransferStatus>, tag: &str, status: TransferStatus)
    requires { IsSome (get_by_text transfers.old tag.now) }
    ensures { contents_of content_of transfers.new.entries
        ≡ with_held (contents_of content_of transfers.old.entries) tag.now (content_of status) }
{
    if let Some(place) = transfers.get_mut(tag) {
        *place = status;
    }
}

/// Takes a transfer to the status of this progress, unless it has it or a final one.
fn step(
    alloc: Global,
    transfers: &mut IndexMap<String, TransferStatus>,
    progress: &Progress,
) -> Result<Outcome, NoMemory>
    ensures ok { let before = contents_of content_of transfers.old.entries in
        IfOk result (λ outcome.
        (outcome, contents_of content_of transfers.new.entries)
        ≡ step_at finite_maps before progress.now (held before progress.now.tag)) }
    ensures err { OnErr result (contents_of content_of transfers.new.entries
        ≡ contents_of content_of transfers.old.entries) }
{
    let tag = progress.tag();
    let Some(status) = transfers.get(tag) else {
        return Ok(Outcome::Unknown);
    };
    if status.outlasts(progress) {
        return Ok(Outcome::Same);
    }
    let next = TransferStatus::told(alloc, progress)?;
    replace(transfers, tag, next);
    Ok(Outcome::Changed)
}

/// Lets a transfer go.
fn forget(transfers: &mut IndexMap<String, TransferStatus>, tag: &Text) -> Outcome
    ensures { let before = contents_of content_of transfers.old.entries in
        (result, contents_of content_of transfers.new.entries)
        ≡ forget_at finite_maps before tag.now (held before tag.now) }
{
    let Some(_gone) = transfers.swap_remove(tag.as_str()) else {
        return Outcome::Unknown;
    };
    Outcome::Changed
}

impl Package for Transfers {
    ghost seen = { λ t. record { name = refer_package; content_type = refer_type; contents = contents_of content_of t.transfers.entries } };

    fn event(&self) -> &str {
        "refer"
    }

    fn content_type(&self) -> &str {
        "message/sipfrag;version=2.0"
    }

    fn holds(&self, resource: &str) -> bool {
        self.transfers.contains_key(resource)
    }

    fn change(&mut self, alloc: Global, change: &Change) -> Result<Outcome, NoMemory>
        ensures ok { IfOk result (λ outcome. (outcome, ⟦<Transfers as Package>⟧.seen self.new)
            ≡ change_of (⟦<Transfers as Package>⟧.seen self.old) change.now) }
        ensures err { OnErr result (⟦<Transfers as Package>⟧.seen self.new ≡ ⟦<Transfers as Package>⟧.seen self.old) }
        ensures forget { IsTrue (is_forget change.now) → IsOk result }
        ensures counted { IfOk result (λ outcome. self.new.ending ≡ counted outcome self.old.ending) }
        ensures uncounted { OnErr result (self.new.ending ≡ self.old.ending) }
    {
        self.take_in(alloc, change)
    }

    fn body(&self, alloc: Global, resource: &str) -> Result<Option<Vec<u8>>, NoMemory> {
        match self.transfers.get(resource) {
            None => Ok(None),
            Some(status) => Ok(Some(write_body(alloc, status)?.into_bytes())),
        }
    }

    /// A transfer with a final status is over.
    fn is_over(&self, resource: &str) -> bool {
        match self.transfers.get(resource) {
            None => false,
            Some(status) => status.is_final(),
        }
    }
}

/// Offers the Closing. It takes no memory.
impl Drop for Transfers {
    fn drop(self) {
        let Transfers { transfers, ending } = self;
        let _taken = ending.offer(transfers.len() as u64);
    }
}
