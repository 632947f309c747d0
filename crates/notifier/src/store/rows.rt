//! The live subscriptions under keys, with what leads to them: serials, timers in the order of their moments, and who watches which resource
//! of which package.
ghost use Rattle.std.specs.Prelude.{◌≡◌, ◌<◌, ◌==◌, ◌&&◌, ◌++◌, ◌∷◌, [], ◌↔◌, ◌^◌, ℕ, List, length, false, if◌then◌else◌, All, IfOk, OnOk, IsTrue, is_some, Some, None, ◌+◌, map, bytes_eq, true};
ghost use Rattle.std.specs.BTreeMap as tree;
ghost use Rattle.std.specs.BTreeSet as sorted;
ghost use Rattle.std.specs.Option.{option_copied};
ghost use Rattle.std.specs.Ordering.{nat_cmp};
ghost use Rattle.slab.specs.Slab.{HasRoomFor, Updates};
ghost use Rattle.notifier.specs.Among.{has, RiseFrom};
ghost use Rattle.notifier.specs.Stored.{rows_of, row_at, alarm_of, by_time, IsIndexed, IsTimed};
ghost use Rattle.notifier.specs.Watchers.{is_watched, is_about, NoSetIsEmpty, watched, NoneIsLeft, watcher_set};
ghost use Rattle.std.specs.HashMap.{get_by_text};

use indexmap::IndexMap;
use notifier_model::row::Row;
use sip_text::NoMemory;
use slab::Slab;
use smallvec::SmallVec;
use std::alloc::Global;
use std::collections::{BTreeMap, BTreeSet};
use std::ops::Bound;
use subscription::Want;

/// The first second in which time may end a row: its own time is up, or a NOTIFY of it was unanswered for too long (RFC 6665
/// section 4.2.2). That is the oldest one, which stands first.
pub fn alarm(row: &Row) -> u64
    ensures { result ≡ alarm_of row.now }
{
    let due = row.sub.due();
    match row.unanswered.as_slice().first() {
        None => due,
        Some(oldest) => due.min(oldest.moment.saturating_add(32)),
    }
}

/// The timer of a serial moves.
pub fn move_timer(
    timers: &mut BTreeSet<(u64, u32)>,
    serial: u32,
    before: u64,
    after: u64,
) -> Result<(), NoMemory>
    requires { (d : ℕ) → sorted.contains by_time timers.old (d, serial) ≡ (before == d) }
    ensures { OnOk result ((d s : ℕ) → sorted.contains by_time timers.new (d, s)
        ≡ (if serial == s then after == d else sorted.contains by_time timers.old (d, s))) }
{
    if before == after {
        return Ok(());
    }
    timers.remove(&(before, serial));
    timers.insert((after, serial))?;
    Ok(())
}

/// The timer of a serial goes.
pub fn stop_timer(timers: &mut BTreeSet<(u64, u32)>, serial: u32, before: u64)
    requires { (d : ℕ) → sorted.contains by_time timers.old (d, serial) ≡ (before == d) }
    ensures { (d s : ℕ) → sorted.contains by_time timers.new (d, s)
        ≡ (if serial == s then false else sorted.contains by_time timers.old (d, s)) }
{
    timers.remove(&(before, serial));
}

/// The serials whose timers are up by this moment, rising.
pub fn timed_out(
    alloc: Global,
    timers: &BTreeSet<(u64, u32)>,
    clock: u64,
) -> Result<BTreeSet<u32>, NoMemory>
    requires { clock < 2 ^ 63 }
    ensures { IfOk result (λ set. sorted.IsFromIterResult nat_cmp
        (map (λ t. t.1) (sorted.keys_between by_time Bound.Unbounded (Bound.Excluded (clock + 1, 0)) timers.now)) set) }
{
    let set = timers
        .range(..(clock + 1, 0))
        .map(|timer| timer.1)
        .collect(alloc)?;
    Ok(set)
}

/// A serial watches a resource that none watched.
fn watch_first(
    alloc: Global,
    watchers: &mut IndexMap<String, BTreeSet<u32>>,
    resource: &str,
    serial: u32,
) -> Result<(), NoMemory>
    requires { (s : ℕ) → watched watchers.old resource.now s ≡ false }
    ensures watching { OnOk result ((q : List ℕ) (s : ℕ) → watched watchers.new q s
        ≡ (if bytes_eq resource.now q && (serial == s) then true else watched watchers.old q s)) }
    ensures none_left { OnOk result (NoneIsLeft watchers.old → NoneIsLeft watchers.new) }
{
    let mut set = BTreeSet::new(alloc);
    set.insert(serial)?;
    watchers.insert(String::from_str(alloc, resource)?, set)?;
    Ok(())
}

/// A serial watches a resource of the package with these watchers.
fn watch(
    alloc: Global,
    watchers: &mut IndexMap<String, BTreeSet<u32>>,
    resource: &str,
    serial: u32,
) -> Result<(), NoMemory>
    ensures watching { OnOk result ((q : List ℕ) (s : ℕ) → watched watchers.new q s
        ≡ (if bytes_eq resource.now q && (serial == s) then true else watched watchers.old q s)) }
    ensures none_left { OnOk result (NoneIsLeft watchers.old → NoneIsLeft watchers.new) }
{
    if let Some(set) = watchers.get_mut(resource) {
        set.insert(serial)?;
        return Ok(());
    }
    watch_first(alloc, watchers, resource, serial)
}

/// A serial watches a resource no more. A resource that nobody watches has no entry.
fn unwatch(watchers: &mut IndexMap<String, BTreeSet<u32>>, resource: &str, serial: u32)
    ensures watching { (q : List ℕ) (s : ℕ) → watched watchers.new q s
        ≡ (if bytes_eq resource.now q && (serial == s) then false else watched watchers.old q s) }
    ensures none_left { NoneIsLeft watchers.old → NoneIsLeft watchers.new }
{
    if let Some(set) = watchers.get_mut(resource) {
        set.remove(&serial);
        if set.is_empty() {
            watchers.swap_remove(resource);
        }
    }
}

/// Who watches what: for each package, and each resource of it that is watched, the serials of those who watch it.
#[derive(Drop)]
pub struct Watchers {
    /// A package keeps its entry when nobody watches any more: a desk has few packages.
    packages: IndexMap<String, IndexMap<String, BTreeSet<u32>>>,
}

impl Watchers {
    /// Nobody watches anything.
    pub fn new(alloc: Global) -> Watchers
        ensures nobody { (p q : List ℕ) (s : ℕ) → is_watched result p q s ≡ false }
        ensures none_empty { NoSetIsEmpty result }
    {
        Watchers {
            packages: IndexMap::new(alloc),
        }
    }

    /// The serials of those who watch this resource of the package with this name.
    pub fn get(&self, name: &str, resource: &str) -> Option<&BTreeSet<u32>>
        ensures { option_copied result ≡ watcher_set self.now name.now resource.now }
    {
        match self.packages.get(name) {
            None => None,
            Some(resources) => resources.get(resource),
        }
    }

    /// A serial watches what it asked for, of a package that has no entry.
    fn add_first(&mut self, alloc: Global, want: &Want, serial: u32) -> Result<(), NoMemory>
        requires { get_by_text self.old.packages want.now.event.package ≡ None }
        ensures watching { OnOk result ((p q : List ℕ) (s : ℕ) → is_watched self.new p q s
            ≡ (if is_about want.now p q && (serial == s) then true else is_watched self.old p q s)) }
        ensures none_empty { OnOk result (NoSetIsEmpty self.old → NoSetIsEmpty self.new) }
    {
        let mut resources = IndexMap::new(alloc);
        watch(alloc, &mut resources, want.resource.as_str(), serial)?;
        let name = String::from_str(alloc, want.event.package())?;
        self.packages.insert(name, resources)?;
        Ok(())
    }

    /// A serial watches what it asked for.
    pub fn add(&mut self, alloc: Global, want: &Want, serial: u32) -> Result<(), NoMemory>
        ensures watching { OnOk result ((p q : List ℕ) (s : ℕ) → is_watched self.new p q s
            ≡ (if is_about want.now p q && (serial == s) then true else is_watched self.old p q s)) }
        ensures none_empty { OnOk result (NoSetIsEmpty self.old → NoSetIsEmpty self.new) }
    {
        if let Some(resources) = self.packages.get_mut(want.event.package()) {
            watch(alloc, resources, want.resource.as_str(), serial)?;
            return Ok(());
        }
        self.add_first(alloc, want, serial)
    }

    /// A serial watches what it asked for no more.
    pub fn remove(&mut self, want: &Want, serial: u32)
        ensures watching { (p q : List ℕ) (s : ℕ) → is_watched self.new p q s
            ≡ (if is_about want.now p q && (serial == s) then false else is_watched self.old p q s) }
        ensures none_empty { NoSetIsEmpty self.old → NoSetIsEmpty self.new }
    {
        if let Some(resources) = self.packages.get_mut(want.event.package()) {
            unwatch(resources, want.resource.as_str(), serial);
        }
    }
}

/// Serials of rows. Four of them take no memory: a change has few watchers mostly, an answer and a renewal have one row.
pub type Serials = SmallVec<u32, 4>;

/// The live subscriptions. Contracts see them as the list of the rows by rising serial.
#[derive(Drop)]
pub struct Rows {
    pub slab: Slab<Row>,
    /// From a serial to the key of its row.
    pub order: BTreeMap<u32, usize>,
    /// The second in which time may end a row, and its serial.
    pub timers: BTreeSet<(u64, u32)>,
    pub watchers: Watchers,
}

impl Rows {
    /// No rows.
    pub fn new(alloc: Global) -> Rows
        ensures rows { rows_of result ≡ [] }
        ensures indexed { IsIndexed result }
    {
        Rows {
            slab: Slab::new(alloc),
            order: BTreeMap::new(alloc),
            timers: BTreeSet::new(alloc),
            watchers: Watchers::new(alloc),
        }
    }

    /// How many rows there are.
    pub fn len(&self) -> usize
        requires { IsIndexed self.now }
        ensures { result ≡ length (rows_of self.now) }
    {
        self.order.len()
    }

    /// The row with this serial.
    pub fn row(&self, serial: u32) -> Option<&Row>
        requires { IsIndexed self.now }
        ensures { option_copied result ≡ row_at self.now serial }
    {
        match self.order.get(&serial) {
            None => None,
            Some(key) => self.slab.get(*key),
        }
    }

    /// A new row, whose serial is above all others.
    pub fn push(&mut self, alloc: Global, row: Row) -> Result<(), NoMemory>
        requires indexed { IsIndexed self.old }
        requires last { All (λ r. r.serial < row.serial) (rows_of self.old) }
        ensures rows { OnOk result (rows_of self.new ≡ rows_of self.old ++ row ∷ []) }
        ensures indexed { OnOk result (IsIndexed self.new) }
    {
        let serial = row.serial;
        let moment = alarm(&row);
        self.watchers.add(alloc, row.sub.want(), serial)?;
        let key = self.slab.insert(row)?;
        self.order.insert(serial, key)?;
        self.timers.insert((moment, serial))?;
        Ok(())
    }

    /// A row that was told stands under its serial again, and its timer moves from this second.
    pub fn put_back(&mut self, serial: u32, before: u64, row: Row) -> Result<(), NoMemory>
        requires room { HasRoomFor self.old.slab 1 }
        requires timer { (d : ℕ) → sorted.contains by_time self.old.timers (d, serial) ≡ (before == d) }
        ensures slab { OnOk result (Updates self.old.slab self.new.slab self.old.slab.vacant_key (Some row)) }
        ensures timers { OnOk result ((d s : ℕ) → sorted.contains by_time self.new.timers (d, s)
            ≡ (if serial == s then alarm_of row == d else sorted.contains by_time self.old.timers (d, s))) }
        ensures order { OnOk result (self.new.order ≡ self.old.order) }
        ensures watchers { OnOk result (self.new.watchers ≡ self.old.watchers) }
    {
        let after = alarm(&row);
        self.slab.insert_reserved(row);
        move_timer(&mut self.timers, serial, before, after)
    }

    /// Nothing leads any more to this serial, whose row is gone: it asked for this, and its timer stood at this second.
    pub fn let_go(&mut self, serial: u32, before: u64, want: Want)
        requires timer { (d : ℕ) → sorted.contains by_time self.old.timers (d, serial) ≡ (before == d) }
        ensures slab { self.new.slab ≡ self.old.slab }
        ensures ordered { tree.IsOrdered nat_cmp self.new.order }
        ensures order { (s : ℕ) → tree.get nat_cmp self.new.order s
            ≡ (if tree.is_at (nat_cmp serial) s then None else tree.get nat_cmp self.old.order s) }
        ensures timers { (d s : ℕ) → sorted.contains by_time self.new.timers (d, s)
            ≡ (if serial == s then false else sorted.contains by_time self.old.timers (d, s)) }
        ensures watchers { (p q : List ℕ) (s : ℕ) → is_watched self.new.watchers p q s
            ≡ (if is_about want p q && (serial == s) then false else is_watched self.old.watchers p q s) }
        ensures none_left { NoSetIsEmpty self.old.watchers → NoSetIsEmpty self.new.watchers }
    {
        self.order.remove(&serial);
        stop_timer(&mut self.timers, serial, before);
        self.watchers.remove(&want, serial);
    }

    /// The serials of all rows, rising.
    pub fn serials(&self, alloc: Global) -> Result<Serials, NoMemory>
        requires { IsIndexed self.now }
        ensures rise { IfOk result (λ v. RiseFrom 0 v.items) }
        ensures all { IfOk result (λ v. (s : ℕ) → IsTrue (is_some (row_at self.now s)) → IsTrue (has s v.items)) }
    {
        let serials = self.order.keys().copied().collect(alloc)?;
        Ok(serials)
    }

    /// The serials of the rows that time may have ended by this moment, rising.
    pub fn timed_out(&self, alloc: Global, clock: u64) -> Result<Serials, NoMemory>
        requires indexed { IsIndexed self.now }
        requires fits { clock < 2 ^ 63 }
        ensures rise { IfOk result (λ v. RiseFrom 0 v.items) }
        ensures all { IfOk result (λ v. (s : ℕ) → IsTrue (has s v.items) ↔ IsTimed self.now.timers clock s) }
    {
        let set = timed_out(alloc, &self.timers, clock)?;
        let serials = set.iter().copied().collect(alloc)?;
        Ok(serials)
    }

    /// The serials of those who watch a resource of the package with this name, rising.
    pub fn watching(&self, alloc: Global, name: &str, resource: &str) -> Result<Serials, NoMemory>
        requires { IsIndexed self.now }
        ensures rise { IfOk result (λ v. RiseFrom 0 v.items) }
        ensures all { IfOk result (λ v. (s : ℕ) → has s v.items ≡ is_watched self.now.watchers name.now resource.now s) }
    {
        let Some(set) = self.watchers.get(name, resource) else {
            return Ok(SmallVec::new(alloc));
        };
        let serials = set.iter().copied().collect(alloc)?;
        Ok(serials)
    }
}
