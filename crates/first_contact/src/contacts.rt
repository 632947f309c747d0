//! What calls make of what is known of all dialogs, by their local tags.
ghost use Rattle.std.specs.Prelude.{◌≡◌, ◌⊎◌, ◌≤◌, ◌<◌, ◌+◌, ◌-◌, ℕ, List, [], None, Some, true, false, length, bytes_eq, option_map, if◌then◌else◌, IfOk, OnOk, OnErr, MatchResult};
ghost use Rattle.std.specs.HashMap.{get_by_text, hash_map_len};
ghost use Rattle.first_contact.specs.Steps as steps;
ghost use Rattle.first_contact.specs.Outcomes.{IsOffered, IsLetOn, IsHeard, IsPassed, IsAnswer, counted, known_then};
ghost use Rattle.first_contact.specs.Tables.{IsStepped, IsSame, at, many, room};

use crate::contact::{Contact, FINAL, GONE, Heard, Notice, Offered, Passed, Room, is_same_addr};
use crate::table::Contacts;
use sip_text::{Addr, NoMemory};
use std::alloc::Global;
use std::collections::HashMap;

type Known = HashMap<String, Contact>;

/// Whether the latest NOTIFY of the dialog with this tag went to this address.
#[tactic(auto, using(std::proofs::lemmas::Map::Text::text_keys))]
fn is_there(known: &Known, tag: &str, to: Addr) -> bool
    ensures { result ≡ steps.is_there to (option_map steps.seen (get_by_text known.now tag.now)) }
{
    match known.get(tag) {
        Some(contact) => is_same_addr(contact.to, to),
        None => false,
    }
}

/// What is known of the dialog with this tag is taken out.
#[tactic(auto, using(std::proofs::lemmas::Map::Text::text_keys))]
fn take(known: &mut Known, tag: &str) -> Option<Contact>
    ensures value { result ≡ get_by_text known.old tag.now }
    ensures at { (t : List ℕ) → get_by_text known.new t ≡ (if bytes_eq tag.now t then None else get_by_text known.old t) }
    ensures len { hash_map_len known.new ≤ hash_map_len known.old }
{
    known.remove(tag)
}

/// A final answer from this address came to the NOTIFY with this tag and this number. What it makes of the dialog.
#[tactic(auto, using(std::proofs::lemmas::Map::Text::text_keys))]
fn hear(known: &mut Known, alloc: Global, tag: &str, number: u32, source: Addr) -> Heard
    ensures heard { IsHeard number source (option_map steps.seen (get_by_text known.old tag.now)) result }
    ensures at { (t : List ℕ) → option_map steps.seen (get_by_text known.new t)
        ≡ (if bytes_eq tag.now t then known_then result (option_map steps.seen (get_by_text known.old tag.now))
        else option_map steps.seen (get_by_text known.old t)) }
    ensures len { hash_map_len known.new ≡ hash_map_len known.old }
{
    match known.get_mut(tag) {
        Some(contact) => contact.hear(alloc, number, source),
        None => Heard::Nothing,
    }
}

/// Another address than that of the dialog with this tag has answered. The next one that waits, if one does, which is under way then. An
/// `Err` says that an allocation failed: nothing changes.
#[tactic(auto, using(std::proofs::lemmas::Map::Text::text_keys))]
fn pass_on_one(known: &mut Known, alloc: Global, tag: &str) -> Result<Vec<Notice>, NoMemory>
    ensures next { IfOk result (λ next. next.items ≡ (steps.passed (option_map steps.seen (get_by_text known.old tag.now))).through) }
    ensures at { OnOk result ((t : List ℕ) → option_map steps.seen (get_by_text known.new t)
        ≡ (if bytes_eq tag.now t then option_map steps.moved_on (option_map steps.seen (get_by_text known.old tag.now))
        else option_map steps.seen (get_by_text known.old t))) }
    ensures same { OnErr result ((t : List ℕ) → option_map steps.seen (get_by_text known.new t)
        ≡ option_map steps.seen (get_by_text known.old t)) }
    ensures len { hash_map_len known.new ≡ hash_map_len known.old }
{
    match known.get_mut(tag) {
        Some(contact) => contact.pass_on(alloc),
        None => Ok(Vec::new(alloc)),
    }
}

/// A further NOTIFY of the dialog with this tag goes to this address. Whether it is let through at once: else nothing changes.
#[tactic(auto, using(std::proofs::lemmas::Map::Text::text_keys))]
fn go_on(known: &mut Known, tag: &str, to: Addr, is_last: bool) -> bool
    ensures goes { result ≡ steps.goes_at_once to (option_map steps.seen (get_by_text known.old tag.now)) }
    ensures at { (t : List ℕ) → option_map steps.seen (get_by_text known.new t)
        ≡ (if bytes_eq tag.now t then steps.gone_on result is_last (option_map steps.seen (get_by_text known.old tag.now))
        else option_map steps.seen (get_by_text known.old t)) }
    ensures len { hash_map_len known.new ≡ hash_map_len known.old }
{
    match known.get_mut(tag) {
        Some(contact) => contact.go_on(to, is_last),
        None => false,
    }
}

/// A further NOTIFY of its dialog is offered, to the address of the latest. An `Err` says that an allocation failed: it is
/// dropped, and nothing changes.
#[tactic(auto, using(std::proofs::lemmas::Map::Text::text_keys))]
fn offer_more(known: &mut Known, room: Room, notice: Notice) -> Result<Offered, NoMemory>
    requires there { steps.is_there notice.to (option_map steps.seen (get_by_text known.old (steps.tag_in notice.out))) ≡ true }
    ensures offered { IfOk result (IsOffered (steps.offered room notice (option_map steps.seen (get_by_text known.old (steps.tag_in notice.out))))) }
    ensures at { OnOk result ((t : List ℕ) → option_map steps.seen (get_by_text known.new t)
        ≡ (if bytes_eq (steps.tag_in notice.out) t then (steps.offered room notice (option_map steps.seen (get_by_text known.old (steps.tag_in notice.out)))).contact
        else option_map steps.seen (get_by_text known.old t))) }
    ensures same { OnErr result ((t : List ℕ) → option_map steps.seen (get_by_text known.new t)
        ≡ option_map steps.seen (get_by_text known.old t)) }
    ensures len { hash_map_len known.new ≡ hash_map_len known.old }
{
    match known.get_mut(notice.tag()) {
        Some(contact) => contact.offer(room, notice),
        None => unreachable!(),
    }
}

impl Contacts {
    /// Nothing is known. So many dialogs may be known, and so many NOTIFYs may wait.
    pub fn new(alloc: Global, limit: u32, places: u32) -> Contacts
        ensures limit { result.limit ≡ limit }
        ensures places { result.places ≡ places }
        ensures unknown { (t : List ℕ) → at result t ≡ None }
        ensures none_waits { result.waiting ≡ 0 }
    {
        Contacts {
            alloc,
            limit,
            places,
            waiting: 0,
            known: HashMap::new(alloc),
        }
    }

    /// How many NOTIFYs may wait.
    pub fn places(&self) -> u32
        ensures { result ≡ self.now.places }
    {
        self.places
    }

    /// How many NOTIFYs wait.
    pub fn waiting(&self) -> usize
        ensures { result ≡ self.now.waiting }
    {
        self.waiting as usize
    }

    /// The room that there is, where a dialog may begin or not.
    fn room(&self, may_begin: bool) -> Room
        ensures { result ≡ room may_begin self.now }
    {
        Room {
            begins: may_begin && self.known.len() < self.limit as usize,
            first_waits: self.waiting < self.places,
            more_wait: self.waiting < self.places - self.places / 2,
        }
    }

    /// So many fewer wait.
    fn count_off(&mut self, gone: usize)
        ensures waiting { self.new.waiting ≡ self.old.waiting - gone }
        ensures limit { self.new.limit ≡ self.old.limit }
        ensures places { self.new.places ≡ self.old.places }
        ensures known { self.new.known ≡ self.old.known }
    {
        let left = (self.waiting as usize).saturating_sub(gone);
        self.waiting = left as u32;
    }

    /// What became of one that was offered counts.
    fn count(&mut self, offered: &Offered)
        requires room { offered.now ≡ Offered.Waits → self.old.waiting < self.old.places }
        ensures waiting { self.new.waiting ≡ counted offered.now self.old.waiting }
        ensures limit { self.new.limit ≡ self.old.limit }
        ensures places { self.new.places ≡ self.old.places }
        ensures known { self.new.known ≡ self.old.known }
    {
        match offered {
            Offered::Through { lost, .. } => self.count_off(*lost),
            Offered::Waits => self.waiting += 1,
            Offered::Lost => {}
        }
    }

    /// A NOTIFY is offered that goes where the latest one of its dialog went.
    fn offer_there(&mut self, room: Room, notice: Notice) -> Result<Offered, NoMemory>
        requires there { steps.is_there notice.to (at self.old (steps.tag_in notice.out)) ≡ true }
        requires first { room.first_waits ≡ true → self.old.waiting < self.old.places }
        requires more { room.more_wait ≡ true → self.old.waiting < self.old.places }
        ensures offered { MatchResult result
            (λ o. IsStepped self.old self.new (steps.tag_in notice.out) (steps.offered room notice (at self.old (steps.tag_in notice.out))))
            (λ _. IsSame self.old self.new) }
        ensures outcome { IfOk result (IsOffered (steps.offered room notice (at self.old (steps.tag_in notice.out)))) }
    {
        let offered = offer_more(&mut self.known, room, notice)?;
        self.count(&offered);
        Ok(offered)
    }

    /// The dialog with this tag is gone. What waited.
    fn end(&mut self, tag: &str) -> Vec<Notice>
        ensures at_tag { (t : List ℕ) → at self.new t ≡ (if bytes_eq tag.now t then None else at self.old t) }
        ensures waited { result.items ≡ steps.waiting (at self.old tag.now) }
        ensures count { self.new.waiting ≡ self.old.waiting - length (steps.waiting (at self.old tag.now)) }
        ensures limit { self.new.limit ≡ self.old.limit }
        ensures places { self.new.places ≡ self.old.places }
    {
        match take(&mut self.known, tag) {
            Some(contact) => {
                let held = contact.into_held();
                self.count_off(held.len());
                held
            }
            None => Vec::new(self.alloc),
        }
    }

    /// A dialog begins with this NOTIFY, or goes on to another address with it. How many are dropped that waited.
    #[tactic(auto, using(std::proofs::lemmas::Map::Text::text_keys))]
    fn begin(&mut self, notice: &Notice) -> Result<usize, NoMemory>
        requires room { many self.old < self.old.limit }
        ensures begun { MatchResult result
            (λ n. IsStepped self.old self.new (steps.tag_in notice.now.out)
            (steps.begins_anew notice.now (at self.old (steps.tag_in notice.now.out))))
            (λ _. IsSame self.old self.new) }
        ensures lost { IfOk result (λ n. n ≡ length (steps.waiting (at self.old (steps.tag_in notice.now.out)))) }
    {
        let tag = String::from_str(self.alloc, notice.tag())?;
        let contact = Contact::begun(self.alloc, notice);
        let lost = match self.known.insert(tag, contact)? {
            Some(before) => before.into_held().len(),
            None => 0,
        };
        self.count_off(lost);
        Ok(lost)
    }

    /// A NOTIFY goes to an address of which nothing is known, and nothing will be known. How many are dropped that waited.
    fn forget(&mut self, notice: &Notice) -> usize
        ensures once { IsStepped self.old self.new (steps.tag_in notice.now.out)
            (steps.goes_once notice.now (at self.old (steps.tag_in notice.now.out))) }
        ensures lost { result ≡ length (steps.waiting (at self.old (steps.tag_in notice.now.out))) }
    {
        self.end(notice.tag()).len()
    }

    /// A NOTIFY of the dialog with this tag goes to this address, behind which none follows, or more do. True where it is let through at once,
    /// as by [`Contacts::offer`]: the address has answered one of the dialog, and none waits for that. Else nothing changes, and it is to be
    /// offered. So most NOTIFYs are looked for once, and none of these is moved.
    pub fn go_on(&mut self, tag: &str, to: Addr, is_last: bool) -> bool
        ensures let_on { result ≡ true → IsLetOn self.old self.new tag.now to is_last }
        ensures same { result ≡ false → IsSame self.old self.new }
        ensures at_once { result ≡ steps.goes_at_once to (at self.old tag.now) }
    {
        go_on(&mut self.known, tag, to, is_last)
    }

    /// A NOTIFY is offered; `may_begin` says whether the answer to a first one will be told, or its giving up. Where it won't be, or
    /// where of too many dialogs something is known, a first one is let through and nothing is known of its address then. An `Err` says that
    /// an allocation failed: it is dropped, and nothing changes.
    pub fn offer(&mut self, may_begin: bool, notice: Notice) -> Result<Offered, NoMemory>
        ensures offered { MatchResult result
            (λ o. IsStepped self.old self.new (steps.tag_in notice.out) (steps.offered (room may_begin self.old) notice (at self.old (steps.tag_in notice.out))))
            (λ _. IsSame self.old self.new) }
        ensures outcome { IfOk result (IsOffered (steps.offered (room may_begin self.old) notice (at self.old (steps.tag_in notice.out)))) }
        ensures bounded { many self.new ≤ self.new.limit }
        ensures few { self.new.waiting ≤ self.new.places }
    {
        let room = self.room(may_begin);
        if is_there(&self.known, notice.tag(), notice.to) {
            return self.offer_there(room, notice);
        }
        // An address of which nothing is known.
        if !room.begins {
            let lost = self.forget(&notice);
            return Ok(Offered::Through { notice, lost });
        }
        let lost = self.begin(&notice)?;
        Ok(Offered::Through { notice, lost })
    }

    /// An answer with this status came from this address to the NOTIFY with this tag and this number. Where it lets the next one through that
    /// waits, and an allocation failed, all that wait are dropped.
    pub fn answer(&mut self, tag: &str, number: u32, status: u16, source: Addr) -> Passed
        ensures { IsAnswer self.old self.new tag.now number status source result }
    {
        if status < FINAL {
            return self.none();
        }
        if status == GONE {
            return self.drop_held(tag);
        }
        match hear(&mut self.known, self.alloc, tag, number, source) {
            Heard::Nothing => self.none(),
            Heard::Opened(through) => {
                self.count_off(through.len());
                Passed { through, lost: 0 }
            }
            Heard::Ends => Passed {
                through: self.end(tag),
                lost: 0,
            },
            Heard::Elsewhere => self.pass_on(tag),
        }
    }

    /// The NOTIFY with this tag and this number is given up: how many are dropped that waited for its answer.
    pub fn give_up(&mut self, tag: &str, number: u32) -> usize
        ensures given_up { IsStepped self.old self.new tag.now (steps.given_up number (at self.old tag.now)) }
        ensures lost { result ≡ length (steps.given_up number (at self.old tag.now)).lost }
    {
        if self.is_told(tag, number) {
            self.end(tag).len()
        } else {
            0
        }
    }

    /// The dialog with this tag is over, since its subscription is gone: how many are dropped that waited.
    pub fn close(&mut self, tag: &str) -> usize
        ensures closed { IsStepped self.old self.new tag.now (steps.ended (at self.old tag.now)) }
        ensures lost { result ≡ length (steps.waiting (at self.old tag.now)) }
    {
        let dropped = self.end(tag);
        dropped.len()
    }

    /// Whether what became of the NOTIFY with this tag and this number tells of the one under way, or of a known address.
    fn is_told(&self, tag: &str, number: u32) -> bool
        ensures { result ≡ steps.is_told number (at self.now tag.now) }
    {
        match self.known.get(tag) {
            Some(contact) => contact.is_told_by(number),
            None => false,
        }
    }

    /// Nothing is let through, and nothing dropped.
    fn none(&self) -> Passed
        ensures through { result.through.items ≡ [] }
        ensures lost { result.lost ≡ 0 }
    {
        Passed {
            through: Vec::new(self.alloc),
            lost: 0,
        }
    }

    /// The dialog with this tag is gone, and what waited is dropped.
    fn drop_held(&mut self, tag: &str) -> Passed
        ensures ended { IsStepped self.old self.new tag.now (steps.ended (at self.old tag.now)) }
        ensures through { result.through.items ≡ [] }
        ensures lost { result.lost ≡ length (steps.waiting (at self.old tag.now)) }
    {
        let lost = self.end(tag);
        Passed {
            through: Vec::new(self.alloc),
            lost: lost.len(),
        }
    }

    /// Another address than that of the dialog with this tag has answered. The next one that waits is let through alone. Where none
    /// waits nothing is known any more, nor where an allocation failed.
    fn pass_on(&mut self, tag: &str) -> Passed
        ensures { IsPassed self.old self.new tag.now (steps.passed (at self.old tag.now)) result
            ⊎ IsPassed self.old self.new tag.now (steps.ended (at self.old tag.now)) result }
    {
        let through = match pass_on_one(&mut self.known, self.alloc, tag) {
            Ok(through) => through,
            Err(NoMemory) => return self.drop_held(tag),
        };
        if !through.is_empty() {
            self.count_off(through.len());
            return Passed { through, lost: 0 };
        }
        self.drop_held(tag)
    }
}
