//! What each call makes of the book, as the list that it stands for.

ghost use Rattle.std.specs.Prelude.{◌≡◌, ◌≢◌, ◌<◌, ◌≤◌, ◌+◌, ◌-◌, ◌^◌, ℕ, false, IfSome, IsSome, ◌++◌, ◌∷◌, [], filter_map, None, option_copied, option_map, option_and_then, length, if◌then◌else◌};
ghost use Rattle.std.specs.List.{list_any};
ghost use Rattle.slab.specs.Slab.{HasRoomFor, slab_len};
ghost use Rattle.transactions.specs.declared.allowance.Allowance.{Allowance};
ghost use Rattle.transactions.specs.Timers as timers;
ghost use Rattle.transactions.specs.Machine as machine;
ghost use Rattle.transactions.specs.Stored.{at, live_list, book_state, passes, IsTimely, IsSound};

use crate::allowance::Allowance;
use crate::book::{Book, named_place};
use crate::open::{GONE, Open};
use crate::places::tag_head;
use crate::unkept::Unkept;

/// Whether as many are open as may be where one with this number is to be kept, or 2^64 - 1 were kept.
fn is_full(book: &Book, allowance: Allowance, number: u32) -> bool
    requires { IsSound book.now }
    ensures value { result ≡ machine.is_full number (book_state allowance book.now) }
    ensures room { result ≡ false → slab_len book.now.slab < allowance.all }
    ensures more { result ≡ false → book.now.kept + 1 < 2 ^ 64 }
{
    if allowance.places(number) as usize <= book.slab.len() {
        return true;
    }
    book.kept == u64::MAX
}

/// 1 where the transaction at this place has this tag, else 0.
fn count_tagged(book: &Book, place: usize, tag: &str) -> u32
    ensures one { result ≡ (if timers.is_tagged tag.now (at book.now place) then 1 else 0) }
    ensures few { result ≤ 1 }
{
    if is_tagged(book, place, tag) { 1 } else { 0 }
}

/// Whether as many with this tag are open as may be. Where so few are open at all, none is counted.
fn is_crowded(book: &Book, allowance: Allowance, tag: &str) -> bool
    requires { IsSound book.now }
    ensures { result ≡ machine.is_crowded tag.now (book_state allowance book.now) }
{
    let most = allowance.per_tag;
    if book.slab.len() < most as usize {
        return false;
    }
    let head = tag_head(book.size, tag);
    let mut node = book.tags.next_older(head);
    let mut count = 0;
    while node != head {
        if count >= most {
            return true;
        }
        count += count_tagged(book, node, tag);
        node = book.tags.next_older(node);
    }
    count >= most
}

/// Why one with this name would not be kept.
pub fn refusal(book: &Book, allowance: Allowance, tag: &str, number: u32) -> Option<Unkept>
    requires { IsSound book.now }
    ensures value { result ≡ machine.refusal (book_state allowance book.now) tag.now number }
    ensures room { result ≡ None → slab_len book.now.slab < allowance.all }
    ensures more { result ≡ None → book.now.kept + 1 < 2 ^ 64 }
    ensures none { result ≡ None → (p : ℕ) → timers.is_named tag.now number (at book.now p) ≡ false }
{
    if let Some(_place) = named_place(book, tag, number) {
        return Some(Unkept::Twice);
    }
    if is_full(book, allowance, number) {
        return Some(Unkept::Full);
    }
    if is_crowded(book, allowance, tag) {
        return Some(Unkept::Many);
    }
    None
}

/// Whether one with this name is kept, if none is open that has it.
#[tactic(auto, unfolding(crate::specs::Machine::has_room))]
pub fn has_room(book: &Book, allowance: Allowance, tag: &str, number: u32) -> bool
    requires { IsSound book.now }
    ensures { result ≡ machine.has_room (book_state allowance book.now) tag.now number }
{
    !(is_full(book, allowance, number) || is_crowded(book, allowance, tag))
}

/// One comes.
pub fn add(book: &mut Book, sent: Open)
    requires sound { IsSound book.old }
    requires room { HasRoomFor book.old.slab 1 }
    requires serial { sent.serial ≡ book.old.kept }
    requires more { book.old.kept + 1 < 2 ^ 64 }
    requires fresh { (p : ℕ) → timers.is_named sent.tag sent.number (at book.old p) ≡ false }
    requires timely { IsTimely sent }
    requires in_range { sent.first < 2 ^ 63 }
    ensures sound { IsSound book.new }
    ensures live { live_list book.new ≡ live_list book.old ++ sent ∷ [] }
    ensures kept { book.new.kept ≡ book.old.kept + 1 }
    ensures capacity { book.new.slab.capacity ≡ book.old.slab.capacity }
{
    book.put(sent);
    book.kept += 1;
}

/// An answer comes.
pub fn answer(book: &mut Book, tag: &str, number: u32, status: u16)
    requires sound { IsSound book.old }
    ensures sound { IsSound book.new }
    ensures answered { (allowance : Allowance) → book_state allowance book.new ≡ machine.answer (book_state allowance book.old) tag.now number status }
    ensures capacity { book.new.slab.capacity ≡ book.old.slab.capacity }
{
    if status == GONE {
        end_tag(book, tag);
    } else {
        answer_one(book, tag, number, status);
    }
}

/// An answer comes that speaks of one alone.
fn answer_one(book: &mut Book, tag: &str, number: u32, status: u16)
    requires sound { IsSound book.old }
    ensures sound { IsSound book.new }
    ensures live { live_list book.new ≡ filter_map (machine.wherever tag.now number (machine.answered status)) (live_list book.old) }
    ensures kept { book.new.kept ≡ book.old.kept }
    ensures capacity { book.new.slab.capacity ≡ book.old.slab.capacity }
{
    let Some(place) = named_place(book, tag, number) else {
        return;
    };
    if status >= 200 {
        book.take(place);
    } else {
        book.proceed(place);
    }
}

/// All with this tag end.
fn end_tag(book: &mut Book, tag: &str)
    requires sound { IsSound book.old }
    ensures sound { IsSound book.new }
    ensures live { live_list book.new ≡ machine.without tag.now (live_list book.old) }
    ensures kept { book.new.kept ≡ book.old.kept }
    ensures capacity { book.new.slab.capacity ≡ book.old.slab.capacity }
{
    let head = tag_head(book.size, tag);
    let mut node = book.tags.next_older(head);
    while node != head {
        let next = book.tags.next_older(node);
        end_tagged(book, node, tag);
        node = next;
    }
}

/// The transaction at a place ends, if it has this tag.
fn end_tagged(book: &mut Book, place: usize, tag: &str)
    requires sound { IsSound book.old }
    ensures sound { IsSound book.new }
    ensures ended { timers.is_tagged tag.now (at book.new place) ≡ false }
    ensures others { (p : ℕ) → p ≢ place → at book.new p ≡ at book.old p }
    ensures live { machine.without tag.now (live_list book.new) ≡ machine.without tag.now (live_list book.old) }
    ensures kept { book.new.kept ≡ book.old.kept }
    ensures size { book.new.size ≡ book.old.size }
    ensures capacity { book.new.slab.capacity ≡ book.old.slab.capacity }
{
    if is_tagged(book, place, tag) {
        book.take(place);
    }
}

/// Whether the transaction at this place has this tag.
fn is_tagged(book: &Book, place: usize, tag: &str) -> bool
    ensures { result ≡ timers.is_tagged tag.now (at book.now place) }
{
    match book.slab.get(place) {
        Some(open) => open.has_tag(tag),
        None => false,
    }
}

/// The place of the one whose alarm comes first.
pub fn soonest(book: &Book) -> Option<usize>
    requires { IsSound book.now }
    ensures soonest { option_and_then (at book.now) result ≡ machine.soonest (live_list book.now) }
    ensures some { IfSome result (λ place. IsSome (at book.now place)) }
{
    book.first()
}

/// Whether the alarm of the transaction at this place is up.
fn is_up(book: &Book, place: usize, now: u64) -> bool
    requires { IsSound book.now }
    ensures { result ≡ passes (machine.is_up now) (at book.now place) }
{
    match book.slab.get(place) {
        Some(open) => open.alarm() <= now,
        None => false,
    }
}

/// Whether the transaction at this place is given up.
fn is_over(book: &Book, place: usize, now: u64) -> bool
    requires { IsSound book.now }
    ensures { result ≡ passes (timers.is_over now) (at book.now place) }
{
    match book.slab.get(place) {
        Some(open) => open.is_over(now),
        None => false,
    }
}

/// The transaction for which time asks for something at this moment.
pub fn due(book: &Book, now: u64) -> Option<&Open>
    requires { IsSound book.now }
    ensures { option_copied result ≡ machine.due_among (live_list book.now) now }
{
    let place = soonest(book)?;
    if is_up(book, place, now) {
        book.slab.get(place)
    } else {
        None
    }
}

/// What was due is done.
pub fn turn(book: &mut Book, now: u64)
    requires sound { IsSound book.old }
    requires in_range { now < 2 ^ 63 }
    ensures sound { IsSound book.new }
    ensures fewer { IsSome (machine.due_among (live_list book.old) now) → machine.ups now (live_list book.new) < machine.ups now (live_list book.old) }
    ensures turned { (allowance : Allowance) → book_state allowance book.new ≡ machine.turn (book_state allowance book.old) now }
    ensures capacity { book.new.slab.capacity ≡ book.old.slab.capacity }
{
    let Some(place) = soonest(book) else {
        return;
    };
    if !is_up(book, place, now) {
        return;
    }
    if is_over(book, place, now) {
        book.take(place);
    } else {
        book.again(place, now);
    }
}

/// The moment at which the next is due.
pub fn next_moment(book: &Book) -> Option<u64>
    requires { IsSound book.now }
    ensures { result ≡ option_map timers.alarm (machine.soonest (live_list book.now)) }
{
    let place = soonest(book)?;
    let open = book.slab.get(place)?;
    Some(open.alarm())
}

/// How many are open.
pub fn len(book: &Book) -> usize
    requires { IsSound book.now }
    ensures { result ≡ length (live_list book.now) }
{
    book.slab.len()
}
