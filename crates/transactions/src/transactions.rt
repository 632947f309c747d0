//! The open transactions.

ghost use Rattle.std.specs.Prelude.{◌≡◌, ◌<◌, ◌^◌, IfOk, MatchResult, Some, None, IsSome, option_copied, length};
ghost use Rattle.transactions.specs.Machine as machine;

use crate::allowance::Allowance;
use crate::book::Book;
use crate::open::Open;
use crate::steps;
use crate::unkept::Unkept;
use sip_text::{Addr, NoMemory, Octets, Text};
use std::alloc::Global;
use std::marker::Model;

/// The NOTIFYs that were sent over UDP and weren't answered finally, each a client transaction (RFC 3261 section 17.1.2; the
/// crate's root draws its states). Moments are milliseconds of one clock.
///
/// At each moment the caller takes what is due, one after another:
///
/// ```text
///   while let Some(open) = transactions.due(now) {
///       if open.is_over(now) { /* log that it is given up */ } else { /* send open.bytes to open.to */ }
///       transactions.turn(now);
///   }
/// ```
///
/// No call's time grows with what is open, but for the logarithm of what may be. That of a NOTIFY that comes and that of a 481 grow
/// with what its tag has open.
#[derive(Drop)]
pub struct Transactions {
    allowance: Allowance,
    book: Book,
}

impl Model for Transactions {
    ghost use Rattle.std.specs.Prelude.{◌≤◌};
    ghost use Rattle.transactions.specs.Machine.{State};

    ghost Value = { State };

    ghost use Rattle.transactions.specs.Stored.{book_state, IsSound};

    ghost view = { λ t. book_state t.allowance t.book };

    ghost invariant = { λ t. IsSound t.book × (t.allowance.all ≤ t.book.slab.capacity) };
}

impl Transactions {
    /// None is open, and so many may be. All memory is taken here. An `Err` says that an allocation failed.
    pub fn new(alloc: Global, allowance: Allowance) -> Result<Transactions, NoMemory>
        ensures { IfOk result (λ t. t ≡ machine.empty allowance) }
    {
        let book = Book::new(alloc, allowance.all)?;
        Ok(Transactions { allowance, book })
    }

    /// A NOTIFY was sent for the first time at this moment, from a dialog with this local tag, with this number in its CSeq. It is
    /// sent again until it is answered. An `Err` says why it isn't, and nothing changes then.
    pub fn keep(
        &mut self,
        now: u64,
        tag: Text,
        number: u32,
        to: Addr,
        bytes: Octets,
    ) -> Result<(), Unkept>
        requires in_range { now < 2 ^ 63 }
        ensures refused { MatchResult result (λ _. machine.refusal self.old tag number ≡ None)
            (λ why. machine.refusal self.old tag number ≡ Some why) }
        ensures kept { self.new ≡ machine.keep self.old now tag number to bytes }
    {
        if let Some(why) = steps::refusal(&self.book, self.allowance, tag.as_str(), number) {
            return Err(why);
        }
        let serial = self.book.kept;
        let sent = Open::sent(serial, now, tag, number, to, bytes);
        steps::add(&mut self.book, sent);
        Ok(())
    }

    /// Whether one with this tag and this number is kept, if none is open that has both.
    pub fn has_room(&self, tag: &str, number: u32) -> bool
        ensures { result ≡ machine.has_room self.now tag.now number }
    {
        steps::has_room(&self.book, self.allowance, tag, number)
    }

    /// How many may be open where one with this number is to be kept ([`Allowance::places`]).
    pub fn places(&self, number: u32) -> u32
        ensures { result ≡ machine.places self.now.allowance number }
    {
        self.allowance.places(number)
    }

    /// An answer with this status came to the NOTIFY with this tag and this number. A provisional one sets timer E to T2, a final
    /// one ends the transaction (RFC 3261 section 17.1.2.2), and a 481 ends all that have the tag, whatever their numbers (RFC 6665
    /// section 4.2.2, RFC 3261 section 12.2.1.2). One to none that is open changes nothing.
    pub fn answer(&mut self, tag: &str, number: u32, status: u16)
        ensures { self.new ≡ machine.answer self.old tag.now number status }
    {
        steps::answer(&mut self.book, tag, number, status);
    }

    /// The transaction that is due at this moment: its NOTIFY is to be sent again, or, where it [`Open::is_over`], it is given up.
    /// When that is done, say so by [`Transactions::turn`]. Of several the one whose timer fired first comes first.
    pub fn due(&self, now: u64) -> Option<&Open>
        ensures { option_copied result ≡ machine.due self.now now }
    {
        steps::due(&self.book, now)
    }

    /// What was due at this moment is done: its timer E is set anew, or it is given up. Fewer are due at this moment then.
    pub fn turn(&mut self, now: u64)
        requires { now < 2 ^ 63 }
        ensures turned { self.new ≡ machine.turn self.old now }
        ensures fewer { IsSome (machine.due self.old now) → machine.ups now self.new.live < machine.ups now self.old.live }
    {
        steps::turn(&mut self.book, now);
    }

    /// The moment at which the next is due, if one is open.
    pub fn next_moment(&self) -> Option<u64>
        ensures { result ≡ machine.next_moment self.now }
    {
        steps::next_moment(&self.book)
    }

    /// How many are open.
    pub fn len(&self) -> usize
        ensures { result ≡ length self.now.live }
    {
        steps::len(&self.book)
    }
}
