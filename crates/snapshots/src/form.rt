//! What stands at the front of bytes.
ghost use Rattle.std.specs.Prelude.{◌≡◌, ◌++◌, ℕ, List, Option, option_map, OnOk};
ghost use Rattle.std.specs.List.{flat_map, AllByRecursion};
ghost use Rattle.sip_text.specs.Addresses.{IsAddr};
ghost use Rattle.sip_text.specs.Bytes.{Finds, Gives};
ghost use Rattle.snapshots.specs.Forms.{IsNumber, IsCount, IsShort, IsText, IsOption, AreAll, number_text, bytes_text, address_text, option_text, list_text, number_at, count_at, short_at, taken_at, bytes_at, text_at, address_at, option_at, both_at, times_at, list_at};

use itoa::Buffer;
use sip_text::{Addr, NoMemory, Text, Values, count_of, cut_at, plain_number, short_of, text_of};
use std::alloc::Global;

/// A number below 2^64, and what follows.
#[tactic(auto, unfolding(crate::specs::Forms::number_at))]
fn cut_number(bytes: &[u8]) -> Option<(u64, &[u8])>
    ensures { Finds (λ x. (x.0, x.1.now)) result (number_at bytes.now) }
{
    let (word, rest) = cut_at(b' ', bytes)?;
    Some((plain_number(word)?, rest))
}

/// A number below 2^32, and what follows.
#[tactic(auto, unfolding(crate::specs::Forms::count_at))]
fn cut_count(bytes: &[u8]) -> Option<(u32, &[u8])>
    ensures { Finds (λ x. (x.0, x.1.now)) result (count_at bytes.now) }
{
    let (word, rest) = cut_at(b' ', bytes)?;
    Some((count_of(word)?, rest))
}

/// A number below 2^16, and what follows.
#[tactic(auto, unfolding(crate::specs::Forms::short_at))]
fn cut_short(bytes: &[u8]) -> Option<(u16, &[u8])>
    ensures { Finds (λ x. (x.0, x.1.now)) result (short_at bytes.now) }
{
    let (word, rest) = cut_at(b' ', bytes)?;
    Some((short_of(word)?, rest))
}

/// So many bytes, and what follows.
#[tactic(auto, unfolding(crate::specs::Forms::taken_at))]
fn cut_taken(count: u64, bytes: &[u8]) -> Option<(&[u8], &[u8])>
    ensures { Finds (λ x. (x.0.now, x.1.now)) result (taken_at count bytes.now) }
{
    if (bytes.len() as u64) < count {
        return None;
    }
    Some(bytes.split_at(count as usize))
}

/// Bytes behind their number, and what follows.
#[tactic(auto, unfolding(crate::specs::Forms::bytes_at))]
pub fn cut_bytes(bytes: &[u8]) -> Option<(&[u8], &[u8])>
    ensures { Finds (λ x. (x.0.now, x.1.now)) result (bytes_at bytes.now) }
{
    let (count, rest) = cut_number(bytes)?;
    cut_taken(count, rest)
}

/// A text behind its length, and what follows.
#[tactic(auto, unfolding(crate::specs::Forms::text_at))]
fn cut_text(bytes: &[u8]) -> Option<(&str, &[u8])>
    ensures { Finds (λ x. (x.0.now, x.1.now)) result (text_at bytes.now) }
{
    let (text, rest) = cut_bytes(bytes)?;
    Some((text_of(text)?, rest))
}

/// An address, and what follows.
#[tactic(auto, unfolding(crate::specs::Forms::address_at))]
fn cut_address(bytes: &[u8]) -> Option<(Addr, &[u8])>
    ensures { Finds (λ x. (x.0, x.1.now)) result (address_at bytes.now) }
{
    let (word, rest) = cut_at(b' ', bytes)?;
    Some((Addr::of(word)?, rest))
}

/// Appends a number.
fn put_number(number: u64, out: &mut Vec<u8>) -> Result<(), NoMemory>
    ensures { OnOk result (out.new.items ≡ out.old.items ++ number_text number) }
{
    let mut buffer = Buffer::new();
    out.extend_from_slice(buffer.format(number).as_bytes())?;
    out.push(b' ')?;
    Ok(())
}

/// Appends bytes behind their number.
pub fn put_bytes(bytes: &[u8], out: &mut Vec<u8>) -> Result<(), NoMemory>
    ensures { OnOk result (out.new.items ≡ out.old.items ++ bytes_text bytes.now) }
{
    put_number(bytes.len() as u64, out)?;
    out.extend_from_slice(bytes)?;
    Ok(())
}

/// Appends a text that may be absent.
pub fn put_option(text: Option<&str>, out: &mut Vec<u8>) -> Result<(), NoMemory>
    ensures { OnOk result (out.new.items ≡ out.old.items ++ option_text (option_map (λ t. t.now) text.entry)) }
{
    match text {
        None => {
            out.push(b'-')?;
            Ok(())
        }
        Some(text) => {
            out.push(b'+')?;
            put_bytes(text.as_bytes(), out)
        }
    }
}

/// What is written behind bytes, and read at the front of bytes.
pub trait Form: Drop {
    /// What is written.
    ghost text: { Self → List ℕ };

    /// What stands at the front, and what follows.
    ghost at: { List ℕ → Option (Self × List ℕ) };

    /// What its type tells of each value. So it is read again; of a range of Accept (RFC 3261 section 20.1) that takes a test more,
    /// [`crate::event::is_sound`].
    ghost Fits: { Self → Type 0 };

    /// Tells a proof what its type tells of it. It does nothing that matters.
    fn fits(&self)
        ensures { Fits self.now };

    /// Appends it. After an error a part of it may stand there.
    fn put(&self, alloc: Global, out: &mut Vec<u8>) -> Result<(), NoMemory>
        ensures { OnOk result (out.new.items ≡ out.old.items ++ text self.now) };

    /// What stands at the front, and what follows.
    fn cut(alloc: Global, bytes: &[u8]) -> Result<Option<(Self, &[u8])>, NoMemory>
        ensures { Gives (λ x. (x.0, x.1.now)) result (at bytes.now) };
}

impl Form for u16 {
    ghost text = { number_text };

    ghost at = { short_at };

    ghost Fits = { IsShort };

    fn fits(&self) {
        let _short = *self;
    }

    fn put(&self, _alloc: Global, out: &mut Vec<u8>) -> Result<(), NoMemory> {
        put_number(u64::from(*self), out)
    }

    fn cut(_alloc: Global, bytes: &[u8]) -> Result<Option<(u16, &[u8])>, NoMemory> {
        Ok(cut_short(bytes))
    }
}

impl Form for u32 {
    ghost text = { number_text };

    ghost at = { count_at };

    ghost Fits = { IsCount };

    fn fits(&self) {
        let _count = *self;
    }

    fn put(&self, _alloc: Global, out: &mut Vec<u8>) -> Result<(), NoMemory> {
        put_number(u64::from(*self), out)
    }

    fn cut(_alloc: Global, bytes: &[u8]) -> Result<Option<(u32, &[u8])>, NoMemory> {
        Ok(cut_count(bytes))
    }
}

impl Form for u64 {
    ghost text = { number_text };

    ghost at = { number_at };

    ghost Fits = { IsNumber };

    fn fits(&self) {
        let _number = *self;
    }

    fn put(&self, _alloc: Global, out: &mut Vec<u8>) -> Result<(), NoMemory> {
        put_number(*self, out)
    }

    fn cut(_alloc: Global, bytes: &[u8]) -> Result<Option<(u64, &[u8])>, NoMemory> {
        Ok(cut_number(bytes))
    }
}

impl Form for Addr {
    ghost text = { address_text };

    ghost at = { address_at };

    ghost Fits = { IsAddr };

    fn fits(&self) {
        let [_a, _b, _c, _d] = self.ip;
        let _port = self.port;
    }

    fn put(&self, alloc: Global, out: &mut Vec<u8>) -> Result<(), NoMemory> {
        let text = self.text(alloc)?;
        out.extend_from_slice(text.as_bytes())?;
        out.push(b' ')?;
        Ok(())
    }

    fn cut(_alloc: Global, bytes: &[u8]) -> Result<Option<(Addr, &[u8])>, NoMemory> {
        Ok(cut_address(bytes))
    }
}

impl Form for Text {
    ghost text = { bytes_text };

    ghost at = { text_at };

    ghost Fits = { IsText };

    fn fits(&self) {
        let text = self.as_str();
        let _length = text.len();
    }

    fn put(&self, _alloc: Global, out: &mut Vec<u8>) -> Result<(), NoMemory> {
        put_bytes(self.as_str().as_bytes(), out)
    }

    fn cut(alloc: Global, bytes: &[u8]) -> Result<Option<(Text, &[u8])>, NoMemory> {
        let Some((text, rest)) = cut_text(bytes) else {
            return Ok(None);
        };
        let text = Text::of(alloc, text)?;
        Ok(Some((text, rest)))
    }
}

impl Form for Option<Text> {
    ghost text = { option_text };

    ghost at = { option_at };

    ghost Fits = { IsOption };

    fn fits(&self) {
        if let Some(text) = self {
            text.fits();
        }
    }

    fn put(&self, _alloc: Global, out: &mut Vec<u8>) -> Result<(), NoMemory> {
        match self {
            None => put_option(None, out),
            Some(text) => put_option(Some(text.as_str()), out),
        }
    }

    #[tactic(auto, unfolding(crate::specs::Forms::option_at))]
    fn cut(alloc: Global, bytes: &[u8]) -> Result<Option<(Option<Text>, &[u8])>, NoMemory> {
        let Some((mark, rest)) = bytes.split_first() else {
            return Ok(None);
        };
        if *mark == b'-' {
            return Ok(Some((None, rest)));
        }
        if *mark != b'+' {
            return Ok(None);
        }
        let Some((text, rest)) = cut_text(rest) else {
            return Ok(None);
        };
        let text = Text::of(alloc, text)?;
        Ok(Some((Some(text), rest)))
    }
}

impl<A: Form, B: Form> Form for (A, B) {
    ghost text = { λ p. A.text p.0 ++ B.text p.1 };

    ghost at = { both_at A.at B.at };

    ghost Fits = { λ p. A.Fits p.0 × B.Fits p.1 };

    fn fits(&self) {
        self.0.fits();
        self.1.fits();
    }

    fn put(&self, alloc: Global, out: &mut Vec<u8>) -> Result<(), NoMemory> {
        self.0.put(alloc, out)?;
        self.1.put(alloc, out)
    }

    fn cut(alloc: Global, bytes: &[u8]) -> Result<Option<((A, B), &[u8])>, NoMemory> {
        let Some((first, rest)) = A::cut(alloc, bytes)? else {
            return Ok(None);
        };
        let Some((second, rest)) = B::cut(alloc, rest)? else {
            return Ok(None);
        };
        Ok(Some(((first, second), rest)))
    }
}

/// So many elements, and what follows.
fn cut_times<T: Form>(
    alloc: Global,
    count: u64,
    bytes: &[u8],
) -> Result<Option<(Vec<T>, &[u8])>, NoMemory>
    ensures { Gives (λ x. (x.0.items, x.1.now)) result (times_at T.at count bytes.now) }
{
    let mut elements = Vec::new(alloc);
    let mut rest = bytes;
    for _element in 0..count {
        let Some((element, after)) = T::cut(alloc, rest)? else {
            return Ok(None);
        };
        elements.push(element)?;
        rest = after;
    }
    Ok(Some((elements, rest)))
}

/// Appends elements, one behind the other.
fn put_each<T: Form>(alloc: Global, elements: &[T], out: &mut Vec<u8>) -> Result<(), NoMemory>
    ensures { OnOk result (out.new.items ≡ out.old.items ++ flat_map T.text elements.now) }
{
    for element in elements {
        element.put(alloc, out)?;
    }
    Ok(())
}

/// Each of these elements is read again.
fn each_fits<T: Form>(elements: &[T])
    ensures { AllByRecursion T.Fits elements.now }
{
    for element in elements {
        element.fits();
    }
}

impl<T: Form> Form for Values<T> {
    ghost text = { list_text T.text };

    ghost at = { list_at T.at };

    ghost Fits = { AreAll T.Fits };

    fn fits(&self) {
        let elements = self.as_slice();
        let _length = elements.len();
        each_fits(elements);
    }

    fn put(&self, alloc: Global, out: &mut Vec<u8>) -> Result<(), NoMemory> {
        let elements = self.as_slice();
        put_number(elements.len() as u64, out)?;
        put_each(alloc, elements, out)
    }

    #[tactic(auto, unfolding(crate::specs::Forms::list_at))]
    fn cut(alloc: Global, bytes: &[u8]) -> Result<Option<(Values<T>, &[u8])>, NoMemory> {
        let Some((count, rest)) = cut_number(bytes) else {
            return Ok(None);
        };
        let Some((elements, rest)) = cut_times(alloc, count, rest)? else {
            return Ok(None);
        };
        Ok(Some((Values::new(elements), rest)))
    }
}
