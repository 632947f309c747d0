//! Headers that may stand once, and ranges of Accept, written and read.
ghost use Rattle.std.specs.Prelude.{◌≡◌};
ghost use Rattle.std.specs.List.{list_all};
ghost use Rattle.sip_text.specs.Tokens.{is_small_token};
ghost use Rattle.snapshots.specs.Fields.{field_text, field_at, FieldFits, range_text, range_of, range_at, is_range, RangeFits, is_accept};

use crate::form::{Form, put_bytes};
use event_headers::Range;
use sip_text::{Class, Field, NoMemory, Text, Values, all_in};
use std::alloc::Global;

impl<T: Form> Form for Field<T> {
    ghost text = { field_text T.text };

    ghost at = { field_at T.at };

    ghost Fits = { FieldFits T.Fits };

    fn fits(&self) {
        if let Field::Value(value) = self {
            value.fits();
        }
    }

    fn put(&self, alloc: Global, out: &mut Vec<u8>) -> Result<(), NoMemory> {
        match self {
            Field::Absent => {
                out.push(b'-')?;
                Ok(())
            }
            Field::Bad => {
                out.push(b'!')?;
                Ok(())
            }
            Field::Value(value) => {
                out.push(b'+')?;
                value.put(alloc, out)
            }
        }
    }

    #[tactic(auto, unfolding(crate::specs::Fields::field_at))]
    fn cut(alloc: Global, bytes: &[u8]) -> Result<Option<(Field<T>, &[u8])>, NoMemory> {
        let Some((mark, rest)) = bytes.split_first() else {
            return Ok(None);
        };
        if *mark == b'-' {
            return Ok(Some((Field::Absent, rest)));
        }
        if *mark == b'!' {
            return Ok(Some((Field::Bad, rest)));
        }
        if *mark != b'+' {
            return Ok(None);
        }
        let Some((value, rest)) = T::cut(alloc, rest)? else {
            return Ok(None);
        };
        Ok(Some((Field::Value(value), rest)))
    }
}

/// The range of these texts, where both are tokens in small letters.
fn made_range(main: Text, sub: Text) -> Option<Range>
    ensures { result ≡ range_of (main, sub) }
{
    let main_word = main.into_string();
    let sub_word = sub.into_string();
    Range::new(main_word, sub_word)
}

impl Form for Range {
    ghost text = { range_text };

    ghost at = { range_at };

    ghost Fits = { RangeFits };

    fn fits(&self) {
        let main = self.main();
        let _length = main.len();
        let sub = self.sub();
        let _length = sub.len();
    }

    fn put(&self, _alloc: Global, out: &mut Vec<u8>) -> Result<(), NoMemory> {
        put_bytes(self.main().as_bytes(), out)?;
        put_bytes(self.sub().as_bytes(), out)
    }

    #[tactic(auto, unfolding(crate::specs::Fields::range_at))]
    fn cut(alloc: Global, bytes: &[u8]) -> Result<Option<(Range, &[u8])>, NoMemory> {
        let Some((parts, rest)) = <(Text, Text)>::cut(alloc, bytes)? else {
            return Ok(None);
        };
        let (main, sub) = parts;
        let Some(range) = made_range(main, sub) else {
            return Ok(None);
        };
        Ok(Some((range, rest)))
    }
}

/// Whether both texts of a range are tokens in small letters.
fn is_sound(range: &Range) -> bool
    ensures { result ≡ is_range range.now }
{
    is_small_token(range.main()) && is_small_token(range.sub())
}

/// Whether a text is a token in small letters.
fn is_small_token(text: &str) -> bool
    ensures { result ≡ is_small_token text.now }
{
    let bytes = text.as_bytes();
    !bytes.is_empty() && all_in(Class::Token, bytes) && all_in(Class::Small, bytes)
}

/// Whether all of these ranges are.
fn all_sound(ranges: &[Range]) -> bool
    ensures { result ≡ list_all is_range ranges.now }
{
    for range in ranges {
        if !is_sound(range) {
            return false;
        }
    }
    true
}

/// Whether all ranges of an Accept are tokens in small letters, so that they are read again: a reader of SIP makes no others.
pub fn are_sound(accept: &Field<Values<Range>>) -> bool
    ensures { result ≡ is_accept accept.now }
{
    match accept {
        Field::Absent | Field::Bad => true,
        Field::Value(ranges) => all_sound(ranges.as_slice()),
    }
}
