//! The blocks of a script.
ghost use Rattle.sip_text.specs.Bytes.{Finds};
ghost use Rattle.sip_text.specs.Reading.{plain_up_to};
ghost use Rattle.scripts.specs.Reading.{Gives, octets_at, sip_head, sip_at, block_of, block_named, block_at, blocks_of};

use crate::error::ScriptError;
use crate::line::line_named;
use crate::script::{Block, Control};
use sip_read::Addr;
use sip_text::{Octets, after_byte, cut_at, plain_number};
use std::alloc::Global;

/// The most octets that a datagram of a script may have.
const MOST_OCTETS: u64 = 65536;

/// How many octets a SIP block says that it has.
#[tactic(auto, unfolding(sip_text::specs::Reading::plain_up_to))]
fn octet_count(word: &[u8]) -> Option<usize>
    ensures { Finds (λ x. x) result (plain_up_to 65536 word.now) }
{
    let length = plain_number(word)?;
    if length <= MOST_OCTETS {
        Some(length as usize)
    } else {
        None
    }
}

/// The octets of a datagram, behind which LF stands, and the rest.
#[tactic(auto, unfolding(crate::specs::Reading::octets_at))]
fn cut_octets(length: usize, bytes: &[u8]) -> Option<(&[u8], &[u8])>
    ensures { Finds (λ x. (x.0.now, x.1.now)) result (octets_at length bytes.now) }
{
    if bytes.len() < length {
        return None;
    }
    let (octets, rest) = bytes.split_at(length);
    Some((octets, after_byte(b'\n', rest)?))
}

/// The head of a SIP block behind its first word: the address, and how many octets follow.
#[tactic(auto, unfolding(crate::specs::Reading::sip_head))]
fn sip_head(text: &[u8]) -> Option<(Addr, usize)>
    ensures { Finds (λ x. x) result (sip_head text.now) }
{
    let (word, rest) = cut_at(b' ', text)?;
    let addr = Addr::of(word)?;
    let length = octet_count(rest)?;
    Some((addr, length))
}

/// A SIP block, of which the head and the bytes behind it are given, and the rest. The octets are copied once.
#[tactic(auto, unfolding(crate::specs::Reading::sip_at))]
fn sip_block<'a>(
    alloc: Global,
    head: &[u8],
    bytes: &'a [u8],
) -> Result<(Block, &'a [u8]), ScriptError>
    ensures { Gives (λ x. (x.0, x.1.now)) result (sip_at head.now bytes.now) }
{
    let Some((addr, length)) = sip_head(head) else {
        return Err(ScriptError::BadScript);
    };
    let Some((octets, rest)) = cut_octets(length, bytes) else {
        return Err(ScriptError::BadScript);
    };
    let octets = Vec::from_slice(alloc, octets)?;
    Ok((Block::Sip(addr, Octets::new(octets)), rest))
}

/// A line as a block, which CLOSE isn't.
fn line_block(line: Control) -> Option<Block>
    ensures { Finds (λ x. x) result (block_of line) }
{
    match line {
        Control::Change(change) => Some(Block::Change(change)),
        Control::Tick(time) => Some(Block::Tick(time)),
        Control::Close => None,
    }
}

/// The block of this first word and this rest of a line, and what stands behind the block.
#[tactic(auto, unfolding(crate::specs::Reading::block_named))]
fn block_named<'a>(
    alloc: Global,
    name: &[u8],
    words: &[u8],
    rest: &'a [u8],
) -> Result<(Block, &'a [u8]), ScriptError>
    ensures { Gives (λ x. (x.0, x.1.now)) result (block_named name.now words.now rest.now) }
{
    if name == b"SIP".as_slice() {
        return sip_block(alloc, words, rest);
    }
    let line = line_named(alloc, name, words)?;
    match line_block(line) {
        Some(block) => Ok((block, rest)),
        None => Err(ScriptError::BadScript),
    }
}

/// The block at the front, and the rest.
#[tactic(auto, unfolding(crate::specs::Reading::block_at))]
pub fn cut_block(alloc: Global, bytes: &[u8]) -> Result<(Block, &[u8]), ScriptError>
    ensures { Gives (λ x. (x.0, x.1.now)) result (block_at bytes.now) }
{
    let Some((line, rest)) = cut_at(b'\n', bytes) else {
        return Err(ScriptError::BadScript);
    };
    let Some((name, words)) = cut_at(b' ', line) else {
        return Err(ScriptError::BadScript);
    };
    block_named(alloc, name, words, rest)
}

/// The blocks to the end of the bytes.
pub fn all_blocks(alloc: Global, bytes: &[u8]) -> Result<Vec<Block>, ScriptError>
    ensures { Gives (λ v. v.items) result (blocks_of bytes.now) }
{
    let mut blocks = Vec::new(alloc);
    let mut rest = bytes;
    while !rest.is_empty() {
        let (block, after) = cut_block(alloc, rest)?;
        blocks.push(block)?;
        rest = after;
    }
    Ok(blocks)
}
