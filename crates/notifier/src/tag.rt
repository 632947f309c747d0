//! Local tags.
#![tactic(auto, unfolding(notifier_model::specs::Tag::local_tag, notifier_model::specs::Tag::refusal_tag))]

ghost use Rattle.std.specs.Prelude.{◌≡◌, IfOk};
ghost use Rattle.hex.specs.Hex.{encode_lower};
ghost use Rattle.rand_chacha.specs.ChaCha.{key_of};
ghost use Rattle.notifier_model.specs.Start.{tag_of};
ghost use Rattle.notifier_model.specs.Tag.{tag_bytes, refusal_tag as refusal_tag_of};

use notifier_model::place::Place;
use rand_chacha::ChaCha20Rng;
use rand_core::SeedableRng;
use rand_core::utils::NextWord;
use sip_text::{NoMemory, Text};
use std::alloc::Global;

/// How long a local tag is at most: two numbers of ten digits, sixteen digits, and what stands between.
const LONGEST_TAG: usize = 39;

/// The generator stands before this word of its stream. Where it does so already, what it has computed stays.
fn seek(words: &mut ChaCha20Rng, word: u64)
    ensures { words.new ≡ record words.old { word_pos = word } }
{
    let word = u128::from(word);
    if words.get_word_pos() != word {
        words.set_word_pos(word);
    }
}

/// Makes the local tags of a place. Its generator computes the words of many tags at once. Serials mostly follow one another, so the
/// words of the next tag mostly are there.
#[derive(Drop)]
pub struct Tags {
    seed: [u8; 32],
    worker: u32,
    /// The generator of this seed, in the stream of this worker.
    words: ChaCha20Rng,
    ghost of_seed: { words.key ≡ key_of seed },
    ghost of_worker: { words.stream ≡ worker },
}

impl Tags {
    /// The tags of this place.
    pub fn new(place: &Place) -> Tags
        ensures seed { result.seed ≡ place.now.seed }
        ensures worker { result.worker ≡ place.now.worker }
    {
        let mut words = ChaCha20Rng::from_seed(place.seed);
        words.set_stream(u64::from(place.worker));
        Tags {
            seed: place.seed,
            worker: place.worker,
            words,
        }
    }

    /// These are the tags of this place from now on.
    fn turn_to(&mut self, place: &Place)
        ensures seed { self.new.seed ≡ place.now.seed }
        ensures worker { self.new.worker ≡ place.now.worker }
    {
        if self.seed != place.seed || self.worker != place.worker {
            *self = Tags::new(place);
        }
    }

    /// The bytes whose digits stand in the tag of this serial.
    fn bytes(&mut self, serial: u32) -> [u8; 8]
        ensures { result ≡ tag_bytes self.old.seed self.old.worker serial }
    {
        seek(&mut self.words, 2 * u64::from(serial.saturating_sub(1)));
        let [a, b, c, d] = self.words.next_word().to_le_bytes();
        let [e, f, g, h] = self.words.next_word().to_le_bytes();
        [a, b, c, d, e, f, g, h]
    }

    /// The digits of the tag of this serial.
    fn digits(&mut self, place: &Place, serial: u32) -> [u8; 16]
        ensures { result ≡ encode_lower (tag_bytes place.now.seed place.now.worker serial) }
    {
        self.turn_to(place);
        let mut digits = [0; 16];
        // Each of the eight bytes has two digits, so there is room for all.
        let _ = hex::encode_to_slice(self.bytes(serial), &mut digits);
        digits
    }

    /// The local tag of this place's subscription with this serial.
    pub fn tag(&mut self, alloc: Global, place: &Place, serial: u32) -> Result<Text, NoMemory>
        ensures { IfOk result (λ tag. tag ≡ tag_of place.now serial) }
    {
        let digits = self.digits(place, serial);
        let digits = str::from_utf8(&digits).unwrap_or("");
        let worker = place.worker;
        let mut tag = String::with_capacity(alloc, LONGEST_TAG)?;
        write!(tag, "w{worker}-{serial}-{digits}")?;
        Ok(Text::new(tag))
    }
}

/// The tag that a refusal adds where no dialog is made.
pub fn refusal_tag(alloc: Global, worker: u32) -> Result<Text, NoMemory>
    ensures { IfOk result (λ tag. tag ≡ refusal_tag_of worker) }
{
    let tag = format!(in alloc; "w{worker}-0")?;
    Ok(Text::new(tag))
}
