//! What a tag names: a worker, and a subscription of that worker.
ghost use Rattle.std.specs.Prelude.{◌≡◌, ◌≢◌, ◌<◌, ◌^◌, ◌↔◌, ◌++◌, ◌∷◌, ℕ, List, true, decimal, option_map, Some, IfSome, MatchOption};
ghost use Rattle.notifier_model.specs.Home as spec;

use sip_text::plain_number;

/// What a tag that begins with `w<worker>-` names. Its numbers are in decimal, without leading zeros.
#[derive(Clone, Copy, Debug, PartialEq, Eq)]
pub struct TagNumbers {
    pub worker: u32,
    /// The serial, where the tag goes on with it and a dash.
    pub serial: Option<u32>,
}

/// The number that the word is in decimal, without leading zeros.
fn number_of(word: &str) -> Option<u32>
    ensures { MatchOption result ((n : ℕ) → n < 2 ^ 32 → word.now ≢ decimal n) (λ n. word.now ≡ decimal n) }
{
    let number = plain_number(word.as_bytes())?;
    u32::try_from(number).ok()
}

/// The number that stands before the first dash, and what stands behind that.
fn leading_number(text: &str) -> Option<(u32, &str)>
    ensures cut { MatchOption result ((n : ℕ) (rest : List ℕ) → n < 2 ^ 32 → text.now ≢ decimal n ++ 45 ∷ rest)
        (λ r. text.now ≡ decimal r.0 ++ 45 ∷ r.1.now) }
    ensures fits { IfSome result (λ r. r.0 < 2 ^ 32) }
{
    let (digits, rest) = text.split_once('-')?;
    let number = number_of(digits)?;
    Some((number, rest))
}

impl TagNumbers {
    /// What the tag names, if it names a worker.
    pub fn read(tag: &str) -> Option<TagNumbers>
        ensures worker { (worker : ℕ) → worker < 2 ^ 32
            → (spec.names worker tag.now ≡ true) ↔ (option_map (λ numbers. numbers.worker) result ≡ Some worker) }
        ensures serial { (worker serial : ℕ) → worker < 2 ^ 32 → serial < 2 ^ 32
            → (spec.names_serial worker serial tag.now ≡ true) ↔ (result ≡ Some (record { worker = worker; serial = Some serial })) }
    {
        let behind = tag.strip_prefix('w')?;
        let (worker, rest) = leading_number(behind)?;
        let serial = match leading_number(rest) {
            Some((serial, _)) => Some(serial),
            None => None,
        };
        Some(TagNumbers { worker, serial })
    }
}

/// The one of the workers that the tag names: `w`, its number in decimal, `-`, and anything.
pub fn worker_named(workers: u32, tag: &str) -> Option<u32>
    ensures value { result ≡ spec.worker_named workers tag.now }
    ensures below { IfSome result (λ worker. worker < workers) }
{
    let numbers = TagNumbers::read(tag)?;
    let worker = numbers.worker;
    if worker < workers { Some(worker) } else { None }
}
