//! Tags: what a local tag tells apart.
//!
//! The local tag of a subscription is what later requests of its dialog, and the replies to its NOTIFYs, name it by. It is
//! made of the worker's number, the serial, and digits from the seed (`local_tag` of the notifier's `specs/Tag`): no clock,
//! no counter beside the serial, and nothing of the request goes into it. How hard the digits are to guess without the seed
//! rests on ChaCha20, and no proof speaks of it. No function here does anything: each is a theorem over definitions.
//!
//! Begin with `specs/TagLaws`.
ghost use Rattle.life.specs.TagLaws.{ApartLaw, LiveLaw, OthersLaw};

/// Whatever the seeds, two subscriptions have one tag only where they have one worker and one serial.
pub fn apart()
    ensures { ApartLaw }
{}

/// At any moment no two live subscriptions of a worker share a tag.
pub fn live()
    ensures { LiveLaw }
{}

/// Nor do live subscriptions of two workers, whatever came to either.
pub fn others()
    ensures { OthersLaw }
{}
