//! Laws of what the watchers of a program's subscriptions are told, over the definitions alone.
//!
//! `crew::laws` and `feeds::laws` ask of a crew that its workers' starts are such as `AreStarts` says, and that it ran from its start to its
//! end. [`the_starts_of_a_plan`] and [`the_starts_of_a_call`] say the first of each plan and each call, and the contracts of
//! [`crate::serve_words`] and [`udp_command::udp::run`] promise the second. So [`serve_tells_lives`] and [`udp_tells_lives`] have no other premise
//! than what these promise. A service with a journal may go on from that (`Serves`): what its subscriptions were told before, another run told, so
//! no law here says it.
ghost use Rattle.commands.specs.Laws.{ServeLaw, StartsOfACallLaw, StartsOfAPlanLaw, UdpLaw};

use std::io::Write;

/// The workers that the words behind `serve` ask for start as the laws of a crew ask: limits in their ranges, no transfer yet, each with its
/// own number.
pub fn the_starts_of_a_plan()
    ensures { StartsOfAPlanLaw }
{}

/// So do those that the words of `udp` ask for.
pub fn the_starts_of_a_call()
    ensures { StartsOfACallLaw }
{}

/// Of each run of `serve` without a journal: the NOTIFYs with a subscription's tag, of all outs that met a fate, are those of its life over the
/// events that its worker handled. They are numbered 1, 2, 3 and so on, and none follows a terminated one.
pub fn serve_tells_lives<F: Write>()
    ensures { ServeLaw F.contents }
{}

/// The same of each run of `udp`.
pub fn udp_tells_lives<F: Write>()
    ensures { UdpLaw F.contents }
{}
