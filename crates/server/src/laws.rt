//! Laws of what the page of a script tells the watchers of subscriptions, over the definitions alone.
ghost use Rattle.server.specs.Laws.{ScriptLaw, StartsOfAScriptLaw};

/// The workers that the words of a script ask for start as the laws of a life ask: limits in their ranges, and no transfer yet.
pub fn the_starts_of_a_script()
    ensures { StartsOfAScriptLaw }
{}

/// Of what a worker sends, as the page of a script shows it: the NOTIFYs with a subscription's tag are those of its life over the events that
/// the worker handles. They are numbered 1, 2, 3 and so on, and none follows a terminated one.
pub fn a_script_tells_lives()
    ensures { ScriptLaw }
{}
