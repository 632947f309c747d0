//! Laws of whole lives, over the definitions alone.
ghost use Rattle.std.specs.Prelude.{◌≡◌, ◌≤◌, List, ◌∷◌, ◌++◌, Some, true};
ghost use Rattle.sip_read.specs.declared.message.Response.{Response};
ghost use Rattle.subscription.specs.State.{State};
ghost use Rattle.subscription.specs.Table.{is_refusal_of};
ghost use Rattle.subscription.specs.History.{Beginning, Cause, Answered, Lost, notices, state_after, last_number, AreNumbered, NoneFollowsTheEnd, AreWithin};

/// However a subscription begins and whatever befalls it: its NOTIFYs are numbered 1, 2, 3 .., up to
/// the last number of its dialog at most, and none follows a terminated one, a refusal or a loss.
pub fn whole_life()
    ensures numbered { (beginning : Beginning) (causes : List Cause) → AreNumbered (notices beginning causes) }
    ensures ended { (beginning : Beginning) (causes : List Cause) → NoneFollowsTheEnd (notices beginning causes) }
    ensures within { (beginning : Beginning) (causes : List Cause) → 1 ≤ last_number beginning
        → AreWithin (last_number beginning) (notices beginning causes) }
    ensures refused { (beginning : Beginning) (before after : List Cause) (answer : Response) (s : State)
        → state_after beginning before ≡ Some s → is_refusal_of s answer ≡ true
        → notices beginning (before ++ Answered answer ∷ after) ≡ notices beginning before }
    ensures lost { (beginning : Beginning) (before after : List Cause)
        → notices beginning (before ++ Lost ∷ after) ≡ notices beginning before }
{}
