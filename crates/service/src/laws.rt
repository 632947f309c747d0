//! Laws of whom a service hears and what it sends again, over the definitions alone.

ghost use Rattle.service.specs.Admitted.{EachIsVouched, EachAnswerIsSentOn, OpenHearsAll};
ghost use Rattle.service.specs.Running.{BeginsAnewLaw};
ghost use Rattle.service.specs.Sending.{EachRepeatIsOfANotify, EachTryIsOfANotify, WithoutRepeatsLaw};
ghost use Rattle.service.specs.Taken.{EachForeignIsSilent, EachOwnIsSilent};

/// What is sent again is the datagram of a NOTIFY that was put before, half a second before at least and less than 32 seconds before
/// (RFC 3261 section 17.1.2.2), and no answer that ends it was noted since. One that was unanswered at the start counts as put then.
pub fn each_repeat()
    ensures { EachRepeatIsOfANotify }
{}

/// The same of what is sent again though its transaction stays as it was, so that it is due again: as while the service's clock stands.
pub fn each_try()
    ensures { EachTryIsOfANotify }
{}

/// But for repeats what is sent are just the datagrams of the outs, in order.
pub fn without_repeats()
    ensures { WithoutRepeatsLaw }
{}

/// Where a service has passwords, each SUBSCRIBE and each REFER that its port was sent answered a challenge (RFC 3261 section 22) which the
/// definition accepts, for its source, at a moment of the service.
pub fn each_is_vouched()
    ensures { EachIsVouched }
{}

/// Each answer that was read, and whose source is heard, is sent on: no rate, no password and no want of memory keeps it back.
pub fn each_answer_is_sent_on()
    ensures { EachAnswerIsSentOn }
{}

/// Where it asks nothing, all datagrams that are not too long are sent on, and none is refused.
pub fn open_hears_all()
    ensures { OpenHearsAll }
{}

/// A control line that a socket of the service itself sent tells nothing and gets no answer. Where networks are named, nor does one from
/// none of them that isn't from this machine.
pub fn each_foreign_is_silent()
    ensures foreign { EachForeignIsSilent }
    ensures own { EachOwnIsSilent }
{}

/// A service over new desks, which takes over no NOTIFY and no second, is one of workers with the starts of these desks.
pub fn begins_anew()
    ensures { BeginsAnewLaw }
{}
