//! Lives: what a subscription's watcher is told follows from the subscription's own life.
//!
//! A notifier keeps a book and steps it by one event at a time. The life of a subscription is told of the whole list of
//! events, without a book: when it was born, what it heard, what changed, and when it was over. [`life`] says that the
//! NOTIFYs that go out to its watcher are those of its life, one for one: to its address, and in bytes the text of a NOTIFY
//! with its number, state and body. The other laws say what a reader expects of a life: numbers that rise by one, and
//! nothing after the end. [`tags`] says what its local tag tells apart, and [`isolation`] that no other event shows in it. No
//! function here does anything: each is a theorem over the definitions alone.
//!
//! Begin with [`life`], then `specs/Life`, `specs/Lives` and `specs/Notices`. Worked lives are computed in
//! `proofs/WorkedLives`.
#![tactic(auto)]

ghost use Rattle.life.specs.Laws.{LifeLaw, NoOtherLaw, NoticesLaw, NumbersLaw, EndsLaw};
ghost use Rattle.life.specs.NeverFull.{NeverFullLaw};
ghost use Rattle.life.specs.Sentences.{
  NowLaw,
  CountsLaw,
  ContentsLaw,
  FreshLaw,
  BirthsLaw,
  GoesOnLaw,
  GoneLaw,
  SilentLaw,
  TouchedLaw,
  RisingLaw,
  InTimeLaw,
  MovedLaw,
  TerminatedLaw,
  UnansweredLaw,
  UnwatchedLaw,
  StatusLaw,
  TransferLaw,
};

pub mod isolation;
pub mod tags;

/// The NOTIFYs that go out with a subscription's tag are those of its life, one for one and in order: each goes to the
/// address, and is the text of a NOTIFY with the number, state and body, that the life says.
pub fn life()
    ensures { LifeLaw }
{}

/// No other NOTIFY goes out: each is that of a notice of some subscription's life.
pub fn no_other()
    ensures { NoOtherLaw }
{}

/// The same of the records that NOTIFYs are written from, as one equation, for the laws of crates above.
pub fn told()
    ensures { NoticesLaw }
{}

/// The numbers of a subscription's NOTIFYs are 1, 2, 3 and so on.
pub fn numbered()
    ensures { NumbersLaw }
{}

/// No NOTIFY of a subscription follows one that says that it is terminated.
pub fn ends_once()
    ensures { EndsLaw }
{}

/// The moment is the greatest Tick so far that is not above the last moment, or 0.
pub fn moments()
    ensures { NowLaw }
{}

/// The counts of a mailbox and a class are those of the last mail change to them, else those at first.
pub fn counts()
    ensures { CountsLaw }
{}

/// A mailbox holds what the law of the packages says of the mail changes that came.
pub fn contents()
    ensures { ContentsLaw }
{}

/// A request of a transaction that no request before was of is fresh, unless it is an ACK; the same again, right after it, is not.
pub fn fresh()
    ensures { FreshLaw }
{}

/// A subscription is born where a request fits, is outside a dialog, and finds a serial and, unless it is a fetch or a
/// transfer that nobody watches, a place. Births are counted, and a subscription has a life from its birth on.
pub fn born()
    ensures { BirthsLaw }
{}

/// After an event the life of a subscription is what befell it there, else what it was before.
pub fn goes_on()
    ensures { GoesOnLaw }
{}

/// A request in a dialog is never answered 503, but where a kept answer comes again: a full table keeps out nobody who is
/// subscribed.
pub fn never_full()
    ensures { NeverFullLaw }
{}

/// A subscription that is gone stays gone: it was terminated, a 481 came, a NOTIFY stayed unanswered, or nobody watches
/// it.
pub fn gone()
    ensures { GoneLaw }
{}

/// No NOTIFY follows where a subscription is gone.
pub fn silent()
    ensures { SilentLaw }
{}

/// The number of a subscription rises by one exactly where something touches it.
pub fn touched()
    ensures { TouchedLaw }
{}

/// The CSeqs of the birth and of the requests that a subscription heard rise.
pub fn rising()
    ensures { RisingLaw }
{}

/// A subscription that lives has time left, and no NOTIFY of it is unanswered for too long.
pub fn in_time()
    ensures { InTimeLaw }
{}

/// The address of a subscription moves with each accepted request, and its time with each that asks for some; nothing else
/// moves them.
pub fn moved()
    ensures { MovedLaw }
{}

/// A NOTIFY says that it is terminated exactly where what it tells of ends the subscription or its number is the last one.
pub fn terminated()
    ensures { TerminatedLaw }
{}

/// A NOTIFY is unanswered from when it is made until a final answer to its number comes that is no 481.
pub fn unanswered()
    ensures { UnansweredLaw }
{}

/// A transfer that nobody watches is gone from its birth on, and no NOTIFY tells of it.
pub fn unwatched()
    ensures { UnwatchedLaw }
{}

/// At each event that befalls it a transfer has come as far as the last Progress of its tag since its birth says, else to
/// `100 Trying`.
pub fn status()
    ensures { StatusLaw }
{}

/// A living transfer has come as far as the law of the packages says of the words that came of it.
pub fn transfer()
    ensures { TransferLaw }
{}
