//! What belongs to one subscription goes to one worker.
ghost use Rattle.notifier_model.specs.HomeLaws.{NamedLaw, MailboxLaw, BelowLaw, OneLaw};

/// Whatever names a subscription of a worker by its local tag goes to that worker, among any number of workers above its
/// own: requests in its dialog, replies to its NOTIFYs, and word of its transfer. A change of a mailbox goes where those who
/// subscribe to it went. Each home is that of a worker, and with one worker all events go to it.
pub fn stay()
    ensures named { NamedLaw }
    ensures mailbox { MailboxLaw }
    ensures below { BelowLaw }
    ensures one { OneLaw }
{}
