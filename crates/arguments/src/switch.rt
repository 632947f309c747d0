//! The options of `notifyd serve` that have no value.
ghost use Rattle.std.specs.Prelude.{◌≡◌};
ghost use Rattle.sip_text.specs.Bytes.{Finds};
ghost use Rattle.arguments.specs.Flags.{switch_text};
ghost use Rattle.arguments.specs.Reading.{switch_of};

/// An option that has no value.
#[derive(Clone, Copy, Debug, PartialEq, Eq, Drop)]
pub enum Switch {
    /// `--keep-subscriptions`: no farewell at the end.
    KeepSubscriptions,
    /// `--no-refer`: the package `refer` is left out, so that a REFER is answered 489.
    NoRefer,
    /// `--until-input-ends`: the service closes where its standard input ends.
    UntilInputEnds,
    /// `--old-digest`: a response without `qop` is taken, as clients of RFC 2069 make it.
    OldDigest,
    /// `--log-requests`: a line on standard error for each request that is answered.
    LogRequests,
    /// `--log-json`: each line on standard error is a JSON object.
    LogJson,
    /// `--any-mailbox`: the first MAIL line of a mailbox makes it.
    AnyMailbox,
}

impl Switch {
    /// As it is written.
    pub fn text(self) -> &'static str
        ensures { result.now ≡ switch_text self }
    {
        match self {
            Switch::KeepSubscriptions => "--keep-subscriptions",
            Switch::NoRefer => "--no-refer",
            Switch::UntilInputEnds => "--until-input-ends",
            Switch::OldDigest => "--old-digest",
            Switch::LogRequests => "--log-requests",
            Switch::LogJson => "--log-json",
            Switch::AnyMailbox => "--any-mailbox",
        }
    }
}

/// The option that the word is.
#[tactic(auto, unfolding(crate::specs::Reading::switch_of))]
pub(crate) fn switch_named(word: &str) -> Option<Switch>
    ensures { Finds (λ x. x) result (switch_of word.now) }
{
    if word == "--keep-subscriptions" {
        Some(Switch::KeepSubscriptions)
    } else if word == "--no-refer" {
        Some(Switch::NoRefer)
    } else if word == "--until-input-ends" {
        Some(Switch::UntilInputEnds)
    } else if word == "--old-digest" {
        Some(Switch::OldDigest)
    } else if word == "--log-requests" {
        Some(Switch::LogRequests)
    } else if word == "--log-json" {
        Some(Switch::LogJson)
    } else if word == "--any-mailbox" {
        Some(Switch::AnyMailbox)
    } else {
        None
    }
}
