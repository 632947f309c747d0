//! What a NOTIFY tells of its subscription (RFC 6665 section 4.1.3).
ghost use Rattle.std.specs.Prelude.{◌≡◌, option_map, IsTrue};
ghost use Rattle.sip_text.specs.Tokens.{is_small_token};
ghost use Rattle.subscription.specs.Written.{state_of, reason_text, is_terminated};

/// Why a subscription ended.
#[derive(Clone, Copy, Debug, PartialEq, Eq)]
pub enum Reason {
    /// Its time was up, or the subscriber asked for its end.
    Timeout,
    /// What it watched is over for good.
    Noresource,
    /// The dialog has no number left, or the notifier stops. The subscriber may subscribe again at once.
    Deactivated,
}

/// The state of a subscription as a NOTIFY tells it.
#[derive(Clone, Copy, Debug, PartialEq, Eq)]
pub enum Phase {
    /// It lasts so many seconds more.
    Active(u32),
    /// It is over, and this is its last NOTIFY.
    Terminated(Reason),
}

/// One NOTIFY: its CSeq number, and the state that it tells.
#[derive(Clone, Copy, Debug, PartialEq, Eq)]
pub struct Notice {
    pub number: u32,
    pub phase: Phase,
}

impl Notice {
    pub(crate) fn active(number: u32, left: u32) -> Notice
        ensures number { result.number ≡ number }
        ensures phase { result.phase ≡ Phase.Active left }
    {
        Notice {
            number,
            phase: Phase::Active(left),
        }
    }

    pub(crate) fn terminated(number: u32, reason: Reason) -> Notice
        ensures number { result.number ≡ number }
        ensures phase { result.phase ≡ Phase.Terminated reason }
    {
        Notice {
            number,
            phase: Phase::Terminated(reason),
        }
    }
}

impl Reason {
    /// The reason's word, a token in small letters.
    pub fn word(self) -> &'static str
        ensures word { result.now ≡ reason_text self }
        ensures token { IsTrue (is_small_token result.now) }
    {
        match self {
            Reason::Timeout => "timeout",
            Reason::Noresource => "noresource",
            Reason::Deactivated => "deactivated",
        }
    }
}

impl Phase {
    /// Whether it is over.
    pub fn is_terminated(self) -> bool
        ensures { result ≡ is_terminated self }
    {
        matches!(self, Phase::Terminated(_))
    }

    /// The state's word.
    pub fn word(self) -> &'static str
        ensures { result.now ≡ (state_of self).word }
    {
        match self {
            Phase::Active(_) => "active",
            Phase::Terminated(_) => "terminated",
        }
    }

    /// The seconds that it lasts, where it is active.
    pub fn expires(self) -> Option<u32>
        ensures { result ≡ (state_of self).expires }
    {
        match self {
            Phase::Active(left) => Some(left),
            Phase::Terminated(_) => None,
        }
    }

    /// The word of the reason, where it is over.
    pub fn reason(self) -> Option<&'static str>
        ensures { option_map (λ text. text.now) result ≡ (state_of self).reason }
    {
        match self {
            Phase::Active(_) => None,
            Phase::Terminated(reason) => Some(reason.word()),
        }
    }
}
