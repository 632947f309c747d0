//! How many NOTIFYs may be open.
ghost use Rattle.std.specs.Prelude.{◌≡◌};
ghost use Rattle.transactions.specs.Machine as machine;

/// The number of a subscription's first NOTIFY.
pub const FIRST: u32 = 1;

/// How many NOTIFYs may be open at once, so that those of one dialog leave room for others.
#[derive(Clone, Copy, Debug, PartialEq, Eq)]
pub struct Allowance {
    /// How many of all.
    pub all: u32,
    /// How many with one tag.
    pub per_tag: u32,
}

impl Allowance {
    /// How many may be open where one with this number is to be kept: half of all for a first one, the greater half, and all for a later one.
    /// So fetches, however many come, leave room for subscriptions that go on.
    pub fn places(self, number: u32) -> u32
        ensures { result ≡ machine.places self number }
    {
        if number == FIRST {
            self.all - self.all / 2
        } else {
            self.all
        }
    }
}
