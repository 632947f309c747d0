//! The numbers that bound a notifier, each with the range in which it must be.
ghost use Rattle.std.specs.Prelude.{◌≡◌, ◌↔◌, All, IsTrue, IfSome, IfNone};
ghost use Rattle.plans.specs.Ranges as spec;
ghost use Rattle.plans.specs.Ranges.{Fits, IsFirstOut};

use arguments::{Bound, Numbers};
use std::fmt;
use std::fmt::{Display, Formatter};

/// An option with its number, and the range in which that must be.
#[derive(Clone, Copy, Debug, PartialEq, Eq, Drop)]
pub struct Ranged {
    pub option: Bound,
    pub value: u32,
    pub least: u32,
    pub most: u32,
}

/// The option with its number, and the range: `--refer-time is 180, but must be from 200 to 3600`.
impl Display for Ranged {
    fn fmt<W: fmt::Write>(&self, f: &mut Formatter<W>) -> fmt::Result {
        let option = self.option.text();
        let (value, least, most) = (self.value, self.least, self.most);
        write!(f, "{option} is {value}, but must be from {least} to {most}")
    }
}

impl Ranged {
    fn new(option: Bound, value: u32, least: u32, most: u32) -> Ranged
        ensures { result ≡ spec.ranged option value least most }
    {
        Ranged {
            option,
            value,
            least,
            most,
        }
    }

    /// Whether the number is in its range.
    fn fits(&self) -> bool
        ensures { IsTrue result ↔ Fits self.now }
    {
        self.least <= self.value && self.value <= self.most
    }
}

/// Each of the numbers: of times those between `--min-time` and `--max-time` are in their ranges.
fn ranges(numbers: &Numbers) -> [Ranged; 10]
    ensures { result ≡ spec.ranges numbers.now }
{
    let (least, most) = (numbers.min_time, numbers.max_time);
    [
        Ranged::new(Bound::MinTime, least, 1, 3600),
        Ranged::new(Bound::MaxTime, most, least, u32::MAX),
        Ranged::new(Bound::DefaultTime, numbers.default_time, least, most),
        Ranged::new(Bound::ReferTime, numbers.refer_time, least, most),
        Ranged::new(Bound::MaxCseq, numbers.max_cseq, 1, 2147483647),
        Ranged::new(Bound::Table, numbers.table, 1, 65536),
        Ranged::new(Bound::Serials, numbers.serials, 1, u32::MAX),
        Ranged::new(Bound::Kept, numbers.kept, 1, 4096),
        Ranged::new(Bound::Inbox, numbers.inbox, 1, 65536),
        Ranged::new(Bound::Outbox, numbers.outbox, 1, 65536),
    ]
}

/// The first that is out of its range, if one is.
fn first_out(ranges: &[Ranged]) -> Option<Ranged>
    ensures out { IfSome result (IsFirstOut ranges.now) }
    ensures none { IfNone result (All Fits ranges.now) }
{
    for ranged in ranges {
        if !ranged.fits() {
            return Some(*ranged);
        }
    }
    None
}

/// The first of the numbers that is out of its range, if one is.
pub(crate) fn number_out(numbers: &Numbers) -> Option<Ranged>
    ensures out { IfSome result (IsFirstOut (spec.ranges numbers.now)) }
    ensures none { IfNone result (All Fits (spec.ranges numbers.now)) }
{
    first_out(&ranges(numbers))
}
