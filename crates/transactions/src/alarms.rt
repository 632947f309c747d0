//! The alarms of all places, in a tournament: each inner node is the sooner of the two below it.

ghost use Rattle.std.specs.Prelude.{◌≡◌, ◌<◌, ◌≤◌, ◌+◌, ◌-◌, ℕ, length, if◌then◌else◌, ◌==◌, true, MatchBool};
ghost use Rattle.transactions.specs.Tournament as tree;

/// A moment, and the serial of the transaction whose alarm it is.
#[derive(Clone, Copy, Debug, PartialEq, Eq)]
pub struct Alarm {
    pub moment: u64,
    pub serial: u64,
}

/// The alarm of a place that is free: it comes last.
pub const NEVER: Alarm = Alarm {
    moment: u64::MAX,
    serial: u64::MAX,
};

impl Alarm {
    /// Whether it comes no later than the other.
    #[tactic(auto, unfolding(crate::specs::Tournament::is_first))]
    pub fn is_first(self, other: Alarm) -> bool
        ensures { result ≡ tree.is_first self other }
    {
        self.moment < other.moment || (self.moment == other.moment && self.serial <= other.serial)
    }

    fn is(self, other: Alarm) -> bool
        ensures { MatchBool result (self ≡ other) (self ≡ other → ⊥) }
    {
        self == other
    }

    #[tactic(auto, unfolding(crate::specs::Tournament::sooner))]
    fn sooner(self, other: Alarm) -> Alarm
        ensures { result ≡ tree.sooner self other }
    {
        if self.is_first(other) { self } else { other }
    }
}

/// The alarm of a place is set.
pub fn set_leaf(nodes: &mut [Alarm], places: usize, place: usize, alarm: Alarm)
    requires tree { tree.IsTournament places nodes.old }
    requires within { place < places }
    ensures tree { tree.IsTournament places nodes.new }
    ensures leaves { (p : ℕ) → p < places → tree.leaf places nodes.new p
        ≡ (if place == p then alarm else tree.leaf places nodes.old p) }
{
    let mut node = places + place;
    nodes[node] = alarm;
    while node > 1 {
        node /= 2;
        let first = nodes[2 * node].sooner(nodes[2 * node + 1]);
        // A later alarm seldom changes what stands above it.
        if nodes[node].is(first) {
            return;
        }
        nodes[node] = first;
    }
}

/// The same, in a vector.
pub fn set_alarm(alarms: &mut Vec<Alarm>, places: usize, place: usize, alarm: Alarm)
    requires tree { tree.IsTournament places alarms.old.items }
    requires within { place < places }
    ensures tree { tree.IsTournament places alarms.new.items }
    ensures leaves { (p : ℕ) → p < places → tree.leaf places alarms.new.items p
        ≡ (if place == p then alarm else tree.leaf places alarms.old.items p) }
{
    set_leaf(alarms.as_mut_slice(), places, place, alarm);
}

/// The place whose alarm comes first.
pub fn first_place(nodes: &[Alarm], places: usize) -> usize
    requires tree { tree.IsTournament places nodes.now }
    requires some { 0 < places }
    ensures within { result < places }
    ensures first { (p : ℕ) → p < places → tree.is_first (tree.leaf places nodes.now result) (tree.leaf places nodes.now p) ≡ true }
{
    let mut node = 1;
    while node < places {
        let left = 2 * node;
        node = if nodes[left].is_first(nodes[left + 1]) {
            left
        } else {
            left + 1
        };
    }
    node - places
}
