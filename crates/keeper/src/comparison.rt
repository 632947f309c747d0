//! Whether two lists of what a worker was told are the same.
ghost use Rattle.std.specs.Prelude.{◌≡◌, ◌↔◌, ◌++◌, List, MatchOption, IsTrue};
ghost use Rattle.package.specs.Values as values;

use package::{Counts, MailChange, Progress};

/// Whether both are the same counts.
fn are_counts(one: Counts, other: Counts) -> bool
    ensures { IsTrue result ↔ (one ≡ other) }
{
    one == other
}

/// Whether both are the same change.
fn is_change(one: &MailChange, other: &MailChange) -> bool
    ensures { IsTrue result ↔ (one.now ≡ other.now) }
{
    one.class() == other.class()
        && are_counts(one.counts(), other.counts())
        && one.mailbox() == other.mailbox()
}

/// Whether both are the same step.
fn is_step(one: &Progress, other: &Progress) -> bool
    ensures { IsTrue result ↔ (one.now ≡ other.now) }
{
    one.code() == other.code() && one.tag() == other.tag() && one.reason() == other.reason()
}

/// What stands behind these changes, where all begin with them.
pub(crate) fn changes_behind<'a>(
    front: &[MailChange],
    all: &'a [MailChange],
) -> Option<&'a [MailChange]>
    ensures { MatchOption result ((rest : List values.MailChange) → all.now ≡ front.now ++ rest → ⊥)
        (λ rest. all.now ≡ front.now ++ rest.now) }
{
    let mut rest = all;
    for change in front {
        let Some((first, behind)) = rest.split_first() else {
            return None;
        };
        if !is_change(change, first) {
            return None;
        }
        rest = behind;
    }
    Some(rest)
}

/// Whether both are the same steps.
pub(crate) fn are_steps(some: &[Progress], others: &[Progress]) -> bool
    ensures { IsTrue result ↔ (some.now ≡ others.now) }
{
    let mut rest = others;
    for step in some {
        let Some((first, behind)) = rest.split_first() else {
            return false;
        };
        if !is_step(step, first) {
            return false;
        }
        rest = behind;
    }
    rest.is_empty()
}
