//! The last step of each transfer.
ghost use Rattle.std.specs.Prelude.{◌≡◌, ◌≤◌, not, map, filter, bytes_eq, string_bytes, vec_len, vec_capacity, OnOk, OnErr, IfOk};
ghost use Rattle.std.specs.List.{list_any};
ghost use Rattle.package.specs.Content as content;
ghost use Rattle.keeper.specs.Told.{told_step, without};

use indexmap::IndexSet;
use package::Progress;
use sip_text::NoMemory;
use std::alloc::Global;

/// The least code after which nothing more comes (RFC 3261 section 7.2).
const FINAL: u16 = 200;

fn is_final(step: &Progress) -> bool
    ensures { result ≡ content.is_final step.now.code }
{
    step.code() >= FINAL
}

/// Whether both steps are of one transfer.
fn same_transfer(one: &Progress, other: &Progress) -> bool
    ensures { result ≡ bytes_eq one.now.tag other.now.tag }
{
    one.tag() == other.tag()
}

/// The steps of other transfers than this one's.
fn keep_others(steps: &mut Vec<Progress>, step: &Progress)
    ensures others { steps.new.items ≡ filter (λ q. not (bytes_eq step.now.tag q.tag)) steps.old.items }
    ensures shorter { vec_len steps.new ≤ vec_len steps.old }
    ensures room { vec_capacity steps.new ≡ vec_capacity steps.old }
{
    steps.retain(|other| !same_transfer(step, other));
}

/// A transfer came to this step: it takes the place of its last one, and where it is final there is none any more.
pub(crate) fn take_step(
    alloc: Global,
    steps: &mut Vec<Progress>,
    step: &Progress,
) -> Result<(), NoMemory>
    ensures taken { OnOk result (steps.new.items ≡ told_step step.now steps.old.items) }
    ensures unchanged { OnErr result (steps.new.items ≡ steps.old.items) }
{
    if is_final(step) {
        keep_others(steps, step);
        return Ok(());
    }
    let copy = step.copy(alloc)?;
    steps.reserve(1)?;
    keep_others(steps, step);
    let Ok(()) = steps.push(copy) else {
        unreachable!()
    };
    Ok(())
}

/// Whether the transfer of this step has one of these tags.
fn is_among(tags: &IndexSet<String>, step: &Progress) -> bool
    ensures { result ≡ list_any (bytes_eq step.now.tag) (map string_bytes tags.now.keys) }
{
    tags.contains(step.tag())
}

/// The steps of other transfers than those with these tags.
pub(crate) fn forget_steps(steps: &mut Vec<Progress>, tags: &IndexSet<String>)
    ensures { steps.new.items ≡ without (map string_bytes tags.now.keys) steps.old.items }
{
    steps.retain(|step| !is_among(tags, step));
}

/// The tags of the transfers of these steps.
pub(crate) fn copy_tags(alloc: Global, steps: &[Progress]) -> Result<Vec<String>, NoMemory>
    ensures { IfOk result (λ tags. map string_bytes tags.items ≡ map (λ p. p.tag) steps.now) }
{
    let mut tags = Vec::new(alloc);
    for step in steps {
        tags.push(String::from_str(alloc, step.tag())?)?;
    }
    Ok(tags)
}

/// Copies of these steps.
pub(crate) fn copy_steps(alloc: Global, steps: &[Progress]) -> Result<Vec<Progress>, NoMemory>
    ensures { IfOk result (λ all. all.items ≡ steps.now) }
{
    let mut all = Vec::new(alloc);
    for step in steps {
        all.push(step.copy(alloc)?)?;
    }
    Ok(all)
}
