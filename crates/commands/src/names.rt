//! The names of a former run's mailboxes: in which order they go on, and whether others are the same.
ghost use Rattle.std.specs.Prelude.{◌≡◌, ◌↔◌, not, filter, map, string_bytes, IfOk, IsTrue};
ghost use Rattle.std.specs.List.{list_all};
ghost use Rattle.control_lines.specs.Told.{is_held};
ghost use Rattle.commands.specs.GoingOn.{AreSameNames};
ghost use Rattle.commands.specs.Runs as runs;

use indexmap::IndexSet;
use plans::{copied_names, has_name};
use sip_text::{NoMemory, Text};
use std::alloc::Global;

/// Keeps those of these names that are in the set.
fn keep_named(names: &mut Vec<Text>, set: &IndexSet<String>)
    ensures { names.new.items ≡ filter (is_held (map string_bytes set.now.keys)) names.old.items }
{
    names.retain(|name| has_name(set, name));
}

/// Keeps those of these names that aren't in the set.
fn keep_others(names: &mut Vec<Text>, set: &IndexSet<String>)
    ensures { names.new.items ≡ filter (λ name. not (is_held (map string_bytes set.now.keys) name)) names.old.items }
{
    names.retain(|name| !has_name(set, name));
}

/// These names, in the order of a former run: first those that it had, as it had them, and behind them those that are new.
pub(crate) fn in_former_order(
    alloc: Global,
    former: Vec<Text>,
    names: Vec<Text>,
) -> Result<Vec<Text>, NoMemory>
    ensures ordered { IfOk result (λ ordered. ordered.items ≡ runs.in_former_order former.items names.items) }
{
    let known = copied_names(alloc, former.as_slice())?;
    let told = copied_names(alloc, names.as_slice())?;
    let mut ordered = former;
    let mut names = names;
    keep_named(&mut ordered, &told);
    keep_others(&mut names, &known);
    ordered.append(&mut names)?;
    Ok(ordered)
}

/// Whether each of these names is in the set.
fn has_all(set: &IndexSet<String>, names: &[Text]) -> bool
    ensures { result ≡ list_all (is_held (map string_bytes set.now.keys)) names.now }
{
    names.iter().all(|name| has_name(set, name))
}

/// Whether these are the same names, in any order.
pub(crate) fn are_same(alloc: Global, names: &[Text], others: &[Text]) -> Result<bool, NoMemory>
    ensures { IfOk result (λ same. IsTrue same ↔ AreSameNames names.now others.now) }
{
    let ours = copied_names(alloc, names)?;
    let theirs = copied_names(alloc, others)?;
    Ok(has_all(&theirs, names) && has_all(&ours, others))
}
