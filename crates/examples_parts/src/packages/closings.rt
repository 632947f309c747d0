//! Closings, and the cell that keeps one.
use package::{Closing, ClosingCell, Ending, Outcome};
use sip_text::{NoMemory, Text};
use std::alloc::Global;

/// Whether the closing in the cell is told so: the package's name, the resources that it held, and its changes.
pub(crate) fn has_closing(
    alloc: Global,
    cell: &ClosingCell,
    wanted: &str,
) -> Result<bool, NoMemory> {
    let Some(closing) = cell.get() else {
        return Ok(wanted == "none");
    };
    let event = closing.event.as_str();
    let told = format!(in alloc; "{event} {} {}", closing.resources, closing.changes)?;
    Ok(told.as_str() == wanted)
}

/// A closing as a line tells it: the name, the resources and the changes.
fn closing_of(alloc: Global, text: &str) -> Result<Option<Closing>, NoMemory> {
    let (event, numbers) = text.split_once(' ').unwrap_or((text, ""));
    let (resources, changes) = numbers.split_once(' ').unwrap_or((numbers, ""));
    let (Ok(resources), Ok(changes)) = (resources.parse::<u64>(), changes.parse::<u64>()) else {
        return Ok(None);
    };
    Ok(Some(Closing {
        event: Text::of(alloc, event)?,
        resources,
        changes,
    }))
}

/// Offers the cell a closing, which it takes or which comes back as it was.
pub(crate) fn offer(
    alloc: Global,
    cell: &ClosingCell,
    text: &str,
    wanted: &str,
) -> Result<bool, NoMemory> {
    let Some(closing) = closing_of(alloc, text)? else {
        return Ok(false);
    };
    let changes = closing.changes;
    let back = cell.offer(Box::new(alloc, closing)?).err();
    Ok(match &back {
        Some(back) => wanted == "back" && back.changes == changes,
        None => wanted == "taken",
    })
}

/// An ending offers its name, the resources that it is told, and the changes that it counted.
pub(crate) fn ending_counts(alloc: Global) -> Result<bool, NoMemory> {
    let cell = ClosingCell::new(alloc)?;
    let mut ending = Ending::new(alloc, "refer", cell.clone()?)?;
    ending.count(Outcome::Changed);
    ending.count(Outcome::Same);
    ending.count(Outcome::Unknown);
    ending.count(Outcome::Changed);
    let is_taken = ending.offer(7).is_ok();
    Ok(is_taken && has_closing(alloc, &cell, "refer 7 2")?)
}
