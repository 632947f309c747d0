//! The counts as MAIL lines.
ghost use Rattle.std.specs.Prelude.{◌≡◌, ◌++◌, ◌<◌, length, OnOk, IfOk, string_bytes};
ghost use Rattle.scripts.specs.Script.{class_text};
ghost use Rattle.control_lines.specs.Pages as spec;

use crate::told::ToldCounts;
use package::{Class, Counts, MailCounts};
use sip_text::NoMemory;
use std::alloc::Global;

/// How many bytes of MAIL lines a page has at most: so it fits a datagram by far.
pub const BYTES: usize = 8192;

/// The word of a class in a MAIL line.
fn class_word(class: Class) -> &'static str
    ensures { result.now ≡ class_text class }
{
    match class {
        Class::Voice => "voice",
        Class::Fax => "fax",
        Class::Pager => "pager",
        Class::Multimedia => "multimedia",
        Class::Text => "text",
    }
}

/// Appends the MAIL line of a class, with its LF: the new ones first, then the old ones, and of both the urgent ones.
pub fn write_counts(
    out: &mut String,
    mailbox: &str,
    class: Class,
    counts: Counts,
) -> Result<(), NoMemory>
    ensures { OnOk result (string_bytes out.new ≡ string_bytes out.old ++ spec.counts_line mailbox.now class counts) }
{
    let Counts {
        new_count,
        old_count,
        urgent_new,
        urgent_old,
    } = counts;
    let class = class_word(class);
    write!(
        out,
        "MAIL {mailbox} {class} {new_count} {old_count} {urgent_new} {urgent_old}"
    )?;
    out.push_str("\n")?;
    Ok(())
}

/// Appends the MAIL line of a class, if it was told.
fn write_told(
    out: &mut String,
    mailbox: &str,
    class: Class,
    counts: Option<Counts>,
) -> Result<(), NoMemory>
    ensures { OnOk result (string_bytes out.new ≡ string_bytes out.old ++ spec.told_line mailbox.now class counts) }
{
    if let Some(counts) = counts {
        write_counts(out, mailbox, class, counts)?;
    }
    Ok(())
}

/// The counts, or zeros where none were told.
fn or_zeros(counts: Option<Counts>) -> Counts
    ensures { result ≡ spec.or_zeros counts }
{
    counts.unwrap_or(Counts {
        new_count: 0,
        old_count: 0,
        urgent_new: 0,
        urgent_old: 0,
    })
}

/// The MAIL lines of the classes that a mailbox was told of.
#[tactic(auto, unfolding(crate::specs::Pages::told_lines))]
fn told_lines(alloc: Global, mailbox: &str, counts: &MailCounts) -> Result<String, NoMemory>
    ensures { IfOk result (λ text. string_bytes text ≡ spec.told_lines mailbox.now counts.now) }
{
    let mut out = String::new(alloc);
    write_told(&mut out, mailbox, Class::Voice, counts.voice)?;
    write_told(&mut out, mailbox, Class::Fax, counts.fax)?;
    write_told(&mut out, mailbox, Class::Pager, counts.pager)?;
    write_told(&mut out, mailbox, Class::Multimedia, counts.multimedia)?;
    write_told(&mut out, mailbox, Class::Text, counts.text)?;
    Ok(out)
}

/// The counts, with zeros for each class that was never told.
fn filled(counts: &MailCounts) -> MailCounts
    ensures { result ≡ spec.filled counts.now }
{
    MailCounts {
        voice: Some(or_zeros(counts.voice)),
        fax: Some(or_zeros(counts.fax)),
        pager: Some(or_zeros(counts.pager)),
        multimedia: Some(or_zeros(counts.multimedia)),
        text: Some(or_zeros(counts.text)),
    }
}

/// Appends the word of a class behind a SP, if it was never told.
fn write_untold(out: &mut String, class: Class, counts: Option<Counts>) -> Result<(), NoMemory>
    ensures { OnOk result (string_bytes out.new ≡ string_bytes out.old ++ spec.untold_class class counts) }
{
    if counts.is_none() {
        out.push_str(" ")?;
        out.push_str(class_word(class))?;
    }
    Ok(())
}

/// The words of the classes that a mailbox was never told of, each behind a SP.
#[tactic(auto, unfolding(crate::specs::Pages::untold_classes))]
fn untold_classes(alloc: Global, counts: &MailCounts) -> Result<String, NoMemory>
    ensures { IfOk result (λ text. string_bytes text ≡ spec.untold_classes counts.now) }
{
    let mut out = String::new(alloc);
    write_untold(&mut out, Class::Voice, counts.voice)?;
    write_untold(&mut out, Class::Fax, counts.fax)?;
    write_untold(&mut out, Class::Pager, counts.pager)?;
    write_untold(&mut out, Class::Multimedia, counts.multimedia)?;
    write_untold(&mut out, Class::Text, counts.text)?;
    Ok(out)
}

/// Appends the line that names these classes, if there are any.
fn write_untold_line(out: &mut String, classes: &str) -> Result<(), NoMemory>
    ensures { OnOk result (string_bytes out.new ≡ string_bytes out.old ++ spec.untold_line classes.now) }
{
    if !classes.is_empty() {
        write!(out, "untold{classes}\n")?;
    }
    Ok(())
}

/// What a mailbox was last told: which worker has it, and a MAIL line for each class, with zeros for one that was never told. A last line
/// names these, if there are any.
pub fn show_page(
    alloc: Global,
    worker: u32,
    mailbox: &str,
    counts: &MailCounts,
) -> Result<String, NoMemory>
    ensures { IfOk result (λ text. string_bytes text ≡ spec.show_text worker mailbox.now counts.now) }
{
    let lines = told_lines(alloc, mailbox, &filled(counts))?;
    let untold = untold_classes(alloc, counts)?;
    let mut out = format!(in alloc; "worker {worker}\n")?;
    out.push_str(lines.as_str())?;
    write_untold_line(&mut out, untold.as_str())?;
    Ok(out)
}

/// Appends the line that says behind which mailbox it goes on.
fn write_more(page: &mut String, last: &str) -> Result<(), NoMemory>
    ensures { OnOk result (string_bytes page.new ≡ string_bytes page.old ++ spec.more_line last.now) }
{
    write!(page, "more {last}\n")?;
    Ok(())
}

/// Whether these lines go into a page that has these already.
fn fits(page: &str, lines: &str) -> bool
    ensures { result ≡ spec.fits page.now lines.now }
{
    page.is_empty() || lines.len() <= BYTES.saturating_sub(page.len())
}

/// The MAIL lines of the mailboxes from this place on, as many as fit a page, and behind them, where more follow, the name of the last
/// of these, to go on behind it.
pub fn dump_page(alloc: Global, told: &ToldCounts, from: usize) -> Result<String, NoMemory>
    ensures { IfOk result (λ text. string_bytes text ≡ spec.dump_text told.now from) }
{
    let mut page = String::new(alloc);
    let mut last = "";
    for place in from..told.len() {
        let Some((name, counts)) = told.get(place) else {
            return Ok(page);
        };
        let lines = told_lines(alloc, name, &counts)?;
        if !fits(page.as_str(), lines.as_str()) {
            write_more(&mut page, last)?;
            return Ok(page);
        }
        page.push_str(lines.as_str())?;
        last = name;
    }
    Ok(page)
}
