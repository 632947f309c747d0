//! What a service answered, as `notifyd tell` prints it, and where it says that more is told.
ghost use Rattle.std.specs.Prelude.{◌≡◌, ◌≢◌, ℕ, List, ◌++◌, codes, IfOk, MatchOption, None};
ghost use Rattle.sip_text.specs.Reading.{text_of};
ghost use Rattle.asking.specs.Telling as spec;
ghost use Rattle.asking.specs.Telling.{IsFollowed, HasNoLineFeed};

use control_lines::ControlAnswer;
use json::Writer;
use sip_text::{NoMemory, Text, text_of};
use std::alloc::{AllocError, Global};
use std::io;
use std::io::Write;

/// How an answer is printed.
#[derive(Clone, Copy, Debug, PartialEq, Eq)]
pub enum Form {
    /// As it came.
    Whole,
    /// The lines behind `ok` alone, without the one that says where more is told.
    Lines,
    /// The lines behind `ok`, each a name and what is counted by it, as one JSON object.
    Json,
    /// Nothing of an `ok`; what refuses goes to standard error.
    Quiet,
}

/// The first word of a line.
fn first_word(line: &str) -> &str
    ensures { result.now ≡ spec.first_word line.now }
{
    match line.split_once(' ') {
        Some((word, _)) => word,
        None => line,
    }
}

impl Form {
    /// That of an answer to this line: what may have several pages is told as lines.
    pub(crate) fn of(line: &Text, is_json: bool) -> Form
        ensures { result ≡ spec.form_of line.now is_json }
    {
        let word = first_word(line.as_str());
        if is_json {
            Form::Json
        } else if word == "DUMP" || word == "WATCHERS" {
            Form::Lines
        } else if word == "RELOAD" {
            Form::Quiet
        } else {
            Form::Whole
        }
    }
}

/// The lines behind the `ok` of an answer, if it has some.
fn told_lines(answer: &[u8]) -> Option<&[u8]>
    ensures { MatchOption result ((lines : List ℕ) → answer.now ≢ codes "ok\n" ++ lines) (λ lines. answer.now ≡ codes "ok\n" ++ lines.now) }
{
    answer.strip_prefix(b"ok\n")
}

/// What stands before the last line feed, and what behind it.
fn cut_last_line(lines: &[u8]) -> Option<(&[u8], &[u8])>
    ensures { MatchOption result (HasNoLineFeed lines.now)
        (λ halves. (lines.now ≡ halves.0.now ++ (codes "\n" ++ halves.1.now)) × HasNoLineFeed halves.1.now) }
{
    let place = lines.iter().rposition(|byte| *byte == b'\n')?;
    Some((&lines[..place], &lines[place + 1..]))
}

/// The place behind which more is told, where the last line of an answer says so: `more PLACE`.
fn last_place(answer: &[u8]) -> Option<&[u8]>
    ensures { MatchOption result ((place : List ℕ) → ¬ (IsFollowed answer.now place)) (λ place. IsFollowed answer.now place.now) }
{
    told_lines(answer)?;
    let whole = answer.strip_suffix(b"\n")?;
    let (_, last) = cut_last_line(whole)?;
    last.strip_prefix(b"more ")
}

/// Where an answer says that more is told.
pub(crate) fn next_place(alloc: Global, answer: &[u8]) -> Result<Option<Text>, NoMemory>
    ensures { IfOk result (λ next. MatchOption next
        ((place : List ℕ) → IsFollowed answer.now place → text_of place ≡ None) (IsFollowed answer.now)) }
{
    let Some(place) = last_place(answer) else {
        return Ok(None);
    };
    let Some(place) = text_of(place) else {
        return Ok(None);
    };
    Ok(Some(Text::of(alloc, place)?))
}

/// The lines of an answer without the last one, where that says that more is told.
fn page<'a>(answer: &'a [u8], lines: &'a [u8]) -> &'a [u8]
    ensures whole { ((place : List ℕ) → ¬ (IsFollowed answer.now place)) → result.now ≡ lines.now }
    ensures cut { (place front : List ℕ) → IsFollowed answer.now place
        → lines.now ≡ front ++ (codes "more " ++ (place ++ codes "\n")) → result.now ≡ front }
{
    match last_place(answer) {
        Some(place) => &lines[..lines.len().saturating_sub(b"more \n".len() + place.len())],
        None => lines,
    }
}

/// The mailbox that a WATCHERS line names, `*` where it names none.
fn watched(line: &str) -> &str
    ensures { result.now ≡ spec.watched line.now }
{
    match line.split_once(' ') {
        Some((_, rest)) => first_word(rest),
        None => "*",
    }
}

/// The line that asks for what follows this place, where this line is one that may have several pages.
pub(crate) fn next_line(alloc: Global, line: &Text, place: &Text) -> Result<Option<Text>, NoMemory>
    ensures { IfOk result (λ next. next ≡ spec.next_line line.now place.now) }
{
    let line = line.as_str();
    let place = place.as_str();
    let word = first_word(line);
    let next = if word == "DUMP" {
        format!(in alloc; "DUMP {place}")?
    } else if word == "WATCHERS" {
        let mailbox = watched(line);
        format!(in alloc; "WATCHERS {mailbox} {place}")?
    } else {
        return Ok(None);
    };
    Ok(Some(Text::new(next)))
}

/// Lines as one JSON object (RFC 8259): in each a name, and behind a blank a number, or else a text.
fn object(alloc: Global, lines: &str) -> Result<Vec<u8>, AllocError> {
    let mut writer = Writer::new(Vec::new(alloc));
    writer.begin_object()?;
    for line in lines.lines() {
        if let Some((name, value)) = line.split_once(' ') {
            writer.key(name)?;
            match value.parse::<u64>() {
                Ok(number) => writer.u64(number)?,
                Err(_) => writer.string(value)?,
            }
        }
    }
    writer.end_object()?;
    let mut object = writer.into_inner();
    object.push(b'\n')?;
    Ok(object)
}

/// Says on standard error what refuses a line, unless the answer is `ok`: the number and the words behind a `no`, or else the answer.
fn say_refusal<R: Eprint>(rt: &R, answer: &[u8]) -> io::Result<()> {
    let text = text_of(answer).unwrap_or("");
    let Some(why) = text.strip_prefix("no\n") else {
        if text == ControlAnswer::Done.text() {
            return Ok(());
        }
        return eprintln!(rt; "notifyd: {text}");
    };
    match why.split_once(' ') {
        Some((number, words)) => eprintln!(rt; "notifyd: refused ({number}): {words}"),
        None => eprintln!(rt; "notifyd: refused: {why}"),
    }
}

/// Prints an answer in this form. One that has no lines is printed as it came.
pub(crate) fn print_answer<R: Print + Eprint + AllocGlobal>(
    rt: &R,
    answer: &[u8],
    form: Form,
) -> io::Result<()> {
    if form == Form::Quiet {
        return say_refusal(rt, answer);
    }
    let mut writer = io::writer(rt);
    match (form, told_lines(answer)) {
        (Form::Lines, Some(lines)) => writer.write_all(page(answer, lines))?,
        (Form::Json, Some(lines)) => {
            let object = object(rt.alloc(), text_of(lines).unwrap_or(""))?;
            writer.write_all(object.as_slice())?;
        }
        _ => {
            writer.write_all(answer)?;
            writer.write_all(b"\n")?;
        }
    }
    writer.flush()
}
