//! Scenes of NOTIFYs that are sent again until they are answered (RFC 3261 section 17.1.2.2). Moments are milliseconds.

use crate::packages::table::{Line, error_of, line_of, number_of, tell};
use sip_text::{Addr, NoMemory, Octets, Text};
use std::alloc::Global;
use std::io;
use transactions::{Allowance, Transactions, Unkept};

/// What a line tells of a NOTIFY: its tag, its number, and the moment at which it is sent or the status that answers it.
#[derive(Clone, Copy)]
struct NotifyLine<'a> {
    tag: &'a str,
    number: u32,
    last: u32,
}

/// None where the text lacks one of them.
fn named(text: &str) -> Option<NotifyLine<'_>> {
    let mut words = text.split(' ');
    Some(NotifyLine {
        tag: words.next()?,
        number: number_of(words.next()?)?,
        last: number_of(words.next()?)?,
    })
}

/// What comes of it that a NOTIFY was sent for the first time.
fn keep(
    alloc: Global,
    open: &mut Transactions,
    sent: NotifyLine<'_>,
) -> Result<&'static str, NoMemory> {
    let to = Addr {
        ip: [127, 0, 0, 1],
        port: 5070,
    };
    let tag = Text::of(alloc, sent.tag)?;
    let bytes = Octets::new(b"NOTIFY".to_vec(alloc)?);
    let kept = open.keep(u64::from(sent.last), tag, sent.number, to, bytes);
    Ok(match kept {
        Ok(()) => "kept",
        Err(Unkept::Twice) => "twice",
        Err(Unkept::Full) => "full",
        Err(Unkept::Many) => "many",
    })
}

/// What becomes of all that are open while nobody answers: the moments of the repeats, and those at which one is given up.
fn lives(alloc: Global, open: &mut Transactions, first: u64) -> Result<String, NoMemory> {
    let mut told = String::new(alloc);
    for _ in 0..100 {
        let Some(moment) = open.next_moment() else {
            break;
        };
        let is_over = match open.due(moment) {
            Some(due) => due.is_over(moment),
            None => false,
        };
        let end = if is_over { " over" } else { "" };
        let behind = moment.saturating_sub(first);
        let word = format!(in alloc; "{behind}{end}, ")?;
        told.push_str(word.as_str())?;
        if moment < 1 << 62 {
            open.turn(moment);
        }
    }
    Ok(told)
}

/// The moment of the next alarm.
fn next(alloc: Global, open: &Transactions) -> Result<String, NoMemory> {
    Ok(match open.next_moment() {
        Some(moment) => format!(in alloc; "{moment}")?,
        None => "never".to_string(alloc)?,
    })
}

/// The NOTIFY that is due at this moment.
fn due(alloc: Global, open: &Transactions, now: u64) -> Result<String, NoMemory> {
    Ok(match open.due(now) {
        Some(due) => format!(in alloc; "{} {}", due.tag.as_str(), due.number)?,
        None => "none".to_string(alloc)?,
    })
}

/// What comes of a line that has a moment behind its word.
fn turned(
    alloc: Global,
    open: &mut Transactions,
    line: &Line<'_>,
) -> Result<Option<String>, NoMemory> {
    let Some(now) = number_of(line.text) else {
        return Ok(None);
    };
    let now = u64::from(now);
    match line.word {
        "due" => Ok(Some(due(alloc, open, now)?)),
        "lives" => Ok(Some(lives(alloc, open, now)?)),
        "turn" => {
            open.turn(now);
            Ok(Some(next(alloc, open)?))
        }
        _ => Ok(None),
    }
}

/// What comes of a line.
fn told(
    alloc: Global,
    open: &mut Transactions,
    line: &Line<'_>,
) -> Result<Option<String>, NoMemory> {
    match (line.word, named(line.text)) {
        ("keep", Some(sent)) => Ok(Some(keep(alloc, open, sent)?.to_string(alloc)?)),
        ("answer", Some(NotifyLine { tag, number, last })) => {
            let Ok(status) = u16::try_from(last) else {
                return Ok(None);
            };
            open.answer(tag, number, status);
            let left = open.len();
            Ok(Some(format!(in alloc; "{left} open")?))
        }
        _ => turned(alloc, open, line),
    }
}

/// Whether a line goes as it should.
fn goes(alloc: Global, open: &mut Transactions, text: &str) -> Result<bool, NoMemory> {
    let Some(line) = line_of(text) else {
        return Ok(false);
    };
    let told = told(alloc, open, &line)?;
    Ok(match &told {
        Some(told) => told.as_str().trim_end_matches(", ") == line.wanted,
        None => false,
    })
}

/// How many NOTIFYs may be open: of all, and behind a space of one tag, if fewer.
fn allowance(text: &str) -> Allowance {
    let (all, per_tag) = text.split_once(' ').unwrap_or((text, text));
    Allowance {
        all: number_of(all).unwrap_or(0),
        per_tag: number_of(per_tag).unwrap_or(0),
    }
}

/// Plays a scene: its title, how many NOTIFYs may be open, and its lines.
pub(crate) fn tell_scene(rt: &(impl Print + AllocGlobal), scene: &str) -> io::Result<()> {
    let (title, lines) = scene.split_once('\n').unwrap_or((scene, ""));
    println!(rt; "- {title}")?;
    let (room, lines) = lines.split_once('\n').unwrap_or((lines, ""));
    let mut open = Transactions::new(rt.alloc(), allowance(room)).map_err(error_of)?;
    for text in lines.lines() {
        let is_so = goes(rt.alloc(), &mut open, text);
        tell(rt, text, is_so)?;
    }
    Ok(())
}
