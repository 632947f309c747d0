//! Scenes of one subscription (RFC 6665): what befalls it, line by line, and the NOTIFY that tells of it, or what it then has.
//!
//! What befalls a subscription takes it and hands back what is left, so that it is let go in one place, at a scene's end.

use crate::packages::table::{Line, error_of, is_answer, line_of, number_of, tell};
use event_headers::read_event;
use sip_read::{Addr, Message, Response, read};
use sip_text::{NoMemory, Text, Values};
use std::alloc::Global;
use std::io;
use subscription::{Notice, Reason, Step, Sub, Usage, Want};

const TAG: &str = "w0-1-76b8e0ada0f13d90";

/// What there is of a subscription.
#[derive(Drop)]
enum Life {
    /// A dialog, and what is asked for in it.
    Asked(Usage, Want),
    Live(Sub),
    /// The dialog of one that is over.
    Over(Usage),
}

/// What befalls it.
#[derive(Clone, Copy)]
enum Cause<'a> {
    /// 3600 seconds are granted, up to this last number.
    Accept(u32),
    /// No time is granted.
    Fetch,
    /// What it watches changes in this second, or is over.
    Change(u64, bool),
    Refresh(Renewal<'a>),
    End(Reason),
    Answer(&'a Response),
    /// A NOTIFY stays unanswered.
    Loss,
}

/// What a refresh brings. The target `same` is none.
#[derive(Clone, Copy)]
struct Renewal<'a> {
    cseq: u32,
    target: &'a str,
    port: u16,
    now: u64,
    granted: u32,
}

/// What a cause leaves, and the NOTIFY that tells of it, if one does.
type Left = (Life, Result<Option<Notice>, NoMemory>);

fn source(port: u16) -> Addr {
    Addr {
        ip: [127, 0, 0, 1],
        port,
    }
}

/// What each scene begins with. A text that no line looks at is empty.
fn asked(alloc: Global) -> Result<Life, NoMemory> {
    let call_id = Text::of(alloc, "c1")?;
    let local_tag = Text::of(alloc, TAG)?;
    let usage = Usage {
        call_id,
        local_tag,
        remote_tag: Text::new(String::new(alloc)),
        local: Text::new(String::new(alloc)),
        remote: Text::new(String::new(alloc)),
        target: Text::new(String::new(alloc)),
        routes: Values::new(Vec::new(alloc)),
        remote_cseq: 1,
    };
    // The event can be read, so what is not is want of memory.
    let Ok(event) = read_event(alloc, b"message-summary") else {
        return Err(NoMemory);
    };
    let want = Want {
        event,
        resource: Text::new(String::new(alloc)),
        to: source(5070),
        max_cseq: 1,
    };
    Ok(Life::Asked(usage, want))
}

/// None where the text lacks one of them.
fn renewal_of(text: &str) -> Option<Renewal<'_>> {
    let mut words = text.split(' ');
    Some(Renewal {
        cseq: number_of(words.next()?)?,
        target: words.next()?,
        port: u16::try_from(number_of(words.next()?)?).ok()?,
        now: u64::from(number_of(words.next()?)?),
        granted: number_of(words.next()?)?,
    })
}

/// The cause that a line tells.
fn cause_of<'a>(line: &Line<'a>) -> Option<Cause<'a>> {
    match (line.word, line.text) {
        ("accept", text) => Some(Cause::Accept(number_of(text)?)),
        ("fetch", _) => Some(Cause::Fetch),
        ("change", text) => {
            let (now, how) = text.split_once(' ')?;
            Some(Cause::Change(u64::from(number_of(now)?), how == "over"))
        }
        ("refresh", text) => Some(Cause::Refresh(renewal_of(text)?)),
        ("end", "timeout") => Some(Cause::End(Reason::Timeout)),
        ("end", "noresource") => Some(Cause::End(Reason::Noresource)),
        ("end", "deactivated") => Some(Cause::End(Reason::Deactivated)),
        ("lost", _) => Some(Cause::Loss),
        _ => None,
    }
}

fn left_of(step: Step) -> (Life, Option<Notice>) {
    match step {
        Step::Live(sub, notice) => (Life::Live(sub), Some(notice)),
        Step::Over(usage, _, notice) => (Life::Over(usage), Some(notice)),
    }
}

/// A dialog becomes a subscription, or is told of once.
fn begun(usage: Usage, want: Want, cause: Cause<'_>) -> (Life, Option<Notice>) {
    match cause {
        Cause::Accept(max_cseq) if max_cseq > 0 => {
            let want = Want { max_cseq, ..want };
            left_of(Sub::accept(usage, want, 0, 3600))
        }
        Cause::Fetch => {
            let (usage, _, notice) = Sub::fetch(usage, want);
            (Life::Over(usage), Some(notice))
        }
        _ => (Life::Asked(usage, want), None),
    }
}

/// The time begins anew.
fn renewed(alloc: Global, sub: Sub, renewal: Renewal<'_>) -> Left {
    let Renewal { now, granted, .. } = renewal;
    if granted == 0 || now > 4294967295 {
        return (Life::Live(sub), Ok(None));
    }
    let target = match renewal.target {
        "same" => Ok(None),
        target => Text::of(alloc, target).map(Some),
    };
    match target {
        Ok(target) => {
            let (life, notice) = left_of(sub.refresh(
                renewal.cseq,
                target,
                source(renewal.port),
                now,
                granted,
            ));
            (life, Ok(notice))
        }
        Err(short) => (Life::Live(sub), Err(short)),
    }
}

/// What it watches changes.
fn changed(sub: Sub, now: u64, is_over: bool) -> (Life, Option<Notice>) {
    let due = sub.due();
    if now >= due || due - now > 4294967295 {
        return (Life::Live(sub), None);
    }
    left_of(sub.changed(now, is_over))
}

/// What befalls a subscription that lives.
fn befallen(alloc: Global, sub: Sub, cause: Cause<'_>) -> Left {
    let (life, notice) = match cause {
        Cause::Refresh(renewal) => return renewed(alloc, sub, renewal),
        Cause::Change(now, is_over) => changed(sub, now, is_over),
        Cause::End(reason) => {
            let (usage, _, notice) = sub.end(reason);
            (Life::Over(usage), Some(notice))
        }
        Cause::Answer(response) => match sub.refused_by(response) {
            Ok(usage) => (Life::Over(usage), None),
            Err(sub) => (Life::Live(sub), None),
        },
        Cause::Loss => {
            let (usage, _) = sub.lost();
            (Life::Over(usage), None)
        }
        Cause::Accept(_) | Cause::Fetch => (Life::Live(sub), None),
    };
    (life, Ok(notice))
}

/// Whether a NOTIFY is the one that is wanted: its word, its number, and the seconds left or the reason.
fn is_notice(alloc: Global, notice: Notice, wanted: &str) -> Result<bool, NoMemory> {
    let Notice { number, phase } = notice;
    let word = phase.word();
    let told = match (phase.expires(), phase.reason(), phase.is_terminated()) {
        (Some(left), None, false) => format!(in alloc; "{word} {number} {left}")?,
        (None, Some(reason), true) => format!(in alloc; "{word} {number} {reason}")?,
        _ => return Ok(false),
    };
    Ok(told.as_str() == wanted)
}

/// Whether this is left of the dialog, and told so. Where no NOTIFY tells of it, it stays or is gone.
fn is_left(
    alloc: Global,
    life: &Life,
    notice: Option<Notice>,
    wanted: &str,
) -> Result<bool, NoMemory> {
    let (usage, word) = match life {
        Life::Asked(usage, _) => (usage, "asked for"),
        Life::Live(sub) => (sub.usage(), "stays"),
        Life::Over(usage) => (usage, "gone"),
    };
    let is_told = match notice {
        Some(notice) => is_notice(alloc, notice, wanted)?,
        None => word == wanted,
    };
    Ok(usage.call_id.is("c1") && is_told)
}

/// What a cause leaves, and whether that is what is wanted.
fn befall(
    alloc: Global,
    life: Life,
    cause: Cause<'_>,
    wanted: &str,
) -> (Life, Result<bool, NoMemory>) {
    let (life, notice) = match life {
        Life::Asked(usage, want) => {
            let (life, notice) = begun(usage, want, cause);
            (life, Ok(notice))
        }
        Life::Live(sub) => befallen(alloc, sub, cause),
        Life::Over(usage) => (Life::Over(usage), Ok(None)),
    };
    let is_so = match notice {
        Ok(notice) => is_left(alloc, &life, notice, wanted),
        Err(short) => Err(short),
    };
    (life, is_so)
}

/// The response to a NOTIFY by its status and the NOTIFY's number. It can be read: None is want of memory.
fn message(alloc: Global, text: &str) -> Option<Message> {
    let (status, number) = text.split_once(' ')?;
    let datagram = format!(in alloc;
        "SIP/2.0 {status} \r\nVia: SIP/2.0/UDP 127.0.0.1:5060\r\nFrom: <sip:alice@127.0.0.1>;tag={TAG}\r\nTo: <sip:alice@127.0.0.1>;tag=f1\r\nCall-ID: c1\r\nCSeq: {number} NOTIFY\r\n\r\n"
    ).ok()?;
    read(alloc, datagram.as_bytes()).ok()
}

/// Whether it has what is wanted.
fn has(life: &Life, line: &Line<'_>) -> bool {
    let Life::Live(sub) = life else {
        return false;
    };
    let wanted = line.wanted;
    match line.word {
        "due" => wanted.parse::<u64>().ok() == Some(sub.due()),
        "cseq" => wanted.parse::<u32>().ok() == Some(sub.usage().remote_cseq),
        "target" => sub.usage().target.is(wanted),
        "port" => match wanted.parse::<u16>() {
            Ok(port) => sub.want().to == source(port),
            Err(_) => false,
        },
        _ => false,
    }
}

/// Whether a response answers one of its NOTIFYs or not, as is wanted.
fn answers(life: &Life, response: &Response, wanted: &str) -> bool {
    let Life::Live(sub) = life else {
        return false;
    };
    is_answer(sub.is_answered_by(response), wanted)
}

/// What a response to the NOTIFY with a number leaves: the text has its status and the number.
fn respond(alloc: Global, life: Life, line: &Line<'_>) -> (Life, Result<bool, NoMemory>) {
    let read = message(alloc, line.text);
    let left = match &read {
        Some(Message::Response(response)) if line.word == "answer" => {
            befall(alloc, life, Cause::Answer(response), line.wanted)
        }
        Some(Message::Response(response)) => {
            let is_so = answers(&life, response, line.wanted);
            (life, Ok(is_so))
        }
        _ => (life, Err(NoMemory)),
    };
    drop(read);
    left
}

/// What a line leaves, and whether it goes as it should.
fn goes(alloc: Global, life: Life, text: &str) -> (Life, Result<bool, NoMemory>) {
    let Some(line) = line_of(text) else {
        return (life, Ok(false));
    };
    if line.word == "answer" || line.word == "answers" {
        return respond(alloc, life, &line);
    }
    match cause_of(&line) {
        Some(cause) => befall(alloc, life, cause, line.wanted),
        None => {
            let is_so = has(&life, &line);
            (life, Ok(is_so))
        }
    }
}

/// Plays a scene.
pub(crate) fn tell_scene(rt: &(impl Print + AllocGlobal), scene: &str) -> io::Result<()> {
    let (title, lines) = scene.split_once('\n').unwrap_or((scene, ""));
    println!(rt; "- {title}")?;
    let mut life = asked(rt.alloc()).map_err(error_of)?;
    let mut told = Ok(());
    for text in lines.lines() {
        let (left, is_so) = goes(rt.alloc(), life, text);
        life = left;
        told = tell(rt, text, is_so);
        if told.is_err() {
            break;
        }
    }
    drop(life);
    told
}
