//! Scenes of a package: what it is told and asked, line by line, and what it must answer.
use crate::packages::closings::{has_closing, offer};
use crate::packages::making::{change_of, mailboxes};
use crate::packages::table::{BAR, Line, error_of, is_answer, line_of, meant, tell};
use package::{Change, ClosingCell, MailChange, Outcome, Package, Progress};
use refer::Transfers;
use sip_text::NoMemory;
use std::alloc::Global;
use std::io;
use std::sync::Arc;

/// Whether this is the body that is wanted, or one of the length that is; `none` where there is none.
fn is_body(alloc: Global, body: &Option<Vec<u8>>, line: &Line<'_>) -> Result<bool, NoMemory> {
    let Some(body) = body else {
        return Ok(line.wanted == "none");
    };
    if line.word == "length" {
        return Ok(line.wanted.parse::<usize>().ok() == Some(body.len()));
    }
    Ok(meant(alloc, line.wanted)?.as_bytes() == body.as_slice())
}

/// Whether the package tells of the resource what is wanted.
fn tells<P: Package>(alloc: Global, package: &P, line: &Line<'_>) -> Result<bool, NoMemory> {
    let body = package.body(alloc, line.text)?;
    let is_so = is_body(alloc, &body, line);
    drop(body);
    is_so
}

/// Whether the copy of a mail change gives what was handed in: each count by its own name, and all of them.
fn mail_gives(alloc: Global, mail: &MailChange, wanted: &str) -> Result<bool, NoMemory> {
    let copy = mail.copy(alloc)?;
    let counts = [
        copy.new_count(),
        copy.old_count(),
        copy.urgent_new(),
        copy.urgent_old(),
    ];
    let given = (copy.mailbox(), copy.class(), counts, copy.counts());
    let told = format!(in alloc; "{given:?}")?;
    Ok(told.as_str() == wanted)
}

/// Whether the copy of a step gives what was handed in.
fn step_gives(alloc: Global, step: &Progress, wanted: &str) -> Result<bool, NoMemory> {
    let copy = step.copy(alloc)?;
    let given = (copy.tag(), copy.code(), copy.reason());
    let told = format!(in alloc; "{given:?}")?;
    Ok(told.as_str() == wanted)
}

/// Whether the package answers a change as is wanted. No mail takes memory, and no forgetting.
fn answers<P: Package>(
    alloc: Global,
    package: &mut P,
    change: &Change,
    wanted: &str,
) -> Result<bool, NoMemory> {
    match package.change(alloc, change) {
        Ok(Outcome::Changed) => Ok(wanted == "changed"),
        Ok(Outcome::Same) => Ok(wanted == "same"),
        Ok(Outcome::Unknown) => Ok(wanted == "unknown"),
        Err(NoMemory) => match change {
            Change::Mail(_) | Change::Forget(_) => Ok(false),
            Change::Begin(_) | Change::Step(_) => Err(NoMemory),
        },
    }
}

/// Whether a change says what is wanted: the package that it is `for`, or what its copy `gives`.
fn says(alloc: Global, change: &Change, line: &Line<'_>) -> Result<bool, NoMemory> {
    match change {
        _ if line.word == "for" => Ok(change.event() == line.wanted),
        Change::Mail(mail) => mail_gives(alloc, mail, line.wanted),
        Change::Step(step) => step_gives(alloc, step, line.wanted),
        Change::Begin(_) | Change::Forget(_) => Ok(false),
    }
}

/// Whether a change goes as it should: it is refused or answered by the package, or only says what it is.
fn changes<P: Package>(alloc: Global, package: &mut P, line: &Line<'_>) -> Result<bool, NoMemory> {
    let is_said = line.word == "for" || line.word == "gives";
    let (word, text) = match line.text.split_once(' ') {
        Some((word, text)) if is_said => (word, text),
        _ => (line.word, line.text),
    };
    let change = change_of(alloc, word, text)?;
    let is_so = match &change {
        Some(change) if is_said => says(alloc, change, line),
        Some(change) => answers(alloc, package, change, line.wanted),
        None => Ok(line.wanted == "refused"),
    };
    drop(change);
    is_so
}

/// Whether a line goes as it should.
fn goes<P: Package>(
    alloc: Global,
    package: &mut P,
    cell: &ClosingCell,
    text: &str,
) -> Result<bool, NoMemory> {
    let Some(line) = line_of(text) else {
        return Ok(false);
    };
    match line.word {
        "body" | "length" => tells(alloc, package, &line),
        "holds" => Ok(is_answer(package.holds(line.text), line.wanted)),
        "over" => Ok(is_answer(package.is_over(line.text), line.wanted)),
        "name" => Ok(package.event() == line.wanted),
        "type" => Ok(package.content_type() == line.wanted),
        "closing" => has_closing(alloc, cell, line.wanted),
        "offer" => offer(alloc, cell, line.text, line.wanted),
        _ => changes(alloc, package, &line),
    }
}

/// Whether the line of this number goes as it should, once more where a growth is refused. That leaves all as it was: a body
/// that the line before asks for is that body still.
fn goes_at_last<P: Package>(
    alloc: Global,
    package: &mut P,
    cell: &ClosingCell,
    lines: &str,
    number: usize,
) -> Result<bool, NoMemory> {
    let text = lines.lines().nth(number).unwrap_or("");
    let is_so = goes(alloc, package, cell, text);
    if is_so.is_ok() {
        return is_so;
    }
    let before = lines.lines().nth(number.saturating_sub(1)).unwrap_or("");
    let is_left = !before.starts_with("body") || goes(alloc, package, cell, before)?;
    Ok(is_left && goes(alloc, package, cell, text)?)
}

/// Plays the lines of a scene, and lets the package go.
fn play<P: Package>(
    rt: &impl Print,
    alloc: Global,
    mut package: P,
    cell: &ClosingCell,
    lines: &str,
) -> io::Result<()> {
    let mut number = 0usize;
    for text in lines.lines() {
        let is_so = goes_at_last(alloc, &mut package, cell, lines, number);
        tell(rt, text, is_so)?;
        number = number.saturating_add(1);
    }
    Ok(())
}

/// A scene: its title, the package that is made with the closing that it leaves, and what is done and asked.
#[derive(Clone, Copy)]
struct Scene<'a> {
    title: &'a str,
    made: &'a str,
    left: &'a str,
    lines: &'a str,
}

/// None where it lacks one of these.
fn scene_of(text: &str) -> Option<Scene<'_>> {
    let (title, rest) = text.split_once('\n')?;
    let (first, lines) = rest.split_once('\n')?;
    let (made, left) = first.split_once(BAR)?;
    Some(Scene {
        title,
        made,
        left,
        lines,
    })
}

/// Plays a scene with the package that it names, as it is or in a box. Its closing goes to the cell that is shared.
fn play_scene(
    rt: &(impl Print + AllocGlobal),
    scene: Scene<'_>,
    is_boxed: bool,
    cell: &ClosingCell,
    shared: Arc<ClosingCell>,
) -> io::Result<()> {
    let alloc = rt.alloc();
    match scene.made.split_once(' ') {
        Some((_, names)) => {
            let package = mailboxes(alloc, names, shared).map_err(error_of)?;
            if is_boxed {
                let boxed: Box<dyn Package> = Box::new(alloc, package)?;
                play(rt, alloc, boxed, cell, scene.lines)
            } else {
                play(rt, alloc, package, cell, scene.lines)
            }
        }
        None => {
            let package = Transfers::new(alloc, shared).map_err(error_of)?;
            if is_boxed {
                let boxed: Box<dyn Package> = Box::new(alloc, package)?;
                play(rt, alloc, boxed, cell, scene.lines)
            } else {
                play(rt, alloc, package, cell, scene.lines)
            }
        }
    }
}

/// Lets go of a package whose closing goes to this cell.
fn let_go(alloc: Global, cell: Arc<ClosingCell>) -> Result<(), NoMemory> {
    drop(Transfers::new(alloc, cell)?);
    Ok(())
}

/// Plays a scene and looks at the closing that its package leaves. A second package then finds the cell full.
fn tell_scene(rt: &(impl Print + AllocGlobal), scene: Scene<'_>, is_boxed: bool) -> io::Result<()> {
    let alloc = rt.alloc();
    let how = if is_boxed { ", in a box" } else { "" };
    println!(rt; "- {}{how}", scene.title)?;
    let cell = ClosingCell::new(alloc).map_err(error_of)?;
    play_scene(rt, scene, is_boxed, &cell, cell.clone()?)?;
    let_go(alloc, cell.clone()?).map_err(error_of)?;
    tell(rt, scene.left, has_closing(alloc, &cell, scene.left))
}

/// Plays a scene twice, with the package as it is and in a box.
pub(crate) fn tell_twice(rt: &(impl Print + AllocGlobal), text: &str) -> io::Result<()> {
    let Some(scene) = scene_of(text) else {
        return println!(rt; "NO SCENE: {text}");
    };
    tell_scene(rt, scene, false)?;
    tell_scene(rt, scene, true)
}
