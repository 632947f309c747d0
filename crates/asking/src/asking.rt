//! `notifyd tell`.
ghost use Rattle.std.specs.Prelude.{◌≡◌, ◌≢◌, ◌⊎◌, IfOk, OnErr, IsErr, codes, true, take, option_map};
ghost use Rattle.control_lines.specs.Asking.{status_of as outcome_status};
ghost use Rattle.arguments.specs.declared.tell.TellCall.{TellCall};
ghost use Rattle.arguments.specs.declared.lines_call.LinesCall.{LinesCall};
ghost use Rattle.arguments.specs.LinesCall.{IsLinesCall};
ghost use Rattle.arguments.specs.Choices.{loopback};
ghost use Rattle.arguments.specs.Tell.{IsTellCall};
ghost use Rattle.plans.specs.Plans.{reached};
ghost use Rattle.asking.specs.Telling.{TellsLine, TellsPage, IsAskedAs, AskForNoObject, asks_json, behind_json};
ghost use Rattle.asking.specs.Telling as spec;
ghost use Rattle.asking.specs.Input.{TellsInput};

use crate::answers::{Form, next_line, next_place, print_answer};
use crate::input_telling::tell_input;
use arguments::{ExitStatus, TellCall, TellError, parse_lines_call, parse_tell};
use control_lines::{ControlAnswer, Speaker, SpeakerFault, TellOutcome, UdpSpeaker, tell_line};
use plans::is_too_urgent;
use sip_text::{Addr, NoMemory, Text};
use std::alloc::Global;
use std::io;
use std::io::Input;
use std::net::Net;
use std::random::RandomSource;
use std::rt::Clock;
use std::sync::Wait;

/// Where a service is told, unless it is said: 127.0.0.1:5061.
pub(crate) const CONTROL: Addr = Addr {
    ip: [127, 0, 0, 1],
    port: 5061,
};

/// The room for an answer: as long as a datagram may be.
const ROOM: usize = 65536;

/// How many pages are asked for at most.
const PAGES: u32 = 100_000;

/// So many bytes at the beginning of the room, or all.
fn received(room: &[u8], length: usize) -> &[u8]
    ensures { result.now ≡ take length room.now }
{
    &room[..length.min(room.len())]
}

/// The answer, which stands at the beginning of the room, if one came.
fn answer_in(outcome: TellOutcome, room: &[u8]) -> Option<&[u8]>
    ensures { option_map (λ a. a.now) result ≡ spec.answer_in outcome room.now }
{
    match outcome {
        TellOutcome::Done(length) | TellOutcome::Refused(length) => Some(received(room, length)),
        TellOutcome::Silent | TellOutcome::Fault => None,
    }
}

/// The word that says where an answer tells more, if one came.
fn place_in(alloc: Global, answer: Option<&[u8]>) -> Result<Option<Text>, NoMemory>
    ensures { IfOk result (spec.IsNext (option_map (λ a. a.now) answer.entry)) }
{
    match answer {
        Some(answer) => next_place(alloc, answer),
        None => Ok(None),
    }
}

/// Whether the answer that came is `bad line`.
fn is_bad_line(answer: Option<&[u8]>) -> bool
    ensures { result ≡ spec.is_bad_line (option_map (λ a. a.now) answer.entry) }
{
    match answer {
        Some(answer) => answer == ControlAnswer::BadLine.text().as_bytes(),
        None => false,
    }
}

/// Prints the answer, or says on standard error why none came.
fn print_outcome<R: Print + Eprint + AllocGlobal>(
    rt: &R,
    outcome: TellOutcome,
    answer: Option<&[u8]>,
    form: Form,
) -> io::Result<()> {
    match answer {
        Some(answer) => print_answer(rt, answer, form),
        None if outcome == TellOutcome::Fault => eprintln!(rt; "notifyd: device fault"),
        None => eprintln!(rt; "notifyd: nobody answered"),
    }
}

/// The exit status of what came of a line: 3 also where that couldn't be printed.
fn status_of(outcome: TellOutcome, printed: io::Result<()>) -> u8
    ensures { (result ≡ outcome_status outcome) ⊎ (result ≡ 3) }
{
    match printed {
        Ok(()) => outcome.status(),
        Err(_) => ExitStatus::DeviceFault.code(),
    }
}

/// A speaker for the service that a call names, or for the one at 127.0.0.1:5061. For a RELOAD it is one that has more patience.
fn new_speaker<R: Wait + Net>(
    rt: &R,
    call: &TellCall,
    form: Form,
) -> Result<UdpSpeaker, SpeakerFault>
    ensures service { IfOk result (λ s. s.service ≡ reached call.now.control (loopback 5061)) }
{
    let service = call.control.unwrap_or(CONTROL);
    match form {
        Form::Quiet => UdpSpeaker::to_reload(rt, service),
        Form::Whole | Form::Lines | Form::Json => UdpSpeaker::to(rt, service),
    }
}

/// What came of a line.
#[derive(Drop)]
pub struct Told {
    /// The exit status.
    pub status: u8,
    /// The word that says where more is told, if there is memory for it.
    pub more: Result<Option<Text>, NoMemory>,
    /// Whether the answer was `bad line`.
    pub is_bad: bool,
}

/// Asks a line by this speaker, and prints what came of it. The exit status is 3 also where that couldn't be printed.
pub fn ask_line<R: Wait + Print + Eprint + AllocGlobal, S: Speaker>(
    rt: &R,
    speaker: &mut S,
    line: &Text,
    form: Form,
) -> Told
    // This line is asked and no other, and all that is told is of what came of it.
    ensures asked { TellsLine line.now
        (record { asked = S.asked speaker.old; turns = S.turns speaker.old })
        (record { asked = S.asked speaker.new; turns = S.turns speaker.new }) result }
{
    let mut room = [0; ROOM];
    let outcome = tell_line(rt, speaker, line.as_str().as_bytes(), &mut room);
    let answer = answer_in(outcome, &room);
    let printed = print_outcome(rt, outcome, answer, form);
    Told {
        status: status_of(outcome, printed),
        more: place_in(rt.alloc(), answer),
        is_bad: is_bad_line(answer),
    }
}

/// The line behind a token of these bytes.
fn tokened(alloc: Global, bytes: [u8; 8], line: &Text) -> Result<Text, NoMemory>
    ensures { IfOk result (λ asked. asked ≡ spec.tokened bytes line.now) }
{
    let digits = hex::encode(alloc, bytes)?;
    let mut text = String::from_str(alloc, "@")?;
    text.push_str(digits.as_str())?;
    text.push_str(" ")?;
    text.push_str(line.as_str())?;
    Ok(Text::new(text))
}

/// Eight random octets for a token. None: the system gives no randomness.
fn new_token<R: RandomSource>(rt: &R) -> Option<[u8; 8]> {
    let mut bytes = [0; 8];
    match rt.fill_bytes(&mut bytes) {
        Ok(()) => Some(bytes),
        Err(_) => None,
    }
}

/// The line behind this token, so that it is done once however often it is sent, or as it is where there is none.
fn with_token(alloc: Global, token: Option<[u8; 8]>, line: &Text) -> Result<Text, NoMemory>
    ensures token { IfOk result (λ asked. asked ≡ spec.asked_as token line.now) }
    ensures asked { IfOk result (IsAskedAs line.now) }
{
    match token {
        Some(bytes) => tokened(alloc, bytes, line),
        None => line.copy(alloc),
    }
}

/// Says that there is no memory. Answers the exit status.
fn say_no_memory<R: Eprint>(rt: &R) -> u8
    ensures { result ≡ 4 }
{
    let _ = eprintln!(rt; "notifyd: out of memory");
    ExitStatus::OutOfMemory.code()
}

/// Asks a line behind a new token by this speaker, and prints what came of it.
pub fn ask_page<R: Wait + RandomSource + Print + Eprint + AllocGlobal, S: Speaker>(
    rt: &R,
    speaker: &mut S,
    line: &Text,
    form: Form,
) -> Result<Told, NoMemory>
    ensures { IfOk result (λ told. TellsPage line.now
        (record { asked = S.asked speaker.old; turns = S.turns speaker.old })
        (record { asked = S.asked speaker.new; turns = S.turns speaker.new }) told) }
{
    let token = new_token(rt);
    let asked = with_token(rt.alloc(), token, line)?;
    Ok(ask_line(rt, speaker, &asked, form))
}

/// The line that asks for the page behind this one, if there is one.
fn following(
    alloc: Global,
    line: &Text,
    more: Result<Option<Text>, NoMemory>,
) -> Result<Option<Text>, NoMemory>
    ensures next { IfOk more (λ place. IfOk result (λ next. next ≡ spec.following line.now place)) }
    ensures none { OnErr more (IsErr result) }
{
    match more? {
        Some(place) => next_line(alloc, line, &place),
        None => Ok(None),
    }
}

/// Says on standard error why a line is bad that has the form of a MAIL line.
fn explain<R: Eprint + AllocGlobal>(rt: &R, line: &Text) -> Result<(), NoMemory> {
    if is_too_urgent(rt.alloc(), line.as_str())? {
        let _ = eprintln!(rt;
            "notifyd: more are urgent than there are (<new> <old> <urgent new> <urgent old>)"
        );
    }
    Ok(())
}

/// Asks a line by a speaker of its own: so no late answer to another line is taken for one to this.
fn ask_anew<R: Wait + Net + RandomSource + Print + Eprint + AllocGlobal>(
    rt: &R,
    call: &TellCall,
    line: &Text,
    form: Form,
) -> Result<Told, NoMemory>
    ensures { IfOk result (λ told. (told.status ≡ 0) ⊎ (told.status ≡ 1) ⊎ (told.status ≡ 3)) }
{
    let Ok(mut speaker) = new_speaker(rt, call, form) else {
        let _ = eprintln!(rt; "notifyd: device fault");
        return Ok(Told {
            status: ExitStatus::DeviceFault.code(),
            more: Ok(None),
            is_bad: false,
        });
    };
    let told = ask_page(rt, &mut speaker, line, form)?;
    if told.is_bad {
        explain(rt, line)?;
    }
    Ok(told)
}

/// Asks the line of a call and prints the answer, and so for each page that follows. Answers the exit status: that of the last page, or
/// 3 where there are more than 100,000.
fn ask_pages<R: Wait + Net + RandomSource + Print + Eprint + AllocGlobal>(
    rt: &R,
    call: &TellCall,
    form: Form,
) -> Result<u8, NoMemory>
    ensures { IfOk result (λ status. (status ≡ 0) ⊎ (status ≡ 1) ⊎ (status ≡ 3)) }
{
    let Told {
        mut status,
        mut more,
        ..
    } = ask_anew(rt, call, &call.line, form)?;
    let mut line = call.line.copy(rt.alloc())?;
    'pages: for _page in 1..PAGES {
        let Some(next) = following(rt.alloc(), &line, more)? else {
            return Ok(status);
        };
        let told = ask_anew(rt, call, &next, form)?;
        line = next;
        status = told.status;
        more = told.more;
    }
    Ok(ExitStatus::DeviceFault.code())
}

/// Sends the line, and prints the answer.
fn ask<R: Wait + Net + RandomSource + Print + Eprint + AllocGlobal>(
    rt: &R,
    call: &TellCall,
    is_json: bool,
) -> u8
    ensures status { (result ≡ 0) ⊎ (result ≡ 1) ⊎ (result ≡ 3) ⊎ (result ≡ 4) }
{
    match ask_pages(rt, call, Form::of(&call.line, is_json)) {
        Ok(status) => status,
        Err(_) => say_no_memory(rt),
    }
}

/// The words behind `--json`, where that is the first, and whether it is.
fn cut_json(words: &[Text]) -> (bool, &[Text])
    ensures is_json { result.0 ≡ asks_json words.now }
    ensures words { result.1.now ≡ behind_json words.now }
{
    match words {
        [first, rest @ ..] if first.is("--json") => (true, rest),
        _ => (false, words),
    }
}

/// What the words ask for. An object is made of the answer to STATUS alone: of another answer several lines may have one name.
fn asked_call(alloc: Global, words: &[Text], is_json: bool) -> Result<TellCall, TellError>
    ensures call { IfOk result (IsTellCall words.now) }
    ensures object { is_json ≡ true → IfOk result (λ call. call.line ≡ codes "STATUS") }
{
    let call = parse_tell(alloc, words)?;
    if is_json && !call.line.is("STATUS") {
        return Err(TellError::Bad);
    }
    Ok(call)
}

/// Sends the line that the words ask for, and prints the answer.
fn tell_line_of<R: Wait + Net + RandomSource + Print + Eprint + AllocGlobal>(
    rt: &R,
    words: &[Text],
    is_json: bool,
) -> u8
    ensures status { (result ≡ 0) ⊎ (result ≡ 1) ⊎ (result ≡ 3) ⊎ (result ≡ 4) }
    ensures no_call { ((call : TellCall) → ¬ IsTellCall words.now call) → (result ≡ 1) ⊎ (result ≡ 4) }
    ensures no_object { is_json ≡ true → ((call : TellCall) → IsTellCall words.now call → call.line ≢ codes "STATUS")
        → (result ≡ 1) ⊎ (result ≡ 4) }
{
    match asked_call(rt.alloc(), words, is_json) {
        Ok(call) => ask(rt, &call, is_json),
        Err(error) => {
            let _ = eprintln!(rt; "notifyd: {error}");
            match error {
                TellError::Bad => ExitStatus::BadArguments.code(),
                TellError::NoMemory => ExitStatus::OutOfMemory.code(),
            }
        }
    }
}

/// `notifyd tell` with these words behind it. Answers the exit status: 0 where the answer is `ok`, 1 where it is another one or
/// the words are no call, 3 where nobody answered, a socket failed or what came couldn't be printed, 4 where memory ran out.
/// Behind `--json` the lines of the answer to STATUS are printed as one JSON object; another line is no call there. Where the words
/// ask for `-`, the lines of standard input are told: [`telling::Telling::tell_lines`] says which, and how that ends.
pub fn tell<R>(rt: &R, words: &[Text]) -> u8
where
    R: Wait + Net + Clock + Input + RandomSource + Print + Eprint + AllocGlobal,
    ensures status { (result ≡ 0) ⊎ (result ≡ 1) ⊎ (result ≡ 3) ⊎ (result ≡ 4) }
    ensures no_call { ((call : TellCall) → ¬ IsTellCall (behind_json words.now) call)
        → ((call : LinesCall) → ¬ IsLinesCall words.now call) → (result ≡ 1) ⊎ (result ≡ 4) }
    ensures no_object { AskForNoObject words.now → (result ≡ 1) ⊎ (result ≡ 4) }
    ensures input { (call : LinesCall) → IsLinesCall words.now call → TellsInput call result }
{
    if let Some(call) = parse_lines_call(words) {
        return tell_input(rt, call);
    }
    let (is_json, line) = cut_json(words);
    tell_line_of(rt, line, is_json)
}
