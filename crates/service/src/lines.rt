//! Control lines, each answered.
ghost use Rattle.std.specs.Prelude.{◌≡◌, true, is_some, List, [], Some, IfOk, IfErr, OnOk, OnErr, max};
ghost use Rattle.std.specs.Int.NonZero.{non_zero_u32_get};
ghost use Rattle.circular_buffer.specs.Buffer.{buffer};
ghost use Rattle.transport.specs.Wires.{Grows, datagram};
ghost use Rattle.crew.specs.Kept.{SameSeats};
ghost use Rattle.control_lines.specs.Lines.{answer_text};
ghost use Rattle.control_lines.specs.declared.answer.ControlAnswer.{ControlAnswer};
ghost use Rattle.control_lines.specs.declared.question.Question.TheVariants as questions;
ghost use Rattle.service.specs.declared.lines.Handled.TheVariants as did;
ghost use Rattle.service.specs.Taken as spec;
ghost use Rattle.service.specs.Taken.{Line, IsSent, IsChanged, IsDone, IsFound, IsReload, IsTaken, IsNotTakenIn, Offers, IsAnswered, WereTold, datagrams_of, desk_then, AreTaken, AreAnswered, AreTurnedAway, operators_in, seen};
ghost use Rattle.feeds.specs.Fed.{is_fault};
ghost use Rattle.service.specs.Listening.{IsDeafAsTold};

use crate::listening::{Came, Listening, ROOM};
use crate::operators::{Operators, is_known, make, makes, tell, tell_each};
use crate::reload::{Caller, Reloading};
use crate::reports::{counters, dumped, home, inquiry, refusal, shown, watched};
use crate::shared::{Counter, Shared};
use admission::Network;
use control_lines::{
    AnsweredLines, Asked, ControlAnswer, Question, Token, ToldCounts, cut_token, hear_line,
    is_answer,
};
use crew::Port;
use feeds::{FeedEnd, send_event};
use notifier_model::Event;
use package::Change;
use sip_text::{Addr, NoMemory, Text};
use std::alloc::Global;
use std::num::NonZeroU32;
use std::rt::Clock;
use std::sync::Wait;
use transport::{Ear, Wire};

/// How many answers to lines with a token are kept.
pub const KEPT: usize = 4096;

/// What is done with a control line.
#[derive(Clone, Copy)]
pub enum Handled {
    /// It is answered so, and the service goes on.
    Answered(ControlAnswer),
    /// It came before, with the same token, and is answered so again: in this run, or it is the RELOAD by which this run began.
    Repeated(ControlAnswer),
    /// It gets no answer: it is one itself, or a RELOAD whose files are still being read, so who sent it asks again.
    Unanswered,
    /// It came from elsewhere than lines are heard from: it isn't read, and gets no answer.
    Foreign,
    /// The counters were asked for.
    Counters,
    /// What the mailbox at this place was last told was asked for.
    Shown(usize),
    /// What the mailboxes from this place on were last told was asked for.
    Dumped(usize),
    /// Who watches the mailbox at this place, or any, was asked for, from this place in the list of rows on.
    Watched(Option<usize>, u64),
    /// A RELOAD is refused: the reason is kept for its token.
    Refused,
    /// The service is to close.
    Closing,
    /// The files of a RELOAD are good: the run is to end, and the next one answers.
    Ending,
    /// A worker is gone.
    Gone,
}

/// How the taking of lines ends after this, if it does.
fn end_after(done: Handled) -> Option<FeedEnd>
    ensures { result ≡ spec.end_after done }
{
    match done {
        Handled::Closing | Handled::Ending => Some(FeedEnd::Done),
        Handled::Gone => Some(FeedEnd::Gone),
        Handled::Answered(_)
        | Handled::Repeated(_)
        | Handled::Unanswered
        | Handled::Foreign
        | Handled::Counters
        | Handled::Shown(_)
        | Handled::Dumped(_)
        | Handled::Watched(_, _)
        | Handled::Refused => None,
    }
}

/// Sends an event that a line told.
fn send<R: Wait>(rt: &R, port: &mut Port, event: Event) -> Handled
    requires still_open { port.old.is_open ≡ true }
    ensures done { IsSent port.old event port.new result }
    ensures seats { SameSeats port.old port.new }
{
    if send_event(rt, port, event) {
        Handled::Answered(ControlAnswer::Done)
    } else {
        Handled::Gone
    }
}

/// Who asks by a control line: what the threads of its service share, who sent the line, and how many mailboxes the service has at most where
/// MAIL lines make some. 0: none does.
#[derive(Clone, Copy)]
pub struct Asking<'a> {
    pub shared: &'a Shared,
    pub caller: Caller,
    pub most: u32,
}

/// Has the service have the mailbox of a change, if it is of one. One that it makes is known to lines at once, and to phones by the next run,
/// which begins soon. An error is the answer where it neither has it nor makes it.
#[tactic(auto, using(crate::proofs::Doing::known_made, crate::proofs::Doing::known_taken, crate::proofs::Doing::made_taken, crate::proofs::Doing::neither_taken))]
fn take_in<R: Wait + Clock>(
    rt: &R,
    asking: Asking<'_>,
    told: &mut ToldCounts,
    change: &Change,
) -> Result<(), ControlAnswer>
    ensures taken { OnOk result (spec.is_taken_in asking.entry.most told.old change.now ≡ true) }
    ensures made { OnOk result (told.new ≡ spec.made change.now told.old) }
    ensures refused { IfErr result (IsNotTakenIn asking.entry.most told.old change.now) }
    ensures unchanged { OnErr result (told.new ≡ told.old) }
{
    if is_known(told, change) {
        return Ok(());
    }
    let shared = asking.shared;
    if !makes(asking.most, told, change) {
        shared.count_unknown_mailbox();
        return Err(ControlAnswer::UnknownMailbox);
    }
    // What is told of it must outlive this run.
    if !shared.may_make(rt, change) {
        return Err(ControlAnswer::NoMemory);
    }
    let Ok(()) = make(shared.alloc(), told, change) else {
        return Err(ControlAnswer::NoMemory);
    };
    shared.await_mailbox(rt);
    Ok(())
}

/// Notes and sends a change. That of a mailbox which the service neither has nor makes is dropped.
fn send_change<R: Wait + Clock>(
    rt: &R,
    asking: Asking<'_>,
    port: &mut Port,
    told: &mut ToldCounts,
    change: Change,
) -> Handled
    requires still_open { port.old.is_open ≡ true }
    ensures done { IsChanged asking.entry.most change told.old told.new port.old port.new result }
    ensures seats { SameSeats port.old port.new }
{
    if let Err(answer) = take_in(rt, asking, told, &change) {
        return Handled::Answered(answer);
    }
    tell(told, &change);
    match Event::of(change) {
        Some(event) => send(rt, port, event),
        None => Handled::Answered(ControlAnswer::BadLine),
    }
}

/// What SHOW asks for.
fn find_shown(told: &ToldCounts, mailbox: &Text) -> Handled
    ensures { IsFound told.now (questions.Show mailbox.now) result }
{
    match told.place(mailbox.as_str()) {
        Some(place) => Handled::Shown(place),
        None => Handled::Answered(ControlAnswer::UnknownMailbox),
    }
}

/// What DUMP asks for that names a mailbox.
fn find_dumped(told: &ToldCounts, mailbox: &Text) -> Handled
    ensures { IsFound told.now (questions.Dump (Some mailbox.now)) result }
{
    match told.behind(mailbox.as_str()) {
        Some(place) => Handled::Dumped(place),
        None => Handled::Answered(ControlAnswer::UnknownMailbox),
    }
}

/// What WATCHERS asks for.
#[tactic(auto, using(crate::proofs::Paging::found_any, crate::proofs::Paging::found_one, crate::proofs::Paging::found_none))]
fn find_watched(told: &ToldCounts, mailbox: &Option<Text>, from: u64) -> Handled
    ensures { IsFound told.now (questions.Watchers mailbox.now from) result }
{
    let Some(mailbox) = mailbox else {
        return Handled::Watched(None, from);
    };
    match told.place(mailbox.as_str()) {
        Some(place) => Handled::Watched(Some(place), from),
        None => Handled::Answered(ControlAnswer::UnknownMailbox),
    }
}

/// What a question asks for.
fn find(told: &ToldCounts, question: &Question) -> Handled
    ensures { IsFound told.now question.now result }
{
    match question {
        Question::Status => Handled::Counters,
        Question::Show(mailbox) => find_shown(told, mailbox),
        Question::Dump(None) => Handled::Dumped(0),
        Question::Dump(Some(mailbox)) => find_dumped(told, mailbox),
        Question::Watchers(mailbox, from) => find_watched(told, mailbox, *from),
    }
}

/// What is done with a RELOAD. One without a token began no run: it asks for one.
fn reload<R: Wait + Clock>(rt: &R, asking: Asking<'_>) -> Handled
    ensures reload { IsReload result }
    ensures begun { (a : ControlAnswer) → result ≡ did.Repeated a → is_some asking.entry.caller.token ≡ true }
{
    if asking.shared.reloads.is_behind(rt, asking.caller.token) {
        return Handled::Repeated(ControlAnswer::Done);
    }
    match asking.shared.reload(rt, asking.caller) {
        Reloading::Waits => Handled::Unanswered,
        Reloading::Refused => Handled::Refused,
        Reloading::Begins => Handled::Ending,
    }
}

/// Does what a control line asks. `ControlAnswer::Done` is answered once its event is in the worker's inbox. Only a line with a token is known
/// as the RELOAD by which this run began.
pub fn take_line<R: Wait + Clock>(
    rt: &R,
    asking: Asking<'_>,
    port: &mut Port,
    told: &mut ToldCounts,
    octets: &[u8],
) -> Handled
    requires still_open { port.old.is_open ≡ true }
    ensures done { IsDone asking.entry.most octets.now told.old told.new port.old port.new result }
    ensures seats { SameSeats port.old port.new }
    ensures begun { (a : ControlAnswer) → result ≡ did.Repeated a → is_some asking.entry.caller.token ≡ true }
{
    match hear_line(asking.shared.alloc(), octets) {
        Asked::Change(change) => send_change(rt, asking, port, told, change),
        Asked::Close => Handled::Closing,
        Asked::Reload => reload(rt, asking),
        Asked::Question(question) => find(told, &question),
        Asked::Nothing => Handled::Unanswered,
        Asked::Bad => Handled::Answered(ControlAnswer::BadLine),
        Asked::NoMemory => Handled::Answered(ControlAnswer::NoMemory),
    }
}

/// The answers to the last lines with a token.
#[derive(Drop)]
pub struct KeptAnswers {
    pub lines: AnsweredLines,
    /// How many were not kept, since there was no memory for them. It stays at the greatest number.
    pub lost: u64,
}

/// Keeps the answer to a line with this token, if it has one. False where there is no memory for it: the answer is counted as lost, and the
/// line is done again if it comes again.
fn keep_answer(kept: &mut KeptAnswers, token: Option<Token>, answer: ControlAnswer) -> bool
    ensures { kept.new ≡ spec.kept_or_lost result token answer kept.old }
{
    match kept.lines.keep(token, answer) {
        Ok(()) => true,
        Err(_) => {
            kept.lost = kept.lost.saturating_add(1);
            false
        }
    }
}

/// Keeps the answer to a line with this token, if it was done and answered. Tells whether it is kept.
fn keep(kept: &mut KeptAnswers, token: Option<Token>, done: Handled) -> bool
    ensures { kept.new ≡ spec.kept_with result token done kept.old }
{
    match done {
        Handled::Answered(answer) => keep_answer(kept, token, answer),
        Handled::Repeated(_)
        | Handled::Unanswered
        | Handled::Foreign
        | Handled::Counters
        | Handled::Shown(_)
        | Handled::Dumped(_)
        | Handled::Watched(_, _)
        | Handled::Refused
        | Handled::Closing
        | Handled::Ending
        | Handled::Gone => false,
    }
}

/// Sends an answer. One that can't be sent is counted: who asked asks again.
fn reply<R: Wait, W: Wire>(rt: &R, wire: &mut W, shared: &Shared, to: Addr, octets: &[u8])
    ensures offered { Offers to octets.now
        (W.taken wire.old) (W.taken wire.new) (W.failures wire.old) (W.failures wire.new) }
    ensures given { Grows (W.given wire.old) (W.given wire.new) [] }
{
    match wire.send(rt, to, octets) {
        Ok(()) => {}
        Err(_) => shared.count_unsent(wire.send_error()),
    }
}

/// Whether these bytes get an answer: they are some, and no answer themselves.
fn is_due(octets: &[u8]) -> bool
    ensures { result ≡ spec.is_due octets.now }
{
    !octets.is_empty() && !is_answer(octets)
}

/// Where control lines come in and answers go, whose lines are heard, and what is known of the mailboxes of the service.
#[derive(Drop)]
pub struct ControlPort<W> {
    pub coming: W,
    pub going: W,
    pub mailboxes: Vec<Text>,
    /// What was told of the mailboxes before.
    pub changes: Vec<Change>,
    /// How many mailboxes there are at most where MAIL lines make some. 0: none does.
    pub most: u32,
    /// The networks whose lines are heard, beside this machine's: all are, where there is none.
    pub networks: Vec<Network>,
}

/// What takes control lines: the two ends of a socket, what the mailboxes of the service were last told, and the answers to the last
/// lines with a token.
#[derive(Drop)]
pub struct ControlDesk<W> {
    /// The memory that lines and their answers are read and written in.
    pub alloc: Global,
    pub coming: W,
    pub going: W,
    pub told: ToldCounts,
    /// How many mailboxes there are at most where MAIL lines make some. 0: none does.
    pub most: u32,
    pub kept: KeptAnswers,
    /// Whose lines are heard.
    pub operators: Operators,
    /// How many workers the service has.
    pub workers: NonZeroU32,
}

impl<W: Drop> ControlDesk<W> {
    /// One at this port, of a service with so many workers, whose sockets have these addresses. It took no line yet.
    pub(crate) fn at(
        alloc: Global,
        port: ControlPort<W>,
        own: [Addr; 2],
        workers: u32,
    ) -> Result<ControlDesk<W>, NoMemory>
        ensures coming { IfOk result (λ d. d.coming ≡ port.coming) }
        ensures first { IfOk result (λ d. WereTold port.mailboxes.items port.changes.items d.told) }
        ensures unkept { IfOk result (λ d. d.kept ≡ record { lines = buffer [] KEPT; lost = 0 }) }
        ensures workers { IfOk result (λ d. non_zero_u32_get d.workers ≡ max 1 workers) }
        ensures most { IfOk result (λ d. d.most ≡ port.most) }
        ensures networks { IfOk result (λ d. d.operators.networks ≡ port.networks) }
        ensures own { IfOk result (λ d. d.operators.own ≡ own) }
    {
        let ControlPort {
            coming,
            going,
            mailboxes,
            changes,
            most,
            networks,
        } = port;
        let mut told = ToldCounts::new(alloc, mailboxes.as_slice())?;
        tell_each(&mut told, changes.as_slice());
        let lines = AnsweredLines::with_room(alloc, KEPT)?;
        let Some(workers) = NonZeroU32::new(workers.max(1)) else {
            unreachable!()
        };
        Ok(ControlDesk {
            alloc,
            coming,
            going,
            told,
            most,
            kept: KeptAnswers { lines, lost: 0 },
            operators: Operators { own, networks },
            workers,
        })
    }
}

impl<W: Wire> ControlDesk<W> {
    /// Whether lines from this address are heard.
    fn hears(&self, source: Addr) -> bool
        ensures { result ≡ spec.is_near (seen self.now) source }
    {
        self.operators.hear(source)
    }

    /// Sends this answer.
    fn say<R: Wait>(&mut self, rt: &R, shared: &Shared, to: Addr, answer: ControlAnswer)
        ensures offered { Offers to (answer_text answer)
            (W.taken self.old.going) (W.taken self.new.going)
            (W.failures self.old.going) (W.failures self.new.going) }
        ensures given { Grows (W.given self.old.going) (W.given self.new.going) [] }
        ensures coming { self.new.coming ≡ self.old.coming }
        ensures seen { seen self.new ≡ seen self.old }
    {
        reply(rt, &mut self.going, shared, to, answer.text().as_bytes());
    }

    /// Sends this text, or this answer where there is none.
    fn say_text<R: Wait>(
        &mut self,
        rt: &R,
        shared: &Shared,
        to: Addr,
        text: Option<String>,
        otherwise: ControlAnswer,
    )
        ensures offered { Offers to (spec.text_or text otherwise)
            (W.taken self.old.going) (W.taken self.new.going)
            (W.failures self.old.going) (W.failures self.new.going) }
        ensures given { Grows (W.given self.old.going) (W.given self.new.going) [] }
        ensures coming { self.new.coming ≡ self.old.coming }
        ensures seen { seen self.new ≡ seen self.old }
    {
        match text {
            Some(text) => reply(rt, &mut self.going, shared, to, text.as_bytes()),
            None => self.say(rt, shared, to, otherwise),
        }
    }

    /// Answers what was done. At CLOSE the service closes first. A RELOAD with good files closes it too, and is answered by the next run: so
    /// nothing that comes behind that answer is taken by this one.
    fn answer<R: Wait + Clock>(&mut self, rt: &R, shared: &Shared, to: Addr, done: Handled)
        ensures answered { IsAnswered (seen self.old) done to
            (W.taken self.old.going) (W.taken self.new.going)
            (W.failures self.old.going) (W.failures self.new.going) }
        ensures given { Grows (W.given self.old.going) (W.given self.new.going) [] }
        ensures coming { self.new.coming ≡ self.old.coming }
        ensures seen { seen self.new ≡ seen self.old }
    {
        shared.count(Counter::ControlLine);
        match done {
            Handled::Answered(answer) => {
                shared.count_change(answer);
                self.say(rt, shared, to, answer);
            }
            Handled::Repeated(answer) => self.say(rt, shared, to, answer),
            Handled::Unanswered => {}
            Handled::Foreign => shared.count(Counter::ForeignLine),
            Handled::Counters => {
                let text = counters(rt, self.alloc, shared);
                self.say_text(rt, shared, to, text, ControlAnswer::NoMemory);
            }
            Handled::Shown(place) => {
                let text = shown(self.alloc, &self.told, self.workers, place);
                self.say_text(rt, shared, to, text, ControlAnswer::NoMemory);
            }
            Handled::Dumped(from) => {
                let text = dumped(self.alloc, &self.told, from);
                self.say_text(rt, shared, to, text, ControlAnswer::NoMemory);
            }
            Handled::Watched(place, from) => {
                let text = watched(
                    rt,
                    self.alloc,
                    shared,
                    inquiry(self.alloc, &self.told, place, from),
                );
                self.say_text(rt, shared, to, text, ControlAnswer::Busy);
            }
            Handled::Refused => {
                let text = refusal(rt, self.alloc, shared);
                self.say_text(rt, shared, to, text, ControlAnswer::NoMemory);
            }
            Handled::Closing => {
                shared.close();
                self.say(rt, shared, to, ControlAnswer::Done);
            }
            Handled::Ending => shared.close(),
            Handled::Gone => self.say(rt, shared, to, ControlAnswer::Closed),
        }
    }

    /// Has the change of a line that is about to be answered `ok` written, where a journal is kept: so a service that is killed behind the
    /// answer knows it. Where it can't be written the line is answered all the same: its event is in the worker's inbox.
    fn write_down<R: Wait>(&self, rt: &R, shared: &Shared, octets: &[u8], done: Handled) {
        if !matches!(done, Handled::Answered(ControlAnswer::Done)) || !shared.has_journal() {
            return;
        }
        let (_, line) = cut_token(octets);
        match hear_line(self.alloc, line) {
            Asked::Change(Change::Mail(change)) => {
                let worker = home(self.workers, change.mailbox());
                shared.write_answered(rt, worker, &change);
            }
            Asked::NoMemory => shared.lose_line(rt),
            Asked::Change(Change::Begin(_) | Change::Step(_) | Change::Forget(_))
            | Asked::Close
            | Asked::Reload
            | Asked::Question(_)
            | Asked::Nothing
            | Asked::Bad => {}
        }
    }

    /// Does what a control line asks, unless it came before with the same token, or its source isn't heard.
    fn take<R: Wait + Clock>(
        &mut self,
        rt: &R,
        shared: &Shared,
        port: &mut Port,
        source: Addr,
        octets: &[u8],
    ) -> Handled
        requires still_open { port.old.is_open ≡ true }
        ensures done { IsTaken source octets.now (seen self.old) (seen self.new) port.old port.new result }
        ensures coming { self.new.coming ≡ self.old.coming }
        ensures going { self.new.going ≡ self.old.going }
        ensures seats { SameSeats port.old port.new }
    {
        if !self.hears(source) {
            return Handled::Foreign;
        }
        let (token, line) = cut_token(octets);
        if let Some(answer) = self.kept.lines.answer_to(token) {
            return Handled::Repeated(answer);
        }
        let caller = Caller { token, source };
        let asking = Asking {
            shared,
            caller,
            most: self.most,
        };
        let done = take_line(rt, asking, port, &mut self.told, line);
        keep(&mut self.kept, token, done);
        done
    }
}

impl<W: Ear> ControlDesk<W> {
    /// Takes control lines of those who are heard and answers each to its sender, until one is CLOSE, or a RELOAD with good files, the service
    /// closes for another cause, the wire is deaf or a worker is gone. The port isn't closed.
    pub fn take_lines<R: Wait + Clock + Eprint>(
        &mut self,
        rt: &R,
        port: &mut Port,
        shared: &Shared,
    ) -> FeedEnd
        requires still_open { port.old.is_open ≡ true }
        ensures taken { (log : List Line)
            × Grows (W.given self.old.coming) (W.given self.new.coming) (datagrams_of log)
            × AreTaken (seen self.old) log port.old port.new result
            × AreAnswered log (W.taken self.old.going) (W.taken self.new.going)
            (W.failures self.old.going) (W.failures self.new.going)
            × (seen self.new ≡ desk_then log (seen self.old)) }
        // Whose lines are heard stays.
        ensures hearing { operators_in self.new.operators ≡ operators_in self.old.operators }
        // Nothing is sent where lines come in, and nothing is received where answers go.
        ensures coming { Grows (W.taken self.old.coming) (W.taken self.new.coming) [] }
        ensures deaf { IsDeafAsTold (is_fault result) (W.misses self.old.coming) (W.misses self.new.coming) }
        ensures going { Grows (W.given self.old.going) (W.given self.new.going) [] }
        ensures seats { SameSeats port.old port.new }
    {
        let mut octets = [0; ROOM];
        let mut listening = Listening::new(&shared.is_closing);
        for _ in rt.forever() {
            shared.end_for_mailboxes(rt);
            let (length, source) = match listening.look(rt, &mut self.coming, shared, &mut octets) {
                Came::Datagram(length, source) => (length, source),
                Came::Nothing => continue,
                Came::End(end) => return end,
            };
            let done = self.take(rt, shared, port, source, &octets[..length]);
            self.write_down(rt, shared, &octets[..length], done);
            self.answer(rt, shared, source, done);
            if let Some(end) = end_after(done) {
                return end;
            }
        }
        unreachable!()
    }

    /// Whether a datagram that comes while the service closes gets an answer: its source is heard, and it is some bytes and no answer.
    fn owes(&self, source: Addr, octets: &[u8]) -> bool
        ensures { result ≡ spec.is_line (operators_in self.now.operators) (datagram source octets.now) }
    {
        self.hears(source) && is_due(octets)
    }

    /// Answers `closed` to whoever is heard and asks, until all was sent out or the wire is deaf: true then. An empty datagram is not
    /// answered, nor is an answer.
    pub fn refuse_lines<R: Wait + Clock + Eprint>(&mut self, rt: &R, shared: &Shared) -> bool
        ensures refused { AreTurnedAway (operators_in self.old.operators) (W.given self.old.coming) (W.given self.new.coming)
            (W.taken self.old.going) (W.taken self.new.going)
            (W.failures self.old.going) (W.failures self.new.going) }
        ensures coming { Grows (W.taken self.old.coming) (W.taken self.new.coming) [] }
        ensures deaf { IsDeafAsTold result (W.misses self.old.coming) (W.misses self.new.coming) }
        ensures going { Grows (W.given self.old.going) (W.given self.new.going) [] }
        ensures seen { seen self.new ≡ seen self.old }
    {
        let mut octets = [0; ROOM];
        let mut listening = Listening::new(&shared.is_finished);
        for _ in rt.forever() {
            match listening.look(rt, &mut self.coming, shared, &mut octets) {
                Came::Datagram(length, source) => {
                    if self.owes(source, &octets[..length]) {
                        self.say(rt, shared, source, ControlAnswer::Closed);
                    }
                }
                Came::Nothing => {}
                Came::End(end) => return end.is_fault(),
            }
        }
        unreachable!()
    }
}
