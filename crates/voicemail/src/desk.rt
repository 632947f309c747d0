//! Who hears a voicemail system.
ghost use Rattle.std.specs.Prelude.{◌≡◌, ◌≤◌, ◌⊎◌, ◌∷◌, [], List, true, false, length, take, map, option_map, IfOk, IfSome, MatchOption};
ghost use Rattle.admission.specs.Verdicts.{is_one_of};
ghost use Rattle.transport.specs.Wires.{datagram, Grows};
ghost use Rattle.voicemail.specs.Notices.{notice_seen, meaning};
ghost use Rattle.voicemail.specs.Served as spec;
ghost use Rattle.voicemail.specs.Served.{Shows, IsTold, AreTold, Tells, IsSent, IsAnswered, IsKept, Does, IsServed, IsTaken};

use crate::kept::KeptAnswers;
use crate::line::{mail_line, show_line};
use crate::notice::{Asked, Notice, hear_request};
use admission::Network;
use control_lines::{ControlAnswer, Speaker, TellOutcome, tell_line};
use memchr::memmem;
use package::{Class, Counts};
use sip_read::{Message, Request, read};
use sip_text::{Addr, NoMemory, Octets};
use sip_write::{Answer, Status, response};
use std::alloc::Global;
use std::rt::Clock;
use std::sync::Wait;
use std::thread;
use std::time::Duration;
use transport::{Ear, Wire};

/// The tag that a To without one gets in an answer: the same for the same request (RFC 3261 section 8.2.7).
pub const TAG: &str = "voicemail";

/// The room for a datagram: none is longer.
const ROOM: usize = 65536;

/// The room for what a mailbox was last told.
const PAGE: usize = 16384;

/// The room for the answer to a MAIL line.
const WORDS: usize = 256;

/// How long passes behind a receive that failed, in milliseconds.
const PAUSE: u64 = 10;

/// The classes, in the order in which they are told.
const CLASSES: [Class; 5] = [
    Class::Voice,
    Class::Fax,
    Class::Pager,
    Class::Multimedia,
    Class::Text,
];

/// Who says how long a desk hears, and counts what it refuses.
pub trait Clerk {
    /// Whether it hears no more.
    fn is_over(&self) -> bool;

    /// Counts a datagram by which nothing was told: it comes from elsewhere, is no request, or is refused.
    fn count_refused(&self);
}

/// Whether the address is of one of these networks.
fn any_contains(networks: &[Network], ip: [u8; 4]) -> bool
    ensures { result ≡ is_one_of networks.now ip }
{
    networks.iter().any(|network| network.contains(ip))
}

/// The methods that a refusal names.
fn allow(status: Status) -> Option<&'static [&'static str]>
    ensures { option_map (λ names. map (λ n. n.now) names.now) result ≡ spec.allow_of status }
{
    match status {
        Status::MethodNotAllowed => Some(&["NOTIFY"]),
        _ => None,
    }
}

/// The packages that a refusal names.
fn allow_events(status: Status) -> Option<&'static [&'static str]>
    ensures { option_map (λ names. map (λ n. n.now) names.now) result ≡ spec.allow_events_of status }
{
    match status {
        Status::BadEvent => Some(&["message-summary"]),
        _ => None,
    }
}

/// The bytes of the answer to a request.
fn answer_bytes(
    alloc: Global,
    request: &Request,
    to: Addr,
    status: Status,
) -> Result<Octets, NoMemory>
    ensures { IfOk result (λ octets. octets ≡ spec.answer request.now to status) }
{
    let answer = Answer {
        allow: allow(status),
        allow_events: allow_events(status),
        ..Answer::bare(&request.head, to, Some(TAG), status)
    };
    response(alloc, &answer)
}

/// The first bytes of a room, so many.
fn front(room: &[u8], count: usize) -> &[u8]
    requires { count ≤ length room.now }
    ensures { result.now ≡ take count room.now }
{
    room.split_at(count).0
}

/// The status that says what came of a line, whose answer stands at the beginning of the room.
fn status_of(outcome: TellOutcome, room: &[u8]) -> Status
    requires { spec.MayStand outcome room.now }
    ensures { result ≡ spec.status_of outcome room.now }
{
    match outcome {
        TellOutcome::Done(_) => Status::Ok,
        TellOutcome::Refused(count) => {
            if front(room, count) == ControlAnswer::UnknownMailbox.text().as_bytes() {
                Status::NotFound
            } else {
                Status::ServiceUnavailable
            }
        }
        TellOutcome::Silent | TellOutcome::Fault => Status::ServiceUnavailable,
    }
}

/// Whether a status says that all went well.
fn is_done(status: Status) -> bool
    ensures { result ≡ spec.is_done status }
{
    matches!(status, Status::Ok)
}

/// Whether the page has this line.
fn shows(page: &[u8], line: &[u8]) -> bool
    ensures { result ≡ true → Shows page.now line.now }
{
    memmem::find(page, line).is_some()
}

/// Who hears a voicemail system.
#[derive(Drop)]
pub struct VoicemailDesk<W, S> {
    /// The memory that requests and answers are read and written in.
    pub alloc: Global,
    /// Where NOTIFYs come in.
    pub coming: W,
    /// Where their answers leave: the other end of the same socket.
    pub going: W,
    /// Who asks the service.
    pub speaker: S,
    /// The networks whose NOTIFYs are heard. No other is read.
    pub networks: Vec<Network>,
    /// The answers to the last NOTIFYs that the service was asked of, for those that come again.
    pub kept: KeptAnswers,
}

/// The counts of a class of a notice: one that isn't named has no messages.
fn counts_told(notice: &Notice<'_>, class: Class) -> Counts
    ensures { result ≡ spec.counts_told (notice_seen notice.now) class }
{
    notice.counts.of(class).unwrap_or(Counts {
        new_count: 0,
        old_count: 0,
        urgent_new: 0,
        urgent_old: 0,
    })
}

/// Asks this line, and tells what came of it.
fn ask<R: Wait, S: Speaker>(rt: &R, speaker: &mut S, line: &[u8]) -> Status
    ensures { spec.IsAsked line.now (spec.speaker S.asked S.turns speaker.old) (spec.speaker S.asked S.turns speaker.new) result }
{
    let mut room = [0; WORDS];
    let outcome = tell_line(rt, speaker, line, &mut room);
    status_of(outcome, &room)
}

/// Tells the counts of a class of a notice, unless the page shows that they are told already.
fn tell_class<R: Wait, S: Speaker>(
    rt: &R,
    alloc: Global,
    speaker: &mut S,
    notice: &Notice<'_>,
    class: Class,
    page: &[u8],
) -> Status
    ensures { IsTold (notice_seen notice.now) page.now class
        (spec.speaker S.asked S.turns speaker.old) (spec.speaker S.asked S.turns speaker.new) result }
{
    let counts = counts_told(notice, class);
    let Ok(line) = mail_line(alloc, notice.mailbox, class, counts) else {
        return Status::ServiceUnavailable;
    };
    if shows(page, line.as_bytes()) {
        return Status::Ok;
    }
    ask(rt, speaker, line.as_bytes())
}

/// Tells the counts of these classes that the page doesn't show, in order, until one isn't taken.
fn tell_classes<R: Wait, S: Speaker>(
    rt: &R,
    alloc: Global,
    speaker: &mut S,
    notice: &Notice<'_>,
    classes: &[Class],
    page: &[u8],
) -> Status
    ensures { AreTold (notice_seen notice.now) page.now classes.now
        (spec.speaker S.asked S.turns speaker.old) (spec.speaker S.asked S.turns speaker.new) result }
{
    for class in classes {
        let status = tell_class(rt, alloc, speaker, notice, *class, page);
        if !is_done(status) {
            return status;
        }
    }
    Status::Ok
}

/// Tells the service of a mailbox. Answers what came of it: 200 where all is told, 404 where the service hasn't the mailbox, 503 where
/// it doesn't take it, or memory is wanting.
fn tell<R: Wait, S: Speaker>(rt: &R, alloc: Global, speaker: &mut S, notice: &Notice<'_>) -> Status
    ensures { Tells (notice_seen notice.now)
        (spec.speaker S.asked S.turns speaker.old) (spec.speaker S.asked S.turns speaker.new) result }
{
    let Ok(line) = show_line(alloc, notice.mailbox) else {
        return Status::ServiceUnavailable;
    };
    let mut page = [0; PAGE];
    match tell_line(rt, speaker, line.as_bytes(), &mut page) {
        TellOutcome::Done(count) => {
            tell_classes(rt, alloc, speaker, notice, &CLASSES, front(&page, count))
        }
        TellOutcome::Refused(count) => {
            tell_classes(rt, alloc, speaker, notice, &CLASSES, front(&page, count))
        }
        TellOutcome::Silent | TellOutcome::Fault => Status::ServiceUnavailable,
    }
}

/// Sends these bytes once. Where that fails, who asked asks again.
fn send_once<R: Wait, W: Wire>(rt: &R, wire: &mut W, to: Addr, octets: &[u8])
    ensures { IsSent to octets.now (spec.wire W.taken W.failures wire.old) (spec.wire W.taken W.failures wire.new) }
{
    let _ = wire.send(rt, to, octets);
}

impl<W: Ear, S: Speaker> VoicemailDesk<W, S> {
    /// Answers a request. One whose answer can't be sent comes again.
    fn answer<R: Wait>(&mut self, rt: &R, request: &Request, to: Addr, status: Status)
        ensures answered { IsAnswered request.now to status (spec.wire W.taken W.failures self.old.going) (spec.wire W.taken W.failures self.new.going) }
        ensures stays { (self.new.coming ≡ self.old.coming) × (self.new.speaker ≡ self.old.speaker) × (self.new.networks ≡ self.old.networks)
            × (self.new.kept ≡ self.old.kept) }
    {
        if let Ok(octets) = answer_bytes(self.alloc, request, to, status) {
            send_once(rt, &mut self.going, to, octets.as_slice());
        }
    }

    /// Answers a request that the service was asked of, and keeps the answer for retransmissions. Where memory is wanting it is sent and not
    /// kept.
    fn conclude<R: Wait>(&mut self, rt: &R, request: &Request, to: Addr, status: Status)
        ensures answered { IsAnswered request.now to status (spec.wire W.taken W.failures self.old.going) (spec.wire W.taken W.failures self.new.going) }
        ensures kept { IsKept request.now to status self.old.kept self.new.kept }
        ensures stays { (self.new.coming ≡ self.old.coming) × (self.new.speaker ≡ self.old.speaker) × (self.new.networks ≡ self.old.networks) }
    {
        if let Ok(octets) = answer_bytes(self.alloc, request, to, status) {
            send_once(rt, &mut self.going, to, octets.as_slice());
            let _ = self.kept.keep(self.alloc, request, octets);
        }
    }

    /// Does what a new request asks for, and answers it. Tells whether the service was told of it, or nothing was to be done.
    fn serve_new<R: Wait>(&mut self, rt: &R, request: &Request, source: Addr) -> bool
        ensures served { Does (meaning request.now) request.now source
            (spec.desk S.asked S.turns W.taken W.failures self.old.speaker self.old.going self.old.kept)
            (spec.desk S.asked S.turns W.taken W.failures self.new.speaker self.new.going self.new.kept) result }
        ensures stays { (self.new.coming ≡ self.old.coming) × (self.new.networks ≡ self.old.networks) }
    {
        match hear_request(request) {
            Asked::Nothing => true,
            Asked::Refusal(status) => {
                self.answer(rt, request, source, status);
                false
            }
            Asked::Notice(notice) => {
                let status = tell(rt, self.alloc, &mut self.speaker, &notice);
                self.conclude(rt, request, source, status);
                is_done(status)
            }
        }
    }

    /// Answers a request again that was answered, and does what a new one asks for. Tells whether the service was told of it, or nothing was to
    /// be done.
    fn serve<R: Wait>(&mut self, rt: &R, request: &Request, source: Addr) -> bool
        ensures served { IsServed request.now source
            (spec.desk S.asked S.turns W.taken W.failures self.old.speaker self.old.going self.old.kept)
            (spec.desk S.asked S.turns W.taken W.failures self.new.speaker self.new.going self.new.kept) result }
        ensures stays { (self.new.coming ≡ self.old.coming) × (self.new.networks ≡ self.old.networks) }
    {
        match self.kept.answer_to(request) {
            Some(octets) => {
                send_once(rt, &mut self.going, source, octets.as_slice());
                true
            }
            None => self.serve_new(rt, request, source),
        }
    }

    /// Takes a datagram. Tells whether the service was told of it, or nothing was to be done. What comes from none of the networks isn't
    /// read.
    fn take_one<R: Wait>(&mut self, rt: &R, source: Addr, octets: &[u8]) -> bool
        ensures taken { IsTaken self.old.networks.items source octets.now
            (spec.desk S.asked S.turns W.taken W.failures self.old.speaker self.old.going self.old.kept)
            (spec.desk S.asked S.turns W.taken W.failures self.new.speaker self.new.going self.new.kept) result }
        ensures stays { (self.new.coming ≡ self.old.coming) × (self.new.networks ≡ self.old.networks) }
    {
        if !any_contains(self.networks.as_slice(), source.ip) {
            return false;
        }
        let message = read(self.alloc, octets);
        match message {
            Ok(Message::Request(request)) => self.serve(rt, &request, source),
            Ok(Message::Response(_)) | Err(_) => false,
        }
    }

    /// Hears NOTIFYs until the clerk says that it is over, or the descriptor is lost: true then.
    pub fn hear_notices<R: Wait + Clock, C: Clerk>(&mut self, rt: &R, clerk: &C) -> bool {
        let mut octets = [0; ROOM];
        for _ in rt.forever() {
            if clerk.is_over() {
                return false;
            }
            match self.coming.recv_in_time(rt, &mut octets) {
                Ok(Some((length, source))) => {
                    if !self.take_one(rt, source, &octets[..length]) {
                        clerk.count_refused();
                    }
                }
                Ok(None) => {}
                Err(fault) if fault.is_lost() => return true,
                Err(_) => thread::sleep(rt, Duration::from_millis(PAUSE)),
            }
        }
        unreachable!()
    }
}
