//! What SIP datagrams say, sent on where their sources are heard.
ghost use Rattle.std.specs.Prelude.{◌≡◌, ◌≤◌, ◌∷◌, List, Option, Ok, [], true, not, nat_le, IfSome, MatchBool};
ghost use Rattle.std.specs.List.{filter};
ghost use Rattle.admission.specs.declared.judging.Verdict.{Verdict as VerdictSeen};
ghost use Rattle.admission.specs.Verdicts.{hears};
ghost use Rattle.crew.specs.Kept.{SameSeats};
ghost use Rattle.transport.specs.Wires.{Grows};
ghost use Rattle.sip_read.specs.Message.{IsReading};
ghost use Rattle.service.specs.Admitted as spec;
ghost use Rattle.service.specs.Admitted.{Case, IsTaken, Meets, Refuses, arrived, AreHeard, AreRefused};
ghost use Rattle.feeds.specs.Fed.{is_fault, Misses, Sends};
ghost use Rattle.service.specs.Listening.{IsDeafAsTold};
ghost use Rattle.service.specs.Served.{is_short};
ghost use Rattle.transport.specs.declared.datagram.Datagram.{Datagram};

use crate::barred::log_barred;
use crate::listening::{Came, Listening, ROOM};
use crate::newcomers::Newcomer;
use crate::request_log::{Answer, log_answer};
use crate::shared::{Counter, Shared};
use admission::{Admission, Arrival, ChallengeCause, Reading, Verdict};
use crew::Port;
use feeds::FeedEnd;
use notifier_model::Event;
use sip_read::{Boxed, Message, ReadError, Request, Response, read};
use sip_text::{Addr, Octets};
use std::alloc::Global;
use std::rt::Clock;
use std::sync::Wait;
use transport::{Ear, Wire};

/// Counts a request that is challenged, by its cause.
fn count_challenge(shared: &Shared, cause: ChallengeCause) {
    match cause {
        ChallengeCause::Absent => shared.count(Counter::Challenged),
        ChallengeCause::Malformed | ChallengeCause::Wrong => {
            shared.count(Counter::Challenged);
            shared.count(Counter::Wrong);
        }
        ChallengeCause::Stale => shared.count(Counter::Stale),
    }
}

/// Counts a datagram that isn't heard, by its verdict.
fn count_verdict(shared: &Shared, verdict: &Verdict) {
    match verdict {
        Verdict::Allowed => {}
        Verdict::Foreign => shared.count(Counter::Foreign),
        Verdict::Limited => shared.count(Counter::Limited),
        Verdict::Large(_) => shared.count(Counter::Large),
        Verdict::Barred(..) => shared.count(Counter::Barred),
        Verdict::Challenge(cause, _) => count_challenge(shared, *cause),
        Verdict::Guess(..) => count_challenge(shared, ChallengeCause::Wrong),
        Verdict::Forbidden(_) => shared.count(Counter::Forbidden),
        Verdict::Crowded(_) => shared.count(Counter::Crowded),
    }
}

/// Says on standard error whose password isn't looked at, and where from: once a minute of each source.
fn tell_barred<R: Wait + Eprint>(rt: &R, shared: &Shared, verdict: &Verdict, arrival: Arrival<'_>) {
    if let Verdict::Barred(user, _) = verdict {
        if shared.is_barred_anew(rt, arrival.source, arrival.moment) {
            log_barred(rt, shared, user, arrival.source);
        }
    }
}

/// What goes to the source of a datagram that isn't heard, if it may be told.
fn refusal(verdict: Verdict) -> Option<Octets>
    ensures { result ≡ spec.refusal verdict }
{
    match verdict {
        Verdict::Barred(_user, octets) | Verdict::Guess(_user, octets) => Some(octets),
        Verdict::Large(octets)
        | Verdict::Challenge(_, octets)
        | Verdict::Forbidden(octets)
        | Verdict::Crowded(octets) => Some(octets),
        Verdict::Allowed | Verdict::Foreign | Verdict::Limited => None,
    }
}

/// Sends a refusal to who is refused. One that can't be sent is counted: who asked asks again.
fn send_refusal<R: Wait, W: Wire>(rt: &R, wire: &mut W, shared: &Shared, to: Addr, octets: &[u8])
    ensures refused { Refuses to (Some octets.now)
        (W.taken wire.old) (W.taken wire.new) (W.failures wire.old) (W.failures wire.new) }
    ensures given { Grows (W.given wire.old) (W.given wire.new) [] }
{
    if wire.send(rt, to, octets).is_err() {
        shared.count_unsent(wire.send_error());
    } else {
        shared.outages.note_sent();
    }
}

/// The same of a refusal, if there is one.
fn refuse<R: Wait, W: Wire>(
    rt: &R,
    wire: &mut W,
    shared: &Shared,
    to: Addr,
    refusal: Option<Octets>,
)
    ensures refused { Refuses to refusal
        (W.taken wire.old) (W.taken wire.new) (W.failures wire.old) (W.failures wire.new) }
    ensures given { Grows (W.given wire.old) (W.given wire.new) [] }
{
    match refusal {
        Some(octets) => send_refusal(rt, wire, shared, to, octets.as_slice()),
        None => {}
    }
}

/// Tells the refusal of a request, where the operator wants to know of each.
fn log_refusal<R: Eprint>(rt: &R, shared: &Shared, arrival: Arrival<'_>, refusal: &Option<Octets>) {
    if !shared.logs_requests() {
        return;
    }
    if let (Reading::Request(request), Some(refusal)) = (arrival.reading, refusal) {
        let answer = Answer {
            to: arrival.source,
            octets: refusal.as_slice(),
            whom: request.uri.as_str(),
        };
        log_answer(rt, shared, answer);
    }
}

/// What is known beside a datagram, as the admission is told of it.
#[derive(Clone, Copy)]
struct Known {
    /// How many live subscriptions its source has.
    live: usize,
    /// The user who made the dialog that it is in.
    owner: Option<u32>,
}

/// Nothing is known.
const NOTHING: Known = Known {
    live: 0,
    owner: None,
};

/// A datagram that came, as the admission is told of it.
fn arrival<'a>(
    octets: &'a [u8],
    reading: Reading<'a>,
    source: Addr,
    moment: u64,
    known: Known,
) -> Arrival<'a>
    ensures { result ≡ record { octets = octets.entry; reading = reading.entry; source = source; moment = moment; live = known.live; owner = known.owner } }
{
    Arrival {
        octets,
        reading,
        source,
        moment,
        live: known.live,
        owner: known.owner,
    }
}

/// What hears SIP datagrams.
#[derive(Drop)]
pub struct SipDesk<W> {
    /// Where they come in.
    pub coming: W,
    /// Where refusals leave: the other end of the same socket.
    pub going: W,
    /// How many octets a datagram has at most that is read.
    pub longest: u32,
    /// Who is heard.
    pub admission: Admission,
}

impl<W: Ear> SipDesk<W> {
    /// What is known of a request beside itself: how many live subscriptions its source has, where it is outside a dialog and a source may
    /// have so many only, and who made its dialog, where users show passwords. One outside a dialog that was let through and comes again is
    /// answered as it was before, so it asks for none more: 0.
    fn known<R: Wait>(
        &self,
        rt: &R,
        shared: &Shared,
        request: &Request,
        source: Addr,
        moment: u64,
    ) -> Known {
        let tag = &request.head.to.tag;
        let owner = match (tag, &self.admission.authentication) {
            (Some(tag), Some(_)) => shared.owner(rt, tag.as_str()),
            _ => None,
        };
        let (None, Some(most)) = (tag, self.admission.per_source) else {
            return Known { live: 0, owner };
        };
        let live = shared.live_from(rt, watchers::source(source));
        let newcomer = Newcomer {
            request,
            source,
            moment,
        };
        if live >= most as usize && shared.is_again(rt, newcomer) {
            return Known { live: 0, owner };
        }
        Known { live, owner }
    }

    /// Notes a request outside a dialog that is let through: itself, where a source may have so many subscriptions only, and its user, where
    /// users show passwords: the dialog that it makes is this user's. Where there is no memory for that, it is nobody's.
    fn note_newcomer<R: Wait>(&self, rt: &R, alloc: Global, shared: &Shared, arrival: Arrival<'_>) {
        let Reading::Request(request) = arrival.reading else {
            return;
        };
        if request.head.to.tag.is_some() {
            return;
        }
        if self.admission.per_source.is_some() {
            let newcomer = Newcomer {
                request,
                source: arrival.source,
                moment: arrival.moment,
            };
            shared.note_newcomer(rt, newcomer);
        }
        if self.admission.authentication.is_none() {
            return;
        }
        if let Ok(Some(user)) = self.admission.user(alloc, arrival) {
            shared.note_user(rt, request, user);
        }
    }

    /// Whether the datagram is heard. Any other is counted by its verdict. A refusal goes to its source.
    fn admits<R: Wait + Eprint>(
        &mut self,
        rt: &R,
        alloc: Global,
        shared: &Shared,
        arrival: Arrival<'_>,
    ) -> bool
        ensures admits { (v : Option VerdictSeen)
            × Meets self.old.admission arrival.entry v self.new.admission
            × (result ≡ spec.is_allowed v)
            × Refuses arrival.entry.source (spec.refusal_in v)
            (W.taken self.old.going) (W.taken self.new.going)
            (W.failures self.old.going) (W.failures self.new.going) }
        ensures given { Grows (W.given self.old.going) (W.given self.new.going) [] }
        ensures coming { self.new.coming ≡ self.old.coming }
        ensures longest { self.new.longest ≡ self.old.longest }
    {
        let Ok(verdict) = self.admission.judge(alloc, arrival) else {
            shared.count_unread(&ReadError::NoMemory);
            return false;
        };
        match verdict {
            Verdict::Allowed => true,
            _ => {
                count_verdict(shared, &verdict);
                tell_barred(rt, shared, &verdict, arrival);
                let refusal = refusal(verdict);
                log_refusal(rt, shared, arrival, &refusal);
                refuse(rt, &mut self.going, shared, arrival.source, refusal);
                false
            }
        }
    }

    /// Takes a datagram that came at this moment: an event goes to its worker where its source is heard. One whose source is of none of the
    /// networks isn't read. False where that worker is gone.
    fn take_one<R: Wait + Eprint>(
        &mut self,
        rt: &R,
        alloc: Global,
        port: &mut Port,
        shared: &Shared,
        source: Addr,
        octets: &[u8],
        moment: u64,
    ) -> bool
        requires still_open { port.old.is_open ≡ true }
        ensures taken { IsTaken source octets.now moment self.old.admission self.new.admission port.old port.new
            (W.taken self.old.going) (W.taken self.new.going)
            (W.failures self.old.going) (W.failures self.new.going) (not result) }
        ensures given { Grows (W.given self.old.going) (W.given self.new.going) [] }
        ensures coming { self.new.coming ≡ self.old.coming }
        ensures longest { self.new.longest ≡ self.old.longest }
        ensures seats { SameSeats port.old port.new }
    {
        let is_near = self.admission.hears(source.ip);
        if !is_near {
            shared.count(Counter::Foreign);
            return true;
        }
        match read(alloc, octets) {
            Err(error) => {
                let arrival = arrival(octets, Reading::Unread, source, moment, NOTHING);
                if self.admits(rt, alloc, shared, arrival) {
                    shared.count_unread(&error);
                }
                true
            }
            Ok(Message::Response(response)) => {
                let arrival = arrival(octets, Reading::Response, source, moment, NOTHING);
                if !self.admits(rt, alloc, shared, arrival) {
                    return true;
                }
                shared.notes.put(rt, alloc, source, &response);
                let is_sent = port.send(rt, Event::Reply(response)).is_ok();
                if is_sent {
                    shared.count(Counter::Event);
                }
                is_sent
            }
            Ok(Message::Request(request)) => {
                let known = self.known(rt, shared, &request, source, moment);
                let arrival = arrival(octets, Reading::Request(&request), source, moment, known);
                if !self.admits(rt, alloc, shared, arrival) {
                    return true;
                }
                self.note_newcomer(rt, alloc, shared, arrival);
                let is_sent = port.send(rt, Event::Request(source, request)).is_ok();
                if is_sent {
                    shared.count(Counter::Event);
                }
                is_sent
            }
        }
    }

    /// Sends what SIP datagrams say whose sources are heard, until the service closes, the wire is deaf or a worker is gone. Who isn't
    /// heard for a reason that may be told gets a refusal (RFC 3261 sections 21.4.2, 21.4.4, 21.4.11 and 21.5.4). What comes from none of the
    /// networks isn't read. That, what can't be read, and what is too long, is counted and dropped. Of an answer to a NOTIFY a note is put
    /// first, for the thread that sends NOTIFYs again. The port isn't closed.
    pub fn hear_datagrams<R: Wait + Clock + Eprint>(
        &mut self,
        rt: &R,
        alloc: Global,
        port: &mut Port,
        shared: &Shared,
    ) -> FeedEnd
        requires still_open { port.old.is_open ≡ true }
        // Each datagram that came is judged, but for those that are too long. Those that are allowed are handed on, and a refusal goes to
        // the source of each that is refused.
        ensures served { (came : List Datagram) × (cases : List Case)
            × Grows (W.given self.old.coming) (W.given self.new.coming) came
            × (arrived cases ≡ filter (is_short self.old.longest) came)
            × AreHeard self.old.admission cases self.new.admission port.old port.new result
            × AreRefused cases (W.taken self.old.going) (W.taken self.new.going)
            (W.failures self.old.going) (W.failures self.new.going) }
        // Nothing is sent where datagrams come in, and nothing is received where refusals go.
        ensures taken { Grows (W.taken self.old.coming) (W.taken self.new.coming) [] }
        ensures going { Grows (W.given self.old.going) (W.given self.new.going) [] }
        ensures deaf { IsDeafAsTold (is_fault result) (W.misses self.old.coming) (W.misses self.new.coming) }
        ensures longest { self.new.longest ≡ self.old.longest }
        ensures seats { SameSeats port.old port.new }
    {
        let mut octets = [0; ROOM];
        let mut listening = Listening::new(&shared.is_closing);
        let mut moment = 0;
        for _ in rt.forever() {
            let (length, source) = match listening.look(rt, &mut self.coming, shared, &mut octets) {
                Came::Datagram(length, source) => (length, source),
                Came::Nothing => continue,
                Came::End(end) => return end,
            };
            shared.count(Counter::Datagram);
            if length > self.longest as usize {
                shared.count(Counter::TooLong);
                continue;
            }
            // Moments don't fall. Where the clock can't be read it is the last one.
            moment = shared.moment(rt).unwrap_or(moment).max(moment);
            if !self.take_one(rt, alloc, port, shared, source, &octets[..length], moment) {
                return FeedEnd::Gone;
            }
        }
        unreachable!()
    }

    /// The response that a datagram is which comes while the service closes, where its source is heard and it isn't too long. One that can't be
    /// read, or isn't heard, is counted.
    fn hear_late(
        &self,
        alloc: Global,
        shared: &Shared,
        source: Addr,
        octets: &[u8],
    ) -> Option<Boxed<Response>>
        ensures near { IfSome result (λ r. hears self.now.admission source.ip ≡ true) }
        ensures says { IfSome result (λ r. IsReading octets.now (Ok (Message.Response r))) }
    {
        if octets.len() > self.longest as usize {
            shared.count(Counter::TooLong);
            return None;
        }
        if !self.admission.hears(source.ip) {
            shared.count(Counter::Foreign);
            return None;
        }
        let message = read(alloc, octets);
        match message {
            Err(error) => {
                shared.count_unread(&error);
                None
            }
            Ok(Message::Response(response)) => Some(response),
            Ok(Message::Request(_)) => None,
        }
    }

    /// Puts notes of the answers to NOTIFYs that come while the service closes from sources that are heard, until all was sent out or the
    /// wire is deaf: true then. Any other datagram is dropped. Answers take no token and are asked for no password, so none is judged
    /// further.
    pub fn hear_answers<R: Wait + Clock + Eprint>(
        &mut self,
        rt: &R,
        alloc: Global,
        shared: &Shared,
    ) -> bool
        ensures given { (came : List Datagram)
            × Grows (W.given self.old.coming) (W.given self.new.coming) came }
        ensures deaf { IsDeafAsTold result (W.misses self.old.coming) (W.misses self.new.coming) }
        ensures taken { Grows (W.taken self.old.coming) (W.taken self.new.coming) [] }
        ensures going { self.new.going ≡ self.old.going }
        ensures longest { self.new.longest ≡ self.old.longest }
        ensures admission { self.new.admission ≡ self.old.admission }
    {
        let mut octets = [0; ROOM];
        let mut listening = Listening::new(&shared.is_finished);
        for _ in rt.forever() {
            match listening.look(rt, &mut self.coming, shared, &mut octets) {
                Came::Datagram(length, source) => {
                    if let Some(response) = self.hear_late(
                        alloc,
                        shared,
                        source,
                        &octets[..length],
                    ) {
                        shared.notes.put(rt, alloc, source, &response);
                    }
                }
                Came::Nothing => {}
                Came::End(end) => return end.is_fault(),
            }
        }
        unreachable!()
    }
}
