//! What comes of a datagram.
ghost use Rattle.std.specs.Prelude.{◌≡◌, ◌⊎◌, true, option_map, IfOk, IfSome, OnOk, OnErr, ◌+◌, ◌-◌, ◌≤◌, SomeIff, not, nat_le};
ghost use Rattle.admission.specs.declared.judging.Arrival.{Arrival as ArrivalSeen};
ghost use Rattle.admission.specs.declared.judging.Reading.TheVariants as reading;
ghost use Rattle.admission.specs.declared.judging.Verdict.{Verdict as VerdictSeen};
ghost use Rattle.admission.specs.declared.judging.Verdict.TheVariants as verdict;
ghost use Rattle.admission.specs.Owners.{Names, IsUser};
ghost use Rattle.admission.specs.Verdicts as spec;
ghost use Rattle.admission.specs.Verdicts.{Judges, IsUnbarred, IsFree, IsSeated, behind, half_noted};
ghost use Rattle.admission.specs.Texts as amounts;

use crate::answer::Reply;
use crate::authentication::{Authentication, ChallengeCause, Conclusion, Inquiry};
use crate::guesses::{Guesses, name_number};
use crate::network::{Network, number};
use crate::shown::{Shown, show};
use crate::table::Rates;
use event_headers::EventValue;
use sip_read::Request;
use sip_text::{Addr, Field, NoMemory, Octets, Text};
use std::alloc::Global;

/// What a datagram is.
#[derive(Clone, Copy)]
pub enum Reading<'a> {
    /// This request.
    Request(&'a Request),
    /// An answer.
    Response,
    /// Nothing that can be read.
    Unread,
}

/// A datagram that came.
#[derive(Clone, Copy)]
pub struct Arrival<'a> {
    pub octets: &'a [u8],
    /// What those are.
    pub reading: Reading<'a>,
    pub source: Addr,
    /// When it came, in milliseconds.
    pub moment: u64,
    /// How many live subscriptions its source has.
    pub live: usize,
    /// The user who made the dialog that it is in, as a number ([`name_number`](crate::name_number)), where that is known.
    pub owner: Option<u32>,
}

/// What comes of a datagram.
#[derive(Debug, Drop)]
pub enum Verdict {
    /// It is heard.
    Allowed,
    /// It is dropped: its source is of none of the networks.
    Foreign,
    /// It is dropped: its source sends too much.
    Limited,
    /// It isn't heard, and this 413 goes to its source: more would be kept of it than may be.
    Large(Octets),
    /// It isn't heard, and this 403 goes to its source: too many wrong passwords came from there, or some from there and too many for this
    /// user. The password isn't looked at.
    Barred(Text, Octets),
    /// It isn't heard, and this 401 goes to its source.
    Challenge(ChallengeCause, Octets),
    /// It isn't heard, and this 401 goes to its source: it shows a wrong password of this user.
    Guess(Text, Octets),
    /// It isn't heard, and this 403 goes to its source: a known user asks for another's mailbox, or in another's dialog.
    Forbidden(Octets),
    /// It isn't heard, and this 503 goes to its source: it asks for a new subscription, and has as many as it may.
    Crowded(Octets),
}

/// The tag that a To without one gets in a 503: the same for the same request (RFC 3261 section 8.2.7).
pub const CROWD_TAG: &str = "crowded";

/// The same of a 413.
pub const LARGE_TAG: &str = "large";

/// What a line of an answer has beside its value: name, colon, space and end of line. Of the headers that an answer repeats, each value on a
/// line of its own, `Record-Route` has the longest name: 16 octets. A `Via` takes 7, so a tiny one counts for more than it is.
const LINE: usize = 16;

/// Who is heard.
#[derive(Drop)]
pub struct Admission {
    /// Where sources have to be: anywhere, where there is none.
    pub networks: Vec<Network>,
    /// How much each source may send: as much as it likes, where there is none.
    pub rates: Option<Rates>,
    /// Who may subscribe and refer: anyone, where there is none.
    pub authentication: Option<Authentication>,
    /// How many wrong passwords each source and each user's name may show: as many as they like, where there is none.
    pub guesses: Option<Guesses>,
    /// How many octets may be kept of a request, by a subscription and in the answer: as many as come, where there is none.
    pub max_texts: Option<u32>,
    /// How many live subscriptions each source may have: as many as it likes, where there is none.
    pub per_source: Option<u32>,
}

/// Whether the address is of one of these networks.
fn any_contains(networks: &[Network], ip: [u8; 4]) -> bool
    ensures { result ≡ spec.is_one_of networks.now ip }
{
    networks.iter().any(|network| network.contains(ip))
}

/// Whether it is a keep-alive: nothing but ends of lines (RFC 3261 section 7.5, RFC 5626 section 3.5.1). Nothing answers one.
fn is_keep_alive(octets: &[u8]) -> bool
    ensures { result ≡ spec.is_keep_alive octets.now }
{
    octets
        .iter()
        .all(|octet| *octet == b'\r' || *octet == b'\n')
}

/// Whether a datagram takes a token of its source: any request does, in a dialog too, and what can't be read but keep-alives. A To tag
/// is easily made up, so it excuses nobody.
fn is_counted(reading: Reading<'_>, octets: &[u8]) -> bool
    ensures { result ≡ spec.is_counted reading.entry octets.now }
{
    match reading {
        Reading::Request(_) => true,
        Reading::Response => false,
        Reading::Unread => !is_keep_alive(octets),
    }
}

/// Whether a request is asked who it is from: a SUBSCRIBE or a REFER is, in a dialog too.
fn is_asked(request: &Request) -> bool
    ensures { result ≡ spec.is_asked request.now }
{
    request.method.is("SUBSCRIBE") || request.method.is("REFER")
}

/// The request that is asked, if the datagram is one.
fn asked(reading: Reading<'_>) -> Option<&Request>
    ensures { option_map (λ r. r.now) result ≡ spec.asked reading.entry }
{
    match reading {
        Reading::Request(request) if is_asked(request) => Some(request),
        _ => None,
    }
}

/// The request that is answered, if the datagram is one: any is but an ACK (RFC 3261 section 17).
fn answered(reading: Reading<'_>) -> Option<&Request>
    ensures { option_map (λ r. r.now) result ≡ spec.answered reading.entry }
{
    match reading {
        Reading::Request(request) if !request.method.is("ACK") => Some(request),
        _ => None,
    }
}

/// The request that asks for a new subscription, if the datagram is one: a SUBSCRIBE or a REFER outside a dialog.
fn newcomer(reading: Reading<'_>) -> Option<&Request>
    ensures { option_map (λ r. r.now) result ≡ spec.newcomer reading.entry }
{
    match reading {
        Reading::Request(request) if is_asked(request) && request.head.to.tag.is_none() => {
            Some(request)
        }
        _ => None,
    }
}

/// The user whom credentials name, where the datagram shows some.
fn username(shown: &Shown) -> Option<&Text>
    ensures { option_map (λ t. t.now) result ≡ spec.username shown.now }
{
    match shown {
        Shown::Credentials(credentials) => Some(&credentials.username),
        _ => None,
    }
}

/// What is left of so much room behind the lines of these values, if they fit there.
fn room_behind(room: usize, values: &[Text]) -> Option<usize>
    ensures { SomeIff result (amounts.lines_length values.now ≤ room) (room - amounts.lines_length values.now) }
{
    let mut left = room;
    for value in values {
        left = left.checked_sub(value.as_str().len())?.checked_sub(LINE)?;
    }
    Some(left)
}

/// What is left of so much room behind an Event, if it fits there.
fn room_behind_event(room: usize, event: &Field<EventValue>) -> Option<usize>
    ensures { SomeIff result (amounts.event_length event.now ≤ room) (room - amounts.event_length event.now) }
{
    let Field::Value(event) = event else {
        return Some(room);
    };
    let left = room.checked_sub(event.package().len())?;
    match event.id() {
        Some(id) => left.checked_sub(id.len()),
        None => Some(left),
    }
}

/// What is left of so much room behind a Contact, if it fits there.
fn room_behind_contact(room: usize, contact: &Field<Text>) -> Option<usize>
    ensures { SomeIff result (amounts.contact_length contact.now ≤ room) (room - amounts.contact_length contact.now) }
{
    match contact {
        Field::Value(address) => room.checked_sub(address.as_str().len()),
        _ => Some(room),
    }
}

/// What is left of so much room behind the top Via once more, if it fits there.
fn room_behind_top(room: usize, vias: &[Text]) -> Option<usize>
    ensures { SomeIff result (amounts.top_length vias.now ≤ room) (room - amounts.top_length vias.now) }
{
    match vias {
        [top, ..] => room.checked_sub(top.as_str().len()),
        [] => Some(room),
    }
}

/// What is left of so much room behind all that is kept of the request, if it fits there.
fn room_behind_all(room: usize, request: &Request) -> Option<usize>
    ensures { SomeIff result (amounts.kept request.now ≤ room) (room - amounts.kept request.now) }
{
    let head = &request.head;
    let left = room.checked_sub(head.from.text.as_str().len())?;
    let left = left.checked_sub(head.to.text.as_str().len())?;
    let left = left.checked_sub(head.call_id.as_str().len())?;
    let left = left.checked_sub(head.cseq_method.as_str().len())?;
    let left = room_behind(left, head.vias.as_slice())?;
    let left = room_behind_top(left, head.vias.as_slice())?;
    let left = left.checked_sub(request.method.as_str().len())?;
    let left = room_behind_contact(left, &request.contact)?;
    let left = room_behind_event(left, &request.event)?;
    let left = room_behind(left, request.record_routes.as_slice())?;
    room_behind(left, request.require.as_slice())
}

/// Whether more is kept of the request than may be.
fn is_over(most: Option<u32>, request: &Request) -> bool
    ensures { result ≡ amounts.is_over most request.now }
{
    match most {
        Some(most) => room_behind_all(most as usize, request).is_none(),
        None => false,
    }
}

impl Admission {
    /// One that hears everything: from anywhere, as much as comes, whoever asks.
    pub fn open(alloc: Global) -> Admission
        // Whatever comes is allowed, and it stays the same.
        ensures open { spec.IsOpen result }
        ensures allows { (x : ArrivalSeen) → spec.IsAllowed result x }
        ensures stays { (x : ArrivalSeen) (v : VerdictSeen) → Judges result x v → spec.judged result x v ≡ result }
    {
        Admission {
            networks: Vec::new(alloc),
            rates: None,
            authentication: None,
            guesses: None,
            max_texts: None,
            per_source: None,
        }
    }

    /// Whether the address is of one of the networks, or there is none.
    pub fn hears(&self, ip: [u8; 4]) -> bool
        ensures { result ≡ spec.hears self.now ip }
    {
        self.networks.is_empty() || any_contains(&self.networks, ip)
    }

    /// Whether the datagram's source has a token for it, which it takes.
    fn lets(&mut self, arrival: Arrival<'_>) -> Result<bool, NoMemory>
        ensures lets { IfOk result (λ r. r ≡ spec.lets self.old arrival.entry) }
        ensures behind { OnOk result (self.new ≡ behind self.old arrival.entry) }
        ensures err { OnErr result (self.new ≡ self.old) }
        ensures wanting { OnErr result (self.old.rates ≡ None → ⊥) }
        ensures counted { OnErr result (spec.is_counted arrival.entry.reading arrival.entry.octets.now ≡ true) }
    {
        match &mut self.rates {
            Some(rates) if is_counted(arrival.reading, arrival.octets) => {
                rates.hear(number(arrival.source.ip), arrival.moment)
            }
            _ => Ok(true),
        }
    }

    /// What comes of a datagram of whoever may ask.
    fn seat(&self, alloc: Global, arrival: Arrival<'_>) -> Result<Verdict, NoMemory>
        ensures seated { IfOk result (IsSeated self.now arrival.entry) }
        ensures wanting { OnErr result (self.now.per_source ≡ None → ⊥) }
        ensures newcomer { OnErr result (spec.newcomer arrival.entry.reading ≡ None → ⊥) }
    {
        match self.per_source {
            Some(most) if arrival.live >= most as usize => {}
            _ => return Ok(Verdict::Allowed),
        }
        let Some(request) = newcomer(arrival.reading) else {
            return Ok(Verdict::Allowed);
        };
        let source = arrival.source;
        let reply = Reply {
            request,
            source,
            tag: CROWD_TAG,
        };
        Ok(Verdict::Crowded(reply.unavailable(alloc)?))
    }

    /// The user whose password isn't looked at, if what the datagram shows is of one.
    fn barred<'a>(&self, arrival: Arrival<'_>, shown: &'a Shown) -> Option<&'a Text>
        ensures { option_map (λ t. t.now) result ≡ spec.barred_user self.now arrival.entry (spec.username shown.now) }
    {
        let Some(user) = username(shown) else {
            return None;
        };
        let Some(guesses) = &self.guesses else {
            return None;
        };
        if guesses.bars(number(arrival.source.ip), user.as_str(), arrival.moment) {
            Some(user)
        } else {
            None
        }
    }

    /// What comes of a datagram of a source that is heard and has a token, of which no more is kept than may be.
    fn conclude(&self, alloc: Global, arrival: Arrival<'_>) -> Result<Verdict, NoMemory>
        ensures concluded { IfOk result (spec.IsConcluded self.now arrival.entry) }
        ensures free { IfOk result (λ v. IsUnbarred self.now arrival.entry → IsFree self.now arrival.entry
            → IsSeated self.now arrival.entry verdict.Allowed → v ≡ verdict.Allowed) }
        ensures wanting { OnErr result (self.now.authentication ≡ None → self.now.per_source ≡ None → ⊥) }
        ensures answers { OnErr result (arrival.entry.reading ≡ reading.Response → ⊥) }
    {
        let (Some(authentication), Some(request)) = (&self.authentication, asked(arrival.reading))
        else {
            return self.seat(alloc, arrival);
        };
        let inquiry = Inquiry {
            request,
            octets: arrival.octets,
            source: arrival.source,
            now: arrival.moment / 1000,
            owner: arrival.owner,
        };
        let shown = show(alloc, &authentication.guard.passwords.realm, arrival.octets)?;
        if let Some(user) = self.barred(arrival, &shown) {
            let octets = authentication.reply(inquiry).forbidden(alloc)?;
            return Ok(Verdict::Barred(user.copy(alloc)?, octets));
        }
        match authentication.conclude(alloc, inquiry, shown)? {
            Conclusion::Admitted => self.seat(alloc, arrival),
            Conclusion::Challenge(cause, octets) => Ok(Verdict::Challenge(cause, octets)),
            Conclusion::Guess(user, octets) => Ok(Verdict::Guess(user, octets)),
            Conclusion::Forbidden(octets) => Ok(Verdict::Forbidden(octets)),
        }
    }

    /// What comes of a datagram of a source that is heard and has a token.
    fn weigh(&self, alloc: Global, arrival: Arrival<'_>) -> Result<Verdict, NoMemory>
        ensures weighed { IfOk result (spec.IsWeighed self.now arrival.entry) }
        ensures free { IfOk result (λ v. spec.too_large self.now arrival.entry ≡ None → IsUnbarred self.now arrival.entry
            → IsFree self.now arrival.entry → IsSeated self.now arrival.entry verdict.Allowed → v ≡ verdict.Allowed) }
        ensures wanting { OnErr result (self.now.authentication ≡ None → self.now.max_texts ≡ None → self.now.per_source ≡ None → ⊥) }
        ensures answers { OnErr result (arrival.entry.reading ≡ reading.Response → ⊥) }
    {
        match answered(arrival.reading) {
            Some(request) if is_over(self.max_texts, request) => {
                let source = arrival.source;
                let reply = Reply {
                    request,
                    source,
                    tag: LARGE_TAG,
                };
                Ok(Verdict::Large(reply.large(alloc)?))
            }
            _ => self.conclude(alloc, arrival),
        }
    }

    /// Takes the tokens of a wrong password, where the verdict is of one.
    fn note(&mut self, arrival: Arrival<'_>, verdict: &Verdict) -> Result<(), NoMemory>
        ensures noted { OnOk result (self.new ≡ spec.noted self.old arrival.entry verdict.now) }
        ensures err { OnErr result ((self.new ≡ self.old) ⊎ (self.new ≡ half_noted self.old arrival.entry)) }
        ensures guess { OnErr result (spec.is_guess verdict.now ≡ true) }
    {
        let Verdict::Guess(user, _) = verdict else {
            return Ok(());
        };
        match &mut self.guesses {
            Some(guesses) => guesses.note(number(arrival.source.ip), user.as_str(), arrival.moment),
            None => Ok(()),
        }
    }

    /// The user whom the credentials of a request name that is asked who it is from, as a number ([`name_number`]). Of one that is allowed
    /// it is the user who proved themself. None where nobody is asked, or no credentials are shown. Its only error is out of memory.
    pub fn user(&self, alloc: Global, arrival: Arrival<'_>) -> Result<Option<u32>, NoMemory>
        ensures names { IfOk result (λ user. IfSome user (Names self.now arrival.entry)) }
        ensures only { IfOk result (IsUser self.now arrival.entry) }
    {
        let (Some(authentication), Some(_request)) = (&self.authentication, asked(arrival.reading))
        else {
            return Ok(None);
        };
        let shown = show(alloc, &authentication.guard.passwords.realm, arrival.octets)?;
        match username(&shown) {
            Some(user) => Ok(Some(name_number(user.as_str()))),
            None => Ok(None),
        }
    }

    /// What comes of a datagram. It takes a token of its source where it is counted, and those of a wrong password where it shows one. Its only
    /// error is out of memory.
    #[tactic(auto, using(crate::proofs::Concluding::guess_wants, crate::proofs::Concluding::guess_asks))]
    pub fn judge(&mut self, alloc: Global, arrival: Arrival<'_>) -> Result<Verdict, NoMemory>
        // The verdict is the definition's.
        ensures judges { IfOk result (Judges self.old arrival.entry) }
        // What is to be heard is.
        ensures allows { IfOk result (λ v. spec.IsAllowed self.old arrival.entry → v ≡ verdict.Allowed) }
        // Only tokens change.
        ensures behind { IfOk result (λ v. self.new ≡ spec.judged self.old arrival.entry v) }
        ensures err { OnErr result (spec.IsHalfway self.old arrival.entry self.new) }
        // Where it asks nothing it needs no memory.
        ensures wanting { OnErr result (spec.IsOpen self.old → ⊥) }
        // Nor where its source isn't heard, or it is an answer.
        ensures foreign { OnErr result (spec.hears self.old arrival.entry.source.ip ≡ true) }
        ensures answers { OnErr result (arrival.entry.reading ≡ reading.Response → ⊥) }
    {
        if !self.hears(arrival.source.ip) {
            return Ok(Verdict::Foreign);
        }
        if !self.lets(arrival)? {
            return Ok(Verdict::Limited);
        }
        let verdict = self.weigh(alloc, arrival)?;
        self.note(arrival, &verdict)?;
        Ok(verdict)
    }
}
