//! Requests that came in, and what is decided of each once.
#![tactic(auto, unfolding(notifier_model::specs::Requests::event_of, notifier_model::specs::Requests::asked, notifier_model::specs::Requests::granted, notifier_model::specs::Requests::asks_nothing, notifier_model::specs::Requests::is_unwatched, notifier_model::specs::Requests::birth_of, notifier_model::specs::Requests::is_malformed, notifier_model::specs::Requests::misfit, notifier_model::specs::Requests::misplaced_at, notifier_model::specs::Requests::is_full, notifier_model::specs::Requests::denial))]

ghost use Rattle.std.specs.List.{list_any};
ghost use Rattle.std.specs.Prelude.{◌≡◌, ◌≤◌, false, map, option_map, Some};
ghost use Rattle.std.proofs.Props.{props};
ghost use Rattle.event_headers.specs.Covering.{covers as covers_type};
ghost use Rattle.notifier_model.specs.Fields as fields;
ghost use Rattle.notifier_model.specs.Requests as spec;
ghost use Rattle.notifier.specs.Transactions.{key_of};

use crate::notice::first_box;
use crate::store::transaction::Transaction;
use event_headers::{EventValue, Range, covers};
use notifier_model::birth::Birth;
use notifier_model::limits::Limits;
use notifier_model::place::Place;
use notifier_model::refusal::Refusal;
use notifier_model::uri::{is_sip_uri, user_part};
use package::Package;
use sip_read::{Addr, Request};
use sip_text::{Field, Text, Values};

/// A request that came in, with what is decided of it once.
#[derive(Drop)]
pub struct Incoming<'a> {
    /// The place of the desk to which it came, by whose limits it is judged.
    pub place: &'a Place,
    /// Where it came from.
    pub source: Addr,
    pub request: &'a Request,
    /// Whether it is a SUBSCRIBE.
    pub subscribes: bool,
    /// Whether it is a REFER.
    pub refers: bool,
    /// The name of the package that it is for.
    pub package: &'a str,
    /// The user part of its Request-URI.
    pub user: &'a str,
    /// The time that it asks for, in seconds.
    asked: u32,
    /// Whether it asks for some time, but for too brief a one.
    is_too_brief: bool,
    ghost of_subscribe: { subscribes ≡ spec.is_subscribe request.now },
    ghost of_refer: { refers ≡ spec.is_refer request.now },
    ghost of_package: { «package».now ≡ (spec.event_of request.now).package },
    ghost of_user: { user.now ≡ spec.user_part request.now.uri },
    ghost of_asked: { asked ≡ spec.asked place.now.limits request.now },
    ghost of_brief: { is_too_brief ≡ spec.is_too_brief place.now.limits request.now },
}

/// A request that waits for its answer.
#[derive(Drop)]
pub struct Pending<'a> {
    pub incoming: &'a Incoming<'a>,
    /// What names its transaction, if anything does. The answer is kept under it.
    pub transaction: Option<Transaction>,
    ghost named: { option_map key_of transaction ≡ spec.key_of_request incoming.now.request.now } by { Prim.hlevel props },
}

/// The package that a request is for, by whether it is a REFER.
fn wanted_package(request: &Request, refers: bool) -> &str
    requires { refers ≡ spec.is_refer request.now }
    ensures { result.now ≡ (spec.event_of request.now).package }
{
    if refers {
        return "refer";
    }
    match &request.event {
        Field::Value(event) => event.package(),
        _ => "",
    }
}

/// The time that a request for this package asks for, in seconds.
fn asked(limits: &Limits, request: &Request, package: &str) -> u32
    requires { «package».now ≡ (spec.event_of request.now).package }
    ensures { result ≡ spec.asked limits.now request.now }
{
    match request.expires {
        Field::Value(seconds) => seconds,
        _ => {
            if package == "refer" {
                limits.refer_time()
            } else {
                limits.default_time()
            }
        }
    }
}

/// Whether this is the text, or both are absent.
fn same_text(text: Option<&str>, other: Option<&str>) -> bool
    ensures { result ≡ fields.same_text (option_map (λ t. t.now) text.entry) (option_map (λ t. t.now) other.entry) }
{
    match (text, other) {
        (None, None) => true,
        (Some(text), Some(other)) => text == other,
        _ => false,
    }
}

/// Whether package and `id` are the same, byte by byte.
fn same_event(event: &EventValue, other: &EventValue) -> bool
    ensures { result ≡ fields.same_event event.now other.now }
{
    event.package() == other.package() && same_text(event.id(), other.id())
}

/// Whether a required extension isn't understood (RFC 3261 section 8.2.2.3).
pub fn is_strange(word: &Text) -> bool
    ensures { result ≡ spec.is_strange word.now }
{
    !word.as_str().eq_ignore_ascii_case("norefersub")
}

fn requires_more(required: &[Text]) -> bool
    ensures { result ≡ list_any spec.is_strange required.now }
{
    required.iter().any(|word| is_strange(word))
}

fn is_absent<T>(field: &Field<T>) -> bool
    ensures { result ≡ fields.is_absent field.now }
{
    matches!(field, Field::Absent)
}

fn is_bad<T>(field: &Field<T>) -> bool
    ensures { result ≡ fields.is_bad field.now }
{
    matches!(field, Field::Bad)
}

/// Whether one of the ranges covers the content type.
fn is_covered(content_type: &str, ranges: &[Range]) -> bool
    ensures { result ≡ list_any (λ range. covers_type range content_type.now) ranges.now }
{
    ranges.iter().any(|range| covers(range, content_type))
}

/// Whether an Accept lets this content type pass.
fn is_acceptable(content_type: &str, accept: &Field<Values<Range>>) -> bool
    ensures { result ≡ spec.is_acceptable content_type.now (fields.value_of accept.now) }
{
    match accept {
        Field::Value(ranges) => is_covered(content_type, ranges.as_slice()),
        _ => true,
    }
}

impl<'a> Incoming<'a> {
    /// A request from this address, with what the tests below look at.
    pub fn new(place: &'a Place, source: Addr, request: &'a Request) -> Incoming<'a>
        ensures place { result.place.now ≡ place.now }
        ensures source { result.source ≡ source }
        ensures request { result.request.now ≡ request.now }
    {
        let refers = request.method.is("REFER");
        let package = wanted_package(request, refers);
        let asked = asked(&place.limits, request, package);
        let least = place.limits.min_time();
        Incoming {
            place,
            source,
            request,
            subscribes: request.method.is("SUBSCRIBE"),
            refers,
            package,
            user: user_part(request.uri.as_str()),
            asked,
            is_too_brief: 0 < asked && asked < least,
        }
    }

    /// The time that is granted, in seconds (RFC 6665 section 4.2.1.1).
    pub fn granted(&self) -> u32
        ensures value { result ≡ spec.granted self.now.place.now.limits self.now.request.now }
        ensures some_time { spec.asks_nothing self.now.place.now.limits self.now.request.now ≡ false → 1 ≤ result }
    {
        if self.refers {
            self.place.limits.refer_time()
        } else {
            self.asked.min(self.place.limits.max_time())
        }
    }

    /// Whether it is a SUBSCRIBE that asks for no time.
    pub fn asks_nothing(&self) -> bool
        ensures { result ≡ spec.asks_nothing self.now.place.now.limits self.now.request.now }
    {
        !self.refers && self.asked == 0
    }

    /// Whether it is a REFER that asks for no subscription (RFC 4488).
    pub fn is_unwatched(&self) -> bool
        ensures { result ≡ spec.is_unwatched self.now.request.now }
    {
        self.refers && matches!(self.request.refer_sub, Field::Value(false))
    }

    /// What it makes, where nothing stands against it.
    pub fn birth(&self) -> Birth
        ensures { result ≡ spec.birth_of self.now.place.now.limits self.now.request.now }
    {
        if self.refers {
            if self.is_unwatched() {
                Birth::Unwatched
            } else {
                Birth::Transfer
            }
        } else if self.asks_nothing() {
            Birth::Fetch
        } else {
            Birth::Watch
        }
    }

    /// Whether a header is missing or can't be read, or the CSeq names another method.
    fn is_malformed(&self) -> bool
        ensures { result ≡ spec.is_malformed self.now.request.now }
    {
        let request = self.request;
        !request.head.cseq_method.is(request.method.as_str())
            || self.subscribes
                && (is_absent(&request.event)
                    || is_bad(&request.event)
                    || is_bad(&request.expires)
                    || is_bad(&request.accept))
            || self.refers
                && (is_absent(&request.refer_to)
                    || is_bad(&request.refer_to)
                    || is_bad(&request.refer_sub))
            || is_bad(&request.contact)
            || is_absent(&request.contact) && request.head.to.tag.is_none()
    }

    /// Why no state can help it, if so.
    pub fn misfit(&self) -> Option<Refusal>
        ensures { result ≡ spec.misfit self.now.request.now }
    {
        if !self.subscribes && !self.refers {
            Some(Refusal::OtherMethod)
        } else if !is_sip_uri(self.request.uri.as_str()) {
            Some(Refusal::OtherScheme)
        } else if requires_more(self.request.require.as_slice()) {
            Some(Refusal::UnmetRequire)
        } else if self.is_malformed() {
            Some(Refusal::Malformed)
        } else {
            None
        }
    }

    /// Whether it is a SUBSCRIBE for this event.
    fn has_event(&self, event: &EventValue) -> bool
        ensures { spec.is_refer self.now.request.now ≡ false
            → result ≡ fields.same_event (spec.event_of self.now.request.now) event.now }
    {
        match &self.request.event {
            Field::Value(other) => same_event(other, event),
            _ => event.package() == "" && event.id().is_none(),
        }
    }

    /// Why it is refused in the dialog of this event, if so.
    pub fn denial(&self, event: &EventValue) -> Option<Refusal>
        ensures { result ≡ spec.denial self.now.place.now.limits event.now self.now.request.now }
    {
        if self.refers {
            Some(Refusal::ReferInDialog)
        } else if !self.has_event(event) {
            Some(Refusal::OtherEvent)
        } else if self.is_too_brief {
            Some(Refusal::TooBrief)
        } else {
            None
        }
    }

    /// Why the packages refuse it outside a dialog, if so, by the first box of its package.
    pub fn misplaced<P: Package>(&self, boxes: &Vec<P>) -> Option<Refusal>
        ensures { result ≡ spec.misplaced self.now.place.now.limits (map P.seen boxes.now.items) self.now.request.now }
    {
        let Some(found) = first_box(boxes, self.package) else {
            return Some(Refusal::NoPackage);
        };
        if self.refers {
            None
        } else if self.package == "refer" {
            Some(Refusal::OnlyByRefer)
        } else if !is_acceptable(found.content_type(), &self.request.accept) {
            Some(Refusal::NotAcceptable)
        } else if !found.holds(self.user) {
            Some(Refusal::NoResource)
        } else if self.is_too_brief {
            Some(Refusal::TooBrief)
        } else {
            None
        }
    }

    /// Whether no serial is left for what it makes, or that needs a place in the table and there is none.
    pub fn is_full(&self, kind: Birth, next: u64, alive: usize) -> bool
        requires { kind ≡ spec.birth_of self.now.place.now.limits self.now.request.now }
        ensures { result ≡ spec.is_full self.now.place.now.limits next alive self.now.request.now }
    {
        let limits = &self.place.limits;
        u64::from(limits.serials()) < next
            || limits.table() as usize <= alive && matches!(kind, Birth::Watch | Birth::Transfer)
    }
}
