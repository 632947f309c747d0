//! What a request asks for of who hears a voicemail system.
ghost use Rattle.std.specs.Prelude.{◌≡◌, option_map};
ghost use Rattle.voicemail.specs.Notices as spec;

use event_headers::EventValue;
use notifier_model::user_part;
use package::MailCounts;
use package::texts::is_word;
use sip_read::Request;
use sip_text::Field;
use sip_write::Status;
use summary_bodies::read_summary;

/// What a voicemail system tells of a mailbox.
#[derive(Clone, Copy, Debug)]
pub struct Notice<'a> {
    pub mailbox: &'a str,
    /// The counts of each class that is named. It is all of it: a class that isn't named has no messages.
    pub counts: MailCounts,
}

/// What a request asks for.
#[derive(Clone, Copy, Debug)]
pub enum Asked<'a> {
    /// Nothing, and it gets no answer (RFC 3261 section 17).
    Nothing,
    /// It is refused with this status.
    Refusal(Status),
    /// To be told of a mailbox.
    Notice(Notice<'a>),
}

/// Whether this Event header names the package `message-summary`.
fn is_of_mail(event: &Field<EventValue>) -> bool
    ensures { result ≡ spec.is_of_mail event.now }
{
    match event {
        Field::Value(event) => event.package() == "message-summary",
        Field::Absent | Field::Bad => false,
    }
}

/// The mailbox that this account is, or else this Request-URI: the user of it.
fn mailbox<'a>(account: Option<&'a str>, uri: &'a str) -> &'a str
    ensures { result.now ≡ spec.told_mailbox (option_map (λ a. a.now) account.entry) uri.now }
{
    match account {
        Some(account) => user_part(account),
        None => user_part(uri),
    }
}

/// What a NOTIFY of `message-summary` with this body asks for.
fn noticed<'a>(body: &'a [u8], uri: &'a str) -> Asked<'a>
    ensures { spec.seen result ≡ spec.noticed body.now uri.now }
{
    let Ok(summary) = read_summary(body) else {
        return Asked::Refusal(Status::BadRequest);
    };
    let mailbox = mailbox(summary.account, uri);
    if !is_word(mailbox) {
        return Asked::Refusal(Status::NotFound);
    }
    Asked::Notice(Notice {
        mailbox,
        counts: summary.counts,
    })
}

/// What a request asks for. One outside any dialog is heard alone (RFC 6665 section 4.1.3): NOTIFYs in dialogs are not asked for.
pub fn hear_request(request: &Request) -> Asked<'_>
    ensures { spec.seen result ≡ spec.meaning request.now }
{
    if request.method.is("ACK") {
        Asked::Nothing
    } else if !request.method.is("NOTIFY") {
        Asked::Refusal(Status::MethodNotAllowed)
    } else if request.head.to.tag.is_some() {
        Asked::Refusal(Status::CallDoesNotExist)
    } else if !is_of_mail(&request.event) {
        Asked::Refusal(Status::BadEvent)
    } else {
        noticed(request.body.as_slice(), request.uri.as_str())
    }
}
