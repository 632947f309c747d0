//! Who asks, and whether they may.
ghost use Rattle.std.specs.Prelude.{◌≡◌, ◌↔◌, IfOk, IsTrue};
ghost use Rattle.digest.specs.declared.credentials.Credentials.{Credentials as CredentialsSeen};
ghost use Rattle.digest.specs.Verdicts.{IsAccepted};
ghost use Rattle.admission.specs.declared.authentication.Conclusion.TheVariants as conclusion;
ghost use Rattle.admission.specs.declared.authentication.Finding.TheVariants as finding;
ghost use Rattle.admission.specs.declared.shown.Shown.TheVariants as shown_is;
ghost use Rattle.admission.specs.Authorization.{Shows, IsShown};
ghost use Rattle.admission.specs.Inquiries as spec;
ghost use Rattle.admission.specs.Inquiries.{inquiry_seen, asked, MayHave, MayAsk, IsFound, IsAdmitted, IsConcluded};

use crate::answer::Reply;
use crate::guesses::name_number;
use crate::shown::Shown;
use digest::{Asked, Guard, Verdict as Judged, may_watch};
use notifier_model::user_part;
use sip_read::Request;
use sip_text::{Addr, NoMemory, Octets, Text};
use std::alloc::Global;

/// Who may ask for what.
#[derive(Drop)]
pub struct Authentication {
    /// The users, and the nonces that they are challenged with.
    pub guard: Guard,
    /// Mailboxes that users may watch beside their own: each a user and a mailbox.
    pub further: Vec<(Text, Text)>,
    /// The tag that refusals add to a To without one.
    pub tag: Text,
}

/// Why a request is challenged.
#[derive(Clone, Copy, Debug, PartialEq, Eq, Drop)]
pub enum ChallengeCause {
    /// It shows no credentials.
    Absent,
    /// Its credentials can't be read.
    Malformed,
    /// Its credentials are wrong.
    Wrong,
    /// They are right, but to a nonce that is too old: the challenge says `stale=true`.
    Stale,
}

/// Who is found to ask.
#[derive(Debug, Drop)]
pub(crate) enum Finding {
    /// This user.
    User(Text),
    /// Who shows a wrong password of this user: nobody has this name, or the response isn't that of who knows the password.
    Guess(Text),
    /// Nobody that is known.
    Nobody(ChallengeCause),
}

/// What comes of a request that is asked who it is from.
#[derive(Debug, Drop)]
pub(crate) enum Conclusion {
    /// It may go on.
    Admitted,
    /// The 401.
    Challenge(ChallengeCause, Octets),
    /// The 401 to a wrong password of this user.
    Guess(Text, Octets),
    /// The 403.
    Forbidden(Octets),
}

/// A request that is asked who it is from.
#[derive(Clone, Copy)]
pub(crate) struct Inquiry<'a> {
    pub request: &'a Request,
    /// The datagram that it was read from.
    pub octets: &'a [u8],
    pub source: Addr,
    /// Now, in seconds.
    pub now: u64,
    /// Who made the dialog that it is in, as a number, where that is known.
    pub owner: Option<u32>,
}

/// Whether any user may have what the request asks for: a transfer, or what a request asks for that names no mailbox, as one in a dialog.
fn is_for_any(request: &Request) -> bool
    ensures { result ≡ spec.is_for_any request.now }
{
    request.method.is("REFER") || user_part(request.uri.as_str()).is_empty()
}

/// Whether the user may have what the request asks for.
fn may_have(request: &Request, user: &str, further: &[(Text, Text)]) -> bool
    ensures { IsTrue result ↔ MayHave request.now user.now further.now }
{
    if is_for_any(request) {
        return true;
    }
    may_watch(user, user_part(request.uri.as_str()), further)
}

/// Whether the dialog that a request is in is the user's, as far as it is known who made that.
fn is_owner(owner: Option<u32>, user: &str) -> bool
    ensures { result ≡ spec.is_owner owner user.now }
{
    match owner {
        Some(owner) => name_number(user) == owner,
        None => true,
    }
}

/// Whether the user may ask for it: for what they may have, and in a dialog that they made.
fn may_ask(inquiry: Inquiry<'_>, user: &str, further: &[(Text, Text)]) -> bool
    ensures { IsTrue result ↔ MayAsk (inquiry_seen inquiry.entry) user.now further.now }
{
    if !is_owner(inquiry.owner, user) {
        return false;
    }
    may_have(inquiry.request, user, further)
}

/// Who the guard says that it is, of credentials of this user.
fn told(judged: Judged, user: Text) -> Finding
    ensures { result ≡ spec.told judged user }
{
    match judged {
        Judged::Accepted(user) => Finding::User(user),
        Judged::UnknownUser | Judged::BadResponse => Finding::Guess(user),
        Judged::ForeignNonce | Judged::StaleNonce => Finding::Nobody(ChallengeCause::Stale),
        Judged::WrongRealm | Judged::OtherUri | Judged::WrongAlgorithm | Judged::OldForm => {
            Finding::Nobody(ChallengeCause::Wrong)
        }
    }
}

impl Authentication {
    /// Who is found to ask, where the datagram shows this. Its only error is out of memory.
    fn find(&self, alloc: Global, inquiry: Inquiry<'_>, shown: Shown) -> Result<Finding, NoMemory>
        requires shown { IsShown self.now.guard.passwords.realm inquiry.octets.now shown }
        requires only { (c : CredentialsSeen) → Shows self.now.guard.passwords.realm inquiry.octets.now c → shown ≡ shown_is.Credentials c }
        ensures found { IfOk result (IsFound self.now.guard (inquiry_seen inquiry.entry)) }
        ensures accepts { IfOk result (λ f. (c : CredentialsSeen) → Shows self.now.guard.passwords.realm inquiry.entry.octets.now c
            → IsAccepted self.now.guard (asked (inquiry_seen inquiry.entry)) c → f ≡ finding.User c.username) }
    {
        let credentials = match shown {
            Shown::Credentials(credentials) => credentials,
            Shown::Absent => return Ok(Finding::Nobody(ChallengeCause::Absent)),
            Shown::Malformed => return Ok(Finding::Nobody(ChallengeCause::Malformed)),
        };
        let asked = Asked {
            method: inquiry.request.method.as_str(),
            uri: inquiry.request.uri.as_str(),
            source: inquiry.source,
            now: inquiry.now,
        };
        let judged = self.guard.judge(alloc, asked, &credentials)?;
        Ok(told(judged, credentials.username))
    }

    /// The 401 to a request, for this cause.
    fn challenge(
        &self,
        alloc: Global,
        inquiry: Inquiry<'_>,
        cause: ChallengeCause,
    ) -> Result<Octets, NoMemory>
        ensures { IfOk result (λ o. o ≡ spec.challenge self.now (inquiry_seen inquiry.entry) cause) }
    {
        let is_stale = matches!(cause, ChallengeCause::Stale);
        let challenges = self
            .guard
            .challenges(alloc, inquiry.source, inquiry.now, is_stale)?;
        self.reply(inquiry).challenge(alloc, &challenges)
    }

    pub(crate) fn reply<'a>(&'a self, inquiry: Inquiry<'a>) -> Reply<'a>
        ensures request { result.request.now ≡ inquiry.entry.request.now }
        ensures source { result.source ≡ inquiry.entry.source }
        ensures tag { result.tag.now ≡ self.now.tag }
    {
        Reply {
            request: inquiry.request,
            source: inquiry.source,
            tag: self.tag.as_str(),
        }
    }

    /// What comes of the request, where the datagram shows this. Its only error is out of memory.
    pub(crate) fn conclude(
        &self,
        alloc: Global,
        inquiry: Inquiry<'_>,
        shown: Shown,
    ) -> Result<Conclusion, NoMemory>
        requires shown { IsShown self.now.guard.passwords.realm inquiry.octets.now shown }
        requires only { (c : CredentialsSeen) → Shows self.now.guard.passwords.realm inquiry.octets.now c → shown ≡ shown_is.Credentials c }
        ensures concluded { IfOk result (IsConcluded self.now (inquiry_seen inquiry.entry)) }
        ensures admits { IfOk result (λ c. IsAdmitted self.now (inquiry_seen inquiry.entry) → c ≡ conclusion.Admitted) }
    {
        match self.find(alloc, inquiry, shown)? {
            Finding::Nobody(cause) => {
                let octets = self.challenge(alloc, inquiry, cause)?;
                Ok(Conclusion::Challenge(cause, octets))
            }
            Finding::Guess(user) => {
                let octets = self.challenge(alloc, inquiry, ChallengeCause::Wrong)?;
                Ok(Conclusion::Guess(user, octets))
            }
            Finding::User(user) => {
                if may_ask(inquiry, user.as_str(), &self.further) {
                    return Ok(Conclusion::Admitted);
                }
                let octets = self.reply(inquiry).forbidden(alloc)?;
                Ok(Conclusion::Forbidden(octets))
            }
        }
    }
}
