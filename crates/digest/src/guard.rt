//! Whom a service lets in.
ghost use Rattle.std.specs.Prelude.{◌≡◌, MatchResult, IfOk};
ghost use Rattle.digest.specs.Posed as spec;
ghost use Rattle.digest.specs.declared.guard.Verdict.TheVariants as verdict;
ghost use Rattle.digest.specs.Verdicts.{request_seen, takes, IsForUs, IsAccepted, Judges};

use crate::algorithm::Algorithm;
use crate::challenge::challenge;
use crate::comparison::is_same;
use crate::credentials::{Credentials, Protection};
use crate::nonce::{Freshness, Nonces};
use crate::passwords::Passwords;
use crate::response::response;
use sip_text::{Addr, NoMemory, Text};
use std::alloc::Global;

/// What a request shows of itself besides its credentials.
#[derive(Clone, Copy)]
pub struct Asked<'a> {
    pub method: &'a str,
    /// The Request-URI.
    pub uri: &'a str,
    pub source: Addr,
    /// Now, in seconds.
    pub now: u64,
}

/// What is found of a request's credentials. The checks have this order, `Accepted` apart: the first that fails is the verdict.
#[derive(Debug, Drop)]
pub enum Verdict {
    /// Who asks is this user.
    Accepted(Text),
    /// The realm isn't that of the passwords.
    WrongRealm,
    /// The digest-uri isn't the Request-URI, byte by byte.
    OtherUri,
    /// The algorithm isn't known, or no password has a hash by it.
    WrongAlgorithm,
    /// The response is made without `qop`, and such aren't taken.
    OldForm,
    /// The nonce wasn't made here, or for another source: before a restart, say, or behind a NAT that changed the port. A challenge says
    /// `stale=true` (RFC 7616 section 3.3), so that no phone takes its password for wrong. User and response aren't looked at: so who forges
    /// a source, and sees no challenge to it, can't try passwords there.
    ForeignNonce,
    /// No password is known of the user, by this algorithm.
    UnknownUser,
    /// The response isn't the one that who knows the password makes.
    BadResponse,
    /// All is right but the nonce, which is too old, or from later than now. Only who knows the password is told so, by `stale=true`.
    StaleNonce,
}

/// Whom a service lets in: users of one realm, by digests to nonces of its own.
#[derive(Drop)]
pub struct Guard {
    pub passwords: Passwords,
    pub nonces: Nonces,
    /// Whether a response without `qop` is taken, as clients of RFC 2069 make it.
    pub old_digest: bool,
}

/// Whether a response of this form is taken.
fn takes(old_digest: bool, protection: &Protection) -> bool
    ensures { result ≡ takes old_digest protection.now }
{
    match protection {
        Protection::Old => old_digest,
        Protection::Auth(..) => true,
    }
}

impl Guard {
    /// Whether the passwords are of this realm.
    fn is_of_realm(&self, realm: &str) -> bool
        ensures { result ≡ spec.is_of_realm self.now.passwords.realm realm.now }
    {
        match &self.passwords.realm {
            Some(own) => own.is(realm),
            None => false,
        }
    }

    /// The algorithm of credentials that are for this guard and this request, or why they are not.
    fn algorithm(&self, asked: Asked<'_>, credentials: &Credentials) -> Result<Algorithm, Verdict>
        ensures { MatchResult result
            (IsForUs self.now (request_seen asked.entry) credentials.now)
            (Judges self.now (request_seen asked.entry) credentials.now) }
    {
        if !self.is_of_realm(credentials.realm.as_str()) {
            return Err(Verdict::WrongRealm);
        }
        if !credentials.uri.is(asked.uri) {
            return Err(Verdict::OtherUri);
        }
        let Some(algorithm) = credentials.algorithm else {
            return Err(Verdict::WrongAlgorithm);
        };
        if !self.passwords.offers(algorithm) {
            return Err(Verdict::WrongAlgorithm);
        }
        if takes(self.old_digest, &credentials.protection) {
            Ok(algorithm)
        } else {
            Err(Verdict::OldForm)
        }
    }

    /// The verdict: the first check that fails, or that the user is accepted.
    fn verdict(
        &self,
        alloc: Global,
        asked: Asked<'_>,
        credentials: &Credentials,
    ) -> Result<Verdict, NoMemory>
        ensures { IfOk result (Judges self.now (request_seen asked.entry) credentials.now) }
    {
        let algorithm = match self.algorithm(asked, credentials) {
            Ok(algorithm) => algorithm,
            Err(verdict) => return Ok(verdict),
        };
        let nonce = credentials.nonce.as_str();
        let freshness = self.nonces.judge(alloc, nonce, asked.source, asked.now)?;
        if matches!(freshness, Freshness::Foreign) {
            return Ok(Verdict::ForeignNonce);
        }
        let Some(secret) = self
            .passwords
            .hash(algorithm, credentials.username.as_str())
        else {
            return Ok(Verdict::UnknownUser);
        };
        let expected = response(alloc, algorithm, secret.as_str(), credentials, asked.method)?;
        if !is_same(
            expected.as_str().as_bytes(),
            credentials.response.as_str().as_bytes(),
        ) {
            return Ok(Verdict::BadResponse);
        }
        match freshness {
            Freshness::Fresh => Ok(Verdict::Accepted(credentials.username.copy(alloc)?)),
            Freshness::Stale => Ok(Verdict::StaleNonce),
            Freshness::Foreign => Ok(Verdict::ForeignNonce),
        }
    }

    /// What is found of these credentials in this request. Its error is want of memory.
    pub fn judge(
        &self,
        alloc: Global,
        asked: Asked<'_>,
        credentials: &Credentials,
    ) -> Result<Verdict, NoMemory>
        // The verdict is the first check that fails, or that the user is accepted.
        ensures judges { IfOk result (Judges self.now (request_seen asked.entry) credentials.now) }
        // Who is to be accepted is accepted.
        ensures accepts { IfOk result (λ v. IsAccepted self.now (request_seen asked.entry) credentials.now
            → v ≡ verdict.Accepted credentials.now.username) }
    {
        self.verdict(alloc, asked, credentials)
    }

    /// The values of `WWW-Authenticate` for a request from this source at this moment, in seconds: one for each algorithm that a password has a
    /// hash by, SHA-256 first (RFC 8760 section 2.3), and none before the passwords have a realm. `stale` says that the request's nonce
    /// was ours but old. Its error is want of memory.
    pub fn challenges(
        &self,
        alloc: Global,
        source: Addr,
        now: u64,
        stale: bool,
    ) -> Result<Vec<Text>, NoMemory>
        ensures { IfOk result (λ v. v.items ≡ spec.challenges self.now source now stale) }
    {
        let mut values = Vec::new(alloc);
        let Some(realm) = &self.passwords.realm else {
            return Ok(values);
        };
        let realm = realm.as_str();
        let nonce = self.nonces.make(alloc, now, source)?;
        let nonce = nonce.as_str();
        if self.passwords.offers(Algorithm::Sha256) {
            values.push(challenge(alloc, realm, nonce, Algorithm::Sha256, stale)?)?;
        }
        if self.passwords.offers(Algorithm::Md5) {
            values.push(challenge(alloc, realm, nonce, Algorithm::Md5, stale)?)?;
        }
        Ok(values)
    }
}
