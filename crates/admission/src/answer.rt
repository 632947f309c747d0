//! The 403, the 401, the 413 and the 503.
ghost use Rattle.std.specs.Prelude.{◌≡◌, ◌+◌, ◌-◌, ◌≤◌, ◌++◌, length, take, drop, map, IfOk, OnOk, codes};
ghost use Rattle.sip_write.specs.Lines.{joined, header};
ghost use Rattle.admission.specs.Challenge.{forbidden_text, challenge_text, large_text, unavailable_text};

use sip_read::Request;
use sip_text::{Addr, NoMemory, Octets, Text};
use sip_write::{Answer, Status, response};
use std::alloc::Global;

/// How long the first line of a 403 is, with its end.
const FIRST: usize = 23;

/// How long the last lines of an answer are: that of its length, and the empty one.
const LAST: usize = 21;

/// Where an answer goes to, and what its To gets.
#[derive(Clone, Copy)]
pub(crate) struct Reply<'a> {
    pub request: &'a Request,
    /// Where the request came from.
    pub source: Addr,
    /// The tag that a To without one gets.
    pub tag: &'a str,
}

impl Reply<'_> {
    /// The 403: the user may not have the mailbox.
    #[tactic(auto, unfolding(crate::specs::Challenge::forbidden_text))]
    pub fn forbidden(&self, alloc: Global) -> Result<Octets, NoMemory>
        ensures { IfOk result (λ o. o ≡ forbidden_text self.now.source self.now.request.now self.now.tag.now) }
    {
        let answer = Answer::bare(
            &self.request.head,
            self.source,
            Some(self.tag),
            Status::Forbidden,
        );
        response(alloc, &answer)
    }

    /// The 401 with these challenges, each the value of a WWW-Authenticate line. All other lines but the first are those of the 403.
    pub fn challenge(&self, alloc: Global, challenges: &[Text]) -> Result<Octets, NoMemory>
        ensures { IfOk result (λ o. o ≡ challenge_text self.now.source self.now.request.now self.now.tag.now challenges.now) }
    {
        let forbidden = self.forbidden(alloc)?;
        let mut octets = Vec::from_slice(alloc, b"SIP/2.0 401 Unauthorized\r\n")?;
        octets.extend_from_slice(inner_lines(forbidden.as_slice()))?;
        append_headers(&mut octets, "WWW-Authenticate", challenges)?;
        octets.extend_from_slice(b"Content-Length: 0\r\n\r\n")?;
        Ok(Octets::new(octets))
    }

    /// The 413. All other lines but the first are those of the 403.
    pub fn large(&self, alloc: Global) -> Result<Octets, NoMemory>
        ensures { IfOk result (λ o. o ≡ large_text self.now.source self.now.request.now self.now.tag.now) }
    {
        let forbidden = self.forbidden(alloc)?;
        let mut octets = Vec::from_slice(alloc, b"SIP/2.0 413 Request Entity Too Large\r\n")?;
        octets.extend_from_slice(inner_lines(forbidden.as_slice()))?;
        octets.extend_from_slice(b"Content-Length: 0\r\n\r\n")?;
        Ok(Octets::new(octets))
    }

    /// The 503 that says for how many seconds not to ask again. All other lines but the first are those of the 403.
    pub fn unavailable(&self, alloc: Global) -> Result<Octets, NoMemory>
        ensures { IfOk result (λ o. o ≡ unavailable_text self.now.source self.now.request.now self.now.tag.now) }
    {
        let forbidden = self.forbidden(alloc)?;
        let mut octets = Vec::from_slice(alloc, b"SIP/2.0 503 Service Unavailable\r\n")?;
        octets.extend_from_slice(inner_lines(forbidden.as_slice()))?;
        append_header(&mut octets, "Retry-After", "60")?;
        octets.extend_from_slice(b"Content-Length: 0\r\n\r\n")?;
        Ok(Octets::new(octets))
    }
}

/// The lines of a 403 between the first and the last ones.
fn inner_lines(answer: &[u8]) -> &[u8]
    requires { FIRST + LAST ≤ length answer.now }
    ensures { result.now ≡ take (length answer.now - (FIRST + LAST)) (drop FIRST answer.now) }
{
    &answer[FIRST..answer.len() - LAST]
}

/// Appends `name: value` and CRLF.
fn append_header(octets: &mut Vec<u8>, name: &str, value: &str) -> Result<(), NoMemory>
    ensures { OnOk result (octets.new.items ≡ octets.old.items ++ (header name.now value.now ++ codes "\r\n")) }
{
    octets.extend_from_slice(name.as_bytes())?;
    octets.extend_from_slice(b": ")?;
    octets.extend_from_slice(value.as_bytes())?;
    octets.extend_from_slice(b"\r\n")?;
    Ok(())
}

/// Appends each value on a line of its own.
fn append_headers(octets: &mut Vec<u8>, name: &str, values: &[Text]) -> Result<(), NoMemory>
    ensures { OnOk result (octets.new.items ≡ octets.old.items ++ joined (map (header name.now) values.now)) }
{
    for value in values {
        append_header(octets, name, value.as_str())?;
    }
    Ok(())
}
