//! Whom a request was sent to, for the log: its answer repeats its To alone, in which a stranger may write anybody.
ghost use Rattle.std.specs.Prelude.{◌≡◌, ◌⊎◌, ◌<◌, [], find, length, option_map, string_bytes, IfSome, IfOk, OnOk, OnErr};
ghost use Rattle.service.specs.Asked as spec;

use notifier_model::{Event, Out};
use sip_read::Request;
use sip_text::NoMemory;
use std::alloc::Global;
use std::collections::VecDeque;

/// How many answers are known at most. Of one more the oldest is forgotten.
const MOST: usize = 4096;

/// An answer that a worker made and that wasn't sent yet.
#[derive(Drop)]
struct Answered {
    answer: Vec<u8>,
    /// Whom its request was sent to.
    whom: String,
}

impl Answered {
    fn new(alloc: Global, answer: &[u8], whom: &str) -> Result<Answered, NoMemory>
        ensures { IfOk result (spec.IsAnswered answer.now whom.now) }
    {
        Ok(Answered {
            answer: Vec::from_slice(alloc, answer)?,
            whom: String::from_str(alloc, whom)?,
        })
    }
}

fn is_notify(out: &Out) -> bool
    ensures { result ≡ spec.is_notify out.now }
{
    matches!(out, Out::Notify { .. })
}

/// The first NOTIFY of these outs.
fn first_notify(outs: &[Out]) -> Option<&Out>
    ensures { option_map (λ out. out.now) result ≡ find spec.is_notify outs.now }
{
    outs.iter().find(|out| is_notify(out))
}

/// Whom a request was sent to that a worker handled, which made these outs: its Request-URI. That of a request in a dialog is the service's
/// Contact, which names no mailbox: so it is what the NOTIFY tells of that goes with the answer, if one does.
fn whom<'a>(request: &'a Request, outs: &'a [Out]) -> &'a str
    ensures { result.now ≡ spec.whom request.now outs.now }
{
    if request.head.to.tag.is_none() {
        return request.uri.as_str();
    }
    match first_notify(outs) {
        Some(Out::Notify { note, .. }) => note.resource.as_str(),
        Some(Out::Answer { .. } | Out::Start { .. }) | None => request.uri.as_str(),
    }
}

/// The answers that workers made and that weren't sent yet, in their order.
#[derive(Drop)]
pub(crate) struct Asked {
    alloc: Global,
    answers: VecDeque<Answered>,
}

impl Asked {
    /// None.
    pub(crate) fn new(alloc: Global) -> Asked
        ensures { result.answers.items ≡ [] }
    {
        Asked {
            alloc,
            answers: VecDeque::new(alloc),
        }
    }

    /// Forgets the oldest answer where there is no room for one more.
    fn make_room(&mut self)
        ensures { self.new.answers.items ≡ spec.with_room self.old.answers.items }
    {
        if self.answers.len() >= MOST {
            let oldest = self.answers.pop_front();
            drop(oldest);
        }
    }

    /// Adds an answer, whose request was sent to this one. Without memory the oldest one may be forgotten all the same.
    fn add(&mut self, answer: &[u8], whom: &str) -> Result<(), NoMemory>
        ensures added { OnOk result (spec.IsAdded answer.now whom.now self.old.answers.items self.new.answers.items) }
        ensures others { OnErr result ((self.new.answers.items ≡ self.old.answers.items)
            ⊎ (self.new.answers.items ≡ spec.with_room self.old.answers.items)) }
    {
        let answered = Answered::new(self.alloc, answer, whom)?;
        self.make_room();
        if self.answers.push_back(answered).is_err() {
            return Err(NoMemory);
        }
        Ok(())
    }

    /// A worker made this out by a request that was sent to this one.
    fn note_out(&mut self, out: &Out, whom: &str) -> Result<(), NoMemory>
        ensures { OnOk result (spec.IsNoted whom.now out.now self.old.answers.items self.new.answers.items) }
    {
        match out {
            Out::Answer { bytes, .. } => self.add(bytes.as_slice(), whom),
            Out::Notify { .. } | Out::Start { .. } => Ok(()),
        }
    }

    /// The same of all these outs.
    fn note_all(&mut self, outs: &[Out], whom: &str) -> Result<(), NoMemory>
        ensures { OnOk result (spec.AreNoted whom.now outs.now self.old.answers.items self.new.answers.items) }
    {
        for out in outs {
            self.note_out(out, whom)?;
        }
        Ok(())
    }

    /// A worker handled this event, which made these outs. Of an answer for which there is no memory, and of those behind it, nothing is known.
    pub(crate) fn note(&mut self, event: &Event, outs: &[Out]) -> Result<(), NoMemory>
        ensures { OnOk result (spec.IsFollowed event.now outs.now self.old.answers.items self.new.answers.items) }
    {
        let Event::Request(_, request) = event else {
            return Ok(());
        };
        self.note_all(outs, whom(request, outs))
    }

    /// The place of the first one that is this answer.
    fn first_same(&self, answer: &[u8]) -> Option<usize>
        ensures place { result ≡ spec.first_same answer.now self.now.answers.items }
        ensures within { IfSome result (λ k. k < length self.now.answers.items) }
    {
        self.answers
            .iter()
            .position(|answered| answered.answer.as_slice() == answer)
    }

    /// Whom the request was sent to of which this is the answer, where that is known: once. Answers that are the same to the byte are one
    /// worker's, whose tag they have, and go out in the order in which that made them.
    pub(crate) fn take(&mut self, answer: &[u8]) -> Option<String>
        ensures whom { option_map string_bytes result
            ≡ spec.whom_there self.old.answers.items (spec.first_same answer.now self.old.answers.items) }
        ensures once { self.new.answers.items ≡ spec.without self.old.answers.items (spec.first_same answer.now self.old.answers.items) }
    {
        let place = self.first_same(answer)?;
        let answered = self.answers.remove(place)?;
        Some(answered.whom)
    }
}
