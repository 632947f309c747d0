//! What one thread of a service hands to another: notes of answers to NOTIFYs, transfers that nobody was told to start, questions and
//! their pages, and tags of subscriptions.
ghost use Rattle.std.specs.Prelude.{◌≡◌, ◌<◌, IfOk, IfSome, option_copied};
ghost use Rattle.service.specs.Noted as spec;

use crate::window::WatchersPage;
use crossbeam_queue::ArrayQueue;
use package::Progress;
use sip_read::{Head, Response};
use sip_text::{Addr, NoMemory, Text};
use std::alloc::Global;
use std::sync::Wait;
use watchers::Inquiry;

/// How many notes wait at most for the thread that sends. One more is dropped, which costs a repeat.
const NOTES: usize = 4096;

/// How many transfers wait at most. One more is left alone: its phone waits until the time of its subscription is over.
const TRANSFERS: usize = 4096;

/// The status that such a transfer has, and its reason (RFC 3261 section 21.5.1).
const FAILED: u16 = 500;

const REASON: &str = "Server Internal Error";

/// What one thread hands to another.
#[derive(Drop)]
pub(crate) enum Parcel {
    /// An answer to a NOTIFY, for the thread that sends.
    Note(Note),
    /// The tag of a transfer that nobody was told to start, for the thread that tells the time.
    LostStart(String),
    /// Who watches, for the thread that sends.
    Question(Inquiry),
    /// What that is told, for the thread that takes lines.
    Page(WatchersPage),
    /// Local tags of subscriptions: a worker is asked for them, or says that they are gone.
    Tags(Vec<String>),
}

/// Parcels from one thread to another, in order. All of a service are of this one type, whatever they carry: no function can be proved
/// that holds queues of two types.
#[derive(Drop)]
pub(crate) struct Post {
    queue: ArrayQueue<Parcel, Global>,
}

impl Post {
    /// One that carries nothing yet, with room for so many parcels.
    pub(crate) fn new(alloc: Global, room: usize) -> Result<Post, NoMemory>
        requires some { 0 < room }
    {
        let queue = ArrayQueue::new(alloc, room)?;
        Ok(Post { queue })
    }

    /// Puts one more. False where there is no room: it is dropped then.
    pub(crate) fn put<R: Wait>(&self, rt: &R, parcel: Parcel) -> bool {
        match self.queue.push(rt, parcel) {
            Ok(()) => true,
            Err(refused) => {
                drop(refused);
                false
            }
        }
    }

    /// Puts one more. Where there is no room the oldest one is dropped.
    pub(crate) fn push<R: Wait>(&self, rt: &R, parcel: Parcel) {
        let oldest = self.queue.force_push(rt, parcel);
        drop(oldest);
    }

    /// Whether none waits, as most often where a thread looks again and again: that costs less than to take none.
    pub(crate) fn is_empty(&self) -> bool {
        self.queue.is_empty()
    }

    /// Takes the next one, if one waits.
    pub(crate) fn take<R: Wait>(&self, rt: &R) -> Option<Parcel> {
        self.queue.pop(rt)
    }
}

/// An answer to a NOTIFY: where it came from, the local tag of its dialog and the Call-ID, the number of its CSeq, and the status.
#[derive(Debug, Drop)]
pub(crate) struct Note {
    pub(crate) source: Addr,
    pub(crate) tag: Text,
    pub(crate) call_id: Text,
    pub(crate) number: u32,
    pub(crate) status: u16,
}

/// The tag of the NOTIFY that a response answers (RFC 3261 section 17.1.3): a NOTIFY is named by the From tag, which is the
/// local one, and the CSeq.
#[tactic(auto, unfolding(crate::specs::Noted::answered_tag))]
fn answered_tag(head: &Head) -> Option<&Text>
    ensures { option_copied result ≡ spec.answered_tag head.now }
{
    if head.cseq_method.is("NOTIFY") {
        head.from.tag.as_ref()
    } else {
        None
    }
}

/// The note of a response that came from this address, if it answers a NOTIFY.
fn new_note(alloc: Global, source: Addr, response: &Response) -> Result<Option<Note>, NoMemory>
    ensures { IfOk result (λ note. note ≡ spec.note_of source response.now) }
{
    let Some(tag) = answered_tag(&response.head) else {
        return Ok(None);
    };
    Ok(Some(Note {
        source,
        tag: tag.copy(alloc)?,
        call_id: response.head.call_id.copy(alloc)?,
        number: response.head.cseq,
        status: response.status,
    }))
}

/// The notes that wait for the thread that sends.
#[derive(Drop)]
pub(crate) struct Notes {
    post: Post,
}

impl Notes {
    /// No notes.
    pub(crate) fn new(alloc: Global) -> Result<Notes, NoMemory> {
        let post = Post::new(alloc, NOTES)?;
        Ok(Notes { post })
    }

    /// Puts the note of a response that came from this address, if it answers a NOTIFY. Where there is no room or no memory it is dropped:
    /// its NOTIFY is sent once more then.
    pub(crate) fn put<R: Wait>(&self, rt: &R, alloc: Global, source: Addr, response: &Response) {
        if let Ok(Some(note)) = new_note(alloc, source, response) {
            self.post.put(rt, Parcel::Note(note));
        }
    }

    /// Takes the next note, if one waits.
    pub(crate) fn take<R: Wait>(&self, rt: &R) -> Option<Note> {
        if self.post.is_empty() {
            return None;
        }
        match self.post.take(rt) {
            Some(Parcel::Note(note)) => Some(note),
            _ => None,
        }
    }
}

/// The transfers whose START lines were not written, by their tags.
#[derive(Drop)]
pub(crate) struct LostStarts {
    alloc: Global,
    post: Post,
}

impl LostStarts {
    /// None.
    pub(crate) fn new(alloc: Global) -> Result<LostStarts, NoMemory> {
        let post = Post::new(alloc, TRANSFERS)?;
        Ok(LostStarts { alloc, post })
    }

    /// Puts one more. Where there is no room or no memory it is left alone.
    pub(crate) fn put<R: Wait>(&self, rt: &R, tag: &Text) {
        if let Ok(tag) = String::from_str(self.alloc, tag.as_str()) {
            self.post.put(rt, Parcel::LostStart(tag));
        }
    }

    /// Takes the next one, as the step by which it fails.
    pub(crate) fn take<R: Wait>(&self, rt: &R) -> Option<Progress>
        ensures { IfSome result (λ p. p.code ≡ 500) }
    {
        let Some(Parcel::LostStart(tag)) = self.post.take(rt) else {
            return None;
        };
        let reason = String::from_str(self.alloc, REASON).ok()?;
        Progress::new(tag, FAILED, reason)
    }
}
