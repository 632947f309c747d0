//! Who watches, as the thread that takes lines asks the one that sends.
ghost use Rattle.std.specs.Prelude.{◌≡◌, IfSome, string_bytes};
ghost use Rattle.service.specs.Watched.{IsPage};

use crate::post::{Parcel, Post};
use crossbeam_utils::sync::Unparker;
use sip_text::NoMemory;
use std::alloc::Global;
use std::rt::Clock;
use std::sync::{OnceLock, Wait};
use std::thread;
use std::time::Duration;
use watchers::{Inquiry, Watchers};

/// How many questions, and how many pages, wait at most.
const ROOM: usize = 16;

/// How often it is looked at most whether a page came.
const LOOKS: u32 = 2000;

/// How many microseconds pass between two looks.
const NAP: u64 = 100;

/// A page of some rows that an inquiry asks for.
#[derive(Drop)]
pub(crate) struct WatchersPage {
    inquiry: Inquiry,
    text: String,
    ghost is_page: { IsPage inquiry (string_bytes text) },
}

impl WatchersPage {
    /// What it tells, if it is for this inquiry.
    fn into_text(self, inquiry: &Inquiry) -> Option<String>
        ensures { IfSome result (λ text. IsPage inquiry.now (string_bytes text)) }
    {
        if self.inquiry.is(inquiry) {
            Some(self.text)
        } else {
            None
        }
    }
}

/// The questions that wait for the thread that sends, and its pages.
#[derive(Drop)]
pub(crate) struct Window {
    questions: Post,
    pages: Post,
    /// What wakes the thread that sends, once there is one.
    sender: OnceLock<Unparker>,
}

impl Window {
    /// No questions.
    pub(crate) fn new(alloc: Global) -> Result<Window, NoMemory> {
        let questions = Post::new(alloc, ROOM)?;
        let pages = Post::new(alloc, ROOM)?;
        Ok(Window {
            questions,
            pages,
            sender: OnceLock::new(),
        })
    }

    /// From now on this wakes the thread that sends.
    pub(crate) fn set_sender(&self, sender: Unparker) {
        if let Err(other) = self.sender.try_set(sender) {
            drop(other);
        }
    }

    /// A page that is told for this inquiry. None where none is told in time.
    fn wait<R: Wait + Clock>(&self, rt: &R, inquiry: &Inquiry) -> Option<String>
        ensures { IfSome result (λ text. IsPage inquiry.now (string_bytes text)) }
    {
        for _ in 0..LOOKS {
            let Some(Parcel::Page(page)) = self.pages.take(rt) else {
                thread::sleep(rt, Duration::from_micros(NAP));
                continue;
            };
            if let Some(text) = page.into_text(inquiry) {
                return Some(text);
            }
        }
        None
    }

    /// Asks the thread that sends for a page, and waits for it for a while. None where it tells none in time, or there is no memory to
    /// ask.
    pub(crate) fn ask<R: Wait + Clock>(
        &self,
        rt: &R,
        alloc: Global,
        inquiry: &Inquiry,
    ) -> Option<String>
        ensures { IfSome result (λ text. IsPage inquiry.now (string_bytes text)) }
    {
        let Ok(question) = inquiry.copy(alloc) else {
            return None;
        };
        if !self.questions.put(rt, Parcel::Question(question)) {
            return None;
        }
        if let Some(sender) = self.sender.get() {
            sender.unpark();
        }
        self.wait(rt, inquiry)
    }

    /// Tells the page of these rows that is asked for, if one is. Where there is no memory for it none is told, and whoever asks is told
    /// that this thread is busy.
    #[tactic(auto, using(crate::proofs::Paging::told_page))]
    pub(crate) fn answer<R: Wait>(&self, rt: &R, now: u64, watchers: &Watchers) {
        if self.questions.is_empty() {
            return;
        }
        let Some(Parcel::Question(inquiry)) = self.questions.take(rt) else {
            return;
        };
        let Ok(text) = watchers.page(now, &inquiry) else {
            return;
        };
        self.pages
            .push(rt, Parcel::Page(WatchersPage { inquiry, text }));
    }
}
