//! What the thread that sends asks the workers: whether subscriptions are still there whose phones didn't answer in time.

use crate::post::{Parcel, Post};
use notifier_model::homes::TagNumbers;
use sip_text::NoMemory;
use std::alloc::Global;
use std::sync::Wait;

/// How many lists of tags wait for a worker at most. One more is dropped: it is asked again.
const ASKED: usize = 4;

/// How many lists of workers wait at most for the thread that sends. One more is dropped: they are asked again.
const GONE: usize = 64;

/// A roll call of subscriptions, by their local tags. A worker answers it behind an event: behind its next second, if nothing comes before.
#[derive(Drop)]
pub(crate) struct RollCall {
    /// What each worker is asked.
    asked: Vec<Post>,
    /// What they have no more.
    gone: Post,
}

/// An empty list for each of so many workers.
fn no_tags(alloc: Global, workers: usize) -> Result<Vec<Vec<String>>, NoMemory> {
    let mut lists = Vec::new(alloc);
    for _ in 0..workers {
        lists.push(Vec::new(alloc))?;
    }
    Ok(lists)
}

/// Of each of so many workers those of these tags that are its own.
fn sort_by_worker(
    alloc: Global,
    workers: usize,
    tags: Vec<String>,
) -> Result<Vec<Vec<String>>, NoMemory> {
    let mut lists = no_tags(alloc, workers)?;
    for tag in tags {
        let Some(numbers) = TagNumbers::read(tag.as_str()) else {
            continue;
        };
        if let Some(list) = lists.get_mut(numbers.worker as usize) {
            list.push(tag)?;
        }
    }
    Ok(lists)
}

impl RollCall {
    /// One that asks so many workers.
    pub(crate) fn new(alloc: Global, workers: u32) -> Result<RollCall, NoMemory> {
        let mut asked = Vec::new(alloc);
        for _ in 0..workers {
            asked.push(Post::new(alloc, ASKED)?)?;
        }
        let gone = Post::new(alloc, GONE)?;
        Ok(RollCall { asked, gone })
    }

    /// Asks for these subscriptions. Without memory or room nobody is asked for some.
    pub(crate) fn ask<R: Wait>(&self, rt: &R, alloc: Global, tags: Vec<String>) {
        let Ok(lists) = sort_by_worker(alloc, self.asked.len(), tags) else {
            return;
        };
        for (post, list) in self.asked.iter().zip(lists) {
            if !list.is_empty() {
                post.put(rt, Parcel::Tags(list));
            }
        }
    }

    /// For which subscriptions the worker with this number is asked, if for any.
    pub(crate) fn asked<R: Wait>(&self, rt: &R, worker: u32) -> Option<Vec<String>> {
        let asked = self.asked.get(worker as usize)?;
        if asked.is_empty() {
            return None;
        }
        match asked.take(rt) {
            Some(Parcel::Tags(tags)) => Some(tags),
            _ => None,
        }
    }

    /// A worker says that these are gone.
    pub(crate) fn tell_gone<R: Wait>(&self, rt: &R, tags: Vec<String>) {
        if !tags.is_empty() {
            self.gone.put(rt, Parcel::Tags(tags));
        }
    }

    /// Which are gone, if a worker said so.
    pub(crate) fn gone<R: Wait>(&self, rt: &R) -> Option<Vec<String>> {
        if self.gone.is_empty() {
            return None;
        }
        match self.gone.take(rt) {
            Some(Parcel::Tags(tags)) => Some(tags),
            _ => None,
        }
    }
}
