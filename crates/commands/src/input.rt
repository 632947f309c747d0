//! The end of standard input, at which a service closes where that is asked for: no program of this kind hears a signal, but who
//! started it can end its input.

ghost use Rattle.std.specs.Prelude.{IfErr};
ghost use Rattle.commands.specs.Refused.{IsOther};

use crate::error::ServeError;
use crate::feed::{FeedDesk, Listener, start_listener};
use libc::net as c;
use libc::types::pollfd;
use service::Shared;
use std::alloc::Global;
use std::rt::Clock;
use std::sync::{Arc, Wait};
use std::thread;
use std::thread::{Promise, PromisedHandle, Threads};

/// How long a look at the input waits at most, in milliseconds.
const LOOK: i32 = 200;

/// Whether there is something to read, or an end, at standard input. Waits a while for it.
fn is_ready() -> bool {
    let mut inputs = [pollfd {
        fd: libc::STDIN_FILENO,
        events: c::POLLIN,
        revents: 0,
    }];
    c::poll(&mut inputs, LOOK) > 0
}

/// Whether standard input is at its end, or can't be read. What stands before its end is dropped.
fn is_at_end() -> bool {
    let mut octets = [0u8; 512];
    libc::read(libc::STDIN_FILENO, &mut octets) <= 0
}

/// Closes the service once standard input has ended, and tells that it has. It looks no more where all was sent out.
fn close_at_end<R: Wait>(rt: &R, shared: &Shared) -> bool {
    for _ in rt.forever() {
        if shared.is_finished() {
            return false;
        }
        if is_ready() && is_at_end() {
            shared.close();
            return true;
        }
    }
    unreachable!()
}

/// What a thread that looks for the end of input promises: nothing, since a service may end before it.
#[derive(Drop)]
struct NoPromise;

impl Promise<bool> for NoPromise {
    ghost kept_by = { λ _ _. Unit {0} };
}

/// A thread that looks for the end of standard input.
type Watcher = PromisedHandle<bool, NoPromise>;

/// What runs beside a service until its end: what looks for the end of standard input, and what hears voicemail systems, where these are
/// asked for.
#[derive(Drop)]
pub(crate) struct Watch {
    shared: Arc<Shared, Global>,
    watcher: Option<Watcher>,
    listener: Option<Listener>,
}

/// Starts a thread that closes the service once standard input has ended.
fn start_watcher<R>(rt: R, shared: &Arc<Shared, Global>) -> Result<Watcher, ServeError>
where
    R: Threads + Wait + Copy + Send + 'static,
    ensures refused { IfErr result IsOther }
{
    let theirs = Arc::try_clone(shared)?;
    match thread::spawn_with(&rt, NoPromise, move || -> bool {
        close_at_end(&rt, &theirs)
    }) {
        Ok(watcher) => Ok(watcher),
        Err(_) => Err(ServeError::System),
    }
}

impl Watch {
    /// Starts looking, where it is asked for, and hearing by this desk, if there is one. Where the second thread is refused the first ends.
    pub(crate) fn begin<R>(
        rt: R,
        shared: &Arc<Shared, Global>,
        is_asked: bool,
        desk: Option<FeedDesk>,
    ) -> Result<Watch, ServeError>
    where
        R: Threads + Wait + Clock + Copy + Send + 'static,
        ensures refused { IfErr result IsOther }
    {
        let ours = Arc::try_clone(shared)?;
        let listener = match desk {
            Some(desk) => Some(start_listener(rt, shared, desk)?),
            None => None,
        };
        let watch = Watch {
            shared: ours,
            watcher: None,
            listener,
        };
        if !is_asked {
            return Ok(watch);
        }
        watch.looking(rt)
    }

    /// The same with a thread that looks for the end of standard input. Where that is refused the other one ends.
    fn looking<R>(self, rt: R) -> Result<Watch, ServeError>
    where
        R: Threads + Wait + Clock + Copy + Send + 'static,
        ensures refused { IfErr result IsOther }
    {
        match start_watcher(rt, &self.shared) {
            Ok(watcher) => {
                let mut watch = self;
                watch.watcher = Some(watcher);
                Ok(watch)
            }
            Err(error) => {
                self.end(&rt);
                Err(error)
            }
        }
    }

    /// Looks no more: the service has ended.
    pub(crate) fn end<R: Threads + Wait>(self, rt: &R) {
        let Watch {
            shared,
            watcher,
            listener,
        } = self;
        shared.finish();
        if let Some(listener) = listener {
            let _is_deaf = listener.join(rt);
        }
        if let Some(watcher) = watcher {
            let _has_ended = watcher.join(rt);
        }
    }
}
