//! Receives that may fail, and are tried again.
ghost use Rattle.std.specs.Prelude.{[]};
ghost use Rattle.transport.specs.Wires.{Grows};
ghost use Rattle.service.specs.Listening.{Gave, IsDeafAsTold, MayCome, tells_deaf};

use crate::logging::has_room;
use crate::shared::{Counter, Shared};
use feeds::FeedEnd;
use log_lines::{Record, Trouble};
use sip_text::Addr;
use std::alloc::AllocError;
use std::rt::Clock;
use std::sync::Wait;
use std::sync::atomic::{AtomicBool, Ordering};
use std::thread;
use std::time::Duration;
use transport::{Ear, ReceiveFault};

/// The room for a datagram: none is longer. A control line that were cut might still be read, with a wrong number.
pub(crate) const ROOM: usize = 65536;

/// After how many failed receives, one after the other, a wire is deaf: those of ten seconds.
const MOST: u64 = 1000;

/// How long passes behind a receive that failed, in milliseconds.
const PAUSE: u64 = 10;

/// How many milliseconds pass between two lines on receives that failed.
const MINUTE: u64 = 60_000;

/// Whether a signal ended the wait, as where a debugger looks or the process was stopped: nothing is wrong with the socket.
fn is_interrupted(fault: ReceiveFault) -> bool {
    fault.number == Some(libc::EINTR.cast_unsigned())
}

/// What came of one look at a wire.
#[derive(Clone, Copy)]
pub(crate) enum Came {
    /// A datagram of so many octets, from this address.
    Datagram(usize, Addr),
    /// Nothing yet.
    Nothing,
    /// Nothing more is listened for: the service goes no further, or nothing can come by the wire any more.
    End(FeedEnd),
}

/// How a thread listens by a wire. Its failed receives are told once a minute.
#[derive(Drop)]
pub(crate) struct Listening<'a> {
    /// Whether the service has come as far as this listens.
    is_over: &'a AtomicBool,
    /// When the last failed receive was told.
    told: Option<u64>,
}

impl<'a> Listening<'a> {
    /// One that listens until this is so, and has told nothing.
    pub(crate) fn new(is_over: &'a AtomicBool) -> Listening<'a> {
        Listening {
            is_over,
            told: None,
        }
    }

    /// Counts a failed receive, and says on standard error, where it didn't within the last minute, why it failed and at which address.
    fn note<R: Clock + Eprint>(
        &mut self,
        rt: &R,
        shared: &Shared,
        place: Option<Addr>,
        fault: ReceiveFault,
    ) {
        shared.count(Counter::FailedReceive);
        let now = shared.moment(rt).unwrap_or(0);
        if let Some(told) = self.told {
            if now.saturating_sub(told) < MINUTE {
                return;
            }
        }
        self.told = Some(now);
        let Some(place) = place else {
            return;
        };
        if !has_room() {
            return;
        }
        let words: Result<String, AllocError> = format!(in shared.alloc(); "{fault}");
        let trouble = Trouble::ReceiveFailed {
            address: place,
            cause: words
                .as_ref()
                .map_or("out of memory", |cause| cause.as_str()),
        };
        shared.tell(rt, &Record::Trouble(trouble));
    }

    /// Receives once by a wire, and puts the datagram at the beginning of these octets. Behind a receive that failed it waits a little, so
    /// that the next one may do better. One that a signal ended is not counted as failed. It ends as done where it listens no further, and
    /// with a fault where each receive of ten seconds failed, or the descriptor is lost.
    pub(crate) fn look<R: Wait + Clock + Eprint, W: Ear>(
        &mut self,
        rt: &R,
        wire: &mut W,
        shared: &Shared,
        octets: &mut [u8],
    ) -> Came
        ensures came { MayCome octets.new result }
        ensures given { Gave (W.given wire.old) (W.given wire.new) octets.new result }
        ensures taken { Grows (W.taken wire.old) (W.taken wire.new) [] }
        ensures deaf { IsDeafAsTold (tells_deaf result) (W.misses wire.old) (W.misses wire.new) }
    {
        if self.is_over.load(Ordering::SeqCst) {
            return Came::End(FeedEnd::Done);
        }
        let fault = match wire.recv_in_time(rt, octets) {
            Ok(Some((length, source))) => return Came::Datagram(length, source),
            Ok(None) => return Came::Nothing,
            Err(fault) => fault,
        };
        if !is_interrupted(fault) {
            self.note(rt, shared, wire.place(), fault);
        }
        if fault.is_lost() || wire.row() >= MOST {
            return Came::End(FeedEnd::Fault);
        }
        thread::sleep(rt, Duration::from_millis(PAUSE));
        Came::Nothing
    }
}
