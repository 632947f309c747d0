//! Writes records.
ghost use Rattle.std.specs.Prelude.{◌≡◌, ◌<◌, ◌++◌, [], false, length, IfOk, IfErr, OnOk, OnErr, Err};
ghost use Rattle.notifier_model.specs.declared.saved.Saved.{Saved};
ghost use Rattle.snapshots.specs.Books.{IsBook};
ghost use Rattle.snapshots.specs.Events.{is_sound};
ghost use Rattle.journal.specs.Frames.{frame, IsPayload};
ghost use Rattle.journal.specs.Records.{record_text, record_is_sound, handled_text, written, IsRecord, book_record};
ghost use Rattle.journal.specs.declared.record.Record.TheVariants as entry;
ghost use Rattle.journal.specs.declared.writing.Unwritten.TheVariants as unwritten;

use crate::frames::{LONGEST, put_frame};
use crate::record::{Line, Record, Told, put_answered, put_event, put_had};
use notifier_model::Event;
use snapshots::event::is_sound;
use snapshots::form::Form;
use std::alloc::Global;
use thiserror::Error;

/// Why a record isn't written.
#[derive(Clone, Copy, Debug, PartialEq, Eq, Error)]
pub enum Unwritten {
    /// It is longer than a frame may be.
    #[error("the record is too long")]
    TooLong,
    /// A range of its request's Accept isn't of tokens in small letters, and would not be read again. A reader of SIP makes no such request.
    #[error("a request that no reader made")]
    Unsound,
    /// There is no memory for it.
    #[error("out of memory")]
    NoMemory,
}

/// So many bytes most records have at most.
const ROOM: usize = 1024;

/// No bytes, with room for most records, so that a record isn't moved while it is written.
fn room(alloc: Global) -> Result<Vec<u8>, Unwritten>
    ensures empty { IfOk result (λ payload. payload.items ≡ []) }
    ensures memory { IfErr result (λ error. error ≡ unwritten.NoMemory) }
{
    match Vec::with_capacity(alloc, ROOM) {
        Ok(payload) => Ok(payload),
        Err(_) => Err(Unwritten::NoMemory),
    }
}

/// Appends a payload in its frame. After an error the bytes are as they were.
fn put_payload(payload: &[u8], out: &mut Vec<u8>) -> Result<(), Unwritten>
    ensures put { OnOk result (out.new.items ≡ out.old.items ++ frame payload.now) }
    ensures short { OnOk result (IsPayload payload.now) }
    ensures unchanged { OnErr result (out.new.items ≡ out.old.items) }
    ensures too_long { result ≡ Err unwritten.TooLong → LONGEST < length payload.now }
    ensures others { result ≡ Err unwritten.Unsound → ⊥ }
{
    if payload.len() > LONGEST {
        return Err(Unwritten::TooLong);
    }
    if put_frame(payload, out).is_err() {
        return Err(Unwritten::NoMemory);
    }
    Ok(())
}

/// Appends a record. After an error the bytes are as they were.
pub fn put_record(alloc: Global, record: &Record, out: &mut Vec<u8>) -> Result<(), Unwritten>
    ensures put { OnOk result (out.new.items ≡ out.old.items ++ written record.now) }
    ensures readable { OnOk result (IsRecord record.now) }
    ensures unchanged { OnErr result (out.new.items ≡ out.old.items) }
    ensures too_long { result ≡ Err unwritten.TooLong → LONGEST < length (record_text record.now) }
    ensures unsound { result ≡ Err unwritten.Unsound → record_is_sound record.now ≡ false }
{
    if !record.is_sound() {
        return Err(Unwritten::Unsound);
    }
    record.fits();
    let mut payload = Vec::new(alloc);
    if record.put(alloc, &mut payload).is_err() {
        return Err(Unwritten::NoMemory);
    }
    put_payload(payload.as_slice(), out)
}

/// Appends the record of an event that a worker handled, without a copy of the event. After an error the bytes are as they were.
pub fn put_handled(
    alloc: Global,
    worker: u32,
    event: &Event,
    out: &mut Vec<u8>,
) -> Result<(), Unwritten>
    ensures put { OnOk result (out.new.items ≡ out.old.items ++ written (entry.Handled worker event.now)) }
    ensures readable { OnOk result (IsRecord (entry.Handled worker event.now)) }
    ensures unchanged { OnErr result (out.new.items ≡ out.old.items) }
    ensures too_long { result ≡ Err unwritten.TooLong → LONGEST < length (handled_text worker event.now) }
    ensures unsound { result ≡ Err unwritten.Unsound → is_sound event.now ≡ false }
{
    if !is_sound(event) {
        return Err(Unwritten::Unsound);
    }
    worker.fits();
    event.fits();
    let mut payload = room(alloc)?;
    if put_event(alloc, worker, event, &mut payload).is_err() {
        return Err(Unwritten::NoMemory);
    }
    put_payload(payload.as_slice(), out)
}

/// Appends the record of a control line, without a copy of it. After an error the bytes are as they were.
pub fn put_line(alloc: Global, line: &Line, out: &mut Vec<u8>) -> Result<(), Unwritten>
    ensures put { OnOk result (out.new.items ≡ out.old.items ++ written (entry.Line line.now)) }
    ensures readable { OnOk result (IsRecord (entry.Line line.now)) }
    ensures unchanged { OnErr result (out.new.items ≡ out.old.items) }
    ensures too_long { result ≡ Err unwritten.TooLong → LONGEST < length (record_text (entry.Line line.now)) }
    ensures always_sound { result ≡ Err unwritten.Unsound → ⊥ }
{
    line.fits();
    let mut payload = room(alloc)?;
    if put_answered(alloc, line, &mut payload).is_err() {
        return Err(Unwritten::NoMemory);
    }
    put_payload(payload.as_slice(), out)
}

/// Appends the record of a worker's book, whose desk wrote what it keeps into these bytes, as `Desk::save` does. After an error the bytes are
/// as they were.
pub fn put_book(
    alloc: Global,
    worker: u32,
    told: &Told,
    desk: &[u8],
    out: &mut Vec<u8>,
) -> Result<(), Unwritten>
    ensures put { (saved : Saved) → IsBook desk.now saved
        → OnOk result (out.new.items ≡ out.old.items ++ written (book_record worker told.now saved)) }
    ensures readable { (saved : Saved) → IsBook desk.now saved → OnOk result (IsRecord (book_record worker told.now saved)) }
    ensures unchanged { OnErr result (out.new.items ≡ out.old.items) }
    ensures too_long { (saved : Saved) → IsBook desk.now saved → result ≡ Err unwritten.TooLong
        → LONGEST < length (record_text (book_record worker told.now saved)) }
    ensures always_sound { result ≡ Err unwritten.Unsound → ⊥ }
{
    worker.fits();
    told.fits();
    let mut payload = Vec::new(alloc);
    if put_had(alloc, worker, told, desk, &mut payload).is_err() {
        return Err(Unwritten::NoMemory);
    }
    put_payload(payload.as_slice(), out)
}
