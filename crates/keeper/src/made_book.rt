//! The record of a worker's book, made beside the keeper.
ghost use Rattle.std.specs.Prelude.{◌≡◌, Err, IfOk, IfErr, OnOk};
ghost use Rattle.notifier_model.specs.declared.saved.Saved.{Saved};
ghost use Rattle.snapshots.specs.Books.{IsBook};
ghost use Rattle.journal.specs.Records.{book_record, IsRecord};
ghost use Rattle.keeper.specs.Keeping.{IsBookOf};
ghost use Rattle.keeper.specs.Refusing.{IsUnwritten, PutFails};
ghost use Rattle.keeper.specs.declared.error.Unkept.TheVariants as unkept;

use crate::error::Unkept;
use journal::{Told, put_book};
use std::alloc::Global;
use std::marker::Model;

/// The record of a worker's book. It is made without the keeper that gets it: many threads share that, and a book is long.
#[derive(Drop)]
pub struct MadeBook {
    worker: u32,
    told: Told,
    bytes: Vec<u8>,
}

impl Model for MadeBook {
    ghost use Rattle.keeper.specs.Keeping as spec;

    ghost Value = { spec.Made };

    ghost view = { λ m. record { worker = m.worker; told = m.told; bytes = m.bytes.items } };
}

impl MadeBook {
    /// The book of a worker that was told this, as [`Keeper::told`](crate::Keeper::told) has it, and whose desk wrote these bytes since: it is put
    /// by [`Keeper::put`](crate::Keeper::put) before the worker handles a further event.
    pub fn new(alloc: Global, worker: u32, told: Told, desk: &[u8]) -> Result<MadeBook, Unkept>
        ensures made { (saved : Saved) → IsBook desk.now saved → IfOk result (λ made. IsBookOf worker told saved made) }
        ensures readable { (saved : Saved) → IsBook desk.now saved → OnOk result (IsRecord (book_record worker told saved)) }
        ensures worker { IfOk result (λ made. made.worker ≡ worker) }
        ensures told { IfOk result (λ made. made.told ≡ told) }
        ensures unwritten { IfErr result IsUnwritten }
        ensures fails { (saved : Saved) → IsBook desk.now saved → IfErr result (PutFails (book_record worker told saved)) }
        ensures begun { result ≡ Err unkept.NotBegun → ⊥ }
    {
        let mut bytes = Vec::new(alloc);
        put_book(alloc, worker, &told, desk, &mut bytes)?;
        Ok(MadeBook {
            worker,
            told,
            bytes,
        })
    }

    /// The worker whose book it is.
    pub(crate) fn worker(&self) -> u32
        ensures { result ≡ self.now.worker }
    {
        self.worker
    }

    /// What the worker was told.
    pub(crate) fn told(&self) -> &Told
        ensures { result.now ≡ self.now.told }
    {
        &self.told
    }

    /// The record.
    pub(crate) fn into_bytes(self) -> Vec<u8>
        ensures { result.items ≡ self.bytes }
    {
        self.bytes
    }
}
