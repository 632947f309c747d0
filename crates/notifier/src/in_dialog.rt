//! Requests that make no dialog: refusals, and what is done in a dialog (RFC 3261 section 12.2.2).
#![tactic(auto, unfolding(notifier_model::specs::Book::refused, notifier_model::specs::Book::keeping, notifier_model::specs::Book::all_rows, notifier_model::specs::Book::served, notifier_model::specs::Out::out_of))]

ghost use Rattle.std.specs.Prelude.{◌≡◌, ◌∷◌, [], map, IfOk, OnOk};
ghost use Rattle.notifier_model.specs.Book as spec;
ghost use Rattle.notifier_model.specs.Answers as answers;
ghost use Rattle.notifier_model.specs.Limits.{AreLimits};
ghost use Rattle.notifier_model.specs.Out.{Answers, out_of};
ghost use Rattle.sip_write.specs.Answer.{answer_text};
ghost use Rattle.notifier.specs.Incoming.{Serves};
ghost use Rattle.notifier.specs.Ledger.{book_of, IsSound};

use crate::answer::{refusal_answer, renewal_answer, respond};
use crate::incoming::Pending;
use crate::store::Ledger;
use crate::sweep::cause::Cause;
use notifier_model::event::Out;
use notifier_model::refusal::Refusal;
use package::Package;
use sip_text::NoMemory;
use std::alloc::Global;

impl<P: Package> Ledger<P> {
    /// Refuses a request.
    pub fn refuse(
        &mut self,
        alloc: Global,
        pending: Pending<'_>,
        cause: Refusal,
    ) -> Result<Vec<Out>, NoMemory>
        requires sound { IsSound pending.incoming.now.place.now self.old }
        ensures step { IfOk result (λ outs.
            Serves P.seen self.old pending.entry (spec.Refused cause) self.new outs.items) }
        ensures sound { OnOk result (IsSound pending.entry.incoming.now.place.now self.new) }
    {
        let bytes = refusal_answer(alloc, &self.boxes, pending.incoming, cause)?;
        respond(alloc, &mut self.ring, pending, bytes)
    }

    /// Refuses a request in a dialog, which has heard its CSeq.
    pub fn deny(
        &mut self,
        alloc: Global,
        pending: Pending<'_>,
        serial: u32,
        cause: Refusal,
    ) -> Result<Vec<Out>, NoMemory>
        requires sound { IsSound pending.incoming.now.place.now self.old }
        ensures step { IfOk result (λ outs.
            Serves P.seen self.old pending.entry (spec.Denied serial cause)
            self.new outs.items) }
        ensures sound { OnOk result (IsSound pending.entry.incoming.now.place.now self.new) }
    {
        let incoming = pending.incoming;
        let mut outs = self.refuse(alloc, pending, cause)?;
        self.all_rows(
            alloc,
            incoming.place,
            &Cause::Refused(serial, incoming.request),
            &mut outs,
        )?;
        Ok(outs)
    }

    /// The 200 to a SUBSCRIBE in a dialog.
    fn answer_renewal(&mut self, alloc: Global, pending: Pending<'_>) -> Result<Vec<Out>, NoMemory>
        requires sound { IsSound pending.incoming.now.place.now self.old }
        ensures book { let came = pending.entry.incoming.now in
            OnOk result (book_of P.seen self.new ≡ spec.keeping came.place.now (book_of P.seen self.old)
            came.request.now (answers.renewal_answer came.place.now came.source came.request.now)) }
        ensures outs { let came = pending.entry.incoming.now in
            IfOk result (λ outs. outs.items ≡ map out_of (Answers came.source
            (answer_text (answers.renewal_answer came.place.now came.source came.request.now)) ∷ [])) }
        ensures sound { OnOk result (IsSound pending.entry.incoming.now.place.now self.new) }
        ensures limits { OnOk result (AreLimits pending.entry.incoming.now.place.now.limits) }
    {
        pending.incoming.place.limits.are_in_range();
        let bytes = renewal_answer(alloc, pending.incoming)?;
        respond(alloc, &mut self.ring, pending, bytes)
    }

    /// Accepts a SUBSCRIBE in the dialog of the row with this serial.
    pub fn renew(
        &mut self,
        alloc: Global,
        pending: Pending<'_>,
        serial: u32,
    ) -> Result<Vec<Out>, NoMemory>
        requires sound { IsSound pending.incoming.now.place.now self.old }
        ensures step { IfOk result (λ outs.
            Serves P.seen self.old pending.entry (spec.Renewed serial) self.new outs.items) }
        ensures sound { OnOk result (IsSound pending.entry.incoming.now.place.now self.new) }
    {
        let incoming = pending.incoming;
        let mut outs = self.answer_renewal(alloc, pending)?;
        self.all_rows(
            alloc,
            incoming.place,
            &Cause::Renewal(serial, incoming),
            &mut outs,
        )?;
        Ok(outs)
    }
}
