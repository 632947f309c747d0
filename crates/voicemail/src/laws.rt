//! Laws of the definitions alone.
ghost use Rattle.std.specs.Prelude.{◌≡◌, ◌<◌, ℕ, Bool, List, Some};
ghost use Rattle.sip_text.specs.declared.address.Addr.{Addr as AddrSeen};
ghost use Rattle.sip_read.specs.declared.message.Request.{Request as RequestSeen};
ghost use Rattle.circular_buffer.specs.Buffer.{Buffer};
ghost use Rattle.notifier_model.specs.declared.row.Kept.{Kept};
ghost use Rattle.notifier_model.specs.declared.row.Key.{Key};
ghost use Rattle.notifier_model.specs.Answers.{kept_answer};
ghost use Rattle.notifier_model.specs.Requests.{key_of_request};
ghost use Rattle.voicemail.specs.Kept.{with_answer};
ghost use Rattle.voicemail.specs.Served.{DeskSeen, IsServed};

/// A request whose transaction has a kept answer tells the service nothing, whatever was told since (RFC 3261 section 17.2.2).
pub fn a_repeat_tells_nothing()
    ensures { (r : RequestSeen) (source : AddrSeen) (old new : DeskSeen) (is_told : Bool) (bytes : List ℕ)
        → kept_answer old.kept.items (key_of_request r) ≡ Some bytes → IsServed r source old new is_told → new.speaker ≡ old.speaker }
{}

/// An answer that is kept is the one to that transaction from then on.
pub fn what_is_kept_is_found()
    ensures { (kept : Buffer Kept) (key : Key) (bytes : List ℕ) → 0 < kept.capacity
        → kept_answer (with_answer kept (Some key) bytes).items (Some key) ≡ Some bytes }
{}
