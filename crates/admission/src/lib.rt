//! Who is heard: of each SIP datagram, whether it may reach a worker. A machine of its own: it asks no clock, opens no socket, starts no thread
//! and draws nothing at random. What came, from where and when is handed in.
//!
//! [`Admission::judge`] asks six things in this order, each only where the service was told to:
//!
//! 1. Is the source's address within one of the [`Network`]s? Else [`Verdict::Foreign`].
//! 2. Has the source a token left ([`Rates`])? Else [`Verdict::Limited`]. Each request takes one, in a dialog too, and what can't be read;
//!    answers and keep-alives take none.
//! 3. Is no more kept of a request, by a subscription or in the answer, than may be? Else [`Verdict::Large`], with the bytes of a 413. An ACK
//!    isn't asked, since it has no answer.
//! 4. Were few enough wrong passwords shown ([`Guesses`])? Else [`Verdict::Barred`], with those of a 403, without a look at the password.
//! 5. Does a SUBSCRIBE or a REFER, in a dialog too, answer a challenge (RFC 3261 section 22, [`digest`])? Else [`Verdict::Challenge`] or
//!    [`Verdict::Guess`], with the bytes of a 401. May the user have the mailbox that it names, and did they make the dialog that
//!    it is in, where it is handed in who did? Else [`Verdict::Forbidden`], with those of a 403.
//! 6. Does a SUBSCRIBE or a REFER outside a dialog ask for one more subscription of a source that has as many as it may? Then
//!    [`Verdict::Crowded`], with the bytes of a 503. How many a source has is handed in.
//!
//! [`Rates`] holds a bucket for each source that was heard lately, in a table of bounded size. A source without a bucket has a full one, so a
//! full bucket tells no more than none: where the table is full, the bucket of the source that was heard the longest ago goes, once it is full
//! again. Until then a new source is refused. So no source gets a second burst by pushing its own bucket out. [`laws`] says what holds of
//! whole runs.
//!
//! [`Guesses`] holds two such tables: a wrong password takes a token of its source's bucket, and one of the bucket of its user's name. A
//! source without a token is barred. A user whose name has none is barred at those sources alone that showed a wrong password less than an
//! hour ago. A wrong password counts only where it answers a nonce that was made for its source, so nobody can forge one. So what others
//! guess keeps no user out at an address from which nobody guessed.
//!
//! Begin with `specs/Verdicts`: it says exactly which datagram gets which verdict. `specs/Authorization` says which text of a datagram shows who
//! asks, `specs/Challenge` how a 401 is laid out, `specs/Buckets` and `specs/Table` what each datagram
//! makes of the buckets, `specs/Guesses` whom wrong passwords bar.
#![tactic(auto)]

mod answer;
mod authentication;
mod authorization;
mod bucket;
mod guesses;
mod judging;
pub mod laws;
mod lines;
mod network;
mod shown;
mod table;

pub use authentication::{Authentication, ChallengeCause};
pub use bucket::{Bucket, Rate};
pub use guesses::{Guesses, name_number};
pub use judging::{Admission, Arrival, CROWD_TAG, LARGE_TAG, Reading, Verdict};
pub use network::Network;
pub use sip_text::NoMemory;
pub use table::Rates;
