//! One subscription of a SIP notifier (RFC 6665 section 4.2): which NOTIFY each cause gives, and which state follows.
//!
//! It sends nothing, reads no clock and takes no memory: its caller hands in the time, in seconds, and writes the NOTIFYs.
//! A subscription is a value, [`Sub`], which each cause consumes; the call hands back the one that goes on, or the dialog
//! of the one that is over, with what was asked for. So nothing can be told after the end.
//!
//! Each call is one equation of `specs/Table`. [`laws::whole_life`] says what holds of all calls in a row: the NOTIFYs are
//! numbered 1, 2, 3 .., and none follows a terminated one, a refusal or a loss. Begin with [`Sub`], whose drawing shows its
//! life, then [`Step`] and [`Notice`].
#![tactic(auto)]

pub mod laws;
pub mod life;
pub mod notify;
pub mod terms;

pub use life::{Step, Sub};
pub use notify::{Notice, Phase, Reason};
pub use terms::{Usage, Want};
