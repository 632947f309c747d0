//! Writes SIP messages: answers to requests, and NOTIFYs. It sends nothing, and keeps nothing.
//!
//! There is one layout: each line stands in one place, as far as it applies, and each value is written in one way. The layout is a
//! definition, a join of lines: `answer_text` in `specs/Answer.antt` and `notify_text` in `specs/Notify.antt`, with the rewriting of
//! the top Via in `specs/Via.antt`. [`response`] and [`notice`] answer exactly that text, [`write_response`] and [`write_notify`] append it, and after
//! [`NoMemory`](sip_text::NoMemory) the bytes are as they were.
//!
//! Begin with [`Answer`] and [`NotifyText`], which borrow what is written; contracts see them as the plain records `AnswerText` and
//! `NotifyText` of the definitions. [`laws`] holds what is proved of the definitions themselves: what is written of values in their grammars
//! is read, by the definition of reading in `sip_read`, as the same message (`specs/ReadAgain.antt`, `specs/AnswerAgain.antt`).
#![tactic(auto)]

mod address;
pub mod answer;
pub mod laws;
pub mod notify;
mod page;
pub mod quoting;
pub mod status;
mod via;

pub use answer::{Answer, response, write_response};
pub use notify::{NotifyText, notice, write_notify};
pub use sip_text::NoMemory;
pub use status::Status;
