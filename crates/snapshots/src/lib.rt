//! What a desk keeps, and what comes to it, as bytes: written, and read again exactly.
//!
//! A [`form::Form`] says how a value is written and what is read at the front of bytes. Begin with `specs/Forms`, then `specs/Rows` and
//! `specs/Books` (what a desk keeps), and `specs/Messages`, `specs/Changes` and `specs/Events` (what comes to it). [`laws`] says that what is
//! written is read again, whatever follows it, and that a torn text is none.
#![tactic(auto)]

pub mod book;
pub mod change;
pub mod event;
pub mod field;
pub mod form;
pub mod laws;
pub mod message;
pub mod row;
