//! HTTP digest authentication for SIP (RFC 3261 section 22, RFC 7616, RFC 8760), as a machine of its own: it asks no clock, opens no socket, starts no
//! thread and draws nothing at random. Moments, sources and the secret are handed in.
//!
//! [`Credentials::read`] reads the value of an `Authorization` header, and [`Passwords::add_line`] the lines of a password file.
//! A [`Guard`] has the passwords and makes [`Nonces`] that need no state: [`Guard::judge`] says of a request's credentials what is found,
//! a [`Verdict`], and [`Guard::challenges`] what stands in `WWW-Authenticate`. [`may_watch`] says which mailboxes a user may watch.
//!
//! Only `qop=auth` is read, and the old form without `qop`; `auth-int` is an error. How often a nonce was used isn't counted: within its time a
//! request may be sent again from the same source.
//!
//! Begin with `specs/Verdicts`: who is accepted, and in which order the checks stand. Then `specs/Responses` and `specs/Nonces`, `specs/Grammar`
//! and `specs/Credentials` for what is read, `specs/Passwords` for the file, `specs/Challenges` and `specs/Posed` for what is written. What the
//! reader computes, as functions on lists, is in `specs/Reading`.
#![tactic(auto)]

pub mod algorithm;
pub mod challenge;
pub mod comparison;
pub mod credentials;
pub mod directive;
pub mod error;
pub mod guard;
pub mod nonce;
mod param;
pub mod passwords;
pub mod response;
pub mod watching;

pub use algorithm::Algorithm;
pub use credentials::{Credentials, Protection, realm};
pub use directive::Directive;
pub use error::CredentialsError;
pub use guard::{Asked, Guard, Verdict};
pub use nonce::{Freshness, Nonces};
pub use passwords::{Passwords, PasswordsError};
pub use sip_text::NoMemory;
pub use watching::may_watch;
