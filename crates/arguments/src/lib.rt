//! The words of the program's calls, and what they ask for: settings, mailboxes, and what its workers start from.
//!
//! [`parse_arguments`] reads the words that ask for a script, [`parse_udp_arguments`] those behind `udp`, and
//! [`parse_settings`] what stands behind `serve`: a list of [`Setting`]s, or the first thing that is wrong, with
//! the right form of an option that has a value. [`Choices::of`] tells what the settings ask for, [`line_mailboxes`] which mailboxes a line of
//! a file names, and [`parse_tell`] and [`parse_lines_call`] read what stands behind `tell`. [`loopback_setup`] and [`dealt_boxes`] make what workers start
//! from; the packages are those that the caller makes for each [`Wanted`]. An [`ExitStatus`] is how a run ends. It starts nothing
//! and opens no file.
//!
//! Begin with `specs/Settings`: which words are which settings, one behind the other; then `specs/Choices`, `specs/Tell`,
//! `specs/MailboxFile`, `specs/Arguments`, `specs/UdpArguments` and `specs/Setup`.
#![tactic(auto)]

pub mod arguments;
pub mod choices;
pub mod error;
pub mod exit_status;
pub mod flag;
pub mod guesses;
pub mod heard;
pub mod lines_call;
pub mod mailbox_file;
mod number_range;
pub mod setting;
pub mod setup;
pub mod switch;
pub mod syncing;
pub mod tell;
pub mod told;
pub mod udp_arguments;
mod value;
pub mod wanted;

pub use arguments::{Arguments, ArgumentsError, parse_arguments};
pub use choices::{Choices, Numbers};
pub use error::OptionsError;
pub use exit_status::ExitStatus;
pub use flag::{AddressFlag, Bound, Flag};
pub use guesses::Guesses;
pub use heard::{
    allowed_networks, control_networks, feed_networks, further_mailboxes, journal_folder,
    password_file,
};
pub use lines_call::{LinesCall, parse_lines_call};
pub use mailbox_file::{is_blank, line_mailboxes};
pub use setting::{Setting, is_mailbox, parse_settings};
pub use setup::{dealt_names, loopback_setup};
pub use sip_text::NoMemory;
pub use switch::Switch;
pub use syncing::Syncing;
pub use tell::{TellCall, TellError, parse_tell};
pub use told::{all_told, boxes_left, dealt_boxes, made_boxes};
pub use udp_arguments::{UdpArguments, parse_udp_arguments};
pub use wanted::Wanted;
