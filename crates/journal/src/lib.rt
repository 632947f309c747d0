//! A journal, as bytes: what is written of workers and control lines, what a reader finds in a file that a crash may have torn, and from what
//! the workers go on.
//!
//! It writes no file. A record stands behind its length and its checksum; what is torn is found by these and left out, with what stands behind
//! it. Begin with `specs/Frames`, then `specs/Records` and `specs/Generations`. [`laws`] says what holds of any file.
#![tactic(auto)]

pub mod chain;
pub mod file;
mod frames;
pub mod header;
mod known;
pub mod laws;
pub mod reading;
pub mod record;
mod sum;
pub mod writing;

pub use chain::{ChainError, chained};
pub use file::{Account, Generation, GenerationError, read_generation};
pub use frames::LONGEST;
pub use header::Header;
pub use reading::{Contents, records};
pub use record::{Book, Clock, Line, Record, Told};
pub use sip_text::NoMemory;
pub use writing::{Unwritten, put_book, put_handled, put_line, put_record};
