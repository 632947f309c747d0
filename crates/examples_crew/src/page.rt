//! What is told of a run.

use crate::error::RunError;
use std::alloc::Global;

/// A text that grows. Where memory is refused it knows so, and is told to nobody.
#[derive(Drop)]
pub(crate) struct Page {
    text: String,
    is_cut: bool,
}

impl Page {
    pub(crate) fn new(alloc: Global) -> Page {
        Page {
            text: String::new(alloc),
            is_cut: false,
        }
    }

    /// Words more.
    pub(crate) fn say(&mut self, words: &str) {
        if self.text.push_str(words).is_err() {
            self.is_cut = true;
        }
    }

    /// All of these words more.
    pub(crate) fn say_all(&mut self, parts: &[&str]) {
        for words in parts {
            self.say(words);
        }
    }

    /// Words with a number behind them.
    pub(crate) fn tell(&mut self, alloc: Global, words: &str, number: u64) {
        self.say(words);
        match format!(in alloc; "{number}") {
            Ok(digits) => self.say(digits.as_str()),
            Err(_) => self.is_cut = true,
        }
    }

    /// Whether this is so, behind words.
    pub(crate) fn judge(&mut self, words: &str, is_so: bool) {
        self.say(words);
        self.say(if is_so { "true" } else { "false" });
    }

    /// All of it.
    pub(crate) fn text(&self) -> Result<&str, RunError> {
        if self.is_cut {
            Err(RunError::Memory)
        } else {
            Ok(self.text.as_str())
        }
    }
}
