//! The answer of a call, in words.

use ctf_model::{Fault, fault_name};
use std::alloc::{AllocError, Global};
use std::fmt::Debug;
use std::str::from_utf8;

/// Words, each after a space.
#[derive(Drop)]
pub struct Answer {
    alloc: Global,
    text: String,
    failed: bool,
}

impl Answer {
    pub fn new(alloc: Global) -> Answer {
        Answer {
            alloc,
            text: String::new(alloc),
            failed: false,
        }
    }

    pub fn alloc(&self) -> Global {
        self.alloc
    }

    pub fn text(&self) -> &str {
        if self.failed {
            return " no answer";
        }
        &self.text
    }

    /// Whether these are all words.
    pub fn is(&self, want: &str) -> bool {
        !self.failed && self.text() == want
    }

    /// Adds that there is no answer: memory was refused, or a row asks for something that does not
    /// exist.
    pub fn fail(&mut self) {
        self.failed = true;
    }

    /// Adds words, if memory was there.
    fn push_words(&mut self, words: Result<String, AllocError>) {
        let pushed = match words {
            Ok(words) => self.text.push_str(&words),
            Err(fault) => Err(fault),
        };
        if pushed.is_err() {
            self.failed = true;
        }
    }

    pub fn word(&mut self, word: &str) {
        self.push_words(format!(in self.alloc; " {word}"));
    }

    pub fn say<T: Debug + Drop>(&mut self, value: T) {
        self.push_words(format!(in self.alloc; " {value:?}"));
    }

    /// Adds the digits of bytes, or a dash if there are none.
    pub fn bytes(&mut self, bytes: &[u8]) {
        match hex::encode(self.alloc, bytes) {
            Ok(digits) if !digits.is_empty() => self.word(&digits),
            Ok(_) => self.word("-"),
            Err(_) => self.fail(),
        }
    }

    /// Adds a name between quotes.
    pub fn name(&mut self, name: &[u8]) {
        match from_utf8(name) {
            Ok(name) => self.say(name),
            Err(_) => self.fail(),
        }
    }

    /// Adds the name of a fault, and its place.
    pub fn fault(&mut self, fault: Fault) {
        self.word(fault_name(fault.code));
        self.say(fault.place);
    }
}
