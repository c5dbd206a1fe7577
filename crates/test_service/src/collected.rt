//! The answer of a call, in words.

use std::alloc::{AllocError, Global};

/// Words, separated by spaces.
#[derive(Drop)]
pub struct AnswerWords {
    alloc: Global,
    text: String,
    failed: bool,
}

impl AnswerWords {
    pub fn new(alloc: Global) -> AnswerWords {
        AnswerWords {
            alloc,
            text: String::new(alloc),
            failed: false,
        }
    }

    pub fn alloc(&self) -> Global {
        self.alloc
    }

    pub fn text(&self) -> &str {
        &self.text
    }

    /// Whether these are all words.
    pub fn is(&self, want: &str) -> bool {
        !self.failed && self.text() == want
    }

    fn put(&mut self, text: &str) {
        let done = self.text.push_str(text);
        self.note(done);
    }

    pub fn word(&mut self, word: &str) {
        if !self.text.is_empty() {
            self.put(" ");
        }
        self.put(word);
    }

    /// Adds whether memory was there.
    pub fn note(&mut self, done: Result<(), AllocError>) {
        if done.is_err() {
            self.failed = true;
        }
    }

    /// Adds a word, or that memory was refused.
    pub fn push_word(&mut self, word: Result<String, AllocError>) {
        match word {
            Ok(word) => self.word(&word),
            Err(_) => self.failed = true,
        }
    }

    pub fn number(&mut self, number: u64) {
        self.push_word(format!(in self.alloc; "{number}"));
    }

    /// Adds bytes as text.
    pub fn text_of(&mut self, bytes: &[u8]) {
        self.word(std::str::from_utf8(bytes).unwrap_or("no text"));
    }

    /// Adds the digits of bytes, or a dash if there are none.
    pub fn digits(&mut self, bytes: &[u8]) {
        if bytes.is_empty() {
            self.word("-");
        } else {
            self.push_word(hex::encode(self.alloc, bytes));
        }
    }

    /// Adds how much of the wanted bytes was written: all, so many from their front, or something
    /// else.
    pub fn front(&mut self, want: &[u8], written: &[u8]) {
        if written == want {
            self.word("all");
        } else if want.starts_with(written) {
            self.number(written.len() as u64);
        } else {
            self.word("other");
        }
    }
}
