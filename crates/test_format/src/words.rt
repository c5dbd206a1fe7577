//! The words of a row.

use crate::bytes::bytes_of;
use std::alloc::Global;
use std::str::FromStr;

/// The rest of a row, and whether each word so far had the sort that was asked for.
#[derive(Drop)]
pub struct Words<'a> {
    alloc: Global,
    rest: &'a str,
    failed: bool,
}

impl<'a> Words<'a> {
    pub fn new(alloc: Global, row: &'a str) -> Words<'a> {
        Words {
            alloc,
            rest: row,
            failed: false,
        }
    }

    /// Whether no word is left, and each was good.
    pub fn are_read(&self) -> bool {
        self.rest.is_empty() && !self.failed
    }

    /// The next word. There has to be one.
    pub fn word(&mut self) -> &'a str {
        self.failed |= self.rest.is_empty();
        match self.rest.split_once(' ') {
            Some((word, rest)) => {
                self.rest = rest;
                word
            }
            None => self.rest(),
        }
    }

    /// All words that are left.
    pub fn rest(&mut self) -> &'a str {
        let rest = self.rest;
        self.rest = "";
        rest
    }

    /// The next word as a number.
    pub fn number<T: FromStr + Default>(&mut self) -> T
    where
        T::Err: Drop,
    {
        match self.word().parse::<T>() {
            Ok(number) => number,
            Err(_) => {
                self.failed = true;
                T::default()
            }
        }
    }

    /// The bytes that the next word stands for.
    pub fn bytes(&mut self) -> Vec<u8> {
        match bytes_of(self.alloc, self.word()) {
            Some(bytes) => bytes,
            None => {
                self.failed = true;
                Vec::new(self.alloc)
            }
        }
    }
}
