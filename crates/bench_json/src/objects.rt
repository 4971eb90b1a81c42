//! Objects on their way to a line.

use crate::values::{text_of, value_of};
use serde_json::{Map, Value, put};
use std::alloc::{AllocError, Global};
use std::str;
use text_lines::Words;

/// An object.
#[derive(Drop)]
pub struct Object {
    alloc: Global,
    members: Map<String, Value>,
}

impl Object {
    /// An object without members.
    pub fn new(alloc: Global) -> Object {
        Object {
            alloc,
            members: Map::new(alloc),
        }
    }

    /// Adds a member; it takes the place of one of the same key.
    pub fn add(&mut self, key: &str, value: Value) -> Result<(), AllocError> {
        put(&mut self.members, self.alloc, key, value)
    }

    /// Adds a number.
    pub fn add_number(&mut self, key: &str, number: u64) -> Result<(), AllocError> {
        self.add(key, Value::from(number))
    }

    /// Adds a number below zero, so far below it.
    pub fn add_negative(&mut self, key: &str, distance: u64) -> Result<(), AllocError> {
        match i64::try_from(distance) {
            Ok(far) => self.add(key, Value::from(-far)),
            Err(_) => self.add(key, Value::Null),
        }
    }

    /// Adds a text.
    pub fn add_text(&mut self, key: &str, text: &[u8]) -> Result<(), AllocError> {
        let value = text_of(self.alloc, text)?;
        self.add(key, value)
    }

    /// Adds words, parted by spaces, as a list of texts.
    pub fn add_words(&mut self, key: &str, text: &[u8]) -> Result<(), AllocError> {
        let mut list = Vec::new(self.alloc);
        let mut words = Words::of(text);
        for _word in 0..text.len() {
            if let Some(word) = words.next() {
                list.push(text_of(self.alloc, word)?)?;
            }
        }
        self.add(key, Value::from(list))
    }

    /// Adds what a word says of a key.
    pub(crate) fn add_word(&mut self, key: &[u8], word: &[u8]) -> Result<(), AllocError> {
        match str::from_utf8(key) {
            Ok(name) => {
                let value = value_of(self.alloc, key, word)?;
                self.add(name, value)
            }
            Err(_) => Ok(()),
        }
    }

    /// Appends the object as a line.
    pub fn put(self, line: &mut Vec<u8>) -> Result<(), AllocError> {
        let Object { alloc, members } = self;
        let text = Value::from(members).to_string(alloc)?;
        line.extend_from_slice(text.as_bytes())?;
        line.push(b'\n')?;
        Ok(())
    }
}
