//! Rows as they are printed.
use std::alloc::AllocError;
use std::fmt::{Display, Write};

/// A row that is written. Where memory runs out, what comes then is lost, and the row is refused at its end.
#[derive(Drop)]
pub struct Page {
    text: String,
    whole: bool,
}

impl Page {
    /// A page that begins with a text.
    pub fn new(text: String) -> Page {
        Page { text, whole: true }
    }

    /// What was written, where it is whole.
    pub fn finish(self) -> Result<String, AllocError> {
        if self.whole {
            Ok(self.text)
        } else {
            Err(AllocError)
        }
    }

    /// Writes a text.
    pub fn put(&mut self, text: &str) {
        if self.text.push_str(text).is_err() {
            self.whole = false;
        }
    }

    /// Writes a text of ASCII in one line, each line feed as `\n`.
    pub fn put_lines(&mut self, text: &[u8]) {
        for (number, line) in text.split(|byte| *byte == b'\n').enumerate() {
            if number > 0 {
                self.put("\\n");
            }
            self.put_bytes(line);
        }
    }

    /// Writes the bytes of a text, a question mark where they are none.
    pub fn put_bytes(&mut self, text: &[u8]) {
        self.put(std::str::from_utf8(text).unwrap_or("?"));
    }

    /// Writes what a value is shown as.
    pub fn put_shown<T: Display>(&mut self, shown: &T) {
        if write!(self.text, "{shown}").is_err() {
            self.whole = false;
        }
    }

    /// Writes a space and a word.
    pub fn word(&mut self, word: &str) {
        self.put(" ");
        self.put(word);
    }

    /// Writes a space and what a value is shown as.
    pub fn shown<T: Display>(&mut self, shown: &T) {
        self.put(" ");
        self.put_shown(shown);
    }

    /// Writes a word, a space and a number behind another space.
    pub fn placed(&mut self, word: &str, place: u64) {
        self.word(word);
        self.shown(&place);
    }

    /// Opens a list that begins with a word.
    pub fn open(&mut self, word: &str) {
        self.put(" (");
        self.put(word);
    }

    /// Closes a list.
    pub fn close(&mut self) {
        self.put(")");
    }
}
