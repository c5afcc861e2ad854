// A text that is written a piece at a time.

use std::alloc::Global;

/// A text so far, and whether memory was refused to a piece of it.
#[derive(Drop)]
pub struct Writer {
    text: String,
    is_refused: bool,
}

impl Writer {
    /// An empty text.
    pub fn new(alloc: Global) -> Writer {
        Writer {
            text: String::new(alloc),
            is_refused: false,
        }
    }

    /// Puts a piece behind the text, or remembers that memory was refused.
    pub fn put(&mut self, piece: &str) {
        if self.text.push_str(piece).is_err() {
            self.is_refused = true;
        }
    }

    /// Puts a character behind the text, or remembers that memory was refused.
    pub fn put_char(&mut self, c: char) {
        if self.text.push(c).is_err() {
            self.is_refused = true;
        }
    }

    /// Puts a number in decimal behind the text, or remembers that memory was refused.
    pub fn put_number(&mut self, n: i128) {
        if write!(self.text, "{n}").is_err() {
            self.is_refused = true;
        }
    }

    /// A piece, so many times.
    pub fn put_times(&mut self, piece: &str, times: u32) {
        for _ in 0..times {
            self.put(piece);
        }
    }

    /// What was written.
    pub fn text(&self) -> &str {
        if self.is_refused {
            return "no memory";
        }
        self.text.as_str()
    }
}
