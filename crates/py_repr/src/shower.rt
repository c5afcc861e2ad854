// A text that is made up to a length.

ghost use Rattle.std.specs.Prelude.{◌≡◌, IfOk, OnOk, fold};
ghost use Rattle.std.specs.Fmt.{signed_decimal};
ghost use Rattle.py_repr.specs.Adding.{add, start_showing, shown_of};
ghost use Rattle.py_repr.specs.Symbols.{Char, glyphs, dots};

use crate::shown::Shown;
use seq::{OutOfMemory, PyText};
use std::alloc::Global;
use std::marker::Model;

/// A text that is being made, up to a length.
#[derive(Drop)]
pub struct Shower {
    out: Vec<char>,
    most: usize,
    cut: bool,
    deep: bool,
}

impl Model for Shower {
    ghost use Rattle.py_repr.specs.Showing.{TextBuffer};

    ghost Value = { TextBuffer };

    ghost view = { λ s. record { out = s.out.items; most = s.most; cut = s.cut; deep = s.deep } };
}

impl Shower {
    /// An empty text that takes at most so many characters.
    pub fn new(alloc: Global, most: usize) -> Self
        ensures { result ≡ start_showing most }
    {
        Shower {
            out: Vec::new(alloc),
            most,
            cut: false,
            deep: false,
        }
    }

    /// Where its memory comes from.
    pub fn allocator(&self) -> Global {
        *self.out.allocator()
    }

    /// Whether something had no more room.
    pub fn is_cut(&self) -> bool
        ensures { result ≡ self.now.cut }
    {
        self.cut
    }

    /// Puts a character behind the text, where there is room.
    pub fn push(&mut self, c: char) -> Result<(), OutOfMemory>
        ensures { OnOk result (self.new ≡ add self.old (Char c)) }
    {
        if self.cut {
            return Ok(());
        }
        if self.out.len() < self.most {
            self.out.push(c)?;
        } else {
            self.cut = true;
        }
        Ok(())
    }

    /// Puts the dots of a value that lies too deep.
    pub fn push_deep(&mut self) -> Result<(), OutOfMemory>
        ensures { OnOk result (self.new ≡ fold add self.old dots) }
    {
        if self.cut {
            return Ok(());
        }
        if self.out.len() < self.most {
            self.out.push('.')?;
            self.deep = true;
        } else {
            self.cut = true;
        }
        self.push('.')?;
        self.push('.')?;
        Ok(())
    }

    /// Puts the characters of a text of ASCII behind the text, as far as there is room.
    pub fn push_ascii(&mut self, text: &str) -> Result<(), OutOfMemory>
        ensures { OnOk result (self.new ≡ fold add self.old (glyphs text.now)) }
    {
        for b in text.as_bytes() {
            self.push(char::from(*b))?;
        }
        Ok(())
    }

    /// Puts characters behind the text, as far as there is room.
    pub fn push_chars(&mut self, text: &[char]) -> Result<(), OutOfMemory>
        ensures { OnOk result (self.new ≡ fold add self.old (glyphs text.now)) }
    {
        for c in text {
            self.push(*c)?;
        }
        Ok(())
    }

    /// Puts a whole number in decimal behind the text, as far as there is room.
    pub fn push_number(&mut self, n: i128) -> Result<(), OutOfMemory>
        ensures { OnOk result (self.new ≡ fold add self.old (glyphs (signed_decimal n))) }
    {
        let alloc = *self.out.allocator();
        let text = n.to_string(alloc)?;
        self.push_ascii(text.as_str())?;
        Ok(())
    }

    /// The text that came of it, and whether it was cut or lay too deep.
    pub fn into_shown(self) -> Result<Shown, OutOfMemory>
        ensures { IfOk result (λ s. s ≡ shown_of self) }
    {
        let alloc = *self.out.allocator();
        let text = PyText::from_chars(alloc, &self.out)?;
        Ok(Shown {
            text,
            cut: self.cut,
            deep: self.deep,
        })
    }
}
