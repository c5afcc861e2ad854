ghost use Rattle.std.specs.Prelude.{◌≡◌, ◌++◌, IfOk, OnOk, chars, encode_utf8_all, string_bytes};

use crate::list::Seq;
use crate::memory::OutOfMemory;
use std::alloc::{AllocError, Global};
use std::fmt;
use std::marker::Model;

/// A text, seen as the list of its characters.
pub type CharText = Seq<char>;

/// A text of the interpreted language, seen as its characters.
pub type PyText = CharText;

impl Seq<char> {
    /// A copy of the characters.
    pub fn from_chars(alloc: Global, chars: &[char]) -> Result<Self, OutOfMemory>
        ensures { IfOk result (λ text. text ≡ chars.now) }
    {
        Seq::from_slice(alloc, chars)
    }

    /// The characters of a text.
    pub fn from_str(alloc: Global, text: &str) -> Result<Self, OutOfMemory>
        ensures { IfOk result (λ copy. copy ≡ chars text.now) }
    {
        let chars = text.chars().collect(alloc)?;
        Ok(Seq::from_vec(chars))
    }

    /// The characters, lent.
    pub fn chars(&self) -> &[char]
        ensures { result.now ≡ self.now }
    {
        self.items()
    }
}

/// A text, seen as the list of its bytes in UTF-8.
#[derive(Debug)]
pub struct ByteText {
    text: String,
}

impl Drop for ByteText {
    fn drop(self) {
        let ByteText { text: _ } = self;
    }
}

impl Model for ByteText {
    ghost use Rattle.std.specs.Prelude.{List, ℕ, string_bytes};

    ghost Value = { List ℕ };

    ghost view = { λ t. string_bytes t.text };
}

impl ByteText {
    /// Takes the text over, without taking memory.
    pub fn from_string(text: String) -> Self
        ensures { result ≡ string_bytes text }
    {
        ByteText { text }
    }

    /// Gives the text back, without taking memory.
    pub fn into_string(self) -> String
        ensures { string_bytes result ≡ self }
    {
        let ByteText { text } = self;
        text
    }

    /// A copy of a text.
    pub fn from_str(alloc: Global, text: &str) -> Result<Self, OutOfMemory>
        ensures { IfOk result (λ copy. copy ≡ text.now) }
    {
        Ok(ByteText {
            text: String::from_str(alloc, text)?,
        })
    }

    /// The text, lent.
    pub fn text(&self) -> &str
        ensures { result.now ≡ self.now }
    {
        self.text.as_str()
    }
}

impl fmt::Display for ByteText {
    ghost use Rattle.std.specs.Prelude.{Some};

    ghost output = { λ text. Some text };

    fn fmt<W: fmt::Write>(&self, f: &mut fmt::Formatter<W>) -> fmt::Result {
        f.write_str(self.text.as_str())
    }
}

impl Clone for ByteText {
    ghost is_clone = { λ text copy. copy ≡ text };

    fn clone(&self) -> Result<ByteText, AllocError> {
        Ok(ByteText {
            text: self.text.clone()?,
        })
    }
}

/// Puts characters behind a text, in UTF-8.
pub fn push_chars(out: &mut String, chars: &[char]) -> Result<(), AllocError>
    ensures { OnOk result (string_bytes out.new ≡ string_bytes out.old ++ encode_utf8_all chars.now) }
{
    for c in chars {
        out.push(*c)?;
    }
    Ok(())
}

/// The text of characters, in UTF-8.
pub fn encoded(alloc: Global, chars: &[char]) -> Result<ByteText, OutOfMemory>
    ensures { IfOk result (λ text. text ≡ encode_utf8_all chars.now) }
{
    let mut text = String::new(alloc);
    push_chars(&mut text, chars)?;
    Ok(ByteText { text })
}
