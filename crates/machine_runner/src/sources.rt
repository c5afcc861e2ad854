// Texts of characters.

ghost use Rattle.std.specs.Prelude.{◌≡◌, IfOk, chars};

use seq::{OutOfMemory, PyText};
use std::alloc::{AllocError, Global};

/// The characters of a text.
fn letters_of(alloc: Global, text: &str) -> Result<Vec<char>, AllocError>
    ensures { IfOk result (λ letters. letters.items ≡ chars text.now) }
{
    text.chars().collect(alloc)
}

/// The text with these characters.
pub fn text_of(alloc: Global, text: &str) -> Result<PyText, OutOfMemory>
    ensures { IfOk result (λ t. t ≡ chars text.now) }
{
    let letters = letters_of(alloc, text)?;
    PyText::from_chars(alloc, &letters)
}
