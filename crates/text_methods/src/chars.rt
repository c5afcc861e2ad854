// Characters of texts.

ghost use Rattle.std.specs.Prelude.{◌≡◌, IfOk, map, reverse, not};
ghost use Rattle.std.specs.Char.{is_ascii_digit, to_ascii_lowercase, to_ascii_uppercase};
ghost use Rattle.std.specs.List.{list_all};
ghost use Rattle.text_methods.specs.Characters as characters;

use py_values::OutOfMemory;
use std::alloc::Global;

/// Whether a character is one of the six blanks of ASCII.
pub fn is_blank(c: char) -> bool
    ensures { result ≡ characters.is_blank c }
{
    match c {
        '\t' | '\n' | '\u{b}' | '\u{c}' | '\r' | ' ' => true,
        _ => false,
    }
}

fn has_only_digits(text: &[char]) -> bool
    ensures { result ≡ list_all is_ascii_digit text.now }
{
    text.iter().all(|c| c.is_ascii_digit())
}

/// Whether a text has characters, which are all digits of ASCII.
pub fn is_digits(text: &[char]) -> bool
    ensures { result ≡ characters.is_digits text.now }
{
    !text.is_empty() && has_only_digits(text)
}

/// A text with the capital letters of ASCII made small (Python library reference, `str.lower`).
pub fn lower(alloc: Global, text: &[char]) -> Result<Vec<char>, OutOfMemory>
    ensures { IfOk result (λ v. v.items ≡ map to_ascii_lowercase text.now) }
{
    let chars = text.iter().map(|c| c.to_ascii_lowercase()).collect(alloc)?;
    Ok(chars)
}

/// A text with the small letters of ASCII made capital (Python library reference, `str.upper`).
pub fn upper(alloc: Global, text: &[char]) -> Result<Vec<char>, OutOfMemory>
    ensures { IfOk result (λ v. v.items ≡ map to_ascii_uppercase text.now) }
{
    let chars = text.iter().map(|c| c.to_ascii_uppercase()).collect(alloc)?;
    Ok(chars)
}

/// A text from its first character on that is no blank.
fn from_word(text: &[char]) -> &[char]
    ensures { result.now ≡ characters.from_word text.now }
{
    let mut rest = text;
    while let Some((c, behind)) = rest.split_first() {
        if !is_blank(*c) {
            return rest;
        }
        rest = behind;
    }
    rest
}

/// A text up to its last character that is no blank.
fn to_word(text: &[char]) -> &[char]
    ensures { result.now ≡ characters.to_word text.now }
{
    let mut rest = text;
    while let Some((c, before)) = rest.split_last() {
        if !is_blank(*c) {
            return rest;
        }
        rest = before;
    }
    rest
}

/// A text without the blanks at its ends.
pub fn stripped(text: &[char]) -> &[char]
    ensures { result.now ≡ characters.stripped text.now }
{
    to_word(from_word(text))
}
