// Pieces of texts.

ghost use Rattle.std.specs.Prelude.{◌≡◌, ◌++◌, ◌∷◌, ◌<◌, [], IfOk, OnOk, length};
ghost use Rattle.text_methods.specs.Pieces as cuts;

use crate::chars::is_blank;
use py_operands::search::{encoded, first_behind};
use py_values::limits::MOST_ELEMENTS;
use py_values::{OutOfMemory, PyText};
use std::alloc::Global;

/// Takes the characters of an open piece, which is empty then, as a piece more.
fn close(alloc: Global, pieces: &mut Vec<PyText>, last: &mut Vec<char>) -> Result<(), OutOfMemory>
    ensures pieces { OnOk result (pieces.new.items ≡ pieces.old.items ++ last.old.items ∷ []) }
    ensures last { OnOk result (last.new.items ≡ []) }
{
    pieces.push(PyText::from_chars(alloc, last)?)?;
    last.clear();
    Ok(())
}

/// The pieces between the places where a part stands, which has characters.
fn cut(alloc: Global, part: &[char], text: &[char]) -> Result<Vec<PyText>, OutOfMemory>
    requires some { 0 < length part.now }
    ensures { IfOk result (λ v. v.items ≡ cuts.cut_behind part.now 0 text.now) }
{
    let bytes = encoded(alloc, text)?;
    let sought = encoded(alloc, part)?;
    let mut pieces = Vec::new(alloc);
    let mut from = 0;
    while let Some(far) = first_behind(&bytes, &sought, from) {
        pieces.push(PyText::from_chars(alloc, &text[from..from + far])?)?;
        from = from + far + part.len();
    }
    pieces.push(PyText::from_chars(alloc, &text[from..])?)?;
    Ok(pieces)
}

/// Takes a piece for each character.
pub fn singles(alloc: Global, pieces: &mut Vec<PyText>, text: &[char]) -> Result<(), OutOfMemory>
    ensures { OnOk result (pieces.new.items ≡ pieces.old.items ++ cuts.singles text.now) }
{
    for c in text {
        pieces.push(PyText::from_chars(alloc, &[*c])?)?;
    }
    Ok(())
}

fn around_each(alloc: Global, text: &[char]) -> Result<Vec<PyText>, OutOfMemory>
    ensures { IfOk result (λ v. v.items ≡ cuts.pieces [] text.now) }
{
    let mut pieces = Vec::new(alloc);
    pieces.push(PyText::from_chars(alloc, &[])?)?;
    singles(alloc, &mut pieces, text)?;
    pieces.push(PyText::from_chars(alloc, &[])?)?;
    Ok(pieces)
}

/// The pieces of a text between the places where a part stands.
pub fn pieces(alloc: Global, part: &[char], text: &[char]) -> Result<Vec<PyText>, OutOfMemory>
    ensures { IfOk result (λ v. v.items ≡ cuts.pieces part.now text.now) }
{
    if part.is_empty() {
        return around_each(alloc, text);
    }
    cut(alloc, part, text)
}

/// Takes an open piece where it has characters.
fn close_word(
    alloc: Global,
    words: &mut Vec<PyText>,
    last: &mut Vec<char>,
) -> Result<(), OutOfMemory>
    ensures words { OnOk result (words.new.items ≡ words.old.items ++ cuts.kept last.old.items) }
    ensures last { OnOk result (last.new.items ≡ []) }
{
    if !last.is_empty() {
        close(alloc, words, last)?;
    }
    Ok(())
}

/// The words of a text between blanks.
pub fn words(alloc: Global, text: &[char]) -> Result<Vec<PyText>, OutOfMemory>
    ensures { IfOk result (λ v. v.items ≡ cuts.words text.now) }
{
    let mut words = Vec::new(alloc);
    let mut last = Vec::new(alloc);
    let mut rest = text;
    while let Some((c, behind)) = rest.split_first() {
        rest = behind;
        if is_blank(*c) {
            close_word(alloc, &mut words, &mut last)?;
            continue;
        }
        last.push(*c)?;
    }
    close_word(alloc, &mut words, &mut last)?;
    Ok(words)
}

/// Whether a text stays short with another and a third behind it.
pub fn has_room(chars: &[char], sep: &[char], piece: &[char]) -> bool
    ensures { result ≡ cuts.has_room chars.now sep.now piece.now }
{
    chars.len() as u128 + sep.len() as u128 + piece.len() as u128 <= MOST_ELEMENTS as u128
}

/// Pieces joined behind another, where they aren't too long.
fn joined_behind(
    alloc: Global,
    first: &[char],
    sep: &[char],
    pieces: &[PyText],
) -> Result<Option<PyText>, OutOfMemory>
    ensures { IfOk result (λ o. o ≡ cuts.short_text (first.now ++ cuts.joined_behind sep.now pieces.now)) }
{
    let mut chars = Vec::new(alloc);
    if !has_room(first, &[], &[]) {
        return Ok(None);
    }
    chars.extend_from_slice(first)?;
    for piece in pieces {
        if !has_room(&chars, sep, piece.chars()) {
            return Ok(None);
        }
        chars.extend_from_slice(sep)?;
        chars.extend_from_slice(piece.chars())?;
    }
    Ok(Some(PyText::from_chars(alloc, &chars)?))
}

/// Pieces with a separator between them, where they aren't too long.
pub fn joined(alloc: Global, sep: &[char], pieces: &[PyText]) -> Result<Option<PyText>, OutOfMemory>
    ensures { IfOk result (λ o. o ≡ cuts.short_text (cuts.joined sep.now pieces.now)) }
{
    match pieces.split_first() {
        Some((first, rest)) => joined_behind(alloc, first.chars(), sep, rest),
        None => Ok(Some(PyText::from_chars(alloc, &[])?)),
    }
}
