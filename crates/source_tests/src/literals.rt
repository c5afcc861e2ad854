use py_literals::{Literal, Number, ReadFault, is_name_part, is_name_start, read_literal};
use py_source::LexKind;
use std::alloc::{AllocError, Global};

/// Whether a name may begin with a text's first character, and whether it may go on with it.
pub fn class_told(alloc: Global, text: &str) -> Result<String, AllocError> {
    let ch = text.chars().next().unwrap_or(' ');
    let (starts, goes_on) = (is_name_start(ch), is_name_part(ch));
    format!(in alloc; "{starts} {goes_on}")
}

/// A number's value and length, or its fault.
pub fn number_told(alloc: Global, read: Result<Number, LexKind>) -> Result<String, AllocError> {
    match read {
        Ok(Number { value, len }) => format!(in alloc; "{value} {len}"),
        Err(kind) => format!(in alloc; "{kind:?}"),
    }
}

fn text_of(alloc: Global, literal: &Literal) -> Result<String, AllocError> {
    let mut text = String::new(alloc);
    for ch in literal.text.chars() {
        text.push(*ch)?;
    }
    Ok(text)
}

/// A literal's text, or its fault with its place.
pub fn literal_told(alloc: Global, is_raw: bool, chars: &[char]) -> Result<String, AllocError> {
    match read_literal(alloc, is_raw, chars) {
        Ok(literal) => text_of(alloc, &literal),
        Err(ReadFault::Bad(miss)) => format!(in alloc; "{:?} at {}", miss.kind, miss.at),
        Err(ReadFault::OutOfMemory) => Err(AllocError),
    }
}
