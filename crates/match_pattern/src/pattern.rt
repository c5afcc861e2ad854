// Patterns.

use seq::Seq;

/// What one character may be.
#[derive(Clone, Copy, PartialEq, Eq)]
pub enum Atom {
    /// Any but a line end.
    AnyCharacter,
    /// This one alone.
    Character(char),
}

/// How many characters in a row are such.
#[derive(Clone, Copy, PartialEq, Eq)]
pub enum Times {
    Once,
    ZeroOrMore,
    OneOrMore,
}

/// A part of a pattern.
#[derive(Clone, Copy, PartialEq, Eq)]
pub struct Item {
    pub atom: Atom,
    pub times: Times,
}

/// A pattern: whether it matches at the text's beginning alone, its items in order, whether it matches at the text's very end
/// alone, and how many characters it is written with.
#[derive(Drop)]
pub struct Pattern {
    pub at_start: bool,
    pub items: Seq<Item>,
    pub at_end: bool,
    pub length: usize,
}
