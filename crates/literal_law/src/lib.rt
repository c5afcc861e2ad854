//! The laws of literals, in the Language Reference's own words.
//!
//! # What it is for
//!
//! `py_literals` reads a number and a text by definitions that go through the characters as its program does. Here stands
//! what these definitions come to.
//!
//! # What is proved
//!
//! - [`numerals_write_numbers`]: a word has the value n exactly where it is a decimal numeral, zeros, or a prefix with digits
//!   of its base, in each case with single underscores between digits, and n is the sum of the digits' values, each at its
//!   place.
//! - [`bodies_fall_into_items`]: a literal's body has a text exactly where it falls into items, each of which is spelled by the
//!   characters that stand at its place; the text is what they stand for, one behind the other (`text`). The body is what they
//!   spell, one behind the other (`spelling`), and it falls into items in one way only (`one_way`).
//!
//! # What meets the laws, and what they refuse
//!
//! - Nothing is asked: each law says when a word or a body has a value, and when not. `1_000` writes 1000, `1__0` writes no number; the body
//!   `a\n` of a literal that isn't raw falls into two items, the second of which stands for a line end.
//! - Refused, each as an edit: that a digit stands a place higher, that a number begins with no one, that octal digits are decimal, that a
//!   body is what its items mean, that a text is what its items spell, that an item is as long as its meaning.
#![tactic(auto)]

ghost use Rattle.std.specs.Prelude.{◌≡◌, ◌↔◌, ℕ, Bool, List, Ok, Some};
ghost use Rattle.py_literals.specs.Literals.{text_from};
ghost use Rattle.py_literals.specs.Numbers.{integer_value};
ghost use Rattle.literal_law.specs.Bodies.{FallsInto, Piece, meaning, spelling};
ghost use Rattle.literal_law.specs.Numerals.{Writes};

/// A law: the value of a word is the number that it writes, by its digits' values, and it has one exactly where it writes one.
pub fn numerals_write_numbers()
    ensures { (word : List ℕ) (n : ℕ) → integer_value word ≡ Some n ↔ Writes word n }
{}

/// A law: a literal's body is a row of items, in one way only, and its text is what they stand for.
pub fn bodies_fall_into_items()
    ensures text { (is_raw : Bool) (body text : List ℕ) → text_from is_raw 0 0 body ≡ Ok text ↔ ((pieces : List Piece) × FallsInto is_raw body pieces × (text ≡ meaning pieces)) }
    ensures spelling { (is_raw : Bool) (body : List ℕ) (pieces : List Piece) → FallsInto is_raw body pieces → body ≡ spelling pieces }
    ensures one_way { (is_raw : Bool) (body : List ℕ) (pieces others : List Piece) → FallsInto is_raw body pieces → FallsInto is_raw body others → pieces ≡ others }
{}
