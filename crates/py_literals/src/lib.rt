//! The literals of a source, each read from the characters at the head of a text.
//!
//! # What it is for
//!
//! Tokens stand on it: a whole number or a text literal is read at the head of a list of characters, and the classes of
//! characters that names and line ends are made of are tested here.
//!
//! # What is proved
//!
//! - [`read_number`] (`value`) is `number_at`: the value of the longest word there as the Language Reference's `integer`
//!   spells it, or exactly `NumberForm`, `NumberRange` (past 2^127 - 1) or `Unsupported` (a point, an exponent or a `j`).
//! - [`read_literal`] (`value`) is `literal_at`: the text of the literal and how many characters spell it, or exactly its
//!   fault at its place: `Unterminated` at its start before any other, else the first item of its body that stands for
//!   nothing (`Escape`, or `Unsupported` at `\N`). The only other answer is that memory was wanting.
//! - [`is_name_start`], [`is_name_part`], [`word_len`], [`line_end_len`] and [`behind`] are each equal to their definition.
//!
//! # What tests alone show
//!
//! That the definitions give CPython's values (tables of numbers and literals), and that reading succeeds with ample memory.
//!
//! # What neither shows
//!
//! Time and stack. A literal is read in one pass for its end and one for its text.
#![tactic(auto)]

mod chars;
mod escape;
mod literal;
mod number;

pub use chars::{behind, is_name_part, is_name_start, line_end_len, word_len};
pub use literal::{Literal, Miss, ReadFault, read_literal};
pub use number::{Number, read_number};
