//! What operators do with their operands: whole numbers of 128 bits, the numbers of ranges, sequences joined and repeated, the text that a
//! value is, and the errors of operators.
//!
//! # What it is for
//!
//! The operators stand in py_ops; here stands what they do with numbers, ranges and sequences.
//!
//! # What is proved
//!
//! - Numbers are exact or an `OverflowError`; `//` rounds down and `%` has the divisor's sign, for which a law (`division_law`) says that a
//!   number is its quotient times the divisor and the rest (`whole`), which has the divisor's sign (`above`, `below`) and is smaller than it
//!   (`rest`).
//! - Sequences are joined and repeated as the definitions say, or are too long, before they are made; a number of a range is that of its
//!   progression.
//! - `text_of` gives the text that a value is, and nothing for any other value. `first_place` gives where a part stands first in a text.
//!
//! # What tests alone show
//!
//! Each operator against CPython (`value_tests`).
//!
//! # What neither shows
//!
//! How long a call takes.
#![tactic(auto)]

pub mod attempt;
pub mod faults;
pub mod laws;
pub mod numbers;
pub mod ranges;
pub mod search;
pub mod sequences;
pub mod texts;
