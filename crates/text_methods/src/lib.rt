//! The methods of texts, with their cost: `count`, `endswith`, `find`, `isdigit`, `join`, `lower`, `replace`, `split`, `startswith`,
//! `strip` and `upper`.
//!
//! # What it is for
//!
//! What a call of such a method makes is a function of the heap, the text and the arguments that knows no budget (`text_method_of`).
//!
//! # What is proved
//!
//! - `text_method` gives exactly the product that `text_method_of` says: its value, its new objects, its cost (the text's length, and
//!   that of what is given), or its raise with class, text and cost.
//! - `split` keeps the empty pieces between separators, and without one gives the words between blanks, of which none is empty (`pieces`,
//!   `words`); `replace` is pieces joined by another text, and `count` is their number less one (`joined`, `occurrences`). A text or a list
//!   past the greatest length is a `MemoryError`, before it is made; `join` copies no element by itself.
//!
//! # What tests alone show
//!
//! Worked calls with their values and errors as CPython has them, and their costs (`value_tests`).
//!
//! # What neither shows
//!
//! How long a call takes. A reader sees that a part is looked for in the text's bytes, by the search of `memchr`.
#![tactic(auto)]

pub mod call;
pub mod chars;
mod joined;
mod pieces;
