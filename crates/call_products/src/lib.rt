//! What calls of built-in functions and methods make, beside what an operator makes: many new objects at once, and the elements of
//! what is iterated over.
//!
//! # What it is for
//!
//! `Effect` tells one new object or one change. A call such as `"a b".split()` or `enumerate(xs)` makes many objects: `Product` has those,
//! which stand behind the heap's last one, and then what is made in the heap that has them. The crates of methods and calls above give
//! products of the heap and their arguments, and know no heap that is written.
//!
//! # What is proved
//!
//! - `finish_product` leaves the heap with the objects and what is made in it, and nothing at all where the budget didn't suffice
//!   (`end`), with its steps (`cost`). `product_within` lets a product through exactly where the budget suffices.
//! - `elements_of` gives the elements of a text (each a new text of one character), a list, a tuple, a dict (its keys) or a range, or the raise
//!   for what is none of these, or for a range with a number outside 128 bits.
//! - `refs` are the places behind one another from one on; `wrong` and `failed` are the raises with their texts.
//!
//! # What tests alone show
//!
//! Nothing.
//!
//! # What neither shows
//!
//! How long a call takes.
#![tactic(auto)]

pub mod arguments;
pub mod elements;
pub mod product;
