//! The text of a failed assert: what the parts of its condition were.
//!
//! # What it is for
//!
//! The parts of a condition are numbered in the order of its text, and what was evaluated of them is kept by number. [`explain`] makes
//! of these, of the message and of the objects the text that the `AssertionError` has: the condition with the values of its parts, and
//! below it a line for each call and attribute that says how its value came.
//!
//! # What is proved
//!
//! - `explain` gives exactly the text that the meaning of sources says (`explanation` of py_world), unless memory ran out.
//!
//! # What tests alone show
//!
//! Nothing.
//!
//! # What neither shows
//!
//! That the text is the one that pytest shows. How deep the program's own stack grows: a condition is gone down as deep as it is.
#![tactic(auto)]

mod counts;
mod parts;
mod shows;
mod text;
mod values;

pub use text::explain;
