//! Which items the words of a command line select by `-k` and `-m`.
//!
//! # What it is for
//!
//! [`read_exprs`] reads the expressions of both options before the tree is read, and [`is_selected`] says of an item's names whether both
//! accept it.
//!
//! # What is proved
//!
//! - [`read_exprs`]: Ok are the trees that the texts read as (`exprs`: none for a value that is empty or of blanks alone), and then no
//!   expression is refused. Each refusal but want of memory is the text of the options' first expression that is refused (`refused`:
//!   that of `-k`, or else that of `-m`).
//! - `SelectionFault`'s `Display` writes exactly `selection_text`.
//! - [`is_selected`] is true exactly where the options select an item of these names: `-k` by parts of names whatever their case, `-m` by
//!   whole names, and without an expression each item.
//! - [`one_answer`]: the answer that these definitions compute for a text is one that its grammar allows (`is`), and the only one (`only`).
//!
//! # What tests alone show
//!
//! Texts and selections worked out by hand (in `words_tests`), and that reading succeeds with ample memory.
//!
//! # What neither shows
//!
//! Time.
#![tactic(auto)]

mod exprs;
mod fault;
mod law;

pub use exprs::{Exprs, is_selected, read_exprs};
pub use fault::{Flag, SelectionFault};
pub use law::one_answer;
