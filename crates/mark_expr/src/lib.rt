//! Expressions over names, as pytest's options `-k` and `-m` take them: read and matched.
//!
//! # What it is for
//!
//! Items are selected by their names (`-k`) and marks (`-m`). The grammar is that of pytest's reference, "Command-line Flags".
//!
//! # What is proved
//!
//! - [`read_expr`]: what it gives is the text's expression by the grammar, with at most [`MOST_NESTED`] parentheses and `not`s
//!   open at once (`found`). Each refusal has its cause (`cause`): `Bad(column)` names the first token at which no reading goes
//!   on, however deep, the end being a token behind the last character; `Nesting` comes where one more than the limit is open
//!   before any such token. Whichever of the three answers holds of a text is given, and no other holds (`only`), unless
//!   memory runs out.
//! - [`matches`] is true exactly where the expression holds by cases, and takes no memory. A long row of `or` or `and` is a
//!   list, so its length is no depth.
//!
//! # What tests alone show
//!
//! pytest's own examples (in `words_tests`), and that reading succeeds with ample memory.
//!
//! # What neither shows
//!
//! Time.
#![tactic(auto)]

mod fault;
mod lexing;
mod matching;
mod reading;
mod token;
mod tree;

pub use fault::ExprFault;
pub use matching::{How, matches};
pub use reading::{MOST_NESTED, read_expr};
pub use seq::OutOfMemory;
pub use tree::{MarkExpr, PyName};
