//! From tokens to the tree of a source, or to its first fault (Language Reference, full grammar specification).
//!
//! # What it is for
//!
//! [`parse`] is given the tokens of `py_tokens` and gives a [`Module`](py_tree::Module), or one of four faults with its place.
//!
//! # What is proved
//!
//! - `parse`, of tokens that end with the text's end: its answer is the verdict on them (`verdict`), and they have no other (`only`),
//!   unless memory ran out. The verdict is the tree; or `Unexpected` at the first token at which no reading goes on, `Unsupported` where
//!   that token belongs to the whole language alone; or `Nesting` at the first token with which readings go on, but only deeper than a
//!   hundred levels of expressions or of blocks; or `Context` at the first of what may not stand where it does.
//!
//! Below it, and private: each function reads one line of the grammar's table or a part of one, and gives exactly what the table's reader
//! gives (`statement_readers`), the tree and the tokens left, or the tokens from the fault on. Calls of functions in one another are
//! bounded by the levels.
//!
//! # What tests alone show
//!
//! Trees are those of CPython, and places those of a plain model (`expression_tests`); with ample memory every text is answered.
//!
//! # What neither shows
//!
//! How much of a thread's stack a hundred levels of blocks with a hundred levels of expressions take, and how long reading takes.
#![tactic(auto)]

mod blocks;
mod fault;
mod heads;
mod parser;
mod parts;
mod simple;

pub use fault::SyntaxFault;
pub use parser::parse;
