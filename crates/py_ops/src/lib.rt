//! The operators of the interpreted language, with their cost: between two values, before one, and comparisons.
//!
//! # What it is for
//!
//! What an operator makes is a function of the heap and its operands that knows no budget (`binary_of`, `augmented_of`, `unary_of`,
//! `compare_of`): a value, a new object or a change of an object with its cost, or a raise with its class, its text and its cost.
//! `payable` is the one word by which the budget enters.
//!
//! # What is proved
//!
//! - `binary`, `augmented`, `unary`, `compare`: each ends as its definition says under the budget, in the heap that it leaves (`end`),
//!   and takes at most the budget's steps (`cost`). `binary_made` and its kin decide the same on a heap that is only read.
//! - All operators of the language are there; what they do with numbers, ranges and sequences stands in py_operands.
//!
//! # What tests alone show
//!
//! Each operator against CPython, each error's class and text, each cost, and that one step fewer exhausts it (`value_tests`).
//!
//! # What neither shows
//!
//! How long a call takes.
#![tactic(auto)]

pub mod binary;
pub mod compare;
mod contains;
pub mod unary;
