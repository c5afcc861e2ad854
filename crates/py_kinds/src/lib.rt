//! What the values of the interpreted language do by their kinds: truth, length, keys, the names of kinds, classes and what is an instance
//! of which, and what follows from the tables of built-in names.
//!
//! # What it is for
//!
//! The crates of operators, attributes and calls, and the machine, ask here what a value is by its kind.
//!
//! # What is proved
//!
//! - `truth`, `kind_name`, `length_of`, `is_a`, `root_of`, `stands_on`, `is_exc_class` and `are_exc_classes` equal the definitions of the same
//!   names; `key_within` gives the key of a value (`key_of`: with its steps, or why it is none with the steps up to there), and nothing where
//!   a budget has fewer steps.
//! - `first_heap`, `builtin_value`, `builtin_name`, `pytest_module` and the methods by their names (`text_method_named` and its kin) follow from the
//!   tables of built-in functions, of methods, of pytest's functions and of classes of exceptions. A built-in function's name is that of its row, and
//!   each of them has a row (`proofs/Named.antt`, by cases).
//!
//! # What tests alone show
//!
//! That the definitions give what CPython gives, row by row, and that the calls succeed with ample memory (`value_tests`).
//!
//! # What neither shows
//!
//! How long a call takes; that of a key no more parts are made than the budget has steps, and two (a reader sees it: each part is put behind
//! a look at the budget); that chains of classes are walked without recursion (a reader sees it).
#![tactic(auto)]

pub mod builtins;
pub mod classes;
pub mod keys;
pub mod kinds;
pub mod length;
pub mod truth;
