//! The table of the fixtures of loaded files, and what the set-up of each test demands.
//!
//! # What it is for
//!
//! Collection asks here once the definitions and the tests are found. [`all_names`] and [`table_of`] make the table of them, over the nodes
//! of the tree, and [`item_closure`] and [`item_asks`] say what the set-up of a test demands and its arguments stand for.
//!
//! # What is proved
//!
//! - [`all_names`], [`table_of`]: the numbers of names, and the table over the nodes and the definitions, the nodes of the tests last
//!   (`all_names`, `table_of`); where a table is made, its nodes are a tree (`tree`).
//! - [`item_closure`]: the closure that `fixture_table` defines, where a row binds these names, or the text of its fault (`item_closure`);
//!   by [`needs_decided`] it is that of `IsClosure` or `IsFault`. [`closure_unless_fault`]: the same without the text (`item_needs`).
//!   [`item_asks`]: the nearest definition of each argument but those that are bound.
//! - [`names_bound`], [`asked_numbers`]: the names that a test's `parametrize` marks bind, and the numbers of its arguments.
//!
//! # What tests alone show
//!
//! That the calls succeed with ample memory (`acceptance`).
//!
//! # What neither shows
//!
//! That the definitions are pytest's: a reader compares them. Time: names are numbered by a hash map, each name, test and definition is
//! gone through a few times, and a closure walks what its item sees.
//!
//! The definitions, in the order in which to read them: `specs/Tables.antt` (names by number, and the table), `specs/Closures.antt` (what a
//! set-up demands).
#![tactic(auto)]

mod closures;
mod tables;

pub use closures::{closure_unless_fault, item_asks, item_closure, needs_decided};
pub use tables::{all_names, asked_numbers, names_bound, table_of};
