//! What collection finds among the names of a module: test functions, classes of tests, node ids.
//!
//! # What it is for
//!
//! A module that was loaded has names with values, in order of first binding. [`names::test_functions`] gives its tests, [`names::class_nodes`] its
//! classes of tests, and [`ids`] what an item is called.
//!
//! # What is proved
//!
//! - `test_functions`: of the names in order of first binding, those that begin with `test` and are bound to functions, and in the place of
//!   each class of tests its methods likewise (`test_functions`); the name to which a thing is bound counts. A class of tests is bound to a name
//!   that begins with `Test`, is defined in a source, is no class of exceptions and has no `__init__` of its own; `class_nodes` gives the names of all
//!   of them, `is_class_node` says of one name whether it is.
//! - `item_id`, `item_title`, `item_part` and `item_name` are the texts of the definitions of the same names, with and without the id of a row.
//!
//! # What tests alone show
//!
//! That the definitions give what pytest collects, row by row, and that the calls succeed with ample memory (`value_tests`).
//!
//! # What neither shows
//!
//! Time.
#![tactic(auto)]

pub mod copies;
pub mod found;
pub mod ids;
pub mod names;
pub mod objects;
