//! Items of values, with their cost: subscripts and slices, stores and deletions, and the turns of a `for`.
//!
//! # What it is for
//!
//! What is made is a function of the heap and the values that knows no budget (`subscript_of`, `store_of`, `delete_of`): a
//! value, a new object or a change of an object with its cost, or a raise with its class, its text and its cost.
//!
//! # What is proved
//!
//! - `subscript`, `store_item` and `delete_item` end as their definitions say under the budget, in the heap that they leave (`end`), and take
//!   at most the budget's steps (`cost`). `subscript_made`, `store_made` and `delete_made` decide the same on a heap that is only read.
//! - `iterate` says where the turns of a value begin, or that it has none. `turn` gives the element at the next place, with a new text for a
//!   character (`turn`), and goes on exactly where it gave one (`next`); a dict whose length changed is a `RuntimeError`.
//!
//! # What tests alone show
//!
//! Each of them against CPython, each error's class and text, each cost, and that one step fewer exhausts it (`value_tests`).
//!
//! # What neither shows
//!
//! How long a call takes; a key is made only as far as the budget goes (py_kinds).
#![tactic(auto)]

pub mod index;
pub mod iter;
pub mod slice;
pub mod store;
pub mod subscript;
pub mod turn;
