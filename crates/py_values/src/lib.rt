//! The values of the interpreted language and their heap.
//!
//! # What it is for
//!
//! A value is `None`, a boolean, a whole number of 128 bits, or an object of the heap; an object has one of the kinds of the
//! language (texts, lists, tuples, dicts, ranges, functions, methods, built-in functions, classes, instances, exceptions,
//! modules, and the objects that pytest's names make). Keys of dicts are plain data, so dicts are maps in order of insertion.
//! How an operator or a call ends (`OpEnd`), what it makes before the heap has it (`Effect`), and how an object is changed
//! (`Change`) stand here too, since all crates above speak of them; so do the tables of built-in names and the limits of values.
//! What values do (truth, length, keys, the names of their kinds, their classes) stands in py_kinds.
//!
//! # What is proved
//!
//! - Contracts see the heap as a list of objects: `add`, `get`, `obj`, `obj_mut` (`writes_back`, `value`) and `change` are those of a
//!   list, and `heap_after` says which object a change leaves.
//! - `Dict` and `Names` are lists of pairs in order of insertion: an equal key that is there stays, at its place (`put_pair`,
//!   `bind_name`), and one that goes leaves the others in order (`without_pair`, `unbind_name`).
//! - `throw` and `throw_with` equal the definitions of the same names.
//! - `finish` puts what was made into the heap (`end`), with its steps (`cost`), and `made_within` lets it through exactly where
//!   the budget suffices.
//!
//! # What tests alone show
//!
//! That the calls succeed with ample memory (`value_tests`).
//!
//! # What neither shows
//!
//! How long a call takes.
#![tactic(auto)]

pub mod builtin;
pub mod change;
pub mod class;
pub mod dict;
pub mod end;
pub mod heap;
pub mod index;
pub mod key;
pub mod limits;
pub mod names;
pub mod number;
pub mod object;
pub mod range;
pub mod rows;
pub mod throw;
pub mod value;

pub use seq::{OutOfMemory, PyText};
