//! Reading expressions: a function for each line of the grammar, which gives exactly what the table's reader of that line gives.
//!
//! # What it is for
//!
//! Sets of tokens and tables of operators are data. `binary` serves all ranks of operators with one loop, `chained` comparisons,
//! `and` and `or`.
//!
//! # What is proved
//!
//! `expression` and `expressions` (clause `reads`): the tree, its height and the tokens behind it; or the tokens from the first
//! fault on, and whether no reading goes on with them or only one that is too deep. With the laws of the table that is the one
//! reading with so many levels, or the first token at which there is none. The same of `arguments`, `slice` and `other_atom`,
//! which targets are read with. No tree is higher than the levels that were left (`fits`), so a call goes no deeper into
//! itself than so many levels, and what isn't counted is read by loops.
//!
//! # What tests alone show
//!
//! That trees and places are those of CPython (`expression_tests`, as far as its sources go); that with ample memory no call answers `Stop::Memory`.
//!
//! # What neither shows
//!
//! How much of a thread's stack a hundred levels take.
#![tactic(auto)]

mod leaves;
mod links;
mod marks;
mod ranks;
mod reader;

pub use leaves::name_of;
pub use marks::{BEGINS_EXPRESSION, BEGINS_TARGET, begins_expression};
pub use reader::{arguments, expression, expressions, other_atom, slice};
