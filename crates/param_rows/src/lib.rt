//! What parametrisation computes, over numbers: the rows of a test, their ids, and the order of items with parameters.
//!
//! # What it is for
//!
//! Names, fixtures, files and classes are numbers that collection fills in, values and marks are of any one type (pytest's how-to
//! guide, "How to parametrize fixtures and test functions"; its fixture guide, "Parametrizing fixtures" and "Automatic grouping of
//! tests by fixture instances").
//!
//! # What is proved
//!
//! - `unique_ids` gives `unique_of` of the whole list (`value`): an id that stands there once stays; each occurrence of one that
//!   stands there more than once gets a number behind it, behind `_` where it ends in a digit, the first from 0 on whose result is
//!   neither among the ids given nor already made. All results differ (`distinct`).
//! - `rows` gives `rows_of` (`rows`): the product of the lists of values, those of the fixtures and then those of the marks, the
//!   first list outermost; each row has what its values bind, its fixtures' parameters with their numbers, the ids side by side
//!   with `-` between, and the marks of its sets; it has no id where a test has no list, or where some set has none yet. An empty
//!   list gives no row. It answers `Ok` only where there is no fault (`sound`), and each refusal but want of memory is the first
//!   fault (`fault`): mark by mark, within a mark `Width` of the first set of another width, then `Duplicate`, then `NoArgument`,
//!   each of the first such name; `TooMany` behind, exactly where there are more than 65,536 rows.
//! - `regroup` gives `regrouped` (`order`): for the session, then for each stretch of one file, then for each stretch of one class,
//!   the places grouped stably by the list of pairs (fixture, number) of that scope, groups in order of first appearance. It is a
//!   permutation of all places (`permutation`).
//!
//! # What tests alone show
//!
//! That the calls succeed with ample memory, and that no row is made where there are too many (seven lists of a thousand are
//! refused at once; `fixture_tests`).
//!
//! # What neither shows
//!
//! The time. `unique_ids` and a pass of `regroup` look each id and each key up in a table, so that they take about as long as
//! their lists; the names of marks are compared one by one.
#![tactic(auto)]

mod checking;
mod counting;
mod fault;
mod grouping;
mod id;
mod joining;
mod keys;
mod making;
mod numbering;
mod param;
mod taken;

pub use fault::RowFault;
pub use grouping::regroup;
pub use id::PyId;
pub use keys::{ItemKeys, Params};
pub use making::rows;
pub use numbering::unique_ids;
pub use param::{Pairs, ParamMark, ParamNumbers, ParamRow, ParamSet, ParamSets};
