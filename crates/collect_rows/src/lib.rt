//! The rows of a test: what each gives an item, or the fault of its lists.
//!
//! # What it is for
//!
//! Collection asks here for the tests of each file once the table of fixtures stands. [`test_rows`] makes the lists of a test, of the
//! parametrised fixtures of its closure and of its `parametrize` marks, has `param_rows` choose of them, and says what each row gives an
//! item: the values that it binds, the parameters of fixtures, marks and an id. [`items_of_tests`] makes the items of a file of these.
//!
//! # What is proved
//!
//! - [`test_rows`]: the rows of the test at a node, one of each list in every way, the first list outermost; one that stands for an empty
//!   list; or what is told of the first fault (`test_rows`).
//!
//! - [`items_of_tests`]: each test with each of its rows, in order, or the fault of the first test that has one (`items_of_tests`).
//!
//! - What the two are made of is public, for who makes the lists of a test otherwise: [`numbers_bound`] and [`names_known`] (`numbers_bound`,
//!   `names_known`), [`mark_of`], [`marks_of`] and [`with_ids`] (`mark_of`, `with_ids`), [`marks_fault`] (`marks_fault` of `param_rows`),
//!   [`rows_of_lists`] (`rows_of_lists`), [`push_items`] (`found_item`) and [`fault_at_def`] (`fault_at`).
//!
//! # What tests alone show
//!
//! That the calls succeed with ample memory (`acceptance`).
//!
//! # What neither shows
//!
//! That the definitions are pytest's: a reader compares them. Time: that of `param_rows`, and each row once.
//!
//! The definitions, in the order in which to read them: `specs/Rows.antt` (the rows of a test), `specs/FileItems.antt` (the items of a file).
#![tactic(auto)]

mod faults;
mod given;
mod items;
mod lists;
mod row;
mod rows;

pub use items::{FileItems, FoundItem, RowsFault, fault_at_def, items_of_tests, push_items};
pub use lists::{mark_of, marks_of, names_known, with_ids};
pub use row::{ItemRow, TestRows};
pub use rows::{marks_fault, numbers_bound, rows_of_lists, test_rows};
