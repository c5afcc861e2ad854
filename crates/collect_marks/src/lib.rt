//! The marks of an item: which it has, by which names it is selected, and what `skip`, `skipif` and `xfail` say of it.
//!
//! # What it is for
//!
//! [`given::item_marks`] reads the marks of a test function that `collect_names` found. [`names`] has what `-k` and `-m` look at, [`says`] why an item is
//! skipped and what is expected of it, and [`verdict`] how a phase of it has ended, by the exceptions that it raised.
//!
//! # What is proved
//!
//! - `item_marks`: those of the function, nearest decorator first, then those of its class, its `pytestmark` before its decorators, then those of its
//!   module's `pytestmark`; a `pytestmark` is a mark or a list of marks, and what is no mark is passed over (`item_marks`).
//! - `mark_names` and `keyword_names`: the lists of the definitions of the same names.
//! - `skipped_by`: the reason of the nearest `skipif` whose condition is true, else of the nearest `skip` (`skipped_by`). `xfail_of`: what the nearest `xfail`
//!   says whose condition is true or absent (`xfail_of`).
//! - `set_up_verdict`, `call_verdict` and `teardown_verdict` equal the definitions of the same names: `Skipped` skips, what an `xfail` covers is
//!   expected but for a teardown, a call that passes under an `xfail` is told, and several exceptions of one phase are one error.
//!
//! # What tests alone show
//!
//! That the definitions give what pytest gives, row by row, and that the calls succeed with ample memory (`value_tests`).
//!
//! # What neither shows
//!
//! Time.
#![tactic(auto)]

pub mod given;
pub mod names;
pub mod says;
pub mod verdict;
pub mod xfail;
