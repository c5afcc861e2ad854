//! The report of a session, part by part, as functions of reports and options.
//!
//! # What it is for
//!
//! `pytest_main` writes what these calls give. The layout is this project's own; what is shown follows pytest's "How to manage
//! pytest's output" and pytest-xdist's `--dist loadfile`. What is told of items and exceptions stands in `report_parts`, the
//! blocks of errors and failures in `report_blocks`; both are handed on.
//!
//! # What is proved
//!
//! Each clause is the call's one `ensures`, an equation on the bytes:
//!
//! - [`head`] is `head_of`: the title, the numbers of items and errors, the workers where there are some, an empty line.
//! - [`progress`] is `progress_of`: one line for each stretch of neighbours of one file (with workers also of one group), which
//!   has the letters of their phases; with `-v` a line for each outcome, with `--setup-show` the lines of each item, with
//!   `--collect-only` the node ids, with `--generated` nothing; then an empty line where there were any.
//! - [`sections`] is `sections_of`: the errors and the failures.
//! - [`summary`] is `summary_of`: the short summary, why the run stopped, and the counts.
//! - [`conftest_fault`] is `conftest_text`: the whole output where a conftest can't be loaded.
//!
//! # What tests alone show
//!
//! The bytes of whole reports, worked by hand, and that the calls succeed with ample memory.
//!
//! # What neither shows
//!
//! Time. Each part goes through the reports a bounded number of times.
#![tactic(auto)]

mod conftest;
mod ending;
mod opening;
mod running;
mod short;
mod tally;

pub use conftest::conftest_fault;
pub use ending::summary;
pub use opening::head;
pub use report_blocks::sections;
pub use report_parts::{
    CollectReport, Frame, Frames, ItemReport, Lines, MOST_ITEMS, OutOfMemory, PhaseEnd, Place,
    PyText, Text, Told, Tolds,
};
pub use running::progress;
