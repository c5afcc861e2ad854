//! The arguments of calls of pytest's names: which forms there are, and arguments by their kinds.
//!
//! # What it is for
//!
//! A call of a function of `pytest`, or of one of its own marks, takes so many arguments by position and some by name, each of a kind.
//!
//! # What is proved
//!
//! - `function_fits` and `mark_fits` are true exactly where the form of a call is one of those of `function_counts` and `function_arguments`,
//!   or `mark_counts` and `mark_arguments`; `named_value` is the value of an argument that is given by name.
//! - `bad` and `bad_named` are the raise that an argument is of the wrong kind, with its name.
//! - The tests of kinds equal the definitions of `specs/Given.antt`, with `None` as absent where its name says so, and `text_given` and
//!   `row_given` are copies of what is given.
//!
//! # What tests alone show
//!
//! That the calls succeed with ample memory (`machine_tests`).
//!
//! # What neither shows
//!
//! How long a call takes.
#![tactic(auto)]

pub mod form;
pub mod given;
