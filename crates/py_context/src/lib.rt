//! Where something stands in a source that may not stand there: the first place, in the order of the text.
//!
//! # What it is for
//!
//! A source is read first, and looked through then, so that such a fault ends no reading. `py_parse` asks here behind a whole reading.
//!
//! # What is proved
//!
//! - [`first_misplaced`]: the first of the definition's places (`misplaced` of `py_grammar`), or that there is none, unless memory ran out.
//!
//! # What tests alone show
//!
//! Each kind of such a fault at its place, as CPython and a plain model have it (`expression_tests`); that with ample memory it answers.
//!
//! # What neither shows
//!
//! Time. Each part of the tree is looked at once, and the names that a function binds are collected for it anew.
#![tactic(auto)]

mod expressions;
mod statements;

pub use statements::first_misplaced;
