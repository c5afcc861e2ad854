//! Tests of the words of a command line and of the expressions of `-k` and `-m`.
//!
//! # What it is for
//!
//! They stand in a crate of their own, so that a change of them proves none of `cli_words`, `mark_expr` and `selection` again.
//!
//! # What is proved
//!
//! The tests are safe and end.
//!
//! # What tests alone show
//!
//! What words mean and what they select, in tables of words. With ample memory reading succeeds.
#![tactic(auto)]

#[cfg(test)]
mod expressions;
#[cfg(test)]
mod info;
#[cfg(test)]
mod lines;
#[cfg(test)]
mod options;
#[cfg(test)]
mod selecting;
