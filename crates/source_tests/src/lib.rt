//! Tests of literals and tokens, from characters and texts: tables whose values are CPython's.
//!
//! # What it is for
//!
//! They stand in a crate of their own, so that a change of them proves neither `py_literals` nor `py_tokens` again. What each row
//! reads is told as a text, so that one assertion does for a table: each assertion costs the proof some seconds.
//!
//! # What is proved
//!
//! The tests are safe and end.
//!
//! # What tests alone show
//!
//! The values of literals and the tokens of texts are CPython's; faults have their places; a hundred brackets or blocks may be
//! open, and no more.
#![tactic(auto)]

#[cfg(test)]
mod literals;
#[cfg(test)]
mod rows;
#[cfg(test)]
mod tokens;
