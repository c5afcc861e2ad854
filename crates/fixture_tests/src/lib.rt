//! Tests of fixture tables, of rows of parameters, of linked cells and of live chains.
//!
//! # What it is for
//!
//! They stand in a crate of their own, so that a change of them proves none of these crates again.
//!
//! # What is proved
//!
//! The tests are safe and end.
//!
//! # What tests alone show
//!
//! - Closures, faults, ids, rows and orders of items are those of tables, whose values are those of pytest's documentation and of
//!   the project's own rules.
//! - Runs of cells and chains give what a plain list gives.
//! - With ample memory the calls succeed.
#![tactic(auto)]

#[cfg(test)]
mod cells;
#[cfg(test)]
mod chains;
#[cfg(test)]
mod rows;
#[cfg(test)]
mod table;
