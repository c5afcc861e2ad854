//! Tests of trees and sinks, in memory and real ones.
//!
//! # What it is for
//!
//! They stand in a crate of their own, so that a change of them doesn't prove `edge_io` again.
//!
//! # What is proved
//!
//! The tests are safe and end.
//!
//! # What tests alone show
//!
//! What trees give and refuse, and what sinks have, in memory; that a real folder is read, and the standard output written.
#![tactic(auto)]

#[cfg(test)]
mod tests;
