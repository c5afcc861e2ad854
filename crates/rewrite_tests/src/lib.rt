//! Tests of lowering: the form of core code that each form of statement gives, and its place.
//!
//! # What it is for
//!
//! They stand in a crate of their own, so that assert_rewrite is proved once.
//!
//! # What is proved
//!
//! The tests are safe and end.
//!
//! # What tests alone show
//!
//! With ample memory `lower` answers for each form of statement, and for an assert explained or not.
#![tactic(auto)]

#[cfg(test)]
mod forms;
