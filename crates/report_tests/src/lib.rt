//! Tests of the report's parts, with their bytes written out from worked reports.
//!
//! # What it is for
//!
//! They stand in a crate of their own, so that a change of them proves none of the report's crates again.
//!
//! # What is proved
//!
//! The tests are safe and end.
//!
//! # What tests alone show
//!
//! The bytes of heads, progress, blocks, summary lines, errors of collection and counts. With ample memory the calls succeed.
#![tactic(auto)]

#[cfg(test)]
mod tests;
