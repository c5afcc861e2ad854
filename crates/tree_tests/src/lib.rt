//! Tests of the trees' crate: what a function does with names.
//!
//! # What it is for
//!
//! They stand in a crate of their own, so that a change of them doesn't prove `py_tree` again.
//!
//! # What is proved
//!
//! The tests are safe and end.
//!
//! # What tests alone show
//!
//! With ample memory `bindings_of` answers.
#![tactic(auto)]

#[cfg(test)]
mod bindings;
