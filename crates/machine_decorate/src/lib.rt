//! Decorators are applied to what is defined.
//!
//! # What it is for
//!
//! `decorate::decorate_all` gives the value that a definition's decorators make of a function or a class, and changes the heap. Which
//! values are decorators is pytest's: fixtures, marks and `hookimpl`.
//!
//! # What is proved
//!
//! - `decorate_all` applies the decorators from the last to the first, each to what the one before it made; the first that refuses its
//!   value ends it, with the heap as it is there. Nothing else in the heap changes.
//! - `decoration_for`, for each decorator and each value: a fixture that was applied to no function yet takes one, as a new object, and
//!   `fixture` without a call does so too; a mark is put behind those of a function or a class, and has no effect on a fixture; a
//!   `hookimpl` is put behind the marks of a function; all else is refused, and so is a mark without the arguments that it needs.
//!
//! # What tests alone show
//!
//! That calls end where there is memory, in `machine_tests` through the whole machine.
//!
//! # What neither shows
//!
//! Time and memory.
#![tactic(auto)]

pub mod decorate;
pub mod decoration;
