//! The machine's turns for simple statements.
//!
//! # What it is for
//!
//! `begin_simple` begins a simple statement whose step is taken; `begin_failure` the failure of an assert, which costs no step;
//! `take_simple` goes on behind a part of one; `stop` stops a body at a `yield`, and `receive` goes on there with what it is given. `Pass`,
//! `Break` and `Continue` only end, and stand with the compound statements.
//!
//! # What is proved
//!
//! - `begin_simple`, for each simple statement: what is left to do is what the meaning of the statement says (`next`), and no step is
//!   gained (`left`). `is_simple` is true for exactly these statements.
//! - `take_simple`, for each frame of a simple statement: the run of what is left stays the same (`next`), and a turn spends a step or
//!   leaves less to do (`work`).
//! - `stop`: what remains of a body that stops is its blocks with the use of what it is given before them; `receive`: a value that is given
//!   is used as the meaning says.
//! - `begin_failure`: the failure of an assert is the meaning's, and it leaves less to do.
//!
//! # What tests alone show
//!
//! That calls end where there is memory, in `machine_tests` through the whole machine.
//!
//! # What neither shows
//!
//! Time and memory.
#![tactic(auto)]

pub use machine_store::turns::take_target;

pub mod begin;
pub mod failure;
pub mod simple;
