//! Expressions begin.
//!
//! # What it is for
//!
//! `evaluate` gives the value of an expression, where it is there at once (`machine_immediate`), or else begins its first part that isn't,
//! behind a frame for what waits for it. `arguments` goes on with the arguments of a call behind those whose values are there, and
//! `pair_part` hands out the keys and values of a dict's display in turn.
//!
//! # What is proved
//!
//! - `evaluate`, for each form of core expressions: the run of what is left stays the same (`next`), no step is gained (`left`), and it leaves
//!   less to do (`work`).
//! - `arguments`: the run of what is left of the call stays the same, under the steps that are left (`next`, `left`).
//!
//! # What tests alone show
//!
//! That calls end where there is memory, in `machine_tests` through the whole machine.
//!
//! # What neither shows
//!
//! Time and memory.
#![tactic(auto)]

pub mod containers;
pub mod evaluate;
pub mod group;
