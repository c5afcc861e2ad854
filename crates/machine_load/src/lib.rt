//! The loads of modules in the machine: how one begins, and how it ends.
//!
//! # What it is for
//!
//! `begin_load` begins a module's body for the runner, `begin_by_code` for the code that runs; `take_load` puts how its load has ended in
//! place.
//!
//! # What is proved
//!
//! - `begin_load` and `begin_by_code` go on with the module's body in its own scene, without names or temporaries, and then with the end of
//!   its load (`next`): the text of its name and its object stand in the heap, and its load runs. Behind a load that the code makes its names,
//!   its temporaries and its place are there again.
//! - `take_load` goes on with the end of a load (`next`). None of them takes a step (`left`).
//!
//! # What tests alone show
//!
//! Nothing.
//!
//! # What neither shows
//!
//! Time and memory.
#![tactic(auto)]

pub use py_world::{Ended, Load, Outcome, Thrown, Trace, TraceFrame};

pub mod begin;
pub mod load;
