//! What the runner asks of a machine before and behind a run.
//!
//! # What it is for
//!
//! `misfit` tells whether the arguments of a call by the runner fit (`find_misfit`), and clears the machine for one (`reset`); `openings`
//! tells what begins where the runner begins a value; `loads` tells of a module that was loaded before,
//! and `end` what is told of a run's end.
//!
//! # What is proved
//!
//! - `find_misfit`, `find_opening`: what the call or the begin goes on with is what the meaning's does (`Begins`, `opening_rest`).
//! - `reset`: nothing is open, no name is bound, and the world is the same (`state`, `world`).
//! - `refuse`, `told`, `told_load`: what is told is what the meaning tells. `out_of_steps`: the modules that were running have raised
//!   `StepLimit`, and have failed.
//! - `body_of`: the code of the source of a path.
//!
//! # What tests alone show
//!
//! That calls end where there is memory, in `machine_tests` through the whole machine.
//!
//! # What neither shows
//!
//! Time and memory.
#![tactic(auto)]

pub mod end;
pub mod loads;
pub mod misfit;
pub mod openings;
pub mod sources;
