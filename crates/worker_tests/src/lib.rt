//! Tests of workers on a bench, and of the point at which a group is drawn.
//!
//! # What it is for
//!
//! A bench of four files with two tests each, which print their names: so each report shows which tests ran in its world before. And a
//! stage of one item and a feed of its group on one clock. They stand in a crate of their own, so that worker_runs and runtest_loop are
//! proved once.
//!
//! # What is proved
//!
//! - That the bench is one: its reports are those of the session of one thread, by the rules of its language (`Bench` of [`Letters`]).
//! - [`run_letters`]: by some way to share the four files among the workers, the reports and their places are those of one thread each over
//!   the tests of its files, in the order of the files (`IsRunOfWorkers`).
//! - That the stage and the feed are what `runtest_loop` runs on (`Stage` of [`OneItem`], `Feed` of [`TimedFeed`]).
//!
//! # What tests alone show
//!
//! Two workers run at the same time, each in a world of its own, and a worker draws what another leaves: by gates that hold a worker until
//! another has come with a group, who takes what is fixed. A group is drawn behind the call of the last item of the one before, and in
//! front of its teardown.
#![tactic(auto)]

mod letters;
mod one_item;
#[cfg(test)]
mod runs;
mod shared;

pub use letters::{Letters, Printed};
pub use one_item::{GroupState, NoReports, OneItem, TimedFeed};
pub use shared::run_letters;
