//! Workers that each run the groups that they draw, on a bench of their own, and the report of them all.
//!
//! # What it is for
//!
//! A `Bench` is what all workers share: plain data from which each of them sets up a session of its own, and the rules of
//! that session. Workers draw groups of items by `share_files`, and their reports are put in the order of the groups, each with its
//! place.
//!
//! # What is proved
//!
//! - [`run_workers`]: there is a share of the groups among the workers (`Share`: each group is taken once, group k first by worker k,
//!   and each list rises) by which the reports and their places are those that `report_rules` defines for a run with workers (clause `run`;
//!   `IsRunOfWorkers`): each worker is one thread over the items of its groups, from what the bench collects, and the rows stand in
//!   the order of the groups. Something is collected (`collected`), so that this speaks of some collection.
//! - A bench says what is collected from it, and that its options have no maxfail (`sizes`: `collected`, `whole`, `sizes`); its sessions
//!   report what one thread does on the items of the groups that they were given (`run`: `reports`).
//!
//! # What tests alone show
//!
//! That two workers run at the same time, each in a world of its own, and that the calls succeed with ample memory (`worker_tests`).
//!
//! # What neither shows
//!
//! Who draws what. When a bench draws: `runtest_loop` draws the next group behind the call of the last item of the one before, which a
//! test of `worker_tests` shows. That a worker collects again is a matter of its bench.
#![tactic(auto)]

mod bench;
mod gathering;
mod places;
mod run;
mod worker;

pub use bench::Bench;
pub use gathering::WorkersRun;
pub use run::run_workers;
