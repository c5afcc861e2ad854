//! The sessions of workers over the files of one project.
//!
//! # What it is for
//!
//! A [`Project`] is what all workers share (`Bench` of worker_runs): the files, the options and the expressions of `-k` and `-m`. Each worker
//! makes a world of its own, collects again, runs the groups of items that it is given, and ends its world; only reports leave it.
//!
//! # What is proved
//!
//! - [`Project`] is a bench: what a worker collects is what the caller collected, since the collection is a function of options and
//!   sources, and files have one list of sources (`Collects`); its reports are those of one thread on the items of the groups that it was
//!   given, by the rules of sources (`Bench::run`, clause `reports`). A worker answers want of memory only where a call of it did.
//! - [`Project::new`]: a project has a whole collection, with so many items in each group, and options without maxfail (`IsProject`).
//!
//! # What tests alone show
//!
//! That the calls succeed with ample memory (`acceptance`).
//!
//! # What neither shows
//!
//! Time: each worker reads and loads all files again.
//!
//! The definitions are `specs/Project.antt` and `specs/Sessions.antt`.
#![tactic(auto)]

pub use collect_tree::{CollectFault, Collected, FoundSuite, collect, what_is_collected_fits};
pub use run_items::{Plan, Stand, World, not_run, run};

mod gathered;
mod project;
mod session;

pub use gathered::ReportList;
pub use project::Project;
pub use session::plan_of;
