//! The numbers of items, grouped by the files that they are of.
//!
//! # What it is for
//!
//! Each worker collects again, and has numbers of items of its own. Here they are put into the groups of a run with workers, by the places
//! of their files.
//!
//! # What is proved
//!
//! - [`worker_groups`]: the numbers of each file, in their order, the files in the order of their first numbers (`groups`;
//!   `number_groups`). Whatever the items with these numbers are, where their files are told apart by these places, the groups are those
//!   of a report (`report`; `groups` of report_rules). They are numbers that were given (`in_range`), and few where few were given (`few`):
//!   what a run of `runtest_loop` asks of its groups.
//! - [`sizes_of`]: how many numbers each group has.
//!
//! # What tests alone show
//!
//! Nothing.
//!
//! # What neither shows
//!
//! Time: for each file the numbers that are left are gone through once.
//!
//! The definition is `specs/Numbers.antt`.
#![tactic(auto)]

mod grouping;

pub use grouping::{sizes_of, worker_groups};
