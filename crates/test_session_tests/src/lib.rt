//! Tests of the calls of `test_session`, by a caller of their own.
//!
//! # What it is for
//!
//! A caller as a user would write one: it collects a file, runs its test with a feed and a receiver of its own, and then looks at the names
//! of the module. It stands in a crate of its own, so that a change of it proves no other crate again.
//!
//! # What is proved
//!
//! - That the feed is one of one group (`Feed` of [`OneGroup`]), and that the receiver keeps what it takes (`Receiver` of [`KeptReports`]).
//! - The tests are safe and end. Behind a run of the one item of a file no frame is out, whatever the item and the hooks around it do: that
//!   two items have one node is no case of a feed of one.
//!
//! # What tests alone show
//!
//! - A run leaves the module as its test left it: it is loaded already, and its names have their values in order of first binding; what
//!   stands behind a `yield`, of a fixture and of a wrapper of a conftest, has run once.
//! - With ample memory `collect` and `run` succeed.
//!
//! # What neither shows
//!
//! That demands of a `SetupStack` succeed, and that the names which a collected one lends are those of its table. Time.
#![tactic(auto)]

mod kept;
mod one_group;
#[cfg(test)]
mod runs;

pub use kept::KeptReports;
pub use one_group::OneGroup;
