//! Tests of demands and teardowns: items run one behind the other over a world that notes what is done in it.
//!
//! # What it is for
//!
//! `setup_stack` does what the rules of a session say; here stands that this is what pytest's fixture guide says. What is expected is written
//! down from the guide, not computed: the journal of the world, and the exceptions in order. They stand in a crate of their own, so
//! that a change of them proves no other crate again.
//!
//! # What is proved
//!
//! - [`Log`] does what its rules say (`logging`), as an `Executor`: a definition's function goes one of the ways of a script ([`Way`]), and
//!   each call is noted ([`LogEntry`]).
//! - The tests are safe and end.
//!
//! # What tests alone show
//!
//! - A tree of four fixtures in which each point raises in turn: each set-up, by an exception, by a missing `yield` and by the end of the
//!   steps in an endless loop; the tests; the code behind each `yield`, by an exception, by a second `yield` and by the end of the steps; each
//!   finalizer; and all at once. What is set up and called then, and each exception that is told.
//! - In each of them every fixture that was set up, or failed to, is undone once, the latest first, behind all that asked for it. A short
//!   reading of the journal says so (`all_is_undone`), which knows nothing of the stack, and refuses journals in which something is undone too
//!   early, twice, in part or never.
//! - Whole journals: scopes, a kept failure, another parameter (also where a teardown raises then) and the same, definitions that are
//!   demanded one by one and in one call, and frames that are given up.
//! - With ample memory the calls succeed.
//!
//! # What neither shows
//!
//! Time.
#![tactic(auto)]

#[cfg(test)]
mod benches;
mod logs;
#[cfg(test)]
mod points;
#[cfg(test)]
mod stack;
#[cfg(test)]
mod undoing;

pub use logs::{Cause, Log, LogEntry, Part, Script, Way};
