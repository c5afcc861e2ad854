//! Runs projects on one thread, and says what their journals tell.
//!
//! # What it is for
//!
//! A report tells nothing of a fixture that failed to come up, and shows by itself neither that each that came up went down nor in which
//! order. So `acceptance` asks for the journal of a case besides ([`journal_of`]): all its events, of sources as they are read, collected
//! and run, hooks and wrappers of conftests among them. They stand in a crate of their own, so that a change of them proves no other crate
//! again.
//!
//! # What is proved
//!
//! That the call is safe and ends.
//!
//! # What tests alone show
//!
//! In each case with a journal, whatever raises in it: each fixture that came up or failed to goes down once, its teardown begins and ends
//! with no event between, all that rest on it are down when it begins, and at the end none is up. A short reading of the events says so
//! (`told`), which knows nothing of a session, and refuses journals in which something comes up twice, or goes down too early, in part,
//! twice or never.
#![tactic(auto)]

mod one_group;
mod reading;
mod reports;
mod session;
#[cfg(test)]
mod unlawful;

pub use session::journal_of;
