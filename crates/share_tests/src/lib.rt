//! Tests of the workers that share groups.
//!
//! # What it is for
//!
//! They stand in a crate of their own, so that share_files is proved once.
//!
//! # What is proved
//!
//! The tests are safe and end.
//!
//! # What tests alone show
//!
//! Two workers run at the same time, and groups are drawn and not dealt: gates hold a worker until another has come with a group.
//! Where one worker wants memory the whole answers so. With ample memory the calls succeed.
#![tactic(auto)]

#[cfg(test)]
mod groups;
