//! Frozen frames of the machine: a body that has stopped at a `yield` is kept, and goes on.
//!
//! # What it is for
//!
//! `freeze` keeps what remains of a body that has stopped, `wake` takes it out again and puts it into a machine in which nothing is open,
//! over the end of a call by the runner, and `abandon` gives it up. Of the frames of a body that has stopped those of its blocks alone are
//! kept: a body that stopped within a handler, or behind a part of a statement, goes on behind the statement, as the meaning says.
//!
//! # What is proved
//!
//! - `freeze`, `is_out` and `abandon` are those of the meaning: the frame is the last of the world's, and its number is theirs (`number`,
//!   `world`); the frame of a number that is given up isn't out any more.
//! - `wake`: what follows in the machine, whatever end it is given, is what the meaning says of what remains (`rest`), with the names that
//!   were kept and no temporary (`state`), in the world in which the frame isn't out any more.
//!
//! # What tests alone show
//!
//! Nothing.
//!
//! # What neither shows
//!
//! Time and memory.
#![tactic(auto)]

pub mod frozen;
pub mod wake;
mod waking;
