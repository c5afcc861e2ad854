//! Laws of sessions over sources: which bodies stand at their `yield`, and that the runner's own hooks are there.
//!
//! # What it is for
//!
//! A body that stops at a `yield` is a frozen frame of the world, out until it goes on or is given up. Here stands what collection and what
//! fixtures, tests and hooks of sources do to these frames. With `session_rules` it follows that behind a session none is out, and that each goes on
//! once; the headline of `pytest_core` tells it.
//!
//! # What is proved
//!
//! As the contract of a public function with an empty body:
//!
//! - [`sources_keep_their_frames`]: under the rules of a suite (`runtest_rules`) a fixture's or a hook's function that yields adds its own
//!   frame, which was not out before; one that goes on or is given up is taken; and nothing else changes which are out (`KeepsFrames` of
//!   `session_rules`, with `is_out` of a world of sources: whether the frame of a number is out).
//! - [`collection_leaves_no_frame_out`]: in the world that collection leaves no frame is out.
//! - [`hooks_have_the_built_ins`]: under the rules of what is collected the hooks of each item have, among those of conftests that serve it,
//!   the runner's own implementations, each once (`HaveBuiltIns`).
//!
//! # What tests alone show
//!
//! Nothing.
//!
//! # What neither shows
//!
//! Nothing.
#![tactic(auto)]

mod law;

pub use law::{
    collection_leaves_no_frame_out, hooks_have_the_built_ins, sources_keep_their_frames,
};
