//! The hook calls of an item's phases, around their built-in implementations, over any stage.
//!
//! # What it is for
//!
//! Each phase of an item is a hook call: the implementations that serve the item run in hook order around the built-in one, which sets the item
//! up, calls its test or tears down. What an implementation does to a session is the stage's ([`HookStage`]); which of them are called, with
//! what each wrapper is resumed, and what leaves the call is said here once, by `call_all` of hook_order.
//!
//! # What is proved
//!
//! - [`in_hooks`]: the exceptions and the session's state behind it are those of the hook call of a phase that `session_rules` defines
//!   (`in_hooks` around `built_of`).
//! - [`leave`]: the same of a teardown, behind which the built-in one is done where the hook call didn't reach it (`torn_down`).
//!
//! - A stage is asked to resume or abandon a wrapper only while its frame is out (`out`), and to do what a built-in does only while the
//!   frames of the live instances are out, each that of one (`StandsWith`); both calls ask for that and leave it so (`frames`), by the law
//!   that the stage's rules keep the frames that are out (`keeps`).
//!
//! After an `Err(OutOfMemory)` nothing is said of the state. A wrapper that stands at its `yield` is resumed or let go, also then: what
//! remains of it can't be dropped. Where memory was wanted inside it, it is let go in a world that is spent, and nothing else is done
//! (`given_up` of `resume_one`, and `RunResumes`, which the calls of `call_all` on a stage meet).
//!
//! # What tests alone show
//!
//! Nothing.
//!
//! # What neither shows
//!
//! That a stage does what its clauses say: that is its crate. Time.
//!
//! The definitions, in the order in which to read them: `specs/Phases.antt`, `specs/Views.antt` (how what a stage answers is read),
//! `specs/Steps.antt` (what a session does at one implementation). What the code keeps: `specs/Runs.antt`.
#![tactic(auto)]

mod answers;
mod calling;
mod leaving;
mod opening;
mod phase;
mod resuming;
mod run;
mod stage;

pub use answers::{Exceptions, HookFrame, ImplementEnd, WrapperEnd};
pub use leaving::leave;
pub use phase::HookPhase;
pub use run::in_hooks;
pub use stage::HookStage;
