//! Runs the selected items of a collection in a world of sources, one after another.
//!
//! # What it is for
//!
//! `runtest_loop` runs items on a stage (`Stage` of `runtest_reports`); here is the stage of a world of sources ([`Stand`]): the world, and
//! what is set up in it (`item_stack`). What the items and their fixtures do are the rules of `runtest_rules` for the suite of a [`Plan`].
//! Each phase of an item is a hook call around its built-in (`hook_phases`), of the runner's own implementations and of those of conftests
//! that serve the item.
//!
//! # What is proved
//!
//! - [`run`]: the reports, the journal, the world and the end are those of the session of one thread that `session_rules` and
//!   `report_rules` define over the rules of sources, where no two of the items have one node; the journal is lawful (`RunsPlan`, clause
//!   `run`). It ends `Done` only where the feed has ended (`done`), and blames the receiver only where the receiver's count of faults rose
//!   (`blamed`). The feed stays one of the same groups (`feed`), and without `--maxfail` the run isn't stopped (`whole`). Where it breaks
//!   off, the receiver has taken the first of those reports (`begun`); what it is then stems from what was lent (`stems`, `broken`). Behind
//!   it no fixture stands at its `yield`, whatever it gives (`spent`).
//! - [`not_run`]: the reports of items that do not run, as with `--collect-only` (`AreNotRun`).
//!
//! # What tests alone show
//!
//! That the calls succeed with ample memory (`acceptance`).
//!
//! # What neither shows
//!
//! Time. Behind want of memory nothing is said of the world.
#![tactic(auto)]

mod acts;
mod calling;
mod ending;
mod hook_stage;
mod hooking;
mod leaving;
mod naming;
mod opening;
mod plan;
mod raised;
mod running;
mod setting_up;
mod staging;
mod stand;
mod wrapping;

pub use fixture_world::{Failure, Frozen, World};
pub use plan::Plan;
pub use running::{not_run, run};
pub use stand::{ItemObject, Stand};
