//! The hooks of conftests: read from their names, and registered in hook order.
//!
//! # What it is for
//!
//! A function of a conftest whose name begins with `pytest_` is a hook (pytest's reference, "Hooks"). Collection reads those of a conftest
//! right behind its load ([`hooks_among`]), and makes a [`HookTable`](test_suite::HookTable) of all ([`hook_table`]), by which a session runs
//! them around the phases of items.
//!
//! # What is proved
//!
//! - [`hooks_among`]: the hooks among the names of a conftest, in order of first binding, each with what its function takes, the flags of
//!   its last `hookimpl` and the folder whose items it serves; or the first fault, with its text and the place of the function's `def`: a name
//!   that is none of a hook, an argument that the hook doesn't have, a `yield` in what is no wrapper (`hooks_among`).
//! - [`conftest_folder`]: the folder of a conftest, with its slash (`conftest_folder`).
//! - [`hook_table`]: the table of hooks that were found, which are registered one after another behind the built-in implementations
//!   (`hook_table`). [`hooks_are_ordered`]: each of its lists is in hook order (`AreOrdered`). [`built_ins_are_there`]: each has the runner's
//!   own implementations of its phase, each once, and no others of the runner; also what is left of it where some of conftests' are left
//!   out (`HaveOwn`).
//!
//! # What tests alone show
//!
//! That the calls succeed with ample memory (`acceptance`).
//!
//! # What neither shows
//!
//! That the hooks are pytest's: a reader compares them. Time: each hook is held against those of its list.
//!
//! The definitions, in the order in which to read them: `specs/Names.antt` (the hooks and their arguments), `specs/Reading.antt` (the hooks of
//! a conftest), `specs/Registered.antt` (the table), `specs/Ordered.antt`.
#![tactic(auto)]

mod hook_name;
mod looking;
mod names;
mod reading;
mod registering;

pub use hook_name::HookName;
pub use looking::{FoundHook, HookFault};
pub use reading::{conftest_folder, hooks_among};
pub use registering::{built_ins_are_there, hook_table, hooks_are_ordered};
