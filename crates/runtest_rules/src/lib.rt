//! What set-up, call and teardown of a test item do to a world.
//!
//! # What it is for
//!
//! The rules of a session (`session_rules`) ask of a language what its fixtures and tests do. Here are those of the language of sources
//! for a suite that was collected (`rules`): fixtures with their scopes and arguments, yield fixtures, `request` with its finalizers
//! (`fixture_calls` has what each of them does), the hooks around the phases of an item (pytest's reference, "Test running (runtest)
//! hooks"), and these phases, with a function for each. A session over these rules is
//! defined by `session_rules`, its report by `report_rules`.
//!
//! # What is proved
//!
//! Each function is the rule of its name, by an equation on what it gives and on the world behind it:
//!
//! - [`make_instance`]: a new instance of the item's class, where that is a class of the sources and no class of exceptions
//!   (`instance_of_item`); [`make_item`]: the object that hooks get (`item_object`).
//! - [`skip`]: `Skipped`, where the item stands for an empty list of rows or its marks skip it (`skipped`); [`fixture_fault`]: `Failed` with the text of
//!   the fault of its fixtures (`fixture_fault`); [`wrong_arguments`]: `TypeError` (`wrong_arguments`). All have the place of the test's
//!   `def`.
//! - [`end_phase`]: how a phase has ended that raised these, by the marks: passed, skipped, expected to fail or raised, with what is told
//!   of each exception; and what was printed in it, which is taken (`phase_ended`). [`fails_in_teardown`]: whether a teardown that raised
//!   these is an error.
//! - [`hooks_for`]: the implementations of a hook that serve an item (`hooks_for`). [`wrapper_did_not_yield`], [`wrapper_yielded_again`]:
//!   `RuntimeError` of a wrapper that yields never, or again, with the place of its `def` (`wrapper_fault`). [`not_none`]: a value, unless
//!   it is None. [`is_same_exception`]: whether two failures are of one exception (`is_same_value`).
//!
//! Behind want of memory a world is spent: nothing is promised but the answer.
//!
//! These rules keep the frames that are out, for every suite and step limit (`keeps_within` of `proofs/Kept.antt`): what runs over them as an
//! `Executor` or a `HookStage` has it as its law.
//!
//! # What tests alone show
//!
//! That the calls succeed with ample memory (`acceptance`).
//!
//! # What neither shows
//!
//! That the rules are pytest's: a reader compares them. Time.
#![tactic(auto)]

pub use fixture_calls::{
    CallEnd, Failure, FixtureEnd, Frozen, World, abandon, ask, ask_test, begin, begin_hook,
    call_finalizer, call_hook, call_test, close, copied, did_not_yield, give_up, resume,
    resume_hook_by, resume_hook_with_value, resume_hook_with_values, yielded_again,
};
pub use tracebacks::{New, exception_text, fault_text, heap, limit_text, make, take_printed, told};

mod ending;
mod failures;
mod hooks;
mod objects;
mod phases;

pub use ending::Ending;
pub use failures::{fixture_fault, skip, wrong_arguments};
pub use hooks::{
    hooks_for, is_same_exception, not_none, wrapper_did_not_yield, wrapper_yielded_again,
};
pub use objects::{make_instance, make_item};
pub use phases::{end_phase, fails_in_teardown};
