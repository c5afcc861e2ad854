//! A world of sources in which the functions of fixtures run.
//!
//! # What it is for
//!
//! `setup_stack` demands fixtures and tears them down over an `Executor` (fixture_instances), of which it knows only the rules. Here a world of sources is one:
//! [`RunWorld`], with the suite and the step limit of a run as its setting ([`RunSetting`]).
//!
//! # What is proved
//!
//! Each act of the `Executor` is that of the rules of sources for the setting's suite within its step limit (`rules_within` of
//! `runtest_rules`): the same answer, and the same world behind it. The functions that do it are those of `fixture_calls`. What the row of
//! the item at hand binds and gives to fixtures is the suite's.
//!
//! [`demanding`] is an item as its set-up sees it (`demanding`), with the instance of its class that is given.
//!
//! # What tests alone show
//!
//! That the acts succeed with ample memory (`acceptance`).
//!
//! # What neither shows
//!
//! Time.
#![tactic(auto)]

pub use runtest_rules::{
    CallEnd, Ending, Failure, FixtureEnd, Frozen, World, abandon, ask_test, begin_hook, call_hook,
    call_test, end_phase, exception_text, fails_in_teardown, fault_text, fixture_fault, give_up,
    heap, hooks_for, is_same_exception, limit_text, make_instance, make_item, not_none,
    resume_hook_by, resume_hook_with_value, resume_hook_with_values, skip, told,
    wrapper_did_not_yield, wrapper_yielded_again, wrong_arguments,
};

mod executing;
mod item_refs;
mod setting;

pub use executing::RunWorld;
pub use item_refs::demanding;
pub use setting::RunSetting;
