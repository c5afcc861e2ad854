//! What the functions of fixtures, tests and hooks do to a world.
//!
//! # What it is for
//!
//! The runner calls the function of a fixture with its arguments, and keeps what remains behind its `yield` (pytest's fixture guide,
//! "Teardown/Cleanup (AKA Fixture finalization)"); it makes a `request` for those that take one, and calls its finalizers; it calls tests
//! with the values of their fixtures, and hooks around both. Here is what each of these does to a world of sources, and a function for each.
//!
//! # What is proved
//!
//! Each function is the definition of its name, by an equation on what it gives and on the world behind it:
//!
//! - [`ask`], [`ask_test`]: a new `request` with the fixture's name, scope and parameter, where its function takes one
//!   (`fixture_request`); that of a test (`test_request`). [`close`]: it takes no further finalizers, and gives those that it had, latest
//!   first (`finalizers_taken`).
//! - [`begin`]: the function of a fixture is called within the step limit, with the instance of the item's class where it stands in a class,
//!   then with its `request`, what the row of the item binds and the values in the order of its arguments; it returns, or raises, or stands
//!   at its `yield` (`fixture_begun`). [`resume`]: what remains goes on, with the sent value None (`fixture_resumed`); [`abandon`]: it is
//!   given up (`fixture_abandoned`). Both ask that its frame is out (`out`); [`give_up`] lets it go behind want of memory, with which the
//!   world is spent (`fixture_given_up`). An exhausted one has raised `StepLimit`.
//! - [`did_not_yield`], [`yielded_again`]: the exceptions of a fixture that yields never, or again (`did_not_yield`, `yielded_again`).
//! - [`call_test`]: the call of a test (`test_called`); [`call_finalizer`]: that of a finalizer (`finalizer_called`).
//! - [`call_hook`], [`begin_hook`]: the function of a hook is called within the step limit with the values that it takes (`hook_called`); a
//!   wrapper's stops at its `yield` (`hook_begun`). [`resume_hook_with_values`], [`resume_hook_with_value`], [`resume_hook_by`]: what remains
//!   of a wrapper goes on with a new list of values, with a value, or by an exception that is raised at its `yield` (`hook_resumed`).
//! - [`copied`]: the same failure.
//!
//! Behind want of memory a world is spent: nothing is promised but the answer.
//!
//! # What tests alone show
//!
//! That the calls succeed with ample memory (`acceptance`).
//!
//! # What neither shows
//!
//! That these are pytest's: a reader compares them. Time.
#![tactic(auto)]

pub use py_machine::{Frozen, World};

mod arguments;
mod calls;
mod exceptions;
mod failure;
mod hooks;
mod requests;
mod yields;

pub use calls::{call_finalizer, call_test};
pub use exceptions::exception_for;
pub use failure::{Failure, copied};
pub use hooks::{
    CallEnd, begin_hook, call_hook, resume_hook_by, resume_hook_with_value, resume_hook_with_values,
};
pub use requests::{ask, ask_test, close};
pub use yields::{FixtureEnd, abandon, begin, did_not_yield, give_up, resume, yielded_again};
