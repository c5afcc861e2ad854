//! What calls of the names of `pytest` make: `fixture`, `param`, `raises`, `skip`, `fail`, `hookimpl`, the call of a mark, and
//! `request.addfinalizer`; and what `with raises` raises.
//!
//! # What it is for
//!
//! What a call makes is a function of the heap and its arguments that knows no budget, since these calls cost nothing; the search of a
//! pattern alone costs the product of both lengths, and is searched under a budget.
//!
//! # What is proved
//!
//! - `pytest_called` makes what the definition of the same name says. A form that isn't there is `wrong arguments for NAME`; an argument of
//!   the wrong kind is `bad argument 'N'`, with the first that is bad in the definition's order (`fixture_bad`, `param_bad`,
//!   `first_unflagged`); `raises` takes a class of exceptions or a tuple of them, and a text that is a pattern (`raises_called`); `skip` and
//!   `fail` raise with their reason (`outcome_called`).
//! - `mark_called` gives a called mark with its arguments. Those of pytest's own marks are looked at (`mark_bad`); a mark of another name
//!   takes any.
//! - `addfinalizer_called` puts a finalizer behind those of the request, and is a `RuntimeError` where that is closed.
//! - `did_not_raise` is what is raised where the block of a `with raises` raised nothing. `pattern_end` searches a pattern in the message
//!   of an exception, and is let through exactly where the budget suffices; where the pattern isn't found it is the `AssertionError` that
//!   shows both.
//!
//! # What tests alone show
//!
//! That the definitions say what pytest does, as far as the forms are the same, and that the calls succeed with ample memory
//! (`machine_tests`).
//!
//! # What neither shows
//!
//! How long a call takes.
#![tactic(auto)]

pub mod calls;
mod fixtures;
mod hooks;
pub mod marks;
mod params;
mod quoting;
mod raising;
pub mod swallowing;
