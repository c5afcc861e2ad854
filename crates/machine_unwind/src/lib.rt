//! The machine's turns for exceptions: `try`, its handlers, `finally`, and `raise`.
//!
//! # What it is for
//!
//! `turns::begin_try` begins a `try`; `turns::take_unwind` goes on behind a part of one: its block, what a handler takes, a handler's
//! block, the block behind `else` and the block behind `finally`. `raise::raise_value` raises what code hands to `raise`,
//! `raise::raise_it` a value as it is, and `raise::raise_again` the exception that is being handled.
//!
//! # What is proved
//!
//! - `begin_try` and `take_unwind` go on as the meaning does there, in the same state, with as many steps (`next`, `left`), and a turn
//!   leaves less to do (`work`): the first handler that takes the exception has its block run, with its name bound and unbound however
//!   the block ends; the block behind `finally` runs on every way out, and an end of its own takes the place of the one before.
//! - `raise_it`: an exception of the heap is raised with the trace of its first raise, which is kept; of a class one is made; anything
//!   else is a `TypeError` (`next`). `raise_value` enters the call of a class of exceptions that has an `__init__`, without a step, and
//!   raises what it gives; it does with any other value as `raise_it` does (`next`). `raise_again` raises the exception that is being handled with its trace, or a `RuntimeError`
//!   (`next`).
//!
//! # What tests alone show
//!
//! Nothing.
//!
//! # What neither shows
//!
//! How long a turn takes.
#![tactic(auto)]

pub use machine_state::frame::{End, Frame, SimpleFrame};
pub use machine_state::machine::{Machine, NextAction, Origin, TurnEnd};
pub use machine_turns::begin::begin_body;
pub use machine_turns::names::store;

pub mod handlers;
pub mod raise;
pub mod turns;
