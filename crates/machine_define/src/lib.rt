//! The machine's turns for definitions of functions and classes.
//!
//! # What it is for
//!
//! `function::begin_def` begins a `def` with its decorators, and `class::begin_class` a `class`; `turns::take_define` goes on behind a part
//! of one: a decorator, a default, the base, the body of a class. `decorate::define_as` binds what is defined, behind its decorators.
//!
//! # What is proved
//!
//! - `begin_def` and `begin_class`: what is left to do is what the meaning of the statement says, in the same state, with as many
//!   steps (`next`, `left`).
//! - `take_define`, for each frame of a definition: what is left stays the same (`next`, `left`), and a turn leaves less to do (`work`):
//!   decorators are evaluated from top to bottom, then the defaults once, in order, or the base; a class's object is there before its
//!   body runs, which has no local names.
//! - `define_as` applies the decorators from the bottom to the top, each to what the one before it made, and binds the last value; the
//!   first that refuses its value ends the statement with a `TypeError` (`next`).
//! - `params_of` gives each parameter that has a default the next value, and the others none.
//!
//! # What tests alone show
//!
//! That calls end where there is memory, in `machine_tests` through the whole machine.
//!
//! # What neither shows
//!
//! Time and memory.
#![tactic(auto)]

pub mod class;
pub mod decorate;
pub mod function;
pub mod parameters;
pub mod turns;
