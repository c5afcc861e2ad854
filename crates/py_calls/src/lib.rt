//! Calls of all that is built in: the built-in functions and classes, the methods of built-in kinds, the functions of `pytest` and the
//! method of `request`.
//!
//! # What it is for
//!
//! What a call makes and prints is a function of the heap and its arguments that knows no budget (`called_of`): of `print`, `len` and `str` it
//! is defined here, of all else in the crates of calls below. Of a method the first argument is the value through which it was read.
//!
//! # What is proved
//!
//! - `builtin` ends as `called_of` says and leaves the heap with the new objects (`end`), prints exactly its bytes, and nothing where the budget
//!   doesn't suffice or the call raises (`printed`), and takes at most the budget's steps (`cost`). `called` decides the same on a heap that is
//!   only read (`made`, `printed`).
//! - A text that lies too deep is a `RecursionError`, else one past the greatest length of a sequence a `MemoryError`; arguments that don't
//!   fit are `wrong arguments for NAME`.
//! - `getattr` and `hasattr` read as an attribute reference does.
//!
//! # What tests alone show
//!
//! Worked calls, and that they succeed with ample memory (`value_tests`).
//!
//! # What neither shows
//!
//! How long a call takes.
#![tactic(auto)]

pub mod call;
mod functions;
mod line;
pub mod made;
mod methods;
pub mod style;
mod text;
