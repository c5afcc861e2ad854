//! The machine's turns for compound statements that have no exceptions of their own: `if`, `while`, `for` and `with`.
//!
//! # What it is for
//!
//! `choice::begin_choice`, `loops::begin_loop`, `turns::begin_for` and `contexts::begin_with` begin a statement; the functions `take_..`
//! beside them go on behind a part of one, one function a frame.
//!
//! # What is proved
//!
//! Each goes on with the run of the tree that the meaning has there, under the steps that are left (`next`), and spends a step or leaves
//! less to do (`work`). So the first branch runs whose condition holds; a turn of a `while` or of a `for` takes its step, behind the look
//! whether there is an element and before the element is made; `break` ends the loop and `continue` goes on with its next turn; a `with`
//! makes its info object and binds its name before its block.
//!
//! # What tests alone show
//!
//! Nothing.
//!
//! # What neither shows
//!
//! How long a turn takes.
#![tactic(auto)]

pub use py_world::Trace;

pub mod choice;
pub mod contexts;
pub mod loops;
pub mod turns;
