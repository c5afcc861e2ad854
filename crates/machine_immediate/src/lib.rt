//! The values of expressions that are there at once.
//!
//! # What it is for
//!
//! What makes no object and raises nothing within the steps that are left is evaluated where it stands (`at_once`), without a frame and a
//! turn, and pays each step that the meaning says: constants, bound names, temporaries, and operators and comparisons of what is there at
//! once. In every eighth of the functions that are open one within another, this holds of calls too, of functions whose bodies only choose
//! and return, with arguments by position: a recursion of these is evaluated so from there on, sixteen calls deep or so. What is looked into
//! in vain is run then, by functions of which seven out of eight don't look into calls; but each operator and each parenthesis around a call
//! looks into it again. `at_once_unless_call` leaves out a call, which was looked into with what it is an operand of.
//!
//! `value_by` and `answer_by` tell the value of an operator or a comparison that is a number or a boolean and is made of two values alone;
//! `operate_now` looks there first. The parts of an expression are handed out by their places (`part_at`, `op_at`, `next_argument`).
//!
//! # What is proved
//!
//! - `at_once`, `at_once_unless_call`, `operate_now`: the run of the expression is that of what follows its value, under the steps that are
//!   left behind it.
//! - `value_by`: where it gives a value, the operator gives that one of these two values, over any heap, at no cost but its step.
//! - `answer_by`: where it gives an answer, the comparison gives that boolean over this heap, at no cost but its step.
//! - `part_at`, `next_argument`, `op_at`: the part or the operator at that place, and none behind the last.
//!
//! # What tests alone show
//!
//! That calls end where there is memory, in `machine_tests` through the whole machine.
//!
//! # What neither shows
//!
//! That a value is found at once where it could be; how often an expression is looked into; time.
#![tactic(auto)]

pub mod immediate;
mod named;
mod opening;
mod operations;
pub mod part;
pub mod whole;
