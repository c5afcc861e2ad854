//! Equality, identity and order of values, each with its cost in steps.
//!
//! # What it is for
//!
//! The comparing operators, `in`, keys and built-in functions that look for something compare by these calls, each under a budget.
//!
//! # What is proved
//!
//! - `equal`, `order` and `less` tell exactly what `equal_of`, `order_of` and `less_of` find, with the steps that the definitions
//!   count: one for each pair of elements that is compared, and for a dict those of the left one's keys. `Exhausted` comes exactly where
//!   these are above the budget, `TooDeep` where a pair past the limit of levels is met. Order keeps its operands' places, so `a <= b` costs
//!   what `a` costs on the left.
//! - `is_same` is the identity of values.
//!
//! # What tests alone show
//!
//! That the definitions give what CPython gives and count what the costs say (`value_tests`).
//!
//! # What neither shows
//!
//! How long a call takes.
#![tactic(auto)]

mod chars;
pub mod equal;
pub mod order;
mod range;
pub mod same;
pub mod tested;
