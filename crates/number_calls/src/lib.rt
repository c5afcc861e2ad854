//! The built-in functions on numbers, with their cost: `abs`, `divmod`, `bool`, `int`, `ord`, `chr`, `sum`, `min` and `max`.
//!
//! # What it is for
//!
//! What a call makes is a function of the heap and its arguments that knows no budget.
//!
//! # What is proved
//!
//! - [`calls::number_call`]: under a budget, exactly the product that `number_call_of` says, which has an equation for each function;
//!   arguments that don't fit are `wrong arguments for NAME`, at no cost.
//! - `abs`, `divmod`, `bool`, `int`, `ord` and `chr` cost nothing: numbers are exact or an `OverflowError`, and `int` of a text is the
//!   number that its digits spell, of any length.
//! - `sum` adds from left to right, and stops at the first element that is no number or takes the sum out of range, at the cost of those
//!   visited.
//! - `min` gives the first of the least elements and `max` the first of the greatest, at the cost of the elements visited, the comparisons
//!   and what each of these costs.
//!
//! # What tests alone show
//!
//! Worked calls with their values and errors as CPython has them, and their costs (`value_tests`).
//!
//! # What neither shows
//!
//! How long a call takes.
#![tactic(auto)]

mod best;
pub mod calls;
mod numbers;
mod sums;
mod texts;
