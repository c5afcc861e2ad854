//! The built-in functions that make sequences and dicts or ask all elements, with their cost: `list`, `tuple`, `dict`, `range`,
//! `enumerate`, `zip`, `reversed`, `sorted`, `all` and `any`.
//!
//! # What it is for
//!
//! What a call makes is a function of the heap and its arguments that knows no budget. Where Python gives an iterator, here it is a
//! list.
//!
//! # What is proved
//!
//! - [`calls::sequence_call`]: under a budget exactly the product that `sequence_call_of` says, which has an equation for each function;
//!   arguments that don't fit are `wrong arguments for NAME`, and what isn't iterable is a `TypeError`, both at no cost.
//! - `list`, `tuple`, `enumerate`, `zip` and `reversed` cost the result's length. `range` gives its numbers' range at no cost, or the raise
//!   for a step that is zero or a range that is too long. `all` and `any` stop at the element that decides, at the cost of those visited.
//!   `dict` copies a dict and `sorted` sorts as the crates `dict_methods` and `sorting` say.
//!
//! # What tests alone show
//!
//! Worked calls with their values and errors as CPython has them, and their costs (`value_tests`).
//!
//! # What neither shows
//!
//! How long a call takes.
#![tactic(auto)]

pub mod calls;
mod ranges;
mod sequences;
mod truths;
