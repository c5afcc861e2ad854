//! The built-in functions that ask of any object, with their cost: `repr`, `isinstance`, `callable`, `getattr` and `hasattr`.
//!
//! # What it is for
//!
//! What a call makes is a function of the heap and its arguments that knows no budget. `getattr` and `hasattr` read as an attribute
//! reference does (`attribute_of` of `py_attributes`).
//!
//! # What is proved
//!
//! - [`calls::object_call`]: exactly the product that `object_call_of` says, which has an equation for each function; arguments that don't
//!   fit are `wrong arguments for NAME`, at no cost.
//! - `repr` gives a new text at the cost of its length; one that lies too deep is a `RecursionError`, else one past the greatest length a
//!   `MemoryError`. `isinstance` takes a class or a tuple of classes, `callable` any value. `getattr` and `hasattr` cost what the reading
//!   costs.
//!
//! # What tests alone show
//!
//! Worked calls with their values and errors as CPython has them, and their costs (`value_tests`).
//!
//! # What neither shows
//!
//! How long a call takes.
#![tactic(auto)]

mod attributes;
pub mod calls;
mod kinds;
mod reprs;
