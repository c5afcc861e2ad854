//! The methods of lists and tuples, with their cost: of lists `append`, `clear`, `copy`, `count`, `extend`, `index`, `insert`, `pop`,
//! `remove`, `reverse` and `sort`, of tuples `count` and `index`. What `sort` makes is proved in the crate `sorting`.
//!
//! # What it is for
//!
//! What a call of such a method makes is a function of the heap, the list and the arguments that knows no budget (`list_method_of`,
//! `tuple_method_of`).
//!
//! # What is proved
//!
//! - `list_method` and `tuple_method` give, under a budget, exactly the product that the definitions say: the value, the change of the
//!   list, its cost, or the raise with class, text and cost.
//! - `append`, `clear` and `pop` of the last element cost nothing; the others cost the list's length, also where they raise, and the length
//!   of what they give; `count`, `index` and `remove` besides what equality costs on each element that they test.
//!
//! # What tests alone show
//!
//! Worked calls with their values and errors as CPython has them, and their costs (`value_tests`).
//!
//! # What neither shows
//!
//! How long a call takes: a list that is changed but at its end is copied.
#![tactic(auto)]

pub mod changes;
pub mod list;
pub mod search;
pub mod tuple;
