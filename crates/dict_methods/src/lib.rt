//! The methods of dicts, with their cost: `clear`, `copy`, `get`, `items`, `keys`, `pop`, `setdefault`, `update` and `values`.
//!
//! # What it is for
//!
//! What a call makes is a function of the heap, the dict and the arguments that knows no budget (`dict_method_of`). Where
//! Python gives a view, here it is a list.
//!
//! # What is proved
//!
//! - [`dict::dict_method`] gives exactly the product that its definition says, under a budget: the value, the change of the dict, its new
//!   objects, its cost, or the raise with class, text (or the key) and cost; nothing where the budget doesn't suffice.
//! - `get`, `pop`, `setdefault` and `clear` cost what the use of their key costs; the others cost the dict's length, also where they raise,
//!   and the length of what they give. A copy uses each key once, `update` those of the other dict.
//!
//! # What tests alone show
//!
//! Worked calls with their values and errors as CPython has them, and their costs (`value_tests`).
//!
//! # What neither shows
//!
//! How long a call takes: `update` copies the dict; a key is made only as far as the budget goes (py_kinds).
#![tactic(auto)]

pub mod copies;
pub mod dict;
pub mod keyed;
pub mod views;
