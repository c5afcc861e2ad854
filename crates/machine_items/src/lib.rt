//! What the machine makes of values by the words of the meaning: displays, changes of attributes, bounds of slices, and what values are
//! to `raise` and `except`.
//!
//! # What it is for
//!
//! Each call is a word of py_world as a function of the heap and the values; the machine pays its cost and goes on with its end.
//! `list_displayed`, `tuple_displayed` and `dict_displayed` make a display of values that are there, `set_attribute` and
//! `unset_attribute` change an object, `bind_at` and `unbind_at` a class whose body runs, `bound_given` reads a bound of a slice, and
//! `takes_exception`, `raisable` and `raise_init` say what a value is to `raise` and `except`.
//!
//! # What is proved
//!
//! - `list_displayed` and `tuple_displayed` make what the meaning says, with its cost and its errors, and `dict_displayed` what it says
//!   within a budget of steps.
//! - `set_attribute` and `unset_attribute` leave the heap that the meaning says, or say what is raised, and leave the heap as it was
//!   (`attribute_told`).
//! - `bind_at` and `unbind_at` leave the heap with the object at the place changed, or the heap as it was where there is none.
//! - `bound_given`, `class_by`, `takes_exception`, `raisable` and `raise_init` answer exactly as the meaning.
//!
//! # What tests alone show
//!
//! Nothing.
//!
//! # What neither shows
//!
//! Time.
#![tactic(auto)]

pub use py_attributes::attributes::attribute_made;
pub use py_world::{Thrown, Trace};

pub mod changes;
pub mod displays;
pub mod exceptions;
