//! The arguments of calls.
//!
//! # What it is for
//!
//! `shape` tells the arguments of a call by position from those by name, where `has_names` says that there are any. `arguments_for` makes the
//! local names with which a function begins, `fitting` those of a function that may yield, `bind_defaults` those of the parameters that have
//! no argument, `with_first` and `with_receiver` put a value before the arguments, and `raise_misfit` is what is raised where arguments don't
//! fit.
//!
//! # What is proved
//!
//! - `shape` gives the arguments of a call by position and by name (`arguments_of`), in the order of the text.
//! - `arguments_for` gives the local names with which a function begins, or what is raised in their place: each parameter has its argument
//!   by position, its argument by name or its default, and a function that yields is not called. `fitting` gives them whether or not it
//!   yields.
//! - `has_names` says whether an argument has a name; `bind_defaults` binds what the meaning binds where no argument is left, and tells whether
//!   each parameter has a default; where one has none, the meaning has no local names.
//! - `with_first` and `with_receiver` give the same arguments behind the value.
//!
//! # What tests alone show
//!
//! That calls end where there is memory, in `machine_tests` through the whole machine.
//!
//! # What neither shows
//!
//! Time and memory.
#![tactic(auto)]

pub mod arguments;
pub mod shape;
