//! The look-up of names in the machine.
//!
//! # What it is for
//!
//! `look_up` gives what the look-up of a name gives where the machine is, `bound_value` its value alone, where it is bound; `module_value` and `class_value` look in one module or class.
//! `not_defined`, `unbound` and `raise_about` are raises whose text has a name.
//!
//! # What is proved
//!
//! - `look_up` gives what the meaning's look-up of a name gives, in a module, a function or a class, and raises what that raises.
//!   `bound_value` gives no other value.
//! - `module_value` and `class_value` give the value of a name in a module or in a class, without those on which it stands.
//!
//! # What tests alone show
//!
//! Nothing.
//!
//! # What neither shows
//!
//! Time.
#![tactic(auto)]

pub mod names;
