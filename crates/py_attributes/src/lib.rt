//! Attributes that are read, of every kind of object.
//!
//! # What it is for
//!
//! What is read is a function of the heap, a value and a name (`attribute_of`): an attribute reference, `getattr` and `hasattr` read by it.
//! It costs nothing.
//!
//! # What is proved
//!
//! - `attribute_made` makes what `attribute_of` says: a name of a module's or an instance's own, a name of a class or of those on which it
//!   stands, a function of a class as a method of the instance through which it is read, a method of a text, a list, a tuple, a dict or a `request`
//!   with that value before its arguments, a mark of any name, what a `request`, the exception of a `with raises` and a test item have; else
//!   that the kind has no attribute of the name.
//! - `own_value`, `named_in`, `names_place`, `is_args`, `init_of` and `no_attribute` equal the definitions of the same names.
//!
//! # What tests alone show
//!
//! Nothing.
//!
//! # What neither shows
//!
//! How long a call takes; that classes are walked without recursion (a reader sees it).
#![tactic(auto)]

pub mod attributes;
pub mod classes;
mod kinds;
pub mod missing;
pub mod names;
