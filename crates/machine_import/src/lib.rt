//! The machine's turns for imports, and the loads of modules in mid-run.
//!
//! # What it is for
//!
//! `begin::begin_import` and `begin::begin_import_from` begin a statement, and `turns::take_module` goes on behind the load of a module.
//! `enter::enter_load` begins such a load; a module that is known is given as it is.
//!
//! # What is proved
//!
//! Each goes on with the run of the tree that the meaning has there, under the steps that are left (`next`), and takes no step (`left`,
//! `work`). So each dotted name that a dotted name begins with is loaded before it, where there is a source of it; a module is executed
//! once, and one whose load has failed raises again what it has raised; a source with a fault raises its SyntaxError and has failed; a name
//! that is imported is the module's own, or else the module of that name in it; `pytest` is the built-in module, which is never loaded.
//!
//! # What tests alone show
//!
//! Nothing.
//!
//! # What neither shows
//!
//! Time and memory.
#![tactic(auto)]

pub mod begin;
pub mod each;
pub mod enter;
pub mod faults;
pub mod paths;
pub mod turns;
pub mod walk;
