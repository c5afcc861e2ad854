//! The sources of a run, and the loads of its files.
//!
//! # What it is for
//!
//! [`prepare`] reads all files of a tree and gives a world their sources, so that each can be imported by its path. [`load_module`] and
//! [`load_file`] load one of them.
//!
//! # What is proved
//!
//! - [`prepare`]: each file is read by itself (`AreRead`), and the world has the source of every file behind its own, in their order: the
//!   code of its tree, or its fault (`IsPrepared`); nothing else of the world changes. The asserts of test files, of conftests and of the
//!   files whose paths are given are explained, those of others are not (`is_explained`). It asks for a world without sources and for
//!   paths in order, each once.
//! - [`one_reading`], [`has_reading`], laws: files are read in one way and no other.
//! - [`load_module`]: `Syntax` and `NotUtf8` come exactly where the source has that fault, and the world stays as it is; else the answer
//!   is the end of the meaning of the source (`source_module`): its module, the exception with its trace, or the trace of the statement at
//!   which the steps were exhausted, with the world behind it (`load_of`). [`load_file`] gives the same end beside what was printed
//!   meanwhile, which is taken (`file_load`).
//! - [`loaded_once`], a law: a module that is loaded is not executed again: its further loads give it and change nothing, and those of one
//!   that has failed raise the same exception with the same trace.
//!
//! Behind want of memory a world is spent.
//!
//! # What tests alone show
//!
//! That these calls succeed with ample memory. That the module which a load gives is an object: `load_module` would answer another value
//! as want of memory.
//!
//! # What neither shows
//!
//! Time.
#![tactic(auto)]

mod error;
mod file;
mod laws;
mod load;
mod sources;

pub use error::LoadError;
pub use file::{LoadedFile, load_file};
pub use laws::{has_reading, loaded_once, one_reading};
pub use load::load_module;
pub use sources::prepare;
