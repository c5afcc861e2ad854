//! The hook that makes ids of parameters, asked for the tests of loaded files.
//!
//! # What it is for
//!
//! A conftest's `pytest_make_parametrize_id` is asked when all files are loaded, for each value of a set without an id (pytest's reference,
//! `pytest_make_parametrize_id`). [`asked_files`] asks file by file and gives each with its items, or the fault of its rows, and what the hook
//! printed for it.
//!
//! # What is proved
//!
//! - [`asked_files`] (`files_asked`): of each file the implementations whose folders it stands in are asked, test by test, each in the lists
//!   in the order of its rows; a value for which none is made keeps the id that it has by itself. A fault of a test's marks comes before the
//!   hook is asked for it, that it has too many rows behind; the first fault of a file ends it, an exception of the hook and what is no
//!   text among them. A hook call is that of a hook which stops at its first value (`first_call` of `session_rules`), over `call_first` of
//!   `hook_order`: each wrapper that began is resumed once, or given up where memory is wanted.
//!
//! Behind want of memory the world is spent.
//!
//! # What tests alone show
//!
//! That the calls succeed with ample memory (`acceptance`).
//!
//! # What neither shows
//!
//! That the definitions are pytest's and pluggy's: a reader compares them. Time: a hook call for each value, and all else once.
//!
//! The definitions, in the order in which to read them: `specs/Hook.antt` (the hook call for a value), `specs/Asking.antt` (for which values),
//! `specs/Files.antt` (files).
#![tactic(auto)]

mod files;
mod hook;
mod lists;
mod rows;
mod tests;
mod values;

pub use files::{AskedFile, asked_files};
