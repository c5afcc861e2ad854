//! What defines fixtures in loaded files, and the tests of a file with the names for which fixtures are looked for.
//!
//! # What it is for
//!
//! Collection asks here once all files are loaded and the tree's nodes are numbered. [`all_definitions`] finds what defines fixtures,
//! [`tests_of`] the tests of a file with their marks, what their `usefixtures` marks name and their arguments; [`but_request`] leaves the
//! names for which fixtures are looked for.
//!
//! # What is proved
//!
//! - [`all_definitions`]: the definitions, with their parameters, those of the conftests in the order of their loads at their folders, then file by file those of
//!   the module and of its classes of tests, in order of first binding (`all_definitions`).
//! - [`tests_of`]: the tests of a file in order, each with its node's parent, its marks, what its `parametrize` marks give, what its
//!   `usefixtures` marks name and its arguments (`tests_of`).
//! - [`fixture_in`], [`but_request`], [`defined_at`]: what `fixture` made, names without `request`, and the place of a function's `def` (the
//!   definitions of the same names).
//!
//! # What tests alone show
//!
//! That the calls succeed with ample memory (`acceptance`).
//!
//! # What neither shows
//!
//! That the definitions are pytest's: a reader compares them. Time: each name of a module or a class is gone through a few times.
//!
//! The definitions, in the order in which to read them: `specs/Arguments.antt` (the arguments of a function), `specs/Definitions.antt` (what
//! defines fixtures), `specs/Tests.antt` (the tests of a file).
#![tactic(auto)]

mod arguments;
mod definitions;
mod found;
mod found_tests;

pub use arguments::{arguments_asked, asked_params, but_request, def_place, defined_at};
pub use definitions::{all_definitions, fixture_in};
pub use found::{Definition, FoundTest};
pub use found_tests::tests_of;
