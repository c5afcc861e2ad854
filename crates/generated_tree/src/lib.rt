//! The made-up tree of files: a conftest with a fixture, and files with tests of it, whose numbers follow from a seed.
//!
//! # What it is for
//!
//! `--generated=SEED,FILES` runs these files in place of a folder's. No folder is read, so that a run of thousands of files shows what
//! the runner itself costs.
//!
//! # What is proved
//!
//! - [`generated_tree`]: the files are those of the seed, byte by byte (`files`; `generated_files`); they are in the order of their paths, each
//!   path once (`order`); none is passed over where a tree is read (`kept`); and they pass no limit of a tree (`fits`). So they are what
//!   `load_files` of edge_io may give.
//!
//! # What tests alone show
//!
//! Texts and paths of some seeds as a plain model of them has them, and that the call succeeds with ample memory.
//!
//! # What neither shows
//!
//! Time.
//!
//! The definition is `specs/Generated.antt`.
#![tactic(auto)]

#[cfg(test)]
mod tests;
mod text;
mod tree;

pub use tree::generated_tree;
