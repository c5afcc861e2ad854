//! The grammar of expressions as a table (Python Language Reference, expressions).
//!
//! # What it is for
//!
//! `specs/Lines.antt` has a row for each line of the grammar of expressions, and of targets, with its EBNF above it, and the sets of
//! kinds of tokens that begin a line and that go on behind it. `specs/Sorts.antt` and `specs/Values.antt` have the values between
//! the parts of a row, and how high a tree is.
//!
//! # What is proved
//!
//! That the table is a good one is computed, a `refl` a line (`proofs/Good.antt`): so all that `grammar` proves of a good table
//! holds of it. `proofs/Heights.antt`: the height that a reading carries is the height of its tree.
//!
//! There is no code here.
//!
//! # What tests alone show
//!
//! That the rows say what CPython reads.
#![tactic(auto)]
