//! Code along a grammar that is a table: what a row reads, in the shape in which code goes along it.
//!
//! # What it is for
//!
//! `specs/Walk.antt` has `walk`, the reader of a part of a line with what is read behind it and what is read where the part
//! does not begin. On a row of a table it computes to what code does: look at the first token, test the level, call the
//! function of a line. So the equation by which a function of code is proved is written in the code's own shape.
//!
//! Code of statements asks for a level where a block begins alone, and carries no heights: `specs/Plain.antt` has `flat`, what a row
//! reads, in the shape in which such code goes along it.
//!
//! # What is proved
//!
//! There is no code here. Lemmas, for every grammar and every part (`proofs/Walk.antt`):
//!
//! - `line_walk`, `walked`: the reader of a line, and of any part, is its walk.
//! - `round_once`, `round_room`, `round_commas`, `chain_read`, `pursue_once`: a loop is one step and the loop again; items with
//!   commas; a chain that begins with its first step; what is read up to an end.
//! - `part_eats`: a part that names a token or a line takes a token, so loops over it end.
//! - Of a grammar whose rows pass a test that is computed (`calm`): what a line's reader gives, without its height, is what `flat` says
//!   of the line's row (`line_flat`), and a loop of code is the grammar's (`rounds`).
//!
//! They count where a crate's contracts stand on them.
#![tactic(auto)]
