//! Reading targets: what takes one value, and what takes a value or unpacks it.
//!
//! # What it is for
//!
//! A target is the expression of its tokens. Where only a target may stand, what isn't one yet must become a part of one, and is
//! counted with the node that it must become a part of.
//!
//! # What is proved
//!
//! `single` and `targets` (clause `reads`) give exactly what the table's readers of these lines give: the place or the places,
//! the height and the tokens behind them; or the tokens from the first fault on, and whether wrong or too deep.
//!
//! # What tests alone show
//!
//! That with ample memory no call answers `Stop::Memory`.
#![tactic(auto)]

mod reader;

pub use reader::{single, targets};
