//! Words of memory that are counted: two lists, the cells and the heads, in which one place is written at a time, each write one
//! step.
//!
//! # What it is for
//!
//! How many words a change of linked lists writes is a promise of link_cells, whose cells and heads these are.
//!
//! # What is proved
//!
//! - `CellWords` is seen as its two lists. `new` is empty; `grow_cells` and `grow_heads` append one (`ok`) or leave both lists as
//!   they were (`err`). `swap_cell` and `swap_head` give back what stood at the place (`before`), change that place and nothing
//!   else (`after`), and add exactly one to `steps` (`step`). `cell` and `head` lend a word. No other call has `&mut`.
//! - `Steps<L>` is seen as a number, over any ledger; only the two swaps add to it.
//!
//! # What tests alone show
//!
//! That the calls succeed with ample memory.
//!
//! # What neither shows
//!
//! That a `Steps` takes no bytes (a reader sees it: it has a book and a share of its ledger, which have none).
#![tactic(auto)]

mod steps;
#[cfg(test)]
mod tests;
mod words;

pub use steps::Steps;
pub use words::CellWords;
