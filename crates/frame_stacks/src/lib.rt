//! A stack that runs and the stacks that are frozen, in the linked cells of one arena.
//!
//! # What it is for
//!
//! The control stack of the machine and the stacks of its frozen frames are such lists: a stack is frozen and goes on by links, however
//! deep it is, and cells that are given up are used again.
//!
//! # What is proved
//!
//! - `Stacks<T, B>` is seen as its own list, the innermost value first, and by number the frozen lists that are out, each with what is
//!   kept with it. Cells, heads and links are in the model's invariant, and no clause names them.
//! - `push`, `pop` and `replace_top` change the own list alone; `top` lends its innermost value, and `values` all of them, the outermost
//!   first; `clear` empties it.
//! - `freeze` makes the own list the last of the frozen ones, and nothing is left of it. `thaw` puts the frozen list of a number before the own
//!   one and gives what was kept with it, where that list is out; it isn't any more. `abandon` gives up the list of a number, and `forget`
//!   all of them. No other list changes.
//!
//! # What tests alone show
//!
//! That the calls succeed with ample memory, and that cells and heads that are given up are used again (`cells`).
//!
//! # What neither shows
//!
//! Time: `push`, `pop`, `freeze` and `thaw` write a bounded number of links.
#![tactic(auto)]

mod lists;
mod parked;
mod stacks;
#[cfg(test)]
mod tests;

pub use stacks::Stacks;
