//! Values go to targets.
//!
//! # What it is for
//!
//! A value goes to a name, or its attribute or item begins with the object (`store_single`); to the targets of an unpacking go its
//! elements, each to its own (`unpack`, `store_each`). `store_target` stores a value in any target.
//!
//! # What is proved
//!
//! - `store_target`: what is left to do is what the meaning of the target says, for each of its forms (`next`), in the same number of steps
//!   (`left`), and a turn leaves less to do (`work`).
//! - `elements` takes exactly the elements that an unpacking takes, in order, with the heap behind them.
//!
//! # What tests alone show
//!
//! That calls end where there is memory, in `machine_tests` through the whole machine.
//!
//! # What neither shows
//!
//! Time and memory.
#![tactic(auto)]

pub use machine_turns::begin::{begin_block, descend};
pub use machine_turns::names::{bind, delete_name, store};
pub use machine_turns::subscript::subscript;
pub use machine_turns::{
    End, Frame, Machine, NextAction, Origin, SimpleFrame, Spot, TargetFrame, TurnEnd, bound_value,
    changes, look_up,
};

pub mod assign;
pub mod elements;
