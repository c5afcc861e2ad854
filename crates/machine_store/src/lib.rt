//! The machine's turns for what takes a value.
//!
//! # What it is for
//!
//! A value goes to a place whose parts are evaluated (`spot`), and to the place of an augmented assignment, whose parts are evaluated once
//! (`augment`); `delete` takes names, attributes and items away. `take_target` goes on behind a part of a target.
//!
//! # What is proved
//!
//! - `take_target`, for each frame of a target: the run of what is left stays the same (`next`), and a turn spends a step or leaves less
//!   to do (`work`).
//! - `begin_augment`, `begin_delete`, `store_spot`: what is left to do is what the meaning of the target says, for each of its forms.
//!
//! # What tests alone show
//!
//! That calls end where there is memory, in `machine_tests` through the whole machine.
//!
//! # What neither shows
//!
//! Time and memory.
#![tactic(auto)]

pub use machine_assign::assign::store_target;
pub use machine_assign::descend;
pub use machine_immediate::immediate::at_once;

pub mod augment;
pub mod delete;
pub mod operate;
pub mod spot;
pub mod turns;
