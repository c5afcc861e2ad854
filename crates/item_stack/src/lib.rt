//! The fixtures that are set up while the items of a session run, with the `request` of the test at hand.
//!
//! # What it is for
//!
//! A session is a loop over its items. Here is what the loop does with fixtures, over any `Executor`:
//! [`ItemStack`] has the fixtures that are set up (`setup_stack`) and the `request` of the test at hand. What an item's test does is not
//! known here.
//!
//! # What is proved
//!
//! With a world the stack makes a session's state (`item_state`).
//!
//! - [`demand_all`]: demands the definitions of a closure in order for an item, with what its row binds and the parameters that it gives,
//!   up to the first fault (`demand_closure`). [`plain_item`]: an item whose row binds nothing (`plain_item`), where only its node matters.
//! - [`values_given`]: the values of a test's arguments (`values_given`).
//! - [`leave`]: calls the finalizers of the test's own `request`, and takes down what isn't for the next item (`left_for`); [`all_down`]
//!   takes down all that lives, where no item is at hand (`down_all`).
//! - [`ItemStack::new`] holds nothing (`IsNew`).
//! - [`demand_all`], [`leave`] and [`all_down`] ask that the frames of the live instances are out, each that of one (`StandsWith`), and leave
//!   them so (`frames`).
//!
//! After an `Err(OutOfMemory)` nothing is said of the world and the stack.
//!
//! # What tests alone show
//!
//! That the calls succeed with ample memory (`acceptance`).
//!
//! # What neither shows
//!
//! Time.
//!
//! The definitions, in the order in which to read them: `specs/States.antt` (the state), `specs/Plain.antt` (an item as a demand sees it).
//! `specs/Leaving.antt` (what is left for the next item). What the code keeps: `specs/Answers.antt`.
#![tactic(auto)]

mod calling;
mod demanding;
mod holding;
mod leaving;

pub use calling::values_given;
pub use demanding::{demand_all, plain_item};
pub use holding::ItemStack;
pub use leaving::{all_down, leave};
