//! A test suite, as collection found it: its items, its fixtures and its hooks, by number.
//!
//! # What it is for
//!
//! Collection makes a [`Suite`], and the rules of a session read it: what the test and the fixtures of an item are, what its set-up
//! demands, and how a report calls it. An item is named by its node in the tree of collection; the nodes of items stand last there, so
//! that its number is its node's place among them. A parametrised test is as many items as it has rows, each with what its row binds.
//!
//! # What is proved
//!
//! - [`Suite::item`] and [`Suite::fixture`] give what the definitions of the same names look up, where there is one (`item_with_node`,
//!   `fixture_at`); [`HookTable::hook`] likewise (`hook_at`).
//!
//! # What tests alone show
//!
//! Nothing.
//!
//! # What neither shows
//!
//! Time: each look-up reads one place.
#![tactic(auto)]

mod fixture;
mod hook;
mod item;
mod suite;

pub use fixture::Fixture;
pub use hook::{Hook, HookArgument, HookTable};
pub use item::{BoundArgument, FixtureParam, Item, ItemClosure};
pub use suite::Suite;
