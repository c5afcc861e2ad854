//! Fixture definitions: which are visible, which one a name means, and the closure that an item needs.
//!
//! # What it is for
//!
//! The rules are those of pytest's fixture guide, "Overriding fixtures on various levels", "Autouse fixtures" and "Fixture scopes",
//! and of its reference, "Fixture instantiation order".
//!
//! # What is proved
//!
//! - `Table` is seen as its list of nodes and its list of definitions. `new` has the nodes and no definition; `add` and `add_node`
//!   append one (`ok`) and give its place (`id`, `at`), or leave the table as it was (`err`). `def` and `node` lend what stands at
//!   the place.
//! - `visible`: whether the definition's node is the item's or above it. `nearest` (`answer`): of the definitions of the name that
//!   the item sees, further out than `beyond` where that is given, the one with the deepest node, the later one at one node; it is
//!   a definition of the table (`within`).
//! - `closure` answers `IsClosure` (`closure`): there is a list that grows from the visible autouse names (outer nodes first),
//!   `uses` and `args`, each entry once and no name of `bound`, an own name entering the next definition outwards; no entry has a
//!   fault; the answer is its definitions, sorted stably by scope. They are definitions of the table (`within`), and `CanBeSetUp`
//!   (`settled`): their requests stay within the closure, none is reached from itself, and none is for a narrower scope.
//! - Or it answers `IsFault` (`fault`): the first entry of that list that has a fault, and which: `Unknown` for a name without
//!   definition, else `Recursive` (reached from itself by requests, or its own name with none outwards), else `ScopeMismatch` with
//!   the definition that asks and the first name of narrower scope. Or it answers `OutOfMemory`.
//! - `closure_or_fault`, a law: every item has a closure or a fault (`some`), never both (`not_both`), and one of each at most
//!   (`one_closure`, `one_fault`).
//!
//! # What tests alone show
//!
//! That the calls succeed with ample memory, and the time: a look-up walks the definitions at the item's node and above it, and no
//! others (200 entries among 10,000 definitions; `fixture_tests`).
//!
//! # What neither shows
//!
//! The time, beyond those tests.
#![tactic(auto)]

mod asking;
mod closing;
mod entry;
mod fault;
mod judging;
mod law;
mod looking;
mod ranking;
mod reaching;
mod table;
mod types;

pub use fault::FixtureFault;
pub use law::closure_or_fault;
pub use table::Table;
pub use types::{CollectionNode, CollectionTree, FixtureDef, FixtureNames, NodeKind};
