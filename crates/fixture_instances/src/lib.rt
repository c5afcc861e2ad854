//! The instances of fixtures that live, what is kept of each, and the world in which the functions of fixtures run.
//!
//! # What it is for
//!
//! - `Executor` is such a world: what a fixture's function, its rest behind a `yield`, its finalizers and its `request` do in it
//!   are the acts of rules (session_rules), which depend on a setting of its own. Nothing here knows of a language.
//! - `ItemRef` is an item as its set-up sees it. `LiveFixtures` is the list of live instances in order of set-up, over the linked
//!   chains of live_chains, with what is kept of each (`CachedResult`).
//!
//! # What is proved
//!
//! - `requests_of` is what a definition asks for in an item by a table (`requests_in`), `parameter_in` its parameter, `place_of`
//!   the node on which its instance lives for the item (`def_scope_node`), `chain_of` the item's node and those above it, inmost first.
//! - `LiveFixtures` is seen as the instances in order of set-up, their names, the room and the next number. `link` appends
//!   (`linked`), `take` takes out (`taken`) and gives the instance with what was kept of it (`value`); `find` is by definition and
//!   node, of which at most one lives; `dependents_of` and `off_of` give what goes down, in the order in which it goes down
//!   (`same`), each once (`once`). `is_in_order` tells what holds of every such list. `reserve` makes room for one more (`room`,
//!   `count`) and changes nothing else (`same`); neither `link` nor `take` can fail.
//! - `give_up_all` lets every frozen frame go that the list holds, in order of set-up, behind want of memory (`world`, `live`). `close` ends a list that
//!   holds none, and a list ends in no other way.
//! - What remains of a body (`Rest`) may not be dropped: it is resumed, given up, or held by the list.
//!
//! # What tests alone show
//!
//! That calls succeed with ample memory (`demand_tests`, through setup_stack).
//!
//! # What neither shows
//!
//! The time.
//!
//! The definitions, in the order in which to read them: `specs/Items.antt` (an item as a demand sees it), `specs/Views.antt` (what
//! the types stand for), `specs/Resting.antt` (frozen frames), `specs/Joined.antt` (the list with what is kept).
#![tactic(auto)]

mod ends;
mod executor;
mod items;
mod live;

pub use ends::{BodyEnd, CachedResult, SetUpEnd};
pub use executor::Executor;
pub use items::{BoundValue, ItemParam, ItemRef, chain_of, parameter_in, place_of, requests_of};
pub use live::{LiveFixtures, give_up_all};
