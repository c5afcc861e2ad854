//! A session, as a caller sees it who collects and runs tests by calls of his own.
//!
//! # What it is for
//!
//! The crates below have each part by itself, over any world or rules. Here they are put together over a [`World`](py_machine::World) of
//! sources: [`collect`] gives what was collected, [`run`] runs its items, and [`SetupStack`] sets fixtures up for who has a table of his own.
//! The program itself stands on the parts.
//!
//! # What is proved
//!
//! - [`collect`]: what it gives shows a collection of the files' sources (`told`, by `ShowsCollection`): the selected items, the
//!   implementations of conftests' hooks, the number of the deselected, the errors, and the world behind all loads; or the first refusal
//!   (`refused`). It can run (`runs`), its fixtures can be demanded (`known`), and no frame is out in its world (`none_out`).
//! - [`run`]: the reports, the journal, the world and the end are those of the session of one thread over the items at the places that the
//!   feed gave, where no two have one node; the clauses are those of `run_items`, on what was collected (`run`, `feed`, `whole`, `done`,
//!   `stems`, `broken`, `begun`, `blamed`). Where no two have one node, the frames that are out behind it are those that were before it,
//!   fixtures' and hook wrappers' (`frames`), so that none is out behind a run of what was collected (`none_out`). The stack holds none,
//!   whatever the run gives (`spent`), and all but world and stack is as it was (`rest`).
//! - [`SetupStack::new`] has a table with nothing set up; `table`, `function` and `name` lend what it was given. `demand` is `demand` of
//!   `session_rules` by the rules of sources (`answer`, by `item_rules`): the fixtures are those that the functions of the codes are in the
//!   world of the first demand. `leave` is `down_all` of what isn't for the next item. `call_begins` and `call_ends` append their events,
//!   `journal` lends all, `abandon_all` gives up every frozen frame, and `close` ends a stack that holds none.
//! - [`begin`] and [`resume`] are those of `py_machine`, with each end a variant of one enum (`told`). [`prepare`] takes its paths as strings.
//!
//! Behind want of memory a world and a stack are spent.
//!
//! # What tests alone show
//!
//! That `collect` and `run` succeed with ample memory (`test_session_tests`).
//!
//! # What neither shows
//!
//! That the other calls succeed, and that the names which a collected stack lends are those by which its table numbers fixtures. Time: a stack
//! of a caller's own looks at all functions of its table at the first demand.
//!
//! The definitions, in the order in which to read them: `specs/Stacks.antt` (what a stack knows, and its rules), `specs/Demands.antt` (what it
//! answers), `specs/Collections.antt` (what is shown of a collection), `specs/Runs.antt` (what a run is), `specs/Bodies.antt` (ends of bodies).
#![tactic(auto)]

mod bodies;
mod collected;
mod collecting;
mod error;
mod hooks;
mod items;
mod known;
mod lending;
mod naming;
mod one_item;
mod preparing;
mod running;
mod setting_up;
mod stack;

pub use bodies::{Begun, BegunOut, begin, resume};
pub use collect_tree::CollectFault;
pub use collected::Collected;
pub use collecting::collect;
pub use error::SetupError;
pub use hooks::Hook;
pub use items::Item;
pub use preparing::prepare;
pub use py_load::load_module;
pub use py_machine::{Frozen, ModuleId, Sent, World, abandon, heap, line, names, take_printed};
pub use running::run;
pub use runtest_loop::{ReceiveFail, Receiver, RunEnd, RunFault};
pub use stack::SetupStack;
