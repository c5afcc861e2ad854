//! The types that fixtures, parameters, chains and sessions share, and what they say of live instances.
//!
//! # What it is for
//!
//! `Scope` with its rank, the number of a definition (`DefId`), lists of numbers (`Numbers`, the list type of the crate seq), the
//! numbers of all on which an instance depends (`Bases`), a fixture that was set up (`Instance`), and the events of a session
//! (`Event`, `Made`). A later scope is one more line here: in the enum, in `rank`, and in the count.
//!
//! # What is proved
//!
//! - `Scope::rank` is the place from broad to narrow (`rank`) and below the number of scopes (`below`); a `DefId` is its number
//!   (`new`, `number`).
//! - `Bases` is seen as its list of numbers, each once, the greatest first. `new` has none, `from_numbers` has those of a slice,
//!   `add` and `add_all` make it the list of what was there and what came (`joined`), `copied` is the same list. `has` says
//!   whether a number is among them, and `has_any` whether one of others is.
//!
//! # What tests alone show
//!
//! That an `Instance` and its events can be written down and read, and that `Bases` are made with ample memory (`session_tests`).
//!
//! # What neither shows
//!
//! What `Bases` take: numbers that follow one another are a span, which takes as much memory as one, and each call goes through the
//! spans, `has_any` through those of the one for each of the other's.
//!
//! The definitions, in the order in which to read them: `specs/Members.antt` (what stands in a list), `specs/Numbers.antt`,
//! `specs/Scopes.antt`, and `specs/Live.antt`: the live instances, what dies with one of them, and in which order. Those of a
//! session stand in session_rules.
#![tactic(auto)]

mod bases;
mod def_id;
mod instance;
mod journal;
mod numbers;
mod scope;

pub use bases::Bases;
pub use def_id::DefId;
pub use instance::Instance;
pub use journal::{Event, Made};
pub use numbers::Numbers;
pub use scope::{SCOPE_COUNT, Scope};
