//! Sessions as a loop over their items, and the law that they are sessions.
//!
//! # What it is for
//!
//! A session is defined as one state that goes through all items (`session_rules`), with the reports of all phases in it. Here it is a loop:
//! the instance of the class, the hook call around the fault of the item or the demands of its closure, the hook call around the test where
//! the set-up raised nothing, the hook call around the finalizers of the test's own `request` and the teardown of what isn't for the next
//! item, the end of each phase; and it ends where maxfail is reached, with all torn down. What is kept of a phase is given out with its item,
//! and of the `item` objects that hooks get the loop keeps those of the item at hand and of the next. That loop is the definition
//! `fixture_session`, for any language and any hooks; code that runs items is proved against it.
//!
//! # What is proved
//!
//! As the contract of a public function with an empty body, whatever hooks serve the items, for items of which no two have one node:
//!
//! - `fixture_sessions_are_sessions`: the rows of the session of one thread that `session_rules` and `report_rules` define (`rows`), its
//!   journal (`journal`), the world behind it (`world`), and whether it stopped early (`stopped`) are those of `fixture_session`; and
//!   behind it no instance lives (`ended`).
//!
//! # What neither shows
//!
//! Nothing.
//!
//! The definitions, in the order in which to read them: `specs/FixtureSession.antt` (what a session does, in order), `specs/FixtureRows.antt`
//! (its rows).
#![tactic(auto)]

mod law;

pub use law::fixture_sessions_are_sessions;
