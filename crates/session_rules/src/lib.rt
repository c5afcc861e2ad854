//! The rules of a session of fixtures, and the laws that follow from them, apart from any language.
//!
//! # What it is for
//!
//! Fixtures are set up on demand, live on the node of their scope, and are torn down (pytest's documentation, "How to use fixtures"
//! and "Fixtures reference"; pluggy's documentation, "Wrappers"). What a fixture's function, its rest behind a `yield`, a
//! finalizer, a hook and a test do is given by rules (`Rules`) over a world (`Acts`), of which no law but those on frozen frames
//! asks anything: each may raise, at every point.
//!
//! # What is proved
//!
//! Each as the contract of a public function with an empty body:
//!
//! - `every_journal_is_lawful`: for all items, no two with one node (`Distinct`), each with a fault or with a closure that fits the
//!   table (`HasFixtureClosure`), and for every maxfail, the events of the session are `Lawful`: what comes up, or fails to, goes down exactly
//!   once; it rests on what came up before, and all that depends on it is down before it; a test is called at most once, with
//!   instances that live, or that went down before something on which they depend; at the end nothing is up.
//! - `every_item_is_reported_once`: the items that ran are a prefix of the list, each once, with its set-up, its call exactly where
//!   the set-up raised nothing, and its teardown; where items are left, maxfail was reached; what is counted is what these phases
//!   tell, and the journal is the events of these phases, each once (`IsSessionReport`).
//! - `no_frame_is_left_out`: for items that fit, at the end exactly those frozen frames are out that were at the start, where each act
//!   of the rules tells which are out behind it, both ways (`KeepsFrames`): a body that yields, of a fixture or a wrapper, adds its own,
//!   one that is out and goes on or is given up is taken, and nothing else changes which are out.
//! - `frames_go_on_once`: by such rules no frame goes on or is given up that isn't out, and one is given up only where it stands at a
//!   further `yield`: whatever the rules would do else with a frame, the session is the same (`AreAlikeWhereOut`). So what was suspended
//!   goes on once.
//! - `the_built_in_has_one_turn`: in a hook call whose implementations have the runner's own (`HasBuiltIns`) the built-in is called once,
//!   in a state that doesn't depend on it, or another implementation raised before it (`BuiltInTurn`).
//! - `closures_are_settled`, `depth_does_not_matter`, `refusals_tell`: a closure without fault asks less deep than there are
//!   definitions; a demand is the same at any depth that suffices; a refused one says why.
//! - `hook_calls_agree` (`all`, `firstresult`): what `call_all` and `call_first` of hook_order do and answer are the hook calls of a
//!   session, where the runner does what the session says of each implementation; else memory was wanted.
//!   `hook_calls_are_a_sessions`: the same of a runner that is read as the state of a session and holds item, phase and next item
//!   besides.
//! - `finalizers_are_latest_first` (`latest`, `going`): a `request` gives its finalizers latest first, and takes none once its
//!   instance is going.
//!
//! Computed when the crate is checked, not proved in general: `proofs/Rows.antt` (sessions on small worlds: four scopes, raises in
//! set-up, call, teardown, finalizers and hooks, changed parameters, wrappers, maxfail) and `proofs/Unlawful.antt` (lists of events
//! that `Lawful` refuses, each by the point that it breaks). `proofs/Framed.antt` has what `KeepsFrames` refuses: that no frame is ever out
//! where a function yields, a hook that clears a frame, a wrapper that stands in a frame that is out. The rules of any suite over sources
//! meet it (`runtest_rules`). `proofs/Standing.antt` has that what a session does keeps the frames that stand (`StandsWith`).
//!
//! # What tests alone show
//!
//! That there is a world of which the laws speak (`session_tests`).
//!
//! # What neither shows
//!
//! That a world of a language does what its rules say, and that the world closes its `request` objects as `RequestFinalizers` says.
//!
//! The definitions, in the order in which to read them:
//!
//! 1. session_types, `specs/Live.antt`: the live instances, what dies with one of them, and in which order.
//! 2. `specs/Hooks.antt`, `specs/Request.antt`: a hook call, and the finalizers of a `request`.
//! 3. `specs/World.antt`: what a session asks of a language and its world.
//! 4. `specs/Teardown.antt`, `specs/Demand.antt`, `specs/Session.antt`: teardown, demand, the phases of an item, a session.
//! 5. `specs/Events.antt`: what the events of a session must be, a relation on the list of events alone.
//! 6. `specs/Fits.antt`: what the laws ask of the items: that a closure has no fault, and that no two have one node.
//! 7. `specs/Reports.antt`: each item reported once; `specs/Frames.antt`: the frozen frames that are out; `specs/BuiltIns.antt`: the
//!    runner's own implementations; `specs/HookFollows.antt`: the tie to the calls of hook_order.
#![tactic(auto)]

mod law;

pub use law::{
    Acts, closures_are_settled, depth_does_not_matter, every_item_is_reported_once,
    every_journal_is_lawful, finalizers_are_latest_first, frames_go_on_once, hook_calls_agree,
    hook_calls_are_a_sessions, no_frame_is_left_out, refusals_tell, the_built_in_has_one_turn,
};
