//! Demand and teardown of fixture instances, over the live instances of fixture_instances.
//!
//! # What it is for
//!
//! What a fixture's function, its rest behind a `yield`, its finalizers and its `request` do is an `Executor`'s. The table of
//! definitions is lent to each call. `SetupStack` has the live instances with what is kept of each (`LiveFixtures`), the journal,
//! what answered the demands since the last `leave`, and the instance of the item's class. With a world it makes a session's state
//! (`stack_state`).
//!
//! # What is proved
//!
//! - `demand` is `demand` of session_rules for the item (`item_for_session`: what each definition asks for in it by fixture_table, its
//!   parameter, its scope node), and notes what was given (`IsDemanded`): an instance with the same parameter answers, or its kept
//!   exception with its trace does; one with another parameter goes down with all that depend on it; else one is reserved, the
//!   function is called, and the instance comes up or fails to.
//! - `demand_all` is `demand_closure` of session_rules: each is demanded in order, up to the first fault. What was found or made
//!   for the item stands (`IsCached`) until something goes down: it is found again, and nothing that it asks for is demanded again.
//! - `leave` is `down_all` of what the next item doesn't need, on the state that has forgotten what was given: of each instance the
//!   `request` closes and gives its finalizers, what remains is resumed, the finalizers are called, latest first; all are done, and
//!   the exceptions are told in order.
//! - `new` has no instance and no event. `call_begins` and `call_ends` append their events (`events`) and change nothing else
//!   (`stack`); `journal` lends all events, which are those of the state.
//! - What remains of a body is resumed, or abandoned where it yields again, only where its frame is out: `demand`, `demand_all` and `leave`
//!   ask that the frames of the live instances are out, each that of one (`StandsWith`), and leave them so (`frames`).
//! - `abandon_all` lets every frozen frame go that the stack holds, in order of set-up, behind want of memory (`world`, `stack`), and none
//!   is left (`spent`); the world is spent. `close` ends a stack that holds none, and a stack ends in no other way.
//! - `close_request` and `finalize_each` are the parts of a teardown that the `request` of a test takes too.
//! - Laws of definitions: demands and teardowns leave the rest of a session's state as it is (`the_rest_of_a_state_stays`), look at
//!   no more of an item than `AreAsked` says (`the_rest_of_an_item_does_not_matter`), and what a table answers as a closure may be
//!   demanded (`what_a_closure_has_is_ready`).
//!
//! # What tests alone show
//!
//! That all this is what pytest's fixture guide says, on worked journals, and that calls succeed with ample memory
//! (`demand_tests`).
//!
//! # What neither shows
//!
//! After an `Err(OutOfMemory)` nothing is said of the world and the journal. The time; that demands go deep on a list of frames and
//! not by recursion (a reader sees it).
//!
//! The definitions, in the order in which to read them: `specs/Views.antt` (the state), `specs/SetUps.antt` (what `demand`
//! answers), `specs/Passing.antt` (what demands don't look at). What the code keeps: `specs/Asking.antt`, `specs/Borne.antt`,
//! `specs/Grants.antt`, `specs/Making.antt`, `specs/Scopes.antt`, `specs/Standing.antt`. Demand and teardown themselves are
//! session_rules', what an item asks for is fixture_instances'.
#![tactic(auto)]

mod answers;
mod error;
mod frame;
mod law;
mod lists;
mod making;
mod marks;
mod setup;
mod stack;
mod standing;
mod tearing;

pub use answers::{Answer, Grant};
pub use error::SetupError;
pub use frame::{AskFrame, Turn};
pub use law::{
    the_rest_of_a_state_stays, the_rest_of_an_item_does_not_matter, what_a_closure_has_is_ready,
};
pub use making::SetUpOutcome;
pub use stack::SetupStack;
pub use tearing::{close_request, finalize_each};
