//! What the machine's turns share.
//!
//! # What it is for
//!
//! A part of a statement begins behind a frame (`begin::descend`), and so do a block (`begin::begin_block`) and the body of a class or of
//! a module (`begin::begin_body`). A name is bound, unbound and deleted where the machine is (`names`), and a value's subscript is
//! paid for (`subscript::subscript`).
//!
//! # What is proved
//!
//! - `descend` goes on with the part, and behind it with the frame (`next`).
//! - `begin_body` runs the statements of a body under no local names and no temporaries, at its place, in the calls that are open; behind
//!   it those around it are there again (`next`).
//! - `bind`, `unbind`, `store`, `delete_name`: the state behind them is the meaning's, with the name bound or unbound where it stands: in the
//!   call, in the class whose body runs, or in the module.
//! - `subscript`: its step, its cost and its end are the meaning's (`next`), and it spends a step (`work`).
//!
//! # What tests alone show
//!
//! That calls end where there is memory, in `machine_tests` through the whole machine.
//!
//! # What neither shows
//!
//! Time and memory.
#![tactic(auto)]

pub use machine_items::changes;
pub use machine_names::names::{bound_value, look_up};
pub use machine_state::frame::{End, Frame, SimpleFrame, Spot, TargetFrame};
pub use machine_state::machine::{Machine, NextAction, Origin, TurnEnd};

pub mod begin;
pub mod names;
pub mod subscript;
