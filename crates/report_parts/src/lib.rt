//! What a report is made of: what is told of an item and of an exception, and the lines of an exception.
//!
//! # What it is for
//!
//! Sessions make an [`ItemReport`] of each item and a [`CollectReport`] of each file whose collection failed; the crates above
//! write the report of these. The layout is this project's own; what is shown follows pytest's "How to manage pytest's
//! output", and what a phase shows its "How to use skip and xfail".
//!
//! # What is proved
//!
//! Each `push_` call pushes, behind what the text holds already, exactly its piece, by an equation on the bytes:
//!
//! - `push_told` the frames and the text of an exception, each line of the text behind `E   `; `push_short_told` its one line;
//!   `push_first_line` the first line of a text; `push_at_frame` a place; `push_strict` and `push_strict_first` what a strict
//!   mark says. After an error a part of the piece may stand there.
//! - `Phase::outcome` is what the end of a phase shows, `Outcome::letter` and `Outcome::word` how; `Outcome::once` counts it.
//! - `is_raised`, `is_failed`, `any_error` and `any_failed` are true exactly where their definitions are.
//!
//! # What neither shows
//!
//! Time. Each text is gone through once.
#![tactic(auto)]

mod blanks;
mod exception;
mod outcome;
mod report;

pub use exception::{
    push_at_frame, push_first_line, push_short_told, push_strict, push_strict_first, push_told,
};
pub use outcome::{Outcome, Phase, any_error, any_failed, is_failed, is_raised};
pub use report::{
    CollectReport, Frame, Frames, ItemReport, Lines, MOST_ITEMS, PhaseEnd, Place, Text, Told, Tolds,
};
pub use seq::{OutOfMemory, PyText};
