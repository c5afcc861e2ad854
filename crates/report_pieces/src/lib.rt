//! The progress of one thread in the pieces in which it is written: one for each report, as its item ends.
//!
//! # What it is for
//!
//! `report_text` gives the progress of a whole run. Here it is what a user sees while tests run: a dot, the lines of `-v` or of `--setup-show`
//! when an item has ended, and behind the run the end of the last line.
//!
//! # What is proved
//!
//! - [`piece`] is `piece_of`, [`end`] is `pieces_end`: the bytes of a report's piece behind the reports before it, and what stands behind
//!   all of them.
//! - [`progress_is_its_pieces`], a law: the progress of a run is the pieces of its reports, one behind another, and that end (`whole`); and
//!   the pieces of the first reports are the front of those of all (`front`).
//!
//! # What tests alone show
//!
//! That the calls succeed with ample memory (`acceptance`).
//!
//! # What neither shows
//!
//! Time. The end of the progress is told by making the whole once more.
//!
//! The definition is `specs/Pieces.antt`.
#![tactic(auto)]

mod law;
mod making;

pub use law::progress_is_its_pieces;
pub use making::{end, piece};
