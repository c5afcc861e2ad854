//! The blocks of errors and failures.
//!
//! # What it is for
//!
//! [`sections`] writes the middle of the report: `ERRORS` and `FAILURES` with their blocks.
//!
//! # What is proved
//!
//! - `sections`: the bytes are `sections_of`, exactly. The errors of collection come first, then those of set-ups and
//!   teardowns in the order of the items, then the failures; a section stands only where it has a block, and with `--tb=no`
//!   there is none. A block has its title, the lines of its exceptions, and what was captured in the phases up to its own; with
//!   `--tb=line` it is a line for each exception.
//!
//! # What tests alone show
//!
//! The texts of blocks on worked reports, and that the call succeeds with ample memory.
//!
//! # What neither shows
//!
//! Time. Each report is gone through once for each of the two sections.
#![tactic(auto)]

mod block;
mod section;

pub use section::sections;
