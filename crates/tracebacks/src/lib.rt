//! What a report tells of exceptions.
//!
//! # What it is for
//!
//! Collection and the phases of items end with exceptions, and files have faults. What a report tells of one is its text and the open
//! calls with their source lines, outermost first (pytest's "How to manage pytest's output", "Modifying Python traceback printing").
//!
//! # What is proved
//!
//! - [`exception_text`]: the class and the message of an exception; the message alone where a failed assert explains itself, the class
//!   alone where there is no message; of a message above 65,536 characters the first 65,533 and three dots (`exception_text`).
//! - [`frame_told`], [`told`]: each open call with its file, its line, its name and its source line, where the world has it
//!   (`frame_told`, `told`).
//! - [`limit_text`]: the text of the exception that an exhausted activity has raised.
//! - [`fault_told`]: a source's fault as an exception `SyntaxError` at its place, with the line of the source (`fault_told`).
//! - [`def_frame`]: the place of a function's `def`.
//!
//! # What tests alone show
//!
//! That the calls succeed with ample memory (`acceptance`).
//!
//! # What neither shows
//!
//! Time.
#![tactic(auto)]

pub use py_machine::{New, World, heap, make, take_printed};

mod faults;
mod frames;
mod messages;

pub use faults::{fault_text, fault_told};
pub use frames::{def_frame, frame_told, told};
pub use messages::{exception_text, limit_text};
