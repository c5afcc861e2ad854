//! The objects that the runner gives the language.
//!
//! # What it is for
//!
//! Tests and hooks get values that no code of the sources has made: texts and lists of parameters, exceptions that are thrown into a
//! fixture, what asks for fixtures (`request`), test items, instances of a test's class (pytest, the built-in `request` fixture; the
//! hooks' `item`). `New` describes one, and `add` puts it on the heap.
//!
//! # What is proved
//!
//! - [`close_request`] and [`take_finalizer`], for every value: a request is closed, and its latest finalizer is given and removed; the heap
//!   changes in nothing else, and not at all for a value that is no request.
//! - [`add`]: the value and the heap behind it are those of the definition `given`; an instance is one of the class described, without
//!   names, and nothing else of the heap changes (`exact`, `instance`).
//!
//! # What tests alone show
//!
//! Nothing.
//!
//! # What neither shows
//!
//! Time and memory.
#![tactic(auto)]

mod new;
mod objects;
mod requests;

pub use new::New;
pub use objects::add;
pub use requests::{close_request, take_finalizer};
